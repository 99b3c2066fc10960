//! The laws of large arrays: each is the contract of a function that does nothing.
ghost use Rattle.geos_model.specs.LargeChangeLaws.{FewChangeLaw};
ghost use Rattle.geos_model.specs.LargeDocumentLaws.{LargeStaysLaw, LargeValidityLaw};
ghost use Rattle.geos_model.specs.LargeEditLaws.{LargeEditsLaw};
ghost use Rattle.geos_model.specs.LargePlaces.{LargePlacesLaw};
ghost use Rattle.large_arrays.specs.LocalLaws.{LocalLaw};
ghost use Rattle.large_arrays.specs.SpreadLaws.{SpreadLaw};

/// An edit of the pieces is the edit of the list, and leaves the pieces spread.
pub fn spread_law()
    ensures { SpreadLaw }
{}

/// An array is made without elements. An edit of an array that nothing refuses is the list's edit, leaves it as well
/// spread as it was, and leaves all else as it is.
pub fn large_edits_law()
    ensures { LargeEditsLaw }
{}

/// An insertion, a deletion, and an element that is set where sizes vary give three branches at most of those that stay
/// other bytes.
pub fn few_change_law()
    ensures { FewChangeLaw }
{}

/// Whatever the document, also where branches are damaged, an edit that nothing refuses leaves a valid one.
pub fn large_validity_law()
    ensures { LargeValidityLaw }
{}

/// Whatever the document, an edit that nothing refuses changes no block that there is but the root and branches that it
/// looks at.
pub fn large_stays_law()
    ensures { LargeStaysLaw }
{}

/// An edit that nothing refuses changes the document at the places that are told of it, each once, and nowhere else.
pub fn large_places_law()
    ensures { LargePlacesLaw }
{}

/// Branches that an edit doesn't look at play no part: in documents that are alike in what it looks at, the same
/// refuses it, and it replaces the same branches by the same.
pub fn local_law()
    ensures { LocalLaw }
{}

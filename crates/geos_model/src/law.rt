//! The laws of the definitions: each is the contract of a function that does nothing.
ghost use Rattle.geos_model.specs.Laws.{WordLaw, NumberLaw, ChunkLaw, ImageLaw, ArrayLaw, ElementArrayLaw, NameArrayLaw};
ghost use Rattle.geos_model.specs.EditLaws.{ChunkEditsLaw, ArrayEditsLaw, ElementEditsLaw, NameEditsLaw};
ghost use Rattle.geos_model.specs.ChainLaws.{ChainLaw, ChainEditsLaw};
ghost use Rattle.geos_model.specs.Undoing.{UndoLaw, RedoLaw};
ghost use Rattle.geos_model.specs.Depth.{DepthLaw};
ghost use Rattle.geos_model.specs.Steps.{StepsLaw};
ghost use Rattle.geos_model.specs.Standing.{StandingLaw};
ghost use Rattle.geos_model.specs.Touching.{TouchedLaw};
ghost use Rattle.geos_model.specs.Naming.{NamesLaw};
ghost use Rattle.geos_model.specs.Saving.{SaveLaw};
ghost use Rattle.geos_model.specs.Failing.{FailingLaw};
ghost use Rattle.geos_model.specs.Validity.{ValidityLaw};

/// Two bytes are the word of one number.
pub fn word_law()
    ensures { WordLaw }
{}

/// Any bytes are those of one number.
pub fn number_law()
    ensures { NumberLaw }
{}

/// How long a chunk can be.
pub fn chunk_law()
    ensures { ChunkLaw }
{}

/// An image is the image of one body, and how long it can be.
pub fn image_law()
    ensures { ImageLaw }
{}

/// What is read as a chunk array is the bytes of that one, and one with fewer than 65,536 bytes is read back from them.
pub fn array_law()
    ensures { ArrayLaw }
{}

/// What is read as an element array is the bytes of that one, and one with fewer than 65,536 bytes is read back from
/// them.
pub fn element_array_law()
    ensures { ElementArrayLaw }
{}

/// What is read as a name array is the bytes of that one, and one with fewer than 65,536 bytes is read back from them.
pub fn name_array_law()
    ensures { NameArrayLaw }
{}

/// Bytes that an accepted edit puts in a chunk of a valid document stand there, and are as the laws of array edits ask.
pub fn chunk_edits_law()
    ensures { ChunkEditsLaw }
{}

/// An accepted edit of a chunk array leaves a chunk array, of the elements that it means.
pub fn array_edits_law()
    ensures { ArrayEditsLaw }
{}

/// An accepted edit of an element array leaves one, with what the edit means under its token and the elements of other
/// tokens as they were.
pub fn element_edits_law()
    ensures { ElementEditsLaw }
{}

/// An accepted edit of a name array leaves one, with what the edit means under its token, the names of other tokens as
/// they were, and distinct names distinct.
pub fn name_edits_law()
    ensures { NameEditsLaw }
{}

/// Where no group is open at the start, after the edits and after the undos, and no limit forgets steps, undoing as
/// many steps as the edits made gives back the document and the past. A step is an accepted edit outside of a group, or
/// a group that ends with edits, and none is made among the undos. With no step and no undo this says what an abandoned
/// group leaves: the document when it began.
pub fn undo_law()
    ensures { UndoLaw }
{}

/// Where no group is open, redoing as many steps as were undone gives back the document and the past from before the
/// undos. Empty groups may stand between.
pub fn redo_law()
    ensures { RedoLaw }
{}

/// Edits, undos, redos, joins and forgetting as they come: where no group is open before and behind, never more steps
/// were undone than were made so far, and as many in the end, the document is that of the start, and of its past the
/// newest steps are left, all of them where nothing was forgotten. A join makes one step less; it must join steps that
/// were made since the start, and none of these may be forgotten.
pub fn depth_law()
    ensures { DepthLaw }
{}

/// Where the machine says that its document is as it was saved, or as it was updated, it is; and it says so right after
/// the commit, after an undo past it and back, and after opening a file that has one directory for both documents.
pub fn standing_law()
    ensures { StandingLaw }
{}

/// A join and forgetting change only what can be undone, by a limit no step is made that goes beyond it, and nothing
/// but the call that sets the limit changes it.
pub fn steps_law()
    ensures { StepsLaw }
{}

/// Whoever keeps a copy of the document, and after each accepted edit, undo, redo, abandon and revert looks again at
/// the places that are told and at nothing else, has the document. Any other call leaves it, and leaves what is told,
/// which is not to be looked at twice. What an undo, a redo or an abandon tells can be asked before.
pub fn touched_law()
    ensures { TouchedLaw }
{}

/// A name changes neither the document nor the steps. It goes with its step: an undo and a redo take it along, and of
/// two steps that are joined the newer one's stays, or the older one's where that has none. A new step has no name.
pub fn names_law()
    ensures { NamesLaw }
{}

/// A save keeps the document, and a revert gives back what was saved last.
pub fn save_law()
    ensures { SaveLaw }
{}

/// A refused request changes nothing, and a file fault is answered only where the store failed. Where no block is
/// locked, no group is open and there is something to take back, an undo is refused only for lack of memory or since
/// the store failed in that call; so is a redo where there is something to make again. An abandon where a group is open
/// and no block is locked is refused for nothing else either.
pub fn failing_law()
    ensures { FailingLaw }
{}

/// What the machine does to a valid document leaves a valid one. Locked blocks stay live, and there are never more of
/// them than frames. While a group is open, the document is the one when it began, or the group has edits and there is
/// nothing to redo.
pub fn validity_law()
    ensures { ValidityLaw }
{}

/// The blocks of a chain are those that following its links comes to, each once; new handles are free and rise, and a
/// body's links can be renamed.
pub fn chain_law()
    ensures { ChainLaw }
{}

/// An accepted copy of a chain is one of the same shape under new handles, and an accepted freeing takes its blocks out
/// and nothing else.
pub fn chain_edits_law()
    ensures { ChainEditsLaw }
{}

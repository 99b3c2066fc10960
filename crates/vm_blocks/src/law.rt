//! The laws of changes.
ghost use Rattle.vm_blocks.specs.Changes.{ChangeLaw, ReverseLaw};
ghost use Rattle.vm_blocks.specs.Preparing.{HalvesLaw, ByHandleLaw};

/// A change leaves a valid document, and the same change the other way round takes it back.
pub fn change_law()
    ensures back { ChangeLaw }
    ensures flip { ReverseLaw }
{}

/// What lets a change be made has two halves, one of which is known by handles alone; that half stays known, for a run
/// of changes too, in a document with the same handles.
pub fn by_handle_law()
    ensures halves { HalvesLaw }
    ensures stays { ByHandleLaw }
{}

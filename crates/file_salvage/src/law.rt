//! What a salvage takes.
ghost use Rattle.file_salvage.specs.Laws.{SalvageLaw};

/// A salvage takes blocks that the file has: whole ones and, where all are asked for, these and such with a wrong sum.
/// One that could be taken is left out only where it can't stand beside one that is taken.
pub fn salvage_law()
    ensures { SalvageLaw }
{}

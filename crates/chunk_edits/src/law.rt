//! What a splice or a patch does is taken back by the same one backwards.
ghost use Rattle.chunk_edits.specs.Patching.{PatchLaw};
ghost use Rattle.chunk_edits.specs.Splicing.{SpliceLaw};

/// What a splice does is taken back by the same splice backwards.
pub fn splice_law()
    ensures { SpliceLaw }
{}

/// What a patch does is taken back by the same patch backwards.
pub fn patch_law()
    ensures { PatchLaw }
{}

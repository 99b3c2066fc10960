//! The laws of document files.
ghost use Rattle.file_format.specs.Damage.{DamageLaw};
ghost use Rattle.file_format.specs.FileLaws.{FileLaw};

/// The texts of slots and directories are read back, and what a file stands for rests on the bytes of its extents
/// alone.
pub fn file_law()
    ensures { FileLaw }
{}

/// Where up to 32 bits in a row of a file of version 3 are others, wherever they lie, what opens is what was saved: the
/// documents of the slot that counted, or those of the other one.
pub fn damage_law()
    ensures { DamageLaw }
{}

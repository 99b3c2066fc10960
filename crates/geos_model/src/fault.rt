//! Why a call is refused: each fault with its number and its name.
ghost use Rattle.std.specs.Prelude.{◌≡◌};
ghost use Rattle.geos_model.specs.Refusal.{number_of_fault, name_of_fault};

use std::alloc::{AllocError, AllocFailed};

/// Why a call was refused.
#[derive(Clone, Copy, Debug, PartialEq, Eq)]
pub enum Fault {
    /// A growth was refused in this call.
    Memory,
    /// The store, or the target of a save-as, failed in this call.
    File,
    /// A slot, a directory or an image of the file is wrong.
    Damaged,
    /// The file has no open slot of a known version.
    NotDocument,
    /// A block operand is not live.
    NoBlock,
    /// The chunk handle is not live.
    NoChunk,
    /// A heap where a raw block is wanted, or the reverse.
    WrongKind,
    /// The heap would need more than 65,520 bytes.
    Full,
    /// A raw body would have more than 65,520 bytes, or the name of a step more than 64.
    TooBig,
    /// There are fewer free block handles than the command needs.
    NoHandles,
    /// A place, length or size is outside its bounds.
    Range,
    /// The chunk is not an array of the wanted kind.
    NotArray,
    /// There is no such element, or the token is not used.
    NoElement,
    /// A reference count is at its greatest.
    CountFull,
    /// No element has this name.
    NoName,
    /// Another element has the name.
    NameInUse,
    /// The chain of blocks is broken past its root.
    BadChain,
    /// The map block would be freed.
    IsMap,
    /// A block is locked.
    Locked,
    /// The block has no lock.
    NotLocked,
    /// Every frame has a locked block.
    CacheFull,
    /// The undo list is empty.
    NothingToUndo,
    /// The redo list is empty.
    NothingToRedo,
    /// There is no target for a save-as, or it is used up.
    NoTarget,
    /// The line is not a command.
    BadCommand,
    /// The block is locked 255 times.
    LockLimit,
    /// The file's sequence number is at its last value.
    Worn,
    /// A group is open.
    GroupOpen,
    /// No group is open.
    NoGroup,
}

impl Fault {
    /// The number that a reply prints.
    pub fn number(self) -> u8
        ensures { result ≡ number_of_fault self }
    {
        match self {
            Fault::Memory => 1,
            Fault::File => 2,
            Fault::Damaged => 3,
            Fault::NotDocument => 4,
            Fault::NoBlock => 5,
            Fault::NoChunk => 6,
            Fault::WrongKind => 7,
            Fault::Full => 8,
            Fault::TooBig => 9,
            Fault::NoHandles => 10,
            Fault::Range => 11,
            Fault::NotArray => 12,
            Fault::NoElement => 13,
            Fault::CountFull => 14,
            Fault::NoName => 15,
            Fault::NameInUse => 16,
            Fault::BadChain => 17,
            Fault::IsMap => 18,
            Fault::Locked => 19,
            Fault::NotLocked => 20,
            Fault::CacheFull => 21,
            Fault::NothingToUndo => 22,
            Fault::NothingToRedo => 23,
            Fault::NoTarget => 24,
            Fault::BadCommand => 25,
            Fault::LockLimit => 26,
            Fault::Worn => 27,
            Fault::GroupOpen => 28,
            Fault::NoGroup => 29,
        }
    }

    /// The name that a reply prints.
    pub fn name(self) -> &'static str
        ensures { result.now ≡ name_of_fault self }
    {
        match self {
            Fault::Memory => "Memory",
            Fault::File => "File",
            Fault::Damaged => "Damaged",
            Fault::NotDocument => "NotDocument",
            Fault::NoBlock => "NoBlock",
            Fault::NoChunk => "NoChunk",
            Fault::WrongKind => "WrongKind",
            Fault::Full => "Full",
            Fault::TooBig => "TooBig",
            Fault::NoHandles => "NoHandles",
            Fault::Range => "Range",
            Fault::NotArray => "NotArray",
            Fault::NoElement => "NoElement",
            Fault::CountFull => "CountFull",
            Fault::NoName => "NoName",
            Fault::NameInUse => "NameInUse",
            Fault::BadChain => "BadChain",
            Fault::IsMap => "IsMap",
            Fault::Locked => "Locked",
            Fault::NotLocked => "NotLocked",
            Fault::CacheFull => "CacheFull",
            Fault::NothingToUndo => "NothingToUndo",
            Fault::NothingToRedo => "NothingToRedo",
            Fault::NoTarget => "NoTarget",
            Fault::BadCommand => "BadCommand",
            Fault::LockLimit => "LockLimit",
            Fault::Worn => "Worn",
            Fault::GroupOpen => "GroupOpen",
            Fault::NoGroup => "NoGroup",
        }
    }
}

impl From<AllocError> for Fault {
    ghost use Rattle.std.specs.Prelude.{◌≡◌};
    ghost use Rattle.geos_model.specs.declared.fault.Fault.TheVariants.{Memory};

    ghost from_gives = { λ _ e. e ≡ Memory };

    fn from(_error: AllocError) -> Fault {
        Fault::Memory
    }
}

impl<T: Drop> From<AllocFailed<T>> for Fault {
    ghost use Rattle.std.specs.Prelude.{◌≡◌};
    ghost use Rattle.geos_model.specs.declared.fault.Fault.TheVariants.{Memory};

    ghost from_gives = { λ _ e. e ≡ Memory };

    fn from(_error: AllocFailed<T>) -> Fault {
        Fault::Memory
    }
}

//! The codes by which calls from C are answered, and the names of those that are faults.
ghost use Rattle.std.specs.Prelude.{◌≡◌, ◌⊎◌, ◌≤◌, ◌≤ℤ◌, pos, IfSome, None, is_some, true};
ghost use Rattle.geos_model.specs.Refusal.{number_of_fault, name_of_fault};
ghost use Rattle.c_sessions.specs.Codes.{HandsOut, IsNamed, code_of as code_told};

use crate::files::ProgramFiles;
use geos_model::Fault;

/// The handle has no session.
pub const NOT_OPEN: i32 = 100;

/// The handle has a session already.
pub const OPEN_ALREADY: i32 = 101;

/// A number is out of its bounds, or the session's own.
pub const BAD_ARGUMENT: i32 = 102;

/// The buffer took a part.
pub const CUT_OFF: i32 = 103;

/// There was no memory for the line or for the text of its reply.
pub const UNTOLD: i32 = 104;

/// 0, or the number of the fault.
pub fn code_of(answer: Result<(), Fault>) -> i32
    ensures { result ≡ code_told answer }
{
    match answer {
        Ok(()) => 0,
        Err(fault) => i32::from(fault.number()),
    }
}

/// The fault that has this number.
fn fault_of(code: i32) -> Option<Fault>
    ensures some { IfSome result (λ fault. code ≡ pos (number_of_fault fault)) }
    ensures none { result ≡ None → (code ≤ℤ pos 0) ⊎ (pos 30 ≤ℤ code) }
{
    match code {
        1 => Some(Fault::Memory),
        2 => Some(Fault::File),
        3 => Some(Fault::Damaged),
        4 => Some(Fault::NotDocument),
        5 => Some(Fault::NoBlock),
        6 => Some(Fault::NoChunk),
        7 => Some(Fault::WrongKind),
        8 => Some(Fault::Full),
        9 => Some(Fault::TooBig),
        10 => Some(Fault::NoHandles),
        11 => Some(Fault::Range),
        12 => Some(Fault::NotArray),
        13 => Some(Fault::NoElement),
        14 => Some(Fault::CountFull),
        15 => Some(Fault::NoName),
        16 => Some(Fault::NameInUse),
        17 => Some(Fault::BadChain),
        18 => Some(Fault::IsMap),
        19 => Some(Fault::Locked),
        20 => Some(Fault::NotLocked),
        21 => Some(Fault::CacheFull),
        22 => Some(Fault::NothingToUndo),
        23 => Some(Fault::NothingToRedo),
        24 => Some(Fault::NoTarget),
        25 => Some(Fault::BadCommand),
        26 => Some(Fault::LockLimit),
        27 => Some(Fault::Worn),
        28 => Some(Fault::GroupOpen),
        29 => Some(Fault::NoGroup),
        _ => None,
    }
}

/// Puts as many of the bytes as fit into the buffer, and how many there are into the length.
pub fn hand_out(bytes: &[u8], buffer: &mut [u8], length: &mut usize) -> i32
    ensures { HandsOut bytes.now buffer.old buffer.new length.new result }
{
    let most = bytes.len().min(buffer.len());
    buffer[..most].copy_from_slice(&bytes[..most]);
    *length = bytes.len();
    if most == bytes.len() { 0 } else { CUT_OFF }
}

/// Hands out the name of the fault that has this number.
pub fn fault_name<F: ProgramFiles>(
    files: &mut F,
    code: i32,
    name: &mut [u8],
    length: &mut usize,
) -> i32
    ensures named { IsNamed code name.old name.new length.new result }
    ensures calls_nothing { files.new ≡ files.old }
{
    match fault_of(code) {
        Some(fault) => hand_out(fault.name().as_bytes(), name, length),
        None => {
            *length = 0;
            BAD_ARGUMENT
        }
    }
}

//! Messages to the program, by which it is asked for the calls on its file.
ghost use Rattle.std.specs.Prelude.{◌≡◌};
ghost use Rattle.geos_c.specs.Messages.{operation_code, message_text};

use byteorder::{ByteOrder, LittleEndian};

/// How many bytes a message has.
pub(crate) const MESSAGE_LENGTH: usize = 24;

/// What a message asks for.
#[derive(Clone, Copy)]
pub(crate) enum Operation {
    /// To give bytes, which are read next.
    Read,
    /// Whether the last read ended where the file does.
    ReadEnd,
    /// To take bytes, which are written next.
    Write,
    /// To give the file's length, which is read next, in eight bytes.
    Len,
    /// To cut or to lengthen the file.
    SetLen,
    /// To sync the file.
    Sync,
    /// Whether a session may begin on the file, which is told by what number the session has so far.
    Begin,
}

impl Operation {
    fn code(self) -> u8
        ensures { result ≡ operation_code self }
    {
        match self {
            Operation::Read => 1,
            Operation::ReadEnd => 2,
            Operation::Write => 3,
            Operation::Len => 4,
            Operation::SetLen => 5,
            Operation::Sync => 6,
            Operation::Begin => 7,
        }
    }
}

/// A message on so many bytes from an offset on.
pub(crate) fn message(operation: Operation, at: u64, size: u64) -> [u8; MESSAGE_LENGTH]
    ensures { result ≡ message_text operation at size }
{
    let mut text = [0; MESSAGE_LENGTH];
    text[0] = operation.code();
    LittleEndian::write_u64(&mut text[8..], at);
    LittleEndian::write_u64(&mut text[16..], size);
    text
}

//! What a command answers.
ghost use Rattle.std.specs.Prelude.{◌≡◌};

use crate::{ChunkHandle, Done, Info, Place, Token, VmHandle};

/// What an accepted command answers. Bytes and lists are lent, so that a reply owns nothing.
#[derive(Clone, Copy)]
pub enum Reply<'a> {
    Accepted,
    Block(VmHandle),
    Chunk(ChunkHandle),
    Token(Token),
    Number(u64),
    Bytes(&'a [u8]),
    Blocks(&'a [VmHandle]),
    Chunks(&'a [ChunkHandle]),
    Places(&'a [Place]),
    Info(Info),
    /// Whether two chains are the same.
    Equal(bool),
}

impl<'a> From<Done> for Reply<'a> {
    ghost use Rattle.std.specs.Prelude.{◌≡◌};
    ghost use Rattle.geos_model.specs.Reply.{reply_of, reply_of_done};

    ghost from_gives = { λ done reply. reply_of reply ≡ reply_of_done done };

    fn from(done: Done) -> Reply<'a> {
        match done {
            Done::Nothing => Reply::Accepted,
            Done::Block(block) => Reply::Block(block),
            Done::Chunk(chunk) => Reply::Chunk(chunk),
            Done::Token(token) => Reply::Token(token),
        }
    }
}

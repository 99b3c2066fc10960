//! Loans of the bytes of locked blocks.
ghost use Rattle.std.specs.Prelude.{◌≡◌, false};
ghost use Rattle.std.specs.Ptr.{null_ptr};
ghost use Rattle.geos_model.specs.declared.command.Command.TheVariants as commands;
ghost use Rattle.geos_c.specs.Calls.{chunk_handle, vm};
ghost use Rattle.geos_c.specs.Handles.{OnHandle};
ghost use Rattle.geos_c.specs.Lending.{Lends, LendsRun};
ghost use Rattle.geos_c.specs.Stores.{facts};

use crate::handle::{Handle, put, take};
use crate::lending::{lend_chunk, lend_raw, lend_run, nowhere};
use c_sessions::NOT_OPEN;
use std::alloc::Global;

/// Lends the bytes of a chunk of a locked block. `bytes` becomes their address and `length` how many there are; where
/// they are refused, null and 0.
#[unsafe(no_mangle)]
pub extern "C" fn geosvm_locked_chunk(
    handle: &mut Handle,
    alloc: Global,
    block: u16,
    chunk: u16,
    bytes: &mut *const u8,
    length: &mut usize,
) -> i32
    ensures told { OnHandle (Lends (commands.Read (vm block) (chunk_handle chunk)) block bytes.new length.new)
        handle.old handle.new result }
    ensures none { handle.old.is_open ≡ false → (bytes.new ≡ null_ptr) × (length.new ≡ 0) }
{
    *bytes = nowhere();
    *length = 0;
    answer!(
        handle,
        alloc,
        |session| lend_chunk(session, block, chunk, bytes, length)
    )
}

/// Lends the bytes of a raw block that is locked.
#[unsafe(no_mangle)]
pub extern "C" fn geosvm_locked_raw(
    handle: &mut Handle,
    alloc: Global,
    block: u16,
    bytes: &mut *const u8,
    length: &mut usize,
) -> i32
    ensures told { OnHandle (Lends (commands.ReadRaw (vm block)) block bytes.new length.new)
        handle.old handle.new result }
    ensures none { handle.old.is_open ≡ false → (bytes.new ≡ null_ptr) × (length.new ≡ 0) }
{
    *bytes = nowhere();
    *length = 0;
    answer!(
        handle,
        alloc,
        |session| lend_raw(session, block, bytes, length)
    )
}

/// Locks the block that has element `i` of a large array, whose elements have one size, and lends its elements from
/// there to the last one in that block, as geosvm_locked_raw lends bytes; geosvm_unlock of `block` gives it back. Where
/// it is refused nothing is locked, and `block`, `bytes` and `length` become 0, null and 0.
#[unsafe(no_mangle)]
pub extern "C" fn geosvm_lock_run(
    handle: &mut Handle,
    alloc: Global,
    root: u16,
    i: u32,
    block: &mut u16,
    bytes: &mut *const u8,
    length: &mut usize,
) -> i32
    ensures told { OnHandle (LendsRun facts root i block.new bytes.new length.new) handle.old handle.new result }
    ensures none { handle.old.is_open ≡ false → (block.new ≡ 0) × (bytes.new ≡ null_ptr) × (length.new ≡ 0) }
{
    *block = 0;
    *bytes = nowhere();
    *length = 0;
    answer!(
        handle,
        alloc,
        |session| lend_run(session, root, i, block, bytes, length)
    )
}

//! Reading a directory where a slot says that it lies.
ghost use Rattle.std.specs.Prelude.{◌≡◌, ◌↔◌, IsTrue, IfOk, IfErr, IsErrOf, Some, None, length, true};
ghost use Rattle.file_format.specs.File.{is_directory, summed_directory};
ghost use Rattle.vm_store.specs.Facts.{FailedSince};
ghost use Rattle.file_format.specs.Listed.{as_directory};
ghost use Rattle.file_format.specs.Reading.{IsDirectoryPlace, IsFormedRead, IsDirectoryRead, IsReadRefusal, IsResourceFault, OnlyReadsStore};

use crate::directory::{Directory, HEADER_LENGTH, LONGEST_DIRECTORY, read_dir};
use crate::file::Extent;
use crate::pages::is_in_file;
use crate::reading::read_extent;
use crate::sum::has_sum;
use geos_model::Fault;
use std::alloc::Global;
use vm_store::Store;

/// What is read where a directory should lie.
#[derive(Drop)]
pub enum ReadDirectory {
    /// None can lie in the extent.
    Misplaced,
    /// Its bytes are no directory, or haven't the sum that was asked for.
    Wrong(Vec<u8>),
    Right(Directory),
}

// Whether a directory can lie there, in a file of this version and of so many bytes.
fn can_have_directory(extent: Extent, version: u8, file_length: u64) -> bool
    ensures { IsTrue result ↔ IsDirectoryPlace version file_length extent }
{
    extent.length as usize >= HEADER_LENGTH
        && extent.length as usize <= LONGEST_DIRECTORY
        && is_in_file(extent, file_length, version)
}

/// Reads what lies in the extent of a directory, in a file of this version and of so many bytes, and whether it has
/// this sum. Memory, File.
pub fn look_for_directory<S: Store>(
    alloc: Global,
    store: &mut S,
    version: u8,
    file_length: u64,
    extent: Extent,
    sum: Option<u32>,
) -> Result<ReadDirectory, Fault>
    // Asked of the caller.
    requires { IsTrue (S.facts store.old).honest → file_length ≡ length (S.facts store.old).content }
    // The store.
    ensures looks { OnlyReadsStore (S.facts store.old) (S.facts store.new) }
    // What is read.
    ensures formed { IfOk result (IsFormedRead version file_length extent) }
    ensures read { IfOk result (λ read. IsTrue (S.facts store.old).honest
        → IsDirectoryRead version sum extent read (S.facts store.old).content) }
    // Refusals.
    ensures file { IsErrOf result Fault.File → FailedSince (S.facts store.old) (S.facts store.new) }
    ensures refusals { IfErr result IsResourceFault }
{
    if !can_have_directory(extent, version, file_length) {
        return Ok(ReadDirectory::Misplaced);
    }
    let bytes = read_extent(alloc, store, extent)?;
    if !has_sum(sum, &bytes) {
        return Ok(ReadDirectory::Wrong(bytes));
    }
    match read_dir(alloc, &bytes, file_length, version) {
        Ok(directory) => Ok(ReadDirectory::Right(directory)),
        Err(Fault::Damaged) => Ok(ReadDirectory::Wrong(bytes)),
        Err(_) => Err(Fault::Memory),
    }
}

/// Reads a directory, in a file of this version and of so many bytes. Damaged, Memory, File.
pub fn read_directory<S: Store>(
    alloc: Global,
    store: &mut S,
    version: u8,
    file_length: u64,
    extent: Extent,
    sum: Option<u32>,
) -> Result<Directory, Fault>
    // Asked of the caller.
    requires { IsTrue (S.facts store.old).honest → file_length ≡ length (S.facts store.old).content }
    // The store.
    ensures looks { OnlyReadsStore (S.facts store.old) (S.facts store.new) }
    // The directory.
    ensures formed { IfOk result (λ d. is_directory version file_length (as_directory d) ≡ true) }
    ensures place { IfOk result (λ d. IsDirectoryPlace version file_length extent) }
    ensures read { IfOk result (λ d. IsTrue (S.facts store.old).honest
        → summed_directory version (S.facts store.old).content sum extent ≡ Some (as_directory d)) }
    // Refusals.
    ensures damaged { IsErrOf result Fault.Damaged → IsTrue (S.facts store.old).honest
        → summed_directory version (S.facts store.old).content sum extent ≡ None }
    ensures file { IsErrOf result Fault.File → FailedSince (S.facts store.old) (S.facts store.new) }
    ensures refusals { IfErr result IsReadRefusal }
{
    match look_for_directory(alloc, store, version, file_length, extent, sum)? {
        ReadDirectory::Right(directory) => Ok(directory),
        ReadDirectory::Misplaced | ReadDirectory::Wrong(_) => Err(Fault::Damaged),
    }
}

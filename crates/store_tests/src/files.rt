//! Real files, in the folder where the tests run.
use crate::calls::{Call, PLAY, refuse, serve, touch_the_end};
use host_store::{HostFile, HostStore, HostSystem};
use std::fs;
use std::test::Fail;
use vm_store::StoreFault;

// Whether a file has these bytes.
fn is_held(rt: &HostRuntime, path: &str, bytes: &[u8]) -> Result<bool, Fail> {
    Ok(fs::read(rt, path)?.as_slice() == bytes)
}

fn open(
    system: &mut HostSystem,
    path: &str,
    make: bool,
) -> Result<HostStore<HostFile>, StoreFault> {
    HostStore::open(system, path, make)
}

fn is_open(system: &mut HostSystem, path: &str, make: bool) -> bool {
    open(system, path, make).is_ok()
}

// Opens a file and makes calls of it.
fn serve_at(
    system: &mut HostSystem,
    path: &str,
    make: bool,
    calls: &[Call<'_>],
) -> Result<(), Fail> {
    serve(&mut open(system, path, make)?, calls)?;
    Ok(())
}

#[test]
fn a_file_serves_each_call(rt: HostRuntime) -> Result<(), Fail> {
    let mut system = HostSystem::new(rt);
    let path = "store_tests_served";
    let _ = fs::remove_file(&rt, path);
    let mut file = open(&mut system, path, true)?;
    serve(&mut file, &[Call::Len(0)])?;
    serve(&mut file, &PLAY)?;
    assert!(rt; is_held(&rt, path, &[0, 4, 0, 0, 1, 2, 3])?);
    touch_the_end(&mut file)?;
    assert!(rt; is_held(&rt, path, &[0, 4, 0, 0, 1, 2, 3, 0, 0])?);
    fs::remove_file(&rt, path)?;
    Ok(())
}

const FOLDER: &str = "store_tests_folder";

const IN_FOLDER: &str = "store_tests_folder/file";

#[test]
fn a_missing_file_is_made_on_demand(rt: HostRuntime) -> Result<(), Fail> {
    let mut system = HostSystem::new(rt);
    let _ = fs::remove_dir_all(&rt, FOLDER);
    assert!(rt; !is_open(&mut system, IN_FOLDER, true));
    fs::create_dir(&rt, FOLDER)?;
    assert!(rt; !is_open(&mut system, IN_FOLDER, false));
    make_and_keep(&mut system)?;
    assert!(rt; !is_open(&mut system, FOLDER, false));
    fs::remove_dir_all(&rt, FOLDER)?;
    Ok(())
}

// Makes the file. What is there stays.
fn make_and_keep(system: &mut HostSystem) -> Result<(), Fail> {
    serve_at(system, IN_FOLDER, true, &[Call::Write(1, &[7])])?;
    serve_at(system, IN_FOLDER, false, &[Call::Len(2)])?;
    serve_at(system, IN_FOLDER, true, &[Call::Len(2)])
}

const REFUSED: &[Call<'static>] = &[Call::Write(0, &[1]), Call::Sync, Call::SetLen(0)];

// A device that is always full, and can't be synced.
#[test]
fn a_file_that_fails_goes_on_failing(rt: HostRuntime) -> Result<(), Fail> {
    let mut system = HostSystem::new(rt);
    let mut full = open(&mut system, "/dev/full", false)?;
    for _ in 0..3 {
        refuse(&mut full, REFUSED)?;
    }
    serve(&mut full, &[Call::Read(0, &[])])?;
    Ok(())
}

const SYNC: &[Call<'static>] = &[Call::Sync];

#[test]
fn a_file_that_is_dropped_is_closed(rt: HostRuntime) -> Result<(), Fail> {
    let mut system = HostSystem::new(rt);
    let path = "store_tests_closed";
    let before = open_files(&rt)?;
    for _ in 0..100 {
        serve_at(&mut system, path, true, SYNC)?;
    }
    assert_eq!(rt; open_files(&rt)?, before);
    fs::remove_file(&rt, path)?;
    Ok(())
}

// How many files this process holds open.
fn open_files(rt: &HostRuntime) -> Result<usize, Fail> {
    Ok(fs::read_dir(rt, "/proc/self/fd")?.count())
}

const LOCKED: &str = "store_tests_locked";

const LINKED: &str = "store_tests_linked";

#[test]
fn a_file_in_use_is_refused(rt: HostRuntime) -> Result<(), Fail> {
    let mut system = HostSystem::new(rt);
    let _ = fs::remove_file(&rt, LOCKED);
    let _ = fs::remove_file(&rt, LINKED);
    let mut first = open(&mut system, LOCKED, true)?;
    serve(&mut first, &[Call::Write(0, &[1, 2, 3])])?;
    fs::hard_link(&rt, LOCKED, LINKED)?;
    assert!(rt; is_in_use(&mut system));
    // What is there stays, and the first goes on.
    assert!(rt; is_held(&rt, LOCKED, &[1, 2, 3])?);
    serve(&mut first, &[Call::Write(3, &[4])])?;
    drop(first);
    open_again(&mut system)?;
    fs::remove_file(&rt, LOCKED)?;
    fs::remove_file(&rt, LINKED)?;
    Ok(())
}

// Whether no name of the file opens it.
fn is_in_use(system: &mut HostSystem) -> bool {
    for name in [LOCKED, "./store_tests_locked", LINKED] {
        if is_open(system, name, false) || is_open(system, name, true) {
            return false;
        }
    }
    true
}

fn open_again(system: &mut HostSystem) -> Result<(), Fail> {
    let mut second = open(system, LINKED, true)?;
    serve(&mut second, &[Call::Len(4)])?;
    if is_open(system, LOCKED, false) {
        return Err(Fail::new("a locked file opens"));
    }
    Ok(())
}

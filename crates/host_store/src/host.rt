//! A store on a file of a system.
ghost use Rattle.std.specs.Prelude.{◌≡◌, ◌⊎◌, ◌↔◌, ◌+◌, ◌<◌, ◌≤◌, ◌^◌, ℕ, List, [], true, IsTrue, IsErr, length, Ok, OnOk, OnErr, IfOk, false};
ghost use Rattle.vm_store.specs.Facts.{Counts, last_count, IsDurable, IsUnchanged, Writes, Elapses, Holds, WritesBytes, Sizes};
ghost use Rattle.host_store.specs.System.{CountsFailure, HasFailed, GivesUpOn, Idles, IsNotNamed, IsNotOpenedOrLocked, IsOpenedAndLocked, Retries, Reads, WritesFirst, SyncsName, WritesTo};
ghost use Rattle.host_store.specs.Host.{IsOutOfCalls, IsBeyond, FailsOnlyIf, host_facts};

use crate::{System, SystemFault, SystemFile};
use std::marker::Model;
use vm_store::{Store, StoreFault};

/// No file is longer, in bytes: offsets of a system are signed.
const MAX_LEN: u64 = (1 << 63) - 1;

/// How many calls of the system a call makes at most.
const TRIES: u64 = u64::MAX;

/// A file of a system, locked against every other open of it.
///
/// What the system cuts short is carried on, and what is interrupted is tried again. After a sync that failed every
/// further one fails, until the file is opened again: the system may have given up bytes that it could not write, and
/// tells so only once.
#[derive(Drop)]
pub struct HostStore<F: SystemFile> {
    file: F,
    has_failed_sync: bool,
    failures: u64,
}

impl<F: SystemFile> Model for HostStore<F> {
    ghost use Rattle.std.specs.Prelude.{◌≡◌, true, IsTrue};
    ghost use Rattle.host_store.specs.Host.{Host};

    ghost Value = { Host F };

    ghost view = { λ h. record { file = h.file; has_failed_sync = h.has_failed_sync; failures = h.failures } };

    ghost invariant = { λ h. IsTrue (F.facts h.file).store.honest → (F.facts h.file).has_failed_sync ≡ true
        → h.has_failed_sync ≡ true };
}

// Opens the file at a path.
fn open_file<F: SystemFile, S: System<F>>(
    system: &mut S,
    path: &str,
    make: bool,
) -> Result<S::Handle, StoreFault>
    ensures ok { IfOk result
        (λ handle. Retries (λ s. S.calls.opens s path.now make) system.old (Ok handle) system.new) }
    ensures err { OnErr result (GivesUpOn (λ s. S.calls.opens s path.now make) system.old system.new) }
{
    for tried in 0..TRIES {
        match system.open(path, make) {
            Ok(handle) => return Ok(handle),
            Err(SystemFault::Interrupted) => {}
            Err(SystemFault::Failed) => return Err(StoreFault),
        }
    }
    Err(StoreFault)
}

// Syncs the names in the folder in which a path lies.
fn sync_folder<F: SystemFile, S: System<F>>(system: &mut S, path: &str) -> Result<(), StoreFault>
    ensures ok { OnOk result (Retries (λ s. S.calls.syncs_folder s path.now) system.old (Ok tt) system.new) }
    ensures err { OnErr result (GivesUpOn (λ s. S.calls.syncs_folder s path.now) system.old system.new) }
{
    for tried in 0..TRIES {
        match system.sync_folder(path) {
            Ok(()) => return Ok(()),
            Err(SystemFault::Interrupted) => {}
            Err(SystemFault::Failed) => return Err(StoreFault),
        }
    }
    Err(StoreFault)
}

// Opens the file at a path, and makes its name last where the file may have been made.
fn open_named<F: SystemFile, S: System<F>>(
    system: &mut S,
    path: &str,
    make: bool,
) -> Result<S::Handle, StoreFault>
    ensures ok { IfOk result (λ handle. (opened : S) × Retries (λ s. S.calls.opens s path.now make) system.old
        (Ok handle) opened × SyncsName S.calls path.now make opened system.new) }
    ensures err { OnErr result (IsNotNamed S.calls path.now make system.old system.new) }
{
    let handle = open_file(system, path, make)?;
    if make {
        sync_folder(system, path)?;
    }
    Ok(handle)
}

impl<F: SystemFile> HostStore<F> {
    /// The file at a path, to be read and written, of which no call has failed yet. A missing one is made, empty, where
    /// `make` is true; then the folder is synced too, so that no crash loses the file's name. It fails where the file
    /// or the folder can't be opened, and where another open of the file holds its lock; it may have made the file even
    /// so. In a file that is there nothing is read, cut or written.
    pub fn open<S: System<F>>(
        system: &mut S,
        path: &str,
        make: bool,
    ) -> Result<HostStore<F>, StoreFault>
        ensures ready { IfOk result
            (λ store. IsOpenedAndLocked S.calls path.now make system.old store.file system.new) }
        ensures fresh { IfOk result (λ store. (store.has_failed_sync ≡ false) × (store.failures ≡ 0)) }
        ensures err { OnErr result (IsNotOpenedOrLocked S.calls path.now make system.old system.new) }
    {
        let handle = open_named(system, path, make)?;
        match system.lock(handle) {
            Ok(file) => Ok(HostStore {
                file,
                has_failed_sync: false,
                failures: 0,
            }),
            Err(_) => Err(StoreFault),
        }
    }

    // The file, to be given back to its system.
    pub(crate) fn into_file(self) -> F
        ensures { result ≡ self.file }
    {
        self.file
    }
}

// Whether so many bytes from an offset on can lie in a file.
fn can_lie(at: u64, len: usize) -> bool
    ensures { IsTrue result ↔ (at + len < 2 ^ 63) }
{
    at <= MAX_LEN && len as u64 <= MAX_LEN - at
}

fn measure<F: SystemFile>(file: &mut F) -> Result<u64, StoreFault>
    ensures honest { (F.facts file.new).store.honest ≡ (F.facts file.old).store.honest }
    ensures idles { IsTrue (F.facts file.old).store.honest → Idles (F.facts file.old) (F.facts file.new) }
    ensures len { IfOk result
        (λ n. IsTrue (F.facts file.old).store.honest → n ≡ length (F.facts file.old).store.content) }
    ensures gives_up { IsErr result → IsTrue (F.facts file.old).store.honest
        → IsOutOfCalls (F.facts file.old) (F.facts file.new) }
    ensures failures { OnOk result (IsTrue (F.facts file.old).store.honest
        → (F.facts file.new).store.failures ≡ (F.facts file.old).store.failures) }
    ensures interruptions { IsTrue (F.facts file.old).store.honest
        → (F.facts file.old).interruptions ≤ (F.facts file.new).interruptions }
{
    for tried in 0..TRIES {
        match file.len() {
            Ok(n) => return Ok(n),
            Err(SystemFault::Interrupted) => {}
            Err(SystemFault::Failed) => return Err(StoreFault),
        }
    }
    Err(StoreFault)
}

fn resize<F: SystemFile>(file: &mut F, n: u64) -> Result<(), StoreFault>
    ensures honest { (F.facts file.new).store.honest ≡ (F.facts file.old).store.honest }
    ensures syncs { IsTrue (F.facts file.old).store.honest
        → (F.facts file.new).has_failed_sync ≡ (F.facts file.old).has_failed_sync }
    ensures time { IsTrue (F.facts file.old).store.honest → Elapses (F.facts file.old).store (F.facts file.new).store }
    ensures sized { OnOk result (IsTrue (F.facts file.old).store.honest
        → Sizes n (F.facts file.old).store.content (F.facts file.new).store.content) }
    ensures grows { IsTrue (F.facts file.old).store.honest → length (F.facts file.old).store.content ≤ n
        → Writes n 0 (F.facts file.old).store (F.facts file.new).store }
    ensures gives_up { IsErr result → IsTrue (F.facts file.old).store.honest
        → IsOutOfCalls (F.facts file.old) (F.facts file.new) }
{
    for tried in 0..TRIES {
        match file.set_len(n) {
            Ok(()) => return Ok(()),
            Err(SystemFault::Interrupted) => {}
            Err(SystemFault::Failed) => return Err(StoreFault),
        }
    }
    Err(StoreFault)
}

// How a file is synced.
#[derive(Clone, Copy)]
enum Syncing {
    // As it stands.
    Part,
    // As one whose content is whole from now on.
    Whole,
}

// Asks for a sync once.
fn sync_once<F: SystemFile>(file: &mut F, syncing: Syncing) -> Result<(), SystemFault>
    ensures honest { (F.facts file.new).store.honest ≡ (F.facts file.old).store.honest }
    ensures told { IsTrue (F.facts file.old).store.honest
        → CountsFailure result (F.facts file.old) (F.facts file.new) }
    ensures unchanged { IsTrue (F.facts file.old).store.honest
        → IsUnchanged (F.facts file.old).store (F.facts file.new).store }
    ensures syncs { (HasFailed result → ⊥) → IsTrue (F.facts file.old).store.honest
        → (F.facts file.new).has_failed_sync ≡ (F.facts file.old).has_failed_sync }
    ensures durable { OnOk result (IsTrue (F.facts file.old).store.honest → (F.facts file.old).has_failed_sync ≡ false
        → IsDurable (F.facts file.new).store) }
{
    match syncing {
        Syncing::Part => file.sync(),
        Syncing::Whole => file.settle(),
    }
}

fn sync<F: SystemFile>(file: &mut F, syncing: Syncing) -> Result<(), StoreFault>
    ensures honest { (F.facts file.new).store.honest ≡ (F.facts file.old).store.honest }
    ensures unchanged { IsTrue (F.facts file.old).store.honest
        → IsUnchanged (F.facts file.old).store (F.facts file.new).store }
    ensures syncs { OnOk result (IsTrue (F.facts file.old).store.honest
        → (F.facts file.new).has_failed_sync ≡ (F.facts file.old).has_failed_sync) }
    ensures durable { OnOk result (IsTrue (F.facts file.old).store.honest → (F.facts file.old).has_failed_sync ≡ false
        → IsDurable (F.facts file.new).store) }
    ensures gives_up { IsErr result → IsTrue (F.facts file.old).store.honest
        → IsOutOfCalls (F.facts file.old) (F.facts file.new) }
{
    for tried in 0..TRIES {
        match sync_once(file, syncing) {
            Ok(()) => return Ok(()),
            Err(SystemFault::Interrupted) => {}
            Err(SystemFault::Failed) => return Err(StoreFault),
        }
    }
    Err(StoreFault)
}

fn read_whole<F: SystemFile>(file: &mut F, at: u64, buffer: &mut [u8]) -> Result<(), StoreFault>
    requires { at + length buffer.old < 2 ^ 63 }
    ensures honest { (F.facts file.new).store.honest ≡ (F.facts file.old).store.honest }
    ensures idles { IsTrue (F.facts file.old).store.honest → Idles (F.facts file.old) (F.facts file.new) }
    ensures read { OnOk result (IsTrue (F.facts file.old).store.honest
        → Reads (F.facts file.old).store.content at (length buffer.new) buffer.new) }
    ensures gives_up { IsErr result → IsTrue (F.facts file.old).store.honest
        → (length (F.facts file.old).store.content < at + length buffer.old)
        ⊎ IsOutOfCalls (F.facts file.old) (F.facts file.new) }
{
    let mut done = 0;
    for tried in 0..TRIES {
        if done == buffer.len() {
            return Ok(());
        }
        match file.read_at(at + done as u64, &mut buffer[done..]) {
            Ok(0) | Err(SystemFault::Failed) => return Err(StoreFault),
            Ok(n) => done += n,
            Err(SystemFault::Interrupted) => {}
        }
    }
    Err(StoreFault)
}

fn write_whole<F: SystemFile>(file: &mut F, at: u64, bytes: &[u8]) -> Result<(), StoreFault>
    requires { at + length bytes.now < 2 ^ 63 }
    ensures honest { (F.facts file.new).store.honest ≡ (F.facts file.old).store.honest }
    ensures writes { IsTrue (F.facts file.old).store.honest
        → WritesTo at (length bytes.now) (F.facts file.old) (F.facts file.new) }
    ensures begins { OnOk result (IsTrue (F.facts file.old).store.honest
        → WritesFirst at (length bytes.now) bytes.now (F.facts file.old).store.content
        (F.facts file.new).store.content) }
    ensures gives_up { IsErr result → IsTrue (F.facts file.old).store.honest
        → IsOutOfCalls (F.facts file.old) (F.facts file.new) }
{
    let mut done = 0;
    for tried in 0..TRIES {
        if done == bytes.len() {
            return Ok(());
        }
        match file.write_at(at + done as u64, &bytes[done..]) {
            Ok(0) | Err(SystemFault::Failed) => return Err(StoreFault),
            Ok(n) => done += n,
            Err(SystemFault::Interrupted) => {}
        }
    }
    Err(StoreFault)
}

// Whether there is an end at this offset or behind it.
fn reach<F: SystemFile>(file: &mut F, at: u64) -> Result<(), StoreFault>
    ensures honest { (F.facts file.new).store.honest ≡ (F.facts file.old).store.honest }
    ensures idles { IsTrue (F.facts file.old).store.honest → Idles (F.facts file.old) (F.facts file.new) }
    ensures within { OnOk result (IsTrue (F.facts file.old).store.honest
        → at ≤ length (F.facts file.old).store.content) }
    ensures gives_up { IsErr result → IsTrue (F.facts file.old).store.honest
        → (length (F.facts file.old).store.content < at) ⊎ IsOutOfCalls (F.facts file.old) (F.facts file.new) }
{
    if measure(file)? < at {
        return Err(StoreFault);
    }
    Ok(())
}

// The system reads no bytes from anywhere; a store fails where they lie past the end.
fn read<F: SystemFile>(file: &mut F, at: u64, buffer: &mut [u8]) -> Result<(), StoreFault>
    ensures honest { (F.facts file.new).store.honest ≡ (F.facts file.old).store.honest }
    ensures idles { IsTrue (F.facts file.old).store.honest → Idles (F.facts file.old) (F.facts file.new) }
    ensures bytes { OnOk result (IsTrue (F.facts file.old).store.honest
        → Holds (F.facts file.old).store.content at buffer.new) }
    ensures gives_up { IsErr result → IsTrue (F.facts file.old).store.honest
        → IsBeyond (F.facts file.old).store.content (at + length buffer.old)
        ⊎ IsOutOfCalls (F.facts file.old) (F.facts file.new) }
{
    if !can_lie(at, buffer.len()) {
        return Err(StoreFault);
    }
    if buffer.is_empty() {
        return reach(file, at);
    }
    read_whole(file, at, buffer)
}

// The system writes no bytes without a gap before them; a store fills the gap.
fn fill_gap<F: SystemFile>(file: &mut F, at: u64) -> Result<(), StoreFault>
    ensures honest { (F.facts file.new).store.honest ≡ (F.facts file.old).store.honest }
    ensures syncs { IsTrue (F.facts file.old).store.honest
        → (F.facts file.new).has_failed_sync ≡ (F.facts file.old).has_failed_sync }
    ensures writes { IsTrue (F.facts file.old).store.honest
        → Writes at 0 (F.facts file.old).store (F.facts file.new).store }
    ensures written { OnOk result (IsTrue (F.facts file.old).store.honest
        → WritesBytes at [] (F.facts file.old).store.content (F.facts file.new).store.content) }
    ensures gives_up { IsErr result → IsTrue (F.facts file.old).store.honest
        → IsOutOfCalls (F.facts file.old) (F.facts file.new) }
{
    if measure(file)? < at {
        return resize(file, at);
    }
    Ok(())
}

fn write<F: SystemFile>(file: &mut F, at: u64, bytes: &[u8]) -> Result<(), StoreFault>
    ensures honest { (F.facts file.new).store.honest ≡ (F.facts file.old).store.honest }
    ensures syncs { IsTrue (F.facts file.old).store.honest
        → (F.facts file.new).has_failed_sync ≡ (F.facts file.old).has_failed_sync }
    ensures writes { IsTrue (F.facts file.old).store.honest
        → Writes at (length bytes.now) (F.facts file.old).store (F.facts file.new).store }
    ensures written { OnOk result (IsTrue (F.facts file.old).store.honest
        → WritesBytes at bytes.now (F.facts file.old).store.content (F.facts file.new).store.content) }
    ensures gives_up { IsErr result → IsTrue (F.facts file.old).store.honest
        → (2 ^ 63 ≤ at + length bytes.now) ⊎ IsOutOfCalls (F.facts file.old) (F.facts file.new) }
{
    if !can_lie(at, bytes.len()) {
        return Err(StoreFault);
    }
    if bytes.is_empty() {
        return fill_gap(file, at);
    }
    write_whole(file, at, bytes)
}

impl<F: SystemFile> HostStore<F> {
    fn sync_file(&mut self, syncing: Syncing) -> Result<(), StoreFault>
        ensures honest { (F.facts self.new.file).store.honest ≡ (F.facts self.old.file).store.honest }
        ensures failures { Counts result (host_facts F.facts self.old) (host_facts F.facts self.new) }
        ensures unchanged { IsTrue (F.facts self.old.file).store.honest
            → IsUnchanged (host_facts F.facts self.old) (host_facts F.facts self.new) }
        ensures durable { OnOk result (IsTrue (F.facts self.old.file).store.honest
            → IsDurable (host_facts F.facts self.new)) }
        ensures refused { IsTrue self.old.has_failed_sync → IsErr result × (self.new.file ≡ self.old.file) }
        ensures syncs { OnOk result (self.new.has_failed_sync ≡ self.old.has_failed_sync) }
        ensures fails_only_if { IsTrue (F.facts self.old.file).store.honest
            → FailsOnlyIf (IsTrue self.old.has_failed_sync) F.facts result self.old self.new }
    {
        if self.has_failed_sync {
            return self.count(Err(StoreFault));
        }
        let answer = sync(&mut self.file, syncing);
        self.has_failed_sync = answer.is_err();
        self.count(answer)
    }

    // Counts a call that fails. Once the count can't rise, every call fails.
    fn count<T: Drop>(&mut self, answer: Result<T, StoreFault>) -> Result<T, StoreFault>
        ensures counts { Counts result (host_facts F.facts self.old) (host_facts F.facts self.new) }
        ensures same { (self.new.file ≡ self.old.file) × (self.new.has_failed_sync ≡ self.old.has_failed_sync) }
        ensures ok { IfOk result (λ v. answer ≡ Ok v) }
        ensures err { IsErr result → IsErr answer ⊎ (self.old.failures ≡ last_count) }
    {
        match answer {
            Ok(done) if self.failures != u64::MAX => Ok(done),
            _ => {
                self.failures = self.failures.saturating_add(1);
                Err(StoreFault)
            }
        }
    }
}

impl<F: SystemFile> Store for HostStore<F> {
    ghost facts = { λ h. host_facts F.facts h };

    ghost timely = { λ h honest. let t = F.timely h.file honest in record {
      now = t.now;
      only_now = t.only_now;
      counts_now = t.counts_now;
    } };

    fn len(&mut self) -> Result<u64, StoreFault>
        ensures honest { (F.facts self.new.file).store.honest ≡ (F.facts self.old.file).store.honest }
        ensures failures { Counts result (host_facts F.facts self.old) (host_facts F.facts self.new) }
        ensures unchanged { IsTrue (F.facts self.old.file).store.honest
            → IsUnchanged (host_facts F.facts self.old) (host_facts F.facts self.new) }
        ensures len { IfOk result
            (λ n. IsTrue (F.facts self.old.file).store.honest → n ≡ length (F.facts self.old.file).store.content) }
        ensures syncs { self.new.has_failed_sync ≡ self.old.has_failed_sync }
        ensures fails_only_if { IsTrue (F.facts self.old.file).store.honest
            → FailsOnlyIf ⊥ F.facts result self.old self.new }
    {
        let answer = measure(&mut self.file);
        self.count(answer)
    }

    fn read_at(&mut self, at: u64, buffer: &mut [u8]) -> Result<(), StoreFault>
        ensures honest { (F.facts self.new.file).store.honest ≡ (F.facts self.old.file).store.honest }
        ensures failures { Counts result (host_facts F.facts self.old) (host_facts F.facts self.new) }
        ensures unchanged { IsTrue (F.facts self.old.file).store.honest
            → IsUnchanged (host_facts F.facts self.old) (host_facts F.facts self.new) }
        ensures bytes { OnOk result (IsTrue (F.facts self.old.file).store.honest
            → Holds (F.facts self.old.file).store.content at buffer.new) }
        ensures syncs { self.new.has_failed_sync ≡ self.old.has_failed_sync }
        ensures fails_only_if { IsTrue (F.facts self.old.file).store.honest
            → FailsOnlyIf
            (IsBeyond (F.facts self.old.file).store.content (at + length buffer.old)) F.facts result self.old self.new }
    {
        let answer = read(&mut self.file, at, buffer);
        self.count(answer)
    }

    fn write_at(&mut self, at: u64, bytes: &[u8]) -> Result<(), StoreFault>
        ensures honest { (F.facts self.new.file).store.honest ≡ (F.facts self.old.file).store.honest }
        ensures failures { Counts result (host_facts F.facts self.old) (host_facts F.facts self.new) }
        ensures writes { IsTrue (F.facts self.old.file).store.honest
            → Writes at (length bytes.now) (host_facts F.facts self.old) (host_facts F.facts self.new) }
        ensures written { OnOk result (IsTrue (F.facts self.old.file).store.honest
            → WritesBytes at bytes.now (F.facts self.old.file).store.content (F.facts self.new.file).store.content) }
        ensures syncs { self.new.has_failed_sync ≡ self.old.has_failed_sync }
        ensures fails_only_if { IsTrue (F.facts self.old.file).store.honest
            → FailsOnlyIf (2 ^ 63 ≤ at + length bytes.now) F.facts result self.old self.new }
    {
        let answer = write(&mut self.file, at, bytes);
        self.count(answer)
    }

    fn set_len(&mut self, n: u64) -> Result<(), StoreFault>
        ensures honest { (F.facts self.new.file).store.honest ≡ (F.facts self.old.file).store.honest }
        ensures failures { Counts result (host_facts F.facts self.old) (host_facts F.facts self.new) }
        ensures time { IsTrue (F.facts self.old.file).store.honest
            → Elapses (host_facts F.facts self.old) (host_facts F.facts self.new) }
        ensures sized { OnOk result (IsTrue (F.facts self.old.file).store.honest
            → Sizes n (F.facts self.old.file).store.content (F.facts self.new.file).store.content) }
        ensures syncs { self.new.has_failed_sync ≡ self.old.has_failed_sync }
        ensures fails_only_if { IsTrue (F.facts self.old.file).store.honest
            → FailsOnlyIf (2 ^ 63 ≤ n) F.facts result self.old self.new }
    {
        if n > MAX_LEN {
            return self.count(Err(StoreFault));
        }
        let answer = resize(&mut self.file, n);
        self.count(answer)
    }

    /// Fails where an earlier one has failed, and asks the system no more.
    fn sync(&mut self) -> Result<(), StoreFault>
        // As of each call.
        ensures honest { (F.facts self.new.file).store.honest ≡ (F.facts self.old.file).store.honest }
        ensures failures { Counts result (host_facts F.facts self.old) (host_facts F.facts self.new) }
        ensures unchanged { IsTrue (F.facts self.old.file).store.honest
            → IsUnchanged (host_facts F.facts self.old) (host_facts F.facts self.new) }
        // What is done.
        ensures durable { OnOk result (IsTrue (F.facts self.old.file).store.honest
            → IsDurable (host_facts F.facts self.new)) }
        // Refusals.
        ensures refused { IsTrue self.old.has_failed_sync → IsErr result × (self.new.file ≡ self.old.file) }
        ensures syncs { OnOk result (self.new.has_failed_sync ≡ self.old.has_failed_sync) }
        ensures fails_only_if { IsTrue (F.facts self.old.file).store.honest
            → FailsOnlyIf (IsTrue self.old.has_failed_sync) F.facts result self.old self.new }
    {
        self.sync_file(Syncing::Part)
    }

    /// Fails where an earlier sync has failed, and asks the system no more.
    fn settle(&mut self) -> Result<(), StoreFault>
        // As of each call.
        ensures honest { (F.facts self.new.file).store.honest ≡ (F.facts self.old.file).store.honest }
        ensures failures { Counts result (host_facts F.facts self.old) (host_facts F.facts self.new) }
        ensures unchanged { IsTrue (F.facts self.old.file).store.honest
            → IsUnchanged (host_facts F.facts self.old) (host_facts F.facts self.new) }
        // What is done.
        ensures durable { OnOk result (IsTrue (F.facts self.old.file).store.honest
            → IsDurable (host_facts F.facts self.new)) }
        // Refusals.
        ensures refused { IsTrue self.old.has_failed_sync → IsErr result × (self.new.file ≡ self.old.file) }
        ensures syncs { OnOk result (self.new.has_failed_sync ≡ self.old.has_failed_sync) }
        ensures fails_only_if { IsTrue (F.facts self.old.file).store.honest
            → FailsOnlyIf (IsTrue self.old.has_failed_sync) F.facts result self.old self.new }
    {
        self.sync_file(Syncing::Whole)
    }
}

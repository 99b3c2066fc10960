//! What is kept of one step: the change of an edit or the changes of a group, and the name of the step.
ghost use Rattle.std.specs.Prelude.{◌≡◌, ◌≤◌, ◌+◌, ◌-◌, ◌^◌, [], ◌++◌, length, min, reverse, take, IfErr, IfOk, IsOk, MatchOption, MatchResult, vec_capacity, vec_len};
ghost use Rattle.undo_log.specs.Entries.{One, Group, unnamed};
ghost use Rattle.undo_log.specs.Kept.{seen};
ghost use Rattle.undo_log.specs.Logging.{changes_in, entry_weight, turned_over};

use crate::weighing::total_weight;
use std::alloc::{AllocError, Global};
use std::marker::Model;
use std::mem::{replace, size_of};
use std::slice;
use vm_blocks::Change;

/// The changes of a group. Contracts see them as a list, the one that is made next first.
#[derive(Drop)]
pub struct Changes {
    // The next one is the last.
    stack: Vec<Change>,
}

impl Model for Changes {
    ghost use Rattle.std.specs.Prelude.{List, reverse};
    ghost use Rattle.std.specs.Coded.{coded_list};
    ghost use Rattle.vm_blocks.specs.declared.change.Change.{Change};
    ghost use Rattle.vm_blocks.specs.contracts.change.Change as change_type;

    ghost Value = { List Change };

    ghost coded = { coded_list change_type.the_row.coded };

    ghost view = { λ c. reverse c.stack.items };
}

impl Changes {
    /// These changes, the last one next.
    pub(crate) fn new(stack: Vec<Change>) -> Changes
        ensures { result ≡ reverse stack.items }
    {
        Changes { stack }
    }

    /// The changes, the next one last.
    pub(crate) fn as_slice(&self) -> &[Change]
        ensures { reverse result.now ≡ self.now }
    {
        self.stack.as_slice()
    }

    /// From here on the last one is the next.
    pub(crate) fn turn_over(&mut self)
        ensures { self.new ≡ reverse self.old }
    {
        self.stack.as_mut_slice().reverse();
    }

    /// No more than so many changes are left, those that are made next.
    pub(crate) fn keep_next(&mut self, count: usize)
        ensures { self.new ≡ take count self.old }
    {
        let len = self.stack.len();
        if count < len {
            self.stack.rotate_left(len - count);
            self.stack.truncate(count);
        }
    }
}

// The change of an edit lies in a box where the edit has a name, so that no entry is longer for it.
#[derive(Drop)]
enum Kept {
    One(Change),
    NamedOne(Box<Change>, Vec<u8>),
    Group(Changes, Vec<u8>),
}

impl Kept {
    // With this name, if there is memory for it; one without bytes takes none.
    fn with_name(self, alloc: Global, name: Vec<u8>) -> Result<Kept, Kept>
        ensures done { MatchResult result
            (λ kept. seen kept ≡ record (seen self) { name = name.items })
            (λ kept. seen kept ≡ seen self) }
        ensures none { name.items ≡ [] → IsOk result }
    {
        match self {
            Kept::One(change) if name.is_empty() => Ok(Kept::One(change)),
            Kept::One(change) => match Box::new(alloc, change) {
                Ok(change) => Ok(Kept::NamedOne(change, name)),
                Err(failed) => Err(Kept::One(failed.value)),
            },
            Kept::NamedOne(change, _) if name.is_empty() => Ok(Kept::One(Box::into_inner(change))),
            Kept::NamedOne(change, _) => Ok(Kept::NamedOne(change, name)),
            Kept::Group(changes, _) => Ok(Kept::Group(changes, name)),
        }
    }

    // Its changes go behind those of a stack, which has room for them. What is left is the name.
    fn move_onto(self, alloc: Global, stack: &mut Vec<Change>) -> Vec<u8>
        requires { vec_len stack.old + length (changes_in (seen self).entry) ≤ vec_capacity stack.old }
        ensures stack { stack.new.items ≡ stack.old.items ++ reverse (changes_in (seen self).entry) }
        ensures len { vec_len stack.new ≡ vec_len stack.old + length (changes_in (seen self).entry) }
        ensures capacity { vec_capacity stack.old ≤ vec_capacity stack.new }
        ensures name { result.items ≡ (seen self).name }
    {
        match self {
            Kept::One(change) => {
                stack.push_reserved(change);
                Vec::new(alloc)
            }
            Kept::NamedOne(change, name) => {
                stack.push_reserved(Box::into_inner(change));
                name
            }
            Kept::Group(mut changes, name) => {
                if stack.append(&mut changes.stack).is_err() {
                    unreachable!();
                }
                name
            }
        }
    }
}

/// What is kept of a step that can be undone or made again: the change of one edit, or the changes of a group of edits
/// or of an edit of a large array, and the name of the step, which has no bytes where it was given none.
#[derive(Drop)]
pub struct NamedEntry {
    kept: Kept,
}

// Millions of entries may be kept, each in so many bytes.
const _: () = prove!(size_of::<NamedEntry>() <= 72);

impl Model for NamedEntry {
    ghost use Rattle.undo_log.specs.Entries.{NamedEntry, named_entry_code};
    ghost use Rattle.undo_log.specs.Kept.{seen};

    ghost Value = { NamedEntry };

    ghost coded = { named_entry_code };

    ghost view = { λ e. seen e.kept };
}

impl NamedEntry {
    /// One of the change of an edit, without a name.
    pub(crate) fn one(change: Change) -> NamedEntry
        ensures { result ≡ unnamed (One change) }
    {
        NamedEntry {
            kept: Kept::One(change),
        }
    }

    /// One of the changes of a group.
    pub(crate) fn group(changes: Changes, name: Vec<u8>) -> NamedEntry
        ensures { result ≡ record { entry = Group changes; name = name.items } }
    {
        NamedEntry {
            kept: Kept::Group(changes, name),
        }
    }

    /// One of no change, which takes no memory.
    pub(crate) fn empty(alloc: Global) -> NamedEntry
        ensures { result ≡ unnamed (Group []) }
    {
        NamedEntry::group(Changes::new(Vec::new(alloc)), Vec::new(alloc))
    }

    /// Its changes, the next one last.
    pub(crate) fn as_slice(&self) -> &[Change]
        ensures { reverse result.now ≡ changes_in self.now.entry }
    {
        match &self.kept {
            Kept::One(change) => slice::from_ref(change),
            Kept::NamedOne(change, _) => slice::from_ref(change.as_ref()),
            Kept::Group(changes, _) => changes.as_slice(),
        }
    }

    /// Its change, if it is of one edit.
    pub(crate) fn edit(&self) -> Option<&Change>
        ensures { MatchOption result
            (self.now.entry ≡ Group (changes_in self.now.entry))
            (λ change. self.now.entry ≡ One change.now) }
    {
        match &self.kept {
            Kept::One(change) => Some(change),
            Kept::NamedOne(change, _) => Some(change.as_ref()),
            Kept::Group(_, _) => None,
        }
    }

    /// Its name.
    pub(crate) fn name(&self) -> &[u8]
        ensures { result.now ≡ self.now.name }
    {
        match &self.kept {
            Kept::One(_) => &[],
            Kept::NamedOne(_, name) => name.as_slice(),
            Kept::Group(_, name) => name.as_slice(),
        }
    }

    /// How many changes it has.
    pub(crate) fn len(&self) -> usize
        ensures { result ≡ length (changes_in self.now.entry) }
    {
        self.as_slice().len()
    }

    /// It has this name, if there is memory for it; one without bytes takes none.
    pub(crate) fn set_name(&mut self, alloc: Global, name: Vec<u8>) -> Result<(), AllocError>
        ensures done { MatchResult result
            (λ _. self.new ≡ record self.old { name = name.items })
            (λ _. self.new ≡ self.old) }
        ensures none { name.items ≡ [] → IsOk result }
    {
        let nothing = Kept::Group(Changes::new(Vec::new(alloc)), Vec::new(alloc));
        match replace(&mut self.kept, nothing).with_name(alloc, name) {
            Ok(kept) => {
                self.kept = kept;
                Ok(())
            }
            Err(kept) => {
                self.kept = kept;
                Err(AllocError)
            }
        }
    }

    /// One of no more than so many of its changes, those that are made next. The memory of the others goes back, and
    /// that of the name.
    pub(crate) fn into_next(self, alloc: Global, count: usize) -> NamedEntry
        ensures changes { changes_in result.entry ≡ take count (changes_in self.entry) }
        ensures name { result.name ≡ [] }
    {
        if count == 0 {
            return NamedEntry::empty(alloc);
        }
        match self.kept {
            Kept::Group(mut changes, _) => {
                changes.keep_next(count);
                NamedEntry::group(changes, Vec::new(alloc))
            }
            Kept::One(change) => NamedEntry::one(change),
            Kept::NamedOne(change, _) => NamedEntry::one(Box::into_inner(change)),
        }
    }

    /// How many content bytes its changes hold, 2^64 - 1 where these are more.
    pub(crate) fn weight(&self) -> u64
        ensures { result ≡ min (entry_weight self.now.entry) (2 ^ 64 - 1) }
    {
        total_weight(self.as_slice())
    }

    /// Its changes were made: the last one is the next.
    pub(crate) fn turn_over(&mut self)
        ensures { self.new ≡ turned_over self.old }
    {
        if let Kept::Group(changes, _) = &mut self.kept {
            changes.turn_over();
        }
    }

    /// Its changes, the next one last, with room for so many more, and its name; or itself, where there is no memory.
    pub(crate) fn into_stack(
        self,
        alloc: Global,
        more: usize,
    ) -> Result<(Vec<Change>, Vec<u8>), NamedEntry>
        ensures ok { IfOk result (λ parts. (reverse parts.0.items ≡ changes_in self.entry)
            × (parts.1.items ≡ self.name) × (vec_len parts.0 + more ≤ vec_capacity parts.0)) }
        ensures err { IfErr result (λ entry. entry ≡ self) }
    {
        match self.kept {
            Kept::Group(mut changes, name) => match changes.stack.reserve(more) {
                Ok(()) => Ok((changes.stack, name)),
                Err(_) => Err(NamedEntry::group(changes, name)),
            },
            kept => match stack_for(alloc, more) {
                Ok(mut stack) => {
                    let name = kept.move_onto(alloc, &mut stack);
                    Ok((stack, name))
                }
                Err(_) => Err(NamedEntry { kept }),
            },
        }
    }

    /// Its changes are made before those of a stack, which has room for them. It is gone, but for its name.
    pub(crate) fn move_onto(self, alloc: Global, stack: &mut Vec<Change>) -> Vec<u8>
        requires { vec_len stack.old + length (changes_in self.entry) ≤ vec_capacity stack.old }
        ensures stack { stack.new.items ≡ stack.old.items ++ reverse (changes_in self.entry) }
        ensures name { result.items ≡ self.name }
    {
        self.kept.move_onto(alloc, stack)
    }
}

// A stack with room for one change, and for so many more.
fn stack_for(alloc: Global, more: usize) -> Result<Vec<Change>, AllocError>
    ensures { IfOk result (λ stack. (stack.items ≡ []) × (vec_len stack + 1 + more ≤ vec_capacity stack)) }
{
    match more.checked_add(1) {
        Some(count) => Vec::with_capacity(alloc, count),
        None => Err(AllocError),
    }
}

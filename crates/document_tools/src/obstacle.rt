//! What stands against what is asked of a file.
ghost use Rattle.std.specs.Prelude.{◌≡◌, ◌++◌, OnOk};
ghost use Rattle.geos_model.specs.Refusal.{name_of_fault};
ghost use Rattle.document_tools.specs.Obstacles.{cause_words, make_fault_text, obstacle_text, refusal_line};

use geos_model::Fault;
use std::alloc::AllocError;

/// Why a file can't be looked at.
#[derive(Clone, Copy)]
pub enum Cause {
    /// There is none.
    Missing,
    /// The system doesn't let the caller read it.
    Forbidden,
    /// It is a folder, a device or a pipe.
    NoFile,
    /// Another program has it open to write it.
    InUse,
    /// The system failed otherwise.
    Failed,
}

/// Why a file isn't made.
#[derive(Clone, Copy)]
pub enum MakeFault {
    /// Something of that name is there.
    Present,
    /// There is no folder for it.
    NoFolder,
    /// The system doesn't let the caller make it.
    Forbidden,
    /// The system failed otherwise.
    Failed,
}

/// What stands against what is asked of a file.
#[derive(Clone, Copy)]
pub enum Obstacle {
    /// It can't be opened to be read.
    Unviewed(Cause),
    /// Reading it failed.
    Unread,
    /// A block of it has other bytes than when it was opened.
    Changed,
    /// It doesn't open, for what an opening answers.
    Unopened(Fault),
    /// What the slot leads to that doesn't count doesn't open, or there is no such slot.
    NoOther(Fault),
    /// It doesn't open, and no directory of it can be read.
    Unsalvaged,
    /// It can't be made, or no document in it.
    Unmade(MakeFault),
}

impl Cause {
    fn text(self) -> &'static str
        ensures { result.now ≡ cause_words self }
    {
        match self {
            Cause::Missing => "no such file",
            Cause::Forbidden => "permission denied",
            Cause::NoFile => "not a regular file",
            Cause::InUse => "in use by another program",
            Cause::Failed => "it can't be read",
        }
    }
}

impl MakeFault {
    fn text(self) -> &'static str
        ensures { result.now ≡ make_fault_text self }
    {
        match self {
            MakeFault::Present => "it is there already",
            MakeFault::NoFolder => "no such folder",
            MakeFault::Forbidden => "permission denied",
            MakeFault::Failed => "it can't be made",
        }
    }
}

// Words, and the name of a fault.
fn push_named(out: &mut Vec<u8>, words: &[u8], fault: Fault) -> Result<(), AllocError>
    ensures { OnOk result (out.new.items ≡ out.old.items ++ (words.now ++ name_of_fault fault)) }
{
    out.extend_from_slice(words)?;
    out.extend_from_slice(fault.name().as_bytes())
}

fn push_obstacle(out: &mut Vec<u8>, obstacle: Obstacle) -> Result<(), AllocError>
    ensures { OnOk result (out.new.items ≡ out.old.items ++ obstacle_text obstacle) }
{
    match obstacle {
        Obstacle::Unviewed(cause) => out.extend_from_slice(cause.text().as_bytes()),
        Obstacle::Unread => out.extend_from_slice(b"it can't be read"),
        Obstacle::Changed => {
            out.extend_from_slice(b"a block of it has other bytes than when it was opened")
        }
        Obstacle::Unopened(fault) => push_named(out, b"it doesn't open, ", fault),
        Obstacle::NoOther(fault) => push_named(out, b"the other slot doesn't open, ", fault),
        Obstacle::Unsalvaged => out.extend_from_slice(b"no directory of it can be read"),
        Obstacle::Unmade(fault) => out.extend_from_slice(fault.text().as_bytes()),
    }
}

/// Of which file it is told, and what stands against it.
pub fn push_refusal(out: &mut Vec<u8>, file: &str, obstacle: Obstacle) -> Result<(), AllocError>
    ensures { OnOk result (out.new.items ≡ out.old.items ++ refusal_line file.now obstacle) }
{
    out.extend_from_slice(b"geosdoc: ")?;
    out.extend_from_slice(file.as_bytes())?;
    out.extend_from_slice(b": ")?;
    push_obstacle(out, obstacle)?;
    Ok(out.push(b'\n')?)
}

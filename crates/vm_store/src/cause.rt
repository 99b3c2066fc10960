//! Why a file isn't opened.
ghost use Rattle.std.specs.Prelude.{◌≡◌};
ghost use Rattle.vm_store.specs.Causes.{cause_text};

/// Why a file isn't opened.
#[derive(Clone, Copy, Debug, PartialEq, Eq)]
pub enum Cause {
    /// There is none.
    Missing,
    /// There is no folder for it.
    NoFolder,
    /// It is a folder itself.
    Folder,
    /// The system doesn't let the caller read and write it, or make it.
    Forbidden,
    /// It lies where nothing can be written.
    ReadOnly,
    /// Its name is too long.
    LongName,
    /// Its links go round in a circle, or there are too many.
    Links,
    /// There is no room to make it.
    Full,
    /// Another program has it open.
    InUse,
    /// The caller has it open, under another name.
    OpenHere,
    /// The system failed otherwise.
    Failed,
}

impl Cause {
    /// What is told of it.
    pub fn text(self) -> &'static str
        ensures { result.now ≡ cause_text self }
    {
        match self {
            Cause::Missing => "no such file",
            Cause::NoFolder => "no such folder",
            Cause::Folder => "it is a folder",
            Cause::Forbidden => "permission denied",
            Cause::ReadOnly => "on a read-only file system",
            Cause::LongName => "the name is too long",
            Cause::Links => "too many links",
            Cause::Full => "no room on the disk",
            Cause::InUse => "in use by another program",
            Cause::OpenHere => "open already under another name",
            Cause::Failed => "it can't be opened",
        }
    }
}

/// A system, or who opens files of one, that tells why an opening failed.
pub trait TellsCause {
    ghost use Rattle.vm_store.specs.declared.cause.Cause.{Cause};

    ghost cause: { Self → Cause };

    /// Why the last opening that failed did so.
    fn cause(&self) -> Cause
        ensures { result ≡ cause self.now };
}

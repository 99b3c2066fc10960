//! What the words of `geosvm` ask for, or why they ask for nothing.
use geos_model::Bytes;

/// What the words ask for. The names are as they were given.
#[derive(Clone, Copy, Debug, PartialEq, Eq)]
pub struct Options<'a> {
    /// The file is made, or made anew; else it must be there.
    pub new: bool,
    /// The file has checksums from its next commit on; one that is made has them from the start.
    pub checksums: bool,
    /// The run ends behind the first refusal.
    pub bail: bool,
    /// Each line is written before its reply.
    pub echo: bool,
    /// How many frames the cache has, 1 to 64.
    pub cache: u8,
    /// How many steps are kept to be undone, 1 or more; where there is none, all are.
    pub undo_limit: Option<u32>,
    /// The file that a save-as writes, if there is one.
    pub target: Option<&'a str>,
    /// The file of the document.
    pub file: &'a str,
}

/// Why words give no options.
#[derive(Drop)]
pub enum NoOptions {
    /// They are no command line. The text says why, and how one looks.
    Usage(Bytes),
    /// They ask for help, which the text is.
    Help(Bytes),
    /// They ask for the version, which the text tells.
    Version(Bytes),
    /// The target and the file are the same text.
    SameFile,
    /// There was no memory.
    Memory,
}

//! What the words of `geosdoc` ask for, or why they ask for nothing.
use geos_model::Bytes;

/// What is asked of a file but for a check.
#[derive(Clone, Copy)]
pub enum Asked {
    /// A script that makes documents of the file again.
    Dump(DumpScope),
    /// What the file has, counted.
    Stat(Form),
    /// A picture of what lies in the file.
    Map(MapFormat),
    /// A script that makes anew what can be read of the file.
    Salvage(SalvageScope),
}

/// How numbers are told.
#[derive(Clone, Copy)]
pub enum Form {
    /// As text in columns.
    Columns,
    /// As one JSON object.
    Json,
}

/// How a picture is given.
#[derive(Clone, Copy)]
pub enum MapFormat {
    Text,
    Svg,
}

/// Which documents of a file a dump has.
#[derive(Clone, Copy)]
pub enum DumpScope {
    /// The saved one and the updated one.
    Both,
    /// The saved one.
    Saved,
    /// Both of the commit before the last one.
    Other,
}

/// Which blocks a salvage takes.
#[derive(Clone, Copy)]
pub enum SalvageScope {
    /// Those that are whole.
    Whole,
    /// Beside these those whose image can be read, and hasn't its sum.
    All,
}

/// Whether a file that is made has checksums.
#[derive(Clone, Copy)]
pub enum Checksums {
    /// It has none, and is of version 2.
    Without,
    /// It has them, and is of version 3.
    With,
}

/// Which documents of two files are compared.
#[derive(Clone, Copy)]
pub enum DiffScope {
    /// The updated ones.
    Updated,
    /// The saved ones.
    Saved,
}

/// What a command line asks for.
#[derive(Clone, Copy)]
pub enum Request<'a> {
    /// Whether a file opens, and what is wrong with it.
    Check(&'a str),
    /// This is to be told of a file.
    Look(Asked, &'a str),
    /// Documents of the first file and of the second one are to be compared.
    Diff(DiffScope, &'a str, &'a str),
    /// A file is to be made by a script.
    Restore(Checksums, &'a str),
}

/// Why words ask for nothing.
#[derive(Drop)]
pub enum NoRequest {
    /// They ask for help, or for the version, and the text tells that.
    Told(Bytes),
    /// They are no command line. The text says why.
    Usage(Bytes),
    /// They can't be had from the system.
    Unread,
    /// There was no memory.
    Memory,
}

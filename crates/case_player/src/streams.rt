//! Readers and writers that give or take little at once, are interrupted or fail.
ghost use Rattle.std.specs.Prelude.{◌≤◌, length};

use case_files::Stop;
use std::alloc::Global;
use std::cell::Cell;
use std::io::{self, ErrorKind, Read, Write};

/// Where a reader stops: behind so many bytes of the script, and once so many bytes of replies are flushed.
#[derive(Clone, Copy)]
pub(crate) struct Place {
    pub(crate) at: usize,
    pub(crate) due: usize,
    pub(crate) stop: Stop,
}

/// How much a reader and a writer can do.
#[derive(Clone, Copy)]
pub(crate) struct Strength {
    /// A read gives so many bytes at most.
    pub(crate) reads: usize,
    /// A read is interrupted before each one that serves.
    pub(crate) is_interrupted: bool,
    /// The script comes over and over.
    pub(crate) is_endless: bool,
    /// So many reads serve.
    pub(crate) serves: usize,
    /// A write takes so many bytes at most.
    pub(crate) takes: usize,
    /// So many writes serve.
    pub(crate) writes: usize,
    /// So many flushes serve.
    pub(crate) flushes: usize,
}

/// Nothing fails.
pub(crate) const STRONG: Strength = Strength {
    reads: usize::MAX,
    is_interrupted: false,
    is_endless: false,
    serves: usize::MAX,
    takes: usize::MAX,
    writes: usize::MAX,
    flushes: usize::MAX,
};

/// How many bytes of replies are flushed.
#[derive(Drop)]
pub(crate) struct Desk {
    flushed: Cell<usize>,
}

impl Desk {
    pub(crate) fn new() -> Desk {
        Desk {
            flushed: Cell::new(0),
        }
    }
}

// Counts down to a failure.
fn tire(left: &mut usize) -> io::Result<()> {
    match left.checked_sub(1) {
        Some(less) => {
            *left = less;
            Ok(())
        }
        None => Err(io::Error::from(ErrorKind::BrokenPipe)),
    }
}

/// A reader of a script, which stops at places. At the first read behind one it fails where the replies to the lines
/// before aren't flushed, or others are.
#[derive(Drop)]
pub struct Feeding<'a> {
    desk: &'a Desk,
    script: &'a [u8],
    left: &'a [u8],
    is_endless: bool,
    // How many bytes are read.
    at: usize,
    places: &'a [Place],
    piece: usize,
    is_interrupted: bool,
    // Whether the next read is interrupted.
    is_next_interrupted: bool,
    // How many reads serve.
    serves: usize,
}

// Puts as much as there is room for, and tells how much that is.
fn put_front(text: &[u8], buf: &mut [u8]) -> usize
    ensures { (result ≤ length text.now) × (result ≤ length buf.new) }
{
    let count = text.len().min(buf.len());
    buf[..count].copy_from_slice(&text[..count]);
    count
}

impl<'a> Feeding<'a> {
    pub(crate) fn new(
        desk: &'a Desk,
        script: &'a [u8],
        places: &'a [Place],
        strength: Strength,
    ) -> Feeding<'a> {
        Feeding {
            desk,
            script,
            left: script,
            is_endless: strength.is_endless,
            at: 0,
            places,
            piece: strength.reads,
            is_interrupted: strength.is_interrupted,
            is_next_interrupted: strength.is_interrupted,
            serves: strength.serves,
        }
    }

    /// How many bytes aren't read.
    pub(crate) fn left(&self) -> usize {
        self.left.len()
    }

    // What is to be done here, which is done once.
    fn stop(&mut self) -> Option<Place> {
        let (place, places) = self.places.split_first()?;
        if self.at < place.at {
            return None;
        }
        self.places = places;
        Some(*place)
    }

    // How many bytes there are to the next place.
    fn ahead(&self) -> usize {
        match self.places.first() {
            Some(place) => place.at.saturating_sub(self.at),
            None => self.left.len(),
        }
    }

    // Gives bytes up to the next place.
    fn give(&mut self, buf: &mut [u8]) -> usize
        ensures { result ≤ length buf.new }
    {
        if self.is_endless && self.left.is_empty() {
            self.left = self.script;
        }
        let left = self.left;
        let most = self.ahead().min(self.piece).min(left.len());
        let count = put_front(&left[..most], buf);
        self.left = &left[count..];
        self.at = self.at.saturating_add(count);
        count
    }

    // The error of a read at a place, if it is one.
    fn error_at(&self, place: Place) -> Option<ErrorKind> {
        if self.desk.flushed.get() != place.due {
            return Some(ErrorKind::Other);
        }
        match place.stop {
            Stop::Piece => None,
            Stop::Interrupted => Some(ErrorKind::Interrupted),
            Stop::Fails => Some(ErrorKind::ConnectionReset),
        }
    }
}

impl Read for Feeding<'_> {
    fn read(&mut self, buf: &mut [u8]) -> io::Result<usize> {
        if self.is_next_interrupted {
            self.is_next_interrupted = false;
            return Err(io::Error::from(ErrorKind::Interrupted));
        }
        self.is_next_interrupted = self.is_interrupted;
        tire(&mut self.serves)?;
        if let Some(place) = self.stop() {
            if let Some(kind) = self.error_at(place) {
                return Err(io::Error::from(kind));
            }
        }
        Ok(self.give(buf))
    }
}

/// A writer that takes a few bytes a write, and fails once it has made so many writes or so many flushes. It keeps how
/// long the longest write was.
#[derive(Drop)]
pub struct Taking<'a> {
    desk: &'a Desk,
    strength: Strength,
    pub(crate) taken: Vec<u8>,
    pub(crate) longest: usize,
}

impl<'a> Taking<'a> {
    pub(crate) fn new(alloc: Global, desk: &'a Desk, strength: Strength) -> Taking<'a> {
        Taking {
            desk,
            strength,
            taken: Vec::new(alloc),
            longest: 0,
        }
    }
}

impl Write for Taking<'_> {
    fn write(&mut self, buf: &[u8]) -> io::Result<usize> {
        tire(&mut self.strength.writes)?;
        let count = buf.len().min(self.strength.takes);
        self.taken.extend_from_slice(&buf[..count])?;
        self.longest = self.longest.max(count);
        Ok(count)
    }

    fn flush(&mut self) -> io::Result<()> {
        tire(&mut self.strength.flushes)?;
        self.desk.flushed.set(self.taken.len());
        Ok(())
    }
}

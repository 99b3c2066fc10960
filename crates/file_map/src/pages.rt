//! What lies on a page.
ghost use Rattle.std.specs.Prelude.{◌≡◌};
ghost use Rattle.file_map.specs.Pages.{page_content, glyph, name, content_number, users};

use crate::part::Users;

/// What lies on a page: the kind of its parts and whose they are, where they are of one kind.
#[derive(Clone, Copy, Debug, PartialEq, Eq)]
pub enum Content {
    Nothing,
    Slots,
    Directory(Users),
    /// Images of raw blocks.
    Raw(Users),
    /// Images of heaps.
    Heap(Users),
    /// Parts of several kinds, which no file has that `geosvm` wrote.
    Several,
}

/// How many contents there are.
pub const CONTENTS: usize = 12;

/// In the order of the legend.
pub const LEGEND: [Content; CONTENTS] = [
    Content::Slots,
    Content::Directory(Users::Both),
    Content::Directory(Users::Updated),
    Content::Directory(Users::Saved),
    Content::Raw(Users::Both),
    Content::Raw(Users::Updated),
    Content::Raw(Users::Saved),
    Content::Heap(Users::Both),
    Content::Heap(Users::Updated),
    Content::Heap(Users::Saved),
    Content::Several,
    Content::Nothing,
];

/// Who uses a page, one at least.
pub fn users(updated: bool, saved: bool) -> Users
    ensures { result ≡ users updated saved }
{
    match (updated, saved) {
        (true, true) => Users::Both,
        (true, false) => Users::Updated,
        (false, _) => Users::Saved,
    }
}

/// What a page has, by the kinds of the parts on it.
pub fn make_content(slots: bool, directory: bool, raw: bool, heap: bool, users: Users) -> Content
    ensures { result ≡ page_content slots directory raw heap users }
{
    match (slots, directory, raw, heap) {
        (false, false, false, false) => Content::Nothing,
        (true, false, false, false) => Content::Slots,
        (false, true, false, false) => Content::Directory(users),
        (false, false, true, false) => Content::Raw(users),
        (false, false, false, true) => Content::Heap(users),
        _ => Content::Several,
    }
}

impl Content {
    /// The character of a page in the text.
    pub fn glyph(self) -> u8
        ensures { result ≡ glyph self }
    {
        match self {
            Content::Nothing => b'.',
            Content::Slots => b'S',
            Content::Directory(Users::Both) => b'D',
            Content::Directory(Users::Updated) => b'd',
            Content::Directory(Users::Saved) => b'~',
            Content::Raw(Users::Both) => b'R',
            Content::Raw(Users::Updated) => b'r',
            Content::Raw(Users::Saved) => b'-',
            Content::Heap(Users::Both) => b'H',
            Content::Heap(Users::Updated) => b'h',
            Content::Heap(Users::Saved) => b'=',
            Content::Several => b'!',
        }
    }

    /// What the legend says of it.
    pub fn name(self) -> &'static [u8]
        ensures { result.now ≡ name self }
    {
        match self {
            Content::Nothing => b"nothing",
            Content::Slots => b"the slots",
            Content::Directory(Users::Both) => b"directory of both documents",
            Content::Directory(Users::Updated) => b"directory of the updated document",
            Content::Directory(Users::Saved) => b"directory of the saved document",
            Content::Raw(Users::Both) => b"raw blocks of both documents",
            Content::Raw(Users::Updated) => b"raw blocks of the updated document",
            Content::Raw(Users::Saved) => b"raw blocks of the saved document",
            Content::Heap(Users::Both) => b"heaps of both documents",
            Content::Heap(Users::Updated) => b"heaps of the updated document",
            Content::Heap(Users::Saved) => b"heaps of the saved document",
            Content::Several => b"several of these",
        }
    }

    /// Its place in the legend, from 0 on.
    pub fn number(self) -> usize
        ensures { result ≡ content_number self }
    {
        match self {
            Content::Slots => 0,
            Content::Directory(Users::Both) => 1,
            Content::Directory(Users::Updated) => 2,
            Content::Directory(Users::Saved) => 3,
            Content::Raw(Users::Both) => 4,
            Content::Raw(Users::Updated) => 5,
            Content::Raw(Users::Saved) => 6,
            Content::Heap(Users::Both) => 7,
            Content::Heap(Users::Updated) => 8,
            Content::Heap(Users::Saved) => 9,
            Content::Several => 10,
            Content::Nothing => 11,
        }
    }
}

//! How the parts of a file are filled in SVG.
ghost use Rattle.std.specs.Prelude.{◌≡◌};
ghost use Rattle.file_map.specs.Svg.{content_fill, fill};

use crate::pages::Content;
use crate::part::{Kind, Users};

/// The patterns that fills name. A colour is a kind, dark to light also in grey: directories, heaps, raw blocks.
/// Strokes are the updated document's, dots the saved one's.
pub const PATTERNS: &[u8] =
    b"<defs><pattern id='n' width='14' height='14' patternUnits='userSpaceOnUse'><rect width='12' height='12' fill='#eee'/></pattern>
<pattern id='g' width='14' height='14' patternUnits='userSpaceOnUse'><rect x='13' width='1' height='14' fill='#fff' fill-opacity='.4'/></pattern>
<pattern id='du' width='7' height='7' patternUnits='userSpaceOnUse'><rect width='7' height='7' fill='#4a1486'/><path d='M0 7L7 0' stroke='#fff' stroke-width='2'/></pattern>
<pattern id='ds' width='7' height='7' patternUnits='userSpaceOnUse'><rect width='7' height='7' fill='#4a1486'/><circle cx='3' cy='3' r='2' fill='#fff'/></pattern>
<pattern id='ru' width='7' height='7' patternUnits='userSpaceOnUse'><rect width='7' height='7' fill='#f0a848'/><path d='M0 7L7 0' stroke='#000' stroke-width='1'/></pattern>
<pattern id='rs' width='7' height='7' patternUnits='userSpaceOnUse'><rect width='7' height='7' fill='#f0a848'/><circle cx='3' cy='3' r='1.5' fill='#000'/></pattern>
<pattern id='hu' width='7' height='7' patternUnits='userSpaceOnUse'><rect width='7' height='7' fill='#2c7fb8'/><path d='M0 7L7 0' stroke='#fff' stroke-width='2'/></pattern>
<pattern id='hs' width='7' height='7' patternUnits='userSpaceOnUse'><rect width='7' height='7' fill='#2c7fb8'/><circle cx='3' cy='3' r='2' fill='#fff'/></pattern></defs>
";

/// The fill of a part.
pub fn fill(kind: Kind, users: Users) -> &'static [u8]
    ensures { result.now ≡ fill kind users }
{
    match (kind, users) {
        (Kind::Slots, _) => b"#000",
        (Kind::Directory, Users::Both) => b"#4a1486",
        (Kind::Directory, Users::Updated) => b"url(#du)",
        (Kind::Directory, Users::Saved) => b"url(#ds)",
        (Kind::Raw, Users::Both) => b"#f0a848",
        (Kind::Raw, Users::Updated) => b"url(#ru)",
        (Kind::Raw, Users::Saved) => b"url(#rs)",
        (Kind::Heap, Users::Both) => b"#2c7fb8",
        (Kind::Heap, Users::Updated) => b"url(#hu)",
        (Kind::Heap, Users::Saved) => b"url(#hs)",
    }
}

/// The fill of the parts that a page has.
pub fn content_fill(content: Content) -> &'static [u8]
    ensures { result.now ≡ content_fill content }
{
    match content {
        Content::Nothing => b"#eee",
        Content::Slots => fill(Kind::Slots, Users::Both),
        Content::Directory(users) => fill(Kind::Directory, users),
        Content::Raw(users) => fill(Kind::Raw, users),
        Content::Heap(users) => fill(Kind::Heap, users),
        Content::Several => b"none",
    }
}

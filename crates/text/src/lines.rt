// The lines of a text.
ghost use Rattle.std.specs.Prelude.{◌≡◌, ◌<◌, length};
ghost use Rattle.text.specs.Reading.{FirstLine};

use crate::class::{Class, class_of};

// A line of a text: its bytes, and what follows the line feed that ends it, if one does.
#[derive(Clone, Copy, Debug)]
pub(crate) struct Line<'a> {
    pub(crate) bytes: &'a [u8],
    pub(crate) after: Option<&'a [u8]>,
}

// The first line of a text.
pub(crate) fn first_line(text: &[u8]) -> Line<'_>
    requires { 0 < length text.now }
    ensures { FirstLine text.now result }
{
    let end = text
        .iter()
        .position(|&byte| class_of(byte) == Class::LineFeed);
    match end {
        Some(end) => Line {
            bytes: &text[..end],
            after: Some(&text[end + 1..]),
        },
        None => Line {
            bytes: text,
            after: None,
        },
    }
}

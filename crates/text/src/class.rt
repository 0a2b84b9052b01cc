// The classes of bytes.
ghost use Rattle.std.specs.Prelude.{◌≡◌, ◌≤◌, length};
ghost use Rattle.std.specs.List.{prefix_len};
ghost use Rattle.text.specs.Classes.{class_of, of_class};

use Class::{Closing, Digit, Letter, LineFeed, Opening, Other, Space};

// What a byte is to a reader: an opening or a closing bracket, a space, a line feed, a digit, a small
// letter, or any other byte, which no text may hold.
#[derive(Clone, Copy, Debug, PartialEq, Eq)]
pub enum Class {
    Opening,
    Closing,
    Space,
    LineFeed,
    Digit,
    Letter,
    Other,
}

// The class of each byte. It is a table, so that every byte costs one look-up, and its rule is proved once
// over all entries.
static CLASSES: [Class; 256] = [
    Other, Other, Other, Other, Other, Other, Other, Other, Other, Other, LineFeed, Other, Other,
    Other, Other, Other, Other, Other, Other, Other, Other, Other, Other, Other, Other, Other,
    Other, Other, Other, Other, Other, Other, Space, Other, Other, Other, Other, Other, Other,
    Other, Opening, Closing, Other, Other, Other, Other, Other, Other, Digit, Digit, Digit, Digit,
    Digit, Digit, Digit, Digit, Digit, Digit, Other, Other, Other, Other, Other, Other, Other,
    Other, Other, Other, Other, Other, Other, Other, Other, Other, Other, Other, Other, Other,
    Other, Other, Other, Other, Other, Other, Other, Other, Other, Other, Other, Other, Other,
    Other, Other, Other, Other, Other, Other, Letter, Letter, Letter, Letter, Letter, Letter,
    Letter, Letter, Letter, Letter, Letter, Letter, Letter, Letter, Letter, Letter, Letter, Letter,
    Letter, Letter, Letter, Letter, Letter, Letter, Letter, Letter, Other, Other, Other, Other,
    Other, Other, Other, Other, Other, Other, Other, Other, Other, Other, Other, Other, Other,
    Other, Other, Other, Other, Other, Other, Other, Other, Other, Other, Other, Other, Other,
    Other, Other, Other, Other, Other, Other, Other, Other, Other, Other, Other, Other, Other,
    Other, Other, Other, Other, Other, Other, Other, Other, Other, Other, Other, Other, Other,
    Other, Other, Other, Other, Other, Other, Other, Other, Other, Other, Other, Other, Other,
    Other, Other, Other, Other, Other, Other, Other, Other, Other, Other, Other, Other, Other,
    Other, Other, Other, Other, Other, Other, Other, Other, Other, Other, Other, Other, Other,
    Other, Other, Other, Other, Other, Other, Other, Other, Other, Other, Other, Other, Other,
    Other, Other, Other, Other, Other, Other, Other, Other, Other, Other, Other, Other, Other,
    Other, Other, Other, Other, Other, Other, Other, Other, Other, Other, Other, Other,
];

// The class of a byte.
pub fn class_of(byte: u8) -> Class
    ensures { result ≡ class_of byte }
{
    CLASSES[byte as usize]
}

// How many bytes at the front are of a class.
pub(crate) fn run_length(bytes: &[u8], class: Class) -> usize
    ensures value { result ≡ prefix_len (of_class class) bytes.now }
    ensures within { result ≤ length bytes.now }
{
    bytes
        .iter()
        .take_while(|&&byte| class_of(byte) == class)
        .count()
}

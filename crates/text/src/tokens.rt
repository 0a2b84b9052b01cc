// A line, token after token.
ghost use Rattle.std.specs.Prelude.{◌≡◌, ◌+◌, ◌^◌, ◌<◌, ◌≤◌, length, take, drop};
ghost use Rattle.text.specs.Tokens.{lexeme_length};

use crate::class::{Class, class_of, run_length};
use crate::place::{Place, TextRefusal};
use crate::token::{Token, token_of};

// What is left of a line, and the place of its first byte.
#[derive(Debug, Drop)]
pub(crate) struct Tokens<'a> {
    rest: &'a [u8],
    place: Place,
    ghost fits: { place.offset + length rest.now < 2 ^ 64 },
}

// How many bytes are in the token at the front, which begins with a byte of a class.
fn token_length(bytes: &[u8], class: Class) -> usize
    ensures { result ≡ lexeme_length class bytes.now }
{
    match class {
        Class::Digit | Class::Letter => run_length(bytes, class),
        _ => 1,
    }
}

impl<'a> Tokens<'a> {
    ghost use Rattle.text.specs.Reading.{lexemes_left, Passes};
    ghost use Rattle.text.specs.Tokens.{lexemes};

    // The tokens of line `number`.
    pub(crate) fn new(line: &'a [u8], number: usize) -> Tokens<'a>
        ensures { lexemes_left result ≡ lexemes number 0 line.now }
    {
        Tokens {
            rest: line,
            place: Place::start_of(number),
        }
    }

    // The bytes at the front. The others are left.
    fn take_bytes(&mut self, count: usize) -> &'a [u8]
        requires { count ≤ length self.old.rest.now }
        ensures bytes { result.now ≡ take count self.old.rest.now }
        ensures onward { Passes count self.old self.new }
    {
        let (bytes, rest) = self.rest.split_at(count);
        self.rest = rest;
        self.place.offset += count;
        bytes
    }
}

impl<'a> Iterator for Tokens<'a> {
    ghost use Rattle.std.specs.Iterator.{item_count};
    ghost use Rattle.text.specs.Reading.{NextToken};

    type Item = Result<Token<'a>, TextRefusal>;

    ghost next_gives = { NextToken };

    ghost remaining = { item_count (λ s. s.rest.now) };

    fn next(&mut self) -> Option<Result<Token<'a>, TextRefusal>> {
        let spaces = run_length(self.rest, Class::Space);
        self.take_bytes(spaces);
        let class = class_of(*self.rest.first()?);
        let place = self.place;
        let length = token_length(self.rest, class);
        let bytes = self.take_bytes(length);
        Some(token_of(class, bytes, place))
    }
}

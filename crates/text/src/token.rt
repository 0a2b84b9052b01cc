// The tokens of a line.
ghost use Rattle.std.specs.Prelude.{◌≡◌, ◌≢◌, ◌∷◌, [], ◌||◌, length, nat_le, nat_lt};
ghost use Rattle.std.specs.Bool.{then_some};
ghost use Rattle.text.specs.declared.class.Class.TheVariants.{Opening, Closing, Space};
ghost use Rattle.text.specs.Tokens.{numeral, zero_first, most_number, most_letters};
ghost use Rattle.text.specs.Reading.{lexeme_of, IsReadingOf};

use crate::class::Class;
use crate::place::{Cause, Place, TextRefusal};

// A token is a part of the text, and carries its place.
#[derive(Clone, Copy, Debug)]
pub enum Token<'a> {
    Opening(Place),
    Closing(Place),
    Word(&'a [u8], Place),
    Number(&'a [u8], Place),
}

impl Token<'_> {
    // The place of the token.
    pub(crate) fn place(self) -> Place
        ensures { result ≡ (lexeme_of self.entry).place }
    {
        match self {
            Token::Opening(place)
            | Token::Closing(place)
            | Token::Word(_, place)
            | Token::Number(_, place) => place,
        }
    }
}

// The number that digits write, if it is not too large. Not by `parse`: that reads a `str`, and these
// bytes would first have to be tested for being one, and for not being empty.
fn number_of(digits: &[u8]) -> Option<u16>
    ensures { result ≡ then_some (nat_le (numeral digits.now) most_number) (numeral digits.now) }
{
    let mut value: u16 = 0;
    for digit in digits {
        let units = u16::from(digit.saturating_sub(b'0'));
        value = value.checked_mul(10)?.checked_add(units)?;
    }
    Some(value)
}

// Whether digits write no number: it is too large, or has a 0 before more digits.
fn is_no_number(digits: &[u8]) -> bool
    ensures { result ≡ (nat_lt most_number (numeral digits.now) || zero_first digits.now) }
{
    number_of(digits).is_none() || matches!(digits, [b'0', _, ..])
}

// Whether letters are no word: there are too many.
fn is_no_word(letters: &[u8]) -> bool
    ensures { result ≡ nat_lt most_letters (length letters.now) }
{
    letters.len() > 8
}

// The token that bytes of a class are, or why they are none.
pub(crate) fn token_of(class: Class, bytes: &[u8], place: Place) -> Result<Token<'_>, TextRefusal>
    requires front { class ≢ Space }
    requires opening { class ≡ Opening → bytes.now ≡ 40 ∷ [] }
    requires closing { class ≡ Closing → bytes.now ≡ 41 ∷ [] }
    ensures { IsReadingOf (record { class = class; bytes = bytes.now; place = place }) result }
{
    match class {
        Class::Opening => Ok(Token::Opening(place)),
        Class::Closing => Ok(Token::Closing(place)),
        Class::Digit if is_no_number(bytes) => Err(place.refusal(Cause::Number)),
        Class::Digit => Ok(Token::Number(bytes, place)),
        Class::Letter if is_no_word(bytes) => Err(place.refusal(Cause::Word)),
        Class::Letter => Ok(Token::Word(bytes, place)),
        Class::Space | Class::LineFeed | Class::Other => Err(place.refusal(Cause::Byte)),
    }
}

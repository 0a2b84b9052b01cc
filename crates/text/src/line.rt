// Whether a line is one form.
ghost use Rattle.std.specs.Prelude.{◌≡◌, IfOk, is_some};
ghost use Rattle.text.specs.declared.shape.Shape.TheVariants.{Start};
ghost use Rattle.text.specs.Refusals.{told};
ghost use Rattle.text.specs.Tokens.{lexemes, lexical_refusal};
ghost use Rattle.text.specs.Forms.{shape_of, deep_place, line_refusal};

use crate::lines::Line;
use crate::place::{Cause, Place, TextRefusal};
use crate::shape::{LineShape, Shape};
use crate::tokens::Tokens;

// The shape of line `number`, or the first of its tokens that is at fault.
fn read_shape(line: &[u8], number: usize) -> Result<LineShape, TextRefusal>
    ensures refusal { told result ≡ lexical_refusal (lexemes number 0 line.now) }
    ensures shape { IfOk result (λ s. s.shape ≡ shape_of Start (lexemes number 0 line.now)) }
    ensures deep { IfOk result (λ s. s.deep ≡ deep_place Start (lexemes number 0 line.now)) }
{
    let mut read = LineShape {
        shape: Shape::Start,
        deep: None,
    };
    for token in Tokens::new(line, number) {
        read = read.after(token?);
    }
    Ok(read)
}

// Whether line `number` is one form, and is ended.
pub(crate) fn check_line(line: Line, number: usize) -> Result<(), TextRefusal>
    ensures { told result ≡ line_refusal number (is_some line.entry.after) (lexemes number 0 line.entry.bytes.now) }
{
    let read = read_shape(line.bytes, number)?;
    if !(line.after.is_some() && read.shape.is_done()) {
        return Err(Place::start_of(number).refusal(Cause::Line));
    }
    match read.deep {
        Some(place) => Err(place.refusal(Cause::Depth)),
        None => Ok(()),
    }
}

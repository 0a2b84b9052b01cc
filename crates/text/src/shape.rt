// The shape of a line, as far as it has been read.
ghost use Rattle.std.specs.Prelude.{◌≡◌, ◌+◌, ◌^◌, ◌<◌, ◌≤◌};
ghost use Rattle.std.specs.Option.{option_or};
ghost use Rattle.std.specs.Bool.{then_some};
ghost use Rattle.text.specs.Reading.{lexeme_of, depth_of};
ghost use Rattle.text.specs.Forms.{closed, shape_after, is_done, is_deep};

use crate::place::Place;
use crate::token::Token;

// At the start a form has to open. After an opening bracket a word is due, and then anything may come
// inside the form; both know how deep the form is nested. After the one form the line is done. A line that
// is no form is broken.
#[derive(Clone, Copy, Debug)]
pub(crate) enum Shape {
    Start,
    Due(usize),
    Inside(usize),
    Done,
    Broken,
}

// Where a closing bracket leads from a depth.
fn close_at(depth: usize) -> Shape
    ensures value { result ≡ closed depth }
    ensures bound { depth_of result ≤ depth }
{
    if depth == 1 {
        Shape::Done
    } else {
        Shape::Inside(depth.saturating_sub(1))
    }
}

impl Shape {
    // What a token makes of the shape.
    fn after(self, token: Token) -> Shape
        requires { depth_of self + 1 < 2 ^ 64 }
        ensures value { result ≡ shape_after self (lexeme_of token.entry).class }
        ensures bound { depth_of result ≤ depth_of self + 1 }
    {
        match (self, token) {
            (Shape::Start, Token::Opening(_)) => Shape::Due(1),
            (Shape::Due(depth), Token::Word(_, _)) => Shape::Inside(depth),
            (Shape::Inside(depth), Token::Opening(_)) => Shape::Due(depth + 1),
            (Shape::Inside(depth), Token::Closing(_)) => close_at(depth),
            (Shape::Inside(depth), _) => Shape::Inside(depth),
            _ => Shape::Broken,
        }
    }

    // Whether a form has just been opened too deep.
    fn is_deep(self) -> bool
        ensures { result ≡ is_deep self }
    {
        matches!(self, Shape::Due(depth) if depth > 64)
    }

    // Whether the line is one form.
    pub(crate) fn is_done(self) -> bool
        ensures { result ≡ is_done self }
    {
        matches!(self, Shape::Done)
    }
}

// The shape of what was read of a line, and the place of the first bracket that opened a form too deep.
#[derive(Clone, Copy, Debug)]
pub(crate) struct LineShape {
    pub(crate) shape: Shape,
    pub(crate) deep: Option<Place>,
}

impl LineShape {
    // One token more.
    pub(crate) fn after(self, token: Token) -> LineShape
        requires { depth_of self.shape + 1 < 2 ^ 64 }
        ensures shape { result.shape ≡ shape_after self.shape (lexeme_of token.entry).class }
        ensures deep { result.deep ≡ option_or self.deep (then_some (is_deep (shape_after self.shape (lexeme_of token.entry).class)) (lexeme_of token.entry).place) }
        ensures bound { depth_of result.shape ≤ depth_of self.shape + 1 }
    {
        let shape = self.shape.after(token);
        let deep = self.deep.or(shape.is_deep().then_some(token.place()));
        LineShape { shape, deep }
    }
}

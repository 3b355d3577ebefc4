// Expressions in postfix: tokens of three bytes each.
ghost use Rattle.std.specs.Prelude.{◌≡◌, if◌then◌else◌, Some, None};
ghost use Rattle.std.specs.Option.{option_map};
ghost use Rattle.model.specs.Policy.{arguments};
ghost use Rattle.model.specs.Rules.{token, tokens};
ghost use Rattle.rules.specs.Tokens.{meant, room, after, first_token, well_held};

use model::{Moment, Operator};

// A signed constant, a cell, an argument (4 is the answer), or an operator.
#[derive(Clone, Copy)]
pub enum Token {
    Constant(i16),
    Cell(u8),
    Argument(u8),
    Operator(Operator),
}

// What tokens may name: the cells and the arguments below these numbers.
#[derive(Clone, Copy)]
pub struct Scope {
    pub cells: u8,
    pub arguments: u8,
}

impl Scope {
    // In a policy of so many cells, for rules at a moment: a0 to a3, and after a call its answer too.
    pub(crate) fn at(cells: u8, moment: Moment) -> Scope
        ensures { result ≡ record { cells = cells; arguments = arguments moment } }
    {
        let arguments = match moment {
            Moment::Before => 4,
            Moment::After | Moment::Raised => 5,
        };
        Scope { cells, arguments }
    }
}

impl Token {
    // The token of a kind and a number in a scope.
    fn new(kind: u8, y: u16, scope: Scope) -> Option<Token>
        ensures { option_map meant result ≡ token scope.cells scope.arguments kind y }
    {
        match kind {
            0 => Some(Token::Constant(y.cast_signed())),
            1 if y < u16::from(scope.cells) => Some(Token::Cell(y as u8)),
            2 if y < u16::from(scope.arguments) => Some(Token::Argument(y as u8)),
            3 if y <= 5 => Some(Token::Operator(Operator::from(y as u8))),
            _ => None,
        }
    }

    // The token of the first three bytes.
    pub(crate) fn read(bytes: &[u8], scope: Scope) -> Option<Token>
        ensures { option_map meant result ≡ first_token scope.cells scope.arguments bytes.now }
    {
        let [kind, high, low] = *bytes.first_chunk::<3>()?;
        Token::new(kind, u16::from_be_bytes([high, low]), scope)
    }

    // How many values are held behind the token, with so many before it: none if there are too few
    // for an operator, or if there is no room for one more.
    pub(crate) fn held(&self, d: u8) -> Option<u8>
        ensures { result ≡ (if room d (meant self.now) then Some (after d (meant self.now)) else None) }
    {
        match *self {
            Token::Operator(_) if d >= 2 => Some(d - 1),
            Token::Operator(_) => None,
            _ if d < 8 => Some(d + 1),
            _ => None,
        }
    }
}

// Whether the bytes are tokens that hold at most eight values, and one at the end.
pub(crate) fn balanced(c: &[u8], scope: Scope) -> bool
    ensures { result ≡ well_held 0 (tokens scope.cells scope.arguments c.now) }
{
    let mut d = 0;
    for bytes in c.chunks(3) {
        let Some(t) = Token::read(bytes, scope) else {
            return false;
        };
        let Some(e) = t.held(d) else {
            return false;
        };
        d = e;
    }
    d == 1
}

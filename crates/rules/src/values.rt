// The values of expressions.
ghost use Rattle.std.specs.Prelude.{◌≡◌, ℕ, ◌≤◌, true, List, [], ◌∷◌, ◌++◌, length, pos, if◌then◌else◌, Some, None, slice_index_or, MatchOption};
ghost use Rattle.model.specs.Rules.{Expr, value as valued, expr_bytes, taken, ValidExpr};
ghost use Rattle.rules.specs.Tokens.{meant, room};
ghost use Rattle.rules.specs.Values.{held};

use crate::tokens::{Scope, Token};
use model::Event;

// The number at an index, or 0 where there is none.
fn number_at(xs: &[i32], i: u8) -> i32
    ensures { result ≡ slice_index_or xs.now i (pos 0) }
{
    xs.get(usize::from(i)).copied().unwrap_or(0)
}

// An argument of an event by its number: a0 to a3, and a4, which is the answer.
fn argument(event: &Event, i: u8) -> i32
    ensures { result ≡ slice_index_or (event.now.args ++ (event.now.answer ∷ [])) i (pos 0) }
{
    if i == 4 {
        event.answer
    } else {
        number_at(&event.args, i)
    }
}

// A stack of at most eight values.
#[derive(Clone, Copy)]
pub struct Stack {
    values: [i32; 8],
    depth: usize,
    ghost few: { depth ≤ 8 },
}

impl Stack {
    fn new() -> Stack
        ensures { held result.values result.depth ≡ [] }
    {
        Stack {
            values: [0; 8],
            depth: 0,
        }
    }

    // Lays a value on top, if there is room.
    fn push(&mut self, v: i32) -> Option<()>
        ensures { MatchOption result (8 ≤ length (held self.old.values self.old.depth)) (λ _. held self.new.values self.new.depth ≡ v ∷ held self.old.values self.old.depth) }
    {
        if self.depth == 8 {
            return None;
        }
        self.values[self.depth] = v;
        self.depth += 1;
        Some(())
    }

    // Takes the top value off, if there is one.
    fn pop(&mut self) -> Option<i32>
        ensures { MatchOption result (held self.old.values self.old.depth ≡ []) (λ v. held self.old.values self.old.depth ≡ v ∷ held self.new.values self.new.depth) }
    {
        if self.depth == 0 {
            return None;
        }
        self.depth -= 1;
        Some(self.values[self.depth])
    }

    // Carries out a token, with an event and the cells. None if there are too few values for an
    // operator, or no room for one more value.
    fn carry_out(&mut self, t: Token, event: &Event, cells: &[i32]) -> Option<()>
        ensures { room (length (held self.old.values self.old.depth)) (meant t) ≡ true → (result ≡ Some tt) × (held self.new.values self.new.depth ≡ taken (event.now.args ++ (event.now.answer ∷ [])) cells.now (meant t) (held self.old.values self.old.depth)) }
    {
        match t {
            Token::Constant(z) => self.push(i32::from(z)),
            Token::Cell(i) => self.push(number_at(cells, i)),
            Token::Argument(i) => self.push(argument(event, i)),
            Token::Operator(o) => {
                let b = self.pop()?;
                let a = self.pop()?;
                self.push(o.apply(a, b))
            }
        }
    }
}

// The value of a written expression in a scope, with an event and the cells.
pub(crate) fn evaluate(c: &[u8], scope: Scope, event: &Event, cells: &[i32]) -> i32
    ensures { (ts : Expr) → c.now ≡ expr_bytes ts → ValidExpr scope.cells scope.arguments ts → result ≡ valued (event.now.args ++ (event.now.answer ∷ [])) cells.now ts }
{
    let mut stack = Stack::new();
    for bytes in c.chunks(3) {
        let Some(t) = Token::read(bytes, scope) else {
            return 0;
        };
        if stack.carry_out(t, event, cells).is_none() {
            return 0;
        }
    }
    stack.pop().unwrap_or(0)
}

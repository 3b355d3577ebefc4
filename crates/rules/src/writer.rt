// The blocks of a rule policy, in bytes.
ghost use Rattle.std.specs.Prelude.{◌≡◌, ℕ, ◌<◌, true, List, length};
ghost use Rattle.model.specs.Calls.{block_bytes};
ghost use Rattle.policy.specs.Calls.{put_at};
ghost use Rattle.model.specs.Rules.{Expr, Rule, Update, emit, emit_updates, rules_of, block_of, expr_bytes, ValidExpr};
ghost use Rattle.rules.specs.Tokens.{meant, room};
ghost use Rattle.rules.specs.Views.{Written, WrittenUpdates};
ghost use Rattle.rules.specs.Writer.{Puts, IsCoded, Cells, Fitting, rule_code};

use crate::sizes::{block_len, updates_len};
use crate::tokens::{Scope, Token};
use crate::views::{RuleView, RuleViews, UpdateViews};
use model::{Moment, Test};
use policy::put;

// The instruction of a token that is met with so many values held.
fn code(t: Token, d: u8, first: u8) -> Test
    requires { room d (meant t) ≡ true }
    ensures { (width : ℕ) → Cells width first → IsCoded width first d (meant t) result }
{
    match t {
        Token::Constant(z) => Test::Mset(d, z),
        Token::Cell(i) => Test::Mcell(d, first.saturating_add(i)),
        Token::Argument(i) => Test::Marg(d, i),
        Token::Operator(o) => Test::Op(d - 2, o),
    }
}

// A count that an instruction has room for.
fn count(n: usize) -> u16
    ensures { n < 65536 → result ≡ n }
{
    u16::try_from(n).unwrap_or(u16::MAX)
}

// Writes the code of an expression at a place, and gives the place behind it.
fn put_expr(area: &mut [u8], at: usize, c: &[u8], scope: Scope, first: u8) -> usize
    ensures { (ts : Expr) → c.now ≡ expr_bytes ts → ValidExpr scope.cells scope.arguments ts → Cells scope.cells first → Puts area.old at (emit first 0 ts) result area.new }
{
    let mut to = at;
    let mut d = 0;
    for bytes in c.chunks(3) {
        let Some(t) = Token::read(bytes, scope) else {
            return to;
        };
        let Some(e) = t.held(d) else {
            return to;
        };
        to = put(area, to, code(t, d, first));
        d = e;
    }
    to
}

// Writes the code of updates at a place, each closed by a store, and gives the place behind it.
fn put_updates(area: &mut [u8], at: usize, updates: &[u8], scope: Scope, first: u8) -> usize
    ensures { (us : List Update) → WrittenUpdates scope.cells scope.arguments updates.now us → Cells scope.cells first → Puts area.old at (emit_updates first us) result area.new }
{
    let mut to = at;
    for u in UpdateViews(updates) {
        let end = put_expr(area, to, u.value, scope, first);
        to = put(area, end, Test::Store(0, first.saturating_add(u.cell)));
    }
    to
}

// Writes the code of a rule at a place: its guard, over the rest of it where the guard is zero, its
// updates, and a skip over so many instructions behind it. Gives the place behind it.
fn put_rule(
    area: &mut [u8],
    at: usize,
    rule: &RuleView,
    scope: Scope,
    first: u8,
    behind: usize,
) -> usize
    ensures { (ts : Expr) (us : List Update) → rule.now.guard.now ≡ expr_bytes ts → ValidExpr scope.cells scope.arguments ts → WrittenUpdates scope.cells scope.arguments rule.now.updates.now us → Cells scope.cells first → length (emit_updates first us) < 65535 → behind < 65536 → Puts area.old at (rule_code first ts us behind) result area.new }
{
    let n = updates_len(rule.updates);
    let a = put_expr(area, at, rule.guard, scope, first);
    let b = put(area, a, Test::Skz(0, count(n + 1)));
    let c = put_updates(area, b, rule.updates, scope, first);
    put(area, c, Test::Skip(count(behind)))
}

// Writes the block for a call, a moment and a first cell at the front of an area that has room for it,
// in one pass over the rules.
pub(crate) fn write_rules(
    area: &mut [u8],
    rules: &[u8],
    width: u8,
    call: u8,
    moment: Moment,
    first: u8,
)
    ensures { (rs : List Rule) → Written width rules.now rs → Cells width first → Fitting area.old (block_of first (rules_of rs call moment)) → area.new ≡ put_at area.old 0 (block_bytes (block_of first (rules_of rs call moment))) }
{
    let mut left = block_len(rules, call, moment);
    if left == 0 {
        return;
    }
    let scope = Scope::at(width, moment);
    let mut to = 0;
    for r in RuleViews(rules) {
        if r.is_for(call, moment) {
            left = left.saturating_sub(r.guard.len() / 3 + updates_len(r.updates) + 2);
            to = put_rule(area, to, &r, scope, first, left);
        }
    }
    put(area, to, Test::Viol);
}

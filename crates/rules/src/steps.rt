// The step of a rule policy: the first rule with a nonzero guard acts.
ghost use Rattle.std.specs.Prelude.{◌≡◌, ℕ, ◌*◌, ◌≤◌, List, [], ◌∷◌, ◌++◌, map, length, drop, slice_set};
ghost use Rattle.model.specs.Policy.{arguments};
ghost use Rattle.model.specs.Words.{quads, quad_at, signed_of};
ghost use Rattle.model.specs.Calls.{verdict_of, row_behind};
ghost use Rattle.model.specs.Rules.{Rule, Update, updated, rules_of, rules_step};
ghost use Rattle.rules.specs.Views.{Written, WrittenUpdates};
ghost use Rattle.rules.specs.Steps.{Meets};

use crate::tokens::Scope;
use crate::values::evaluate;
use crate::views::{RuleViews, UpdateViews};
use model::{Event, Verdict};

// What a search for the rule that acts finds: no rule for the event, rules of which none acts, or one
// that acts, by its updates. An `Option<Option<&[u8]>>` would have two nones to tell apart.
#[derive(Clone, Copy)]
pub enum Acting<'a> {
    Unruled,
    Unmet,
    Met(&'a [u8]),
}

// Sets a cell, if it is there.
fn store(cells: &mut [i32], i: u8, v: i32)
    ensures { cells.new ≡ slice_set cells.old i v }
{
    // Through `get_mut` a proof would know nothing of the cells afterwards.
    let at = usize::from(i);
    if at < cells.len() {
        cells[at] = v;
    }
}

// Carries out updates, each of which sees the last.
fn update_cells(updates: &[u8], scope: Scope, event: &Event, cells: &mut [i32])
    ensures { (us : List Update) → WrittenUpdates scope.cells scope.arguments updates.now us → cells.new ≡ updated (event.now.args ++ (event.now.answer ∷ [])) us cells.old }
{
    for u in UpdateViews(updates) {
        let v = evaluate(u.value, scope, event, cells);
        store(cells, u.cell, v);
    }
}

// The rule that acts at an event, with the cells.
fn search<'a>(rules: &'a [u8], scope: Scope, event: &Event, cells: &[i32]) -> Acting<'a>
    requires { scope.arguments ≡ arguments event.now.moment }
    ensures { (rs : List Rule) → Written scope.cells rules.now rs → Meets scope.cells scope.arguments (event.now.args ++ (event.now.answer ∷ [])) cells.now (rules_of rs event.now.call event.now.moment) result }
{
    let mut found = Acting::Unruled;
    for r in RuleViews(rules) {
        if r.is_for(event.call, event.moment) {
            if evaluate(r.guard, scope, event, cells) != 0 {
                return Acting::Met(r.updates);
            }
            found = Acting::Unmet;
        }
    }
    found
}

// Steps the cells of a policy by an event.
pub(crate) fn step_cells(rules: &[u8], width: u8, event: &Event, cells: &mut [i32]) -> Verdict
    ensures answer { (rs : List Rule) → Written width rules.now rs → result ≡ verdict_of (rules_step (event.now.args ++ (event.now.answer ∷ [])) cells.old (rules_of rs event.now.call event.now.moment)) }
    ensures cells { (rs : List Rule) → Written width rules.now rs → cells.new ≡ row_behind cells.old (rules_step (event.now.args ++ (event.now.answer ∷ [])) cells.old (rules_of rs event.now.call event.now.moment)) }
{
    let scope = Scope::at(width, event.moment);
    match search(rules, scope, event, cells) {
        Acting::Unruled => Verdict::Taken,
        Acting::Unmet => Verdict::Refused,
        Acting::Met(updates) => {
            update_cells(updates, scope, event, cells);
            Verdict::Taken
        }
    }
}

// The number of four bytes.
fn number(b: &[u8]) -> i32
    requires { length b.now ≡ 4 }
    ensures { result ≡ signed_of (quad_at b.now 0) }
{
    i32::from_be_bytes([b[0], b[1], b[2], b[3]])
}

// Writes the start values, four bytes each, into the first cells of a row that has room for them.
pub(crate) fn start_cells(bytes: &[u8], cells: &mut [i32])
    requires { length bytes.now ≤ 4 * length cells.old }
    ensures { cells.new ≡ map signed_of (quads bytes.now) ++ drop (length (quads bytes.now)) cells.old }
{
    // Through a `zip` with `iter_mut` a proof would know nothing of the cells afterwards.
    for (i, b) in bytes.chunks_exact(4).enumerate() {
        cells[i] = number(b);
    }
}

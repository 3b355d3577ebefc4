// How long the blocks of a rule policy are.
ghost use Rattle.std.specs.Prelude.{◌≡◌, ℕ, ◌≤◌, List, length, nat_le};
ghost use Rattle.model.specs.Fields.{every};
ghost use Rattle.model.specs.Rules.{Rule, Update, emit_updates, rules_of, block_of};
ghost use Rattle.rules.specs.Views.{Written, WrittenUpdates};

use crate::views::{RuleViews, UpdateViews};
use model::Moment;

// How many instructions updates make.
pub(crate) fn updates_len(updates: &[u8]) -> usize
    ensures value { (n a : ℕ) (us : List Update) → WrittenUpdates n a updates.now us → result ≡ length (emit_updates 0 us) }
    ensures small { result ≤ length updates.now }
{
    let mut len = 0;
    for u in UpdateViews(updates) {
        len += u.value.len() / 3 + 1;
    }
    len
}

// How many instructions the block for a call and a moment has.
pub(crate) fn block_len(rules: &[u8], call: u8, moment: Moment) -> usize
    ensures { (n : ℕ) (rs : List Rule) → Written n rules.now rs → result ≡ length (block_of 0 (rules_of rs call moment)) }
{
    let mut len = 0;
    for r in RuleViews(rules) {
        if r.is_for(call, moment) {
            len += r.guard.len() / 3 + updates_len(r.updates) + 2;
        }
    }
    if len == 0 { 0 } else { len + 1 }
}

// Whether the block for a call and a moment has at most 1,000 instructions.
fn short_block(rules: &[u8], call: u8, moment: Moment) -> bool
    ensures { (n : ℕ) (rs : List Rule) → Written n rules.now rs → result ≡ nat_le (length (block_of 0 (rules_of rs call moment))) 1000 }
{
    block_len(rules, call, moment) <= 1000
}

// Whether every block has at most 1,000 instructions.
pub(crate) fn short_blocks(rules: &[u8]) -> bool
    ensures { (n : ℕ) (rs : List Rule) → Written n rules.now rs → result ≡ every (λ r. nat_le (length (block_of 0 (rules_of rs r.call r.moment))) 1000) rs }
{
    RuleViews(rules).all(|r| short_block(rules, r.call, r.moment))
}

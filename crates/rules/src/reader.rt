// The reader of rule policies: fields and sizes in file order, then expressions, then blocks.
ghost use Rattle.std.specs.Prelude.{◌≡◌, ℕ, ◌+◌, ◌≤◌, true, List, Option, length, drop, None};
ghost use Rattle.model.specs.Fields.{Read, a_tag, fields};
ghost use Rattle.model.specs.Rules.{triples as sized, update_field, rule_field, read_rules};
ghost use Rattle.rules.specs.Pieces.{forget};
ghost use Rattle.rules.specs.Reader.{bad_expr, bad_update, bad_rule, one_bad, faulty, headed as call_and_moment, updating as cell_and_tokens, heading as format_and_cells, opened};

use crate::sizes::short_blocks;
use crate::tokens::{Scope, balanced};
use model::{Moment, Refusal};
use policy::{Pieces, due};
use tlv::Part;

// How a rule policy begins: with so many cells, their start values, and then the rules.
#[derive(Clone, Copy)]
pub struct Opening {
    pub cells: u8,
    pub rules: usize,
}

// Whether the bytes are 1 to 32 tokens by their number.
fn triples(c: &[u8]) -> bool
    ensures { result ≡ sized 1 32 c.now }
{
    c.len() % 3 == 0 && matches!(c.len() / 3, 1..=32)
}

// The place of an expression that is bad, if it is.
fn fault(c: &[u8], at: usize, scope: Scope) -> Option<usize>
    ensures { result ≡ bad_expr scope.cells scope.arguments at c.now }
{
    if balanced(c, scope) { None } else { Some(at) }
}

// Whether the contents of an update are a cell, and 1 to 32 tokens.
fn updating(c: &[u8], cells: u8) -> bool
    ensures { result ≡ cell_and_tokens cells c.now }
{
    matches!(c, [cell, tokens @ ..] if *cell < cells && triples(tokens))
}

// An update that stands at a place and ends with its holder: refused, or its place if its expression
// is bad.
fn update(holder: &[u8], at: usize, scope: Scope) -> Result<Option<usize>, Refusal>
    requires { at + 3 ≤ length holder.now }
    ensures { result ≡ one_bad (bad_update scope.cells scope.arguments) (update_field scope.cells at (drop (at + 3) holder.now)) }
{
    let c = &holder[at + 3..];
    if !updating(c, scope.cells) {
        return Err(Refusal::BadPolicySize(at));
    }
    Ok(fault(&c[1..], at, scope))
}

// The fields of one tag, from a place on to the holder's end, so many at most. Each is read by its
// place in the holder cut behind it: refused, or the place of the first bad expression.
fn each<F>(
    holder: &[u8],
    from: usize,
    tag: u8,
    most: usize,
    read: F,
) -> Result<Option<usize>, Refusal>
where
    F: Fn(&[u8], usize) -> Result<Option<usize>, Refusal>,
    requires tag { a_tag tag ≡ true }
    requires may { (h : _) (p : ℕ) → p + 3 ≤ length h.now → F.pre read h p }
    ensures { (one : ℕ → List ℕ → Read (Option ℕ)) → ((h : _) (p : ℕ) (r : _) → F.post read h p r → r ≡ one p (drop (p + 3) h.now)) → result ≡ faulty (λ b. b) None (fields most tag one from (drop from holder.now)) }
{
    let mut bad = None;
    for (i, (at, field)) in Pieces::new(holder, tag, from).enumerate() {
        let field = field?;
        if i == most {
            return Err(Refusal::BadPolicySize(at));
        }
        let one = read(&holder[..field.next], at)?;
        bad = bad.or(one);
    }
    Ok(bad)
}

// The updates of a rule, from a place on to the holder's end: refused, or the place of the first bad
// expression.
fn updates(holder: &[u8], from: usize, scope: Scope) -> Result<Option<usize>, Refusal>
    ensures { result ≡ faulty (bad_update scope.cells scope.arguments) None (fields 8 69 (update_field scope.cells) from (drop from holder.now)) }
{
    each(holder, from, Part::UPDATE, 8, |h, at| update(h, at, scope))
}

// Whether the contents of a rule begin with a call and a moment.
fn headed(c: &[u8]) -> bool
    ensures { result ≡ call_and_moment c.now }
{
    matches!(c, [0..=63, 0..=2, ..])
}

// A rule that stands at a place and ends with its holder: refused, or the place of its first bad
// expression.
fn rule(holder: &[u8], at: usize, cells: u8) -> Result<Option<usize>, Refusal>
    requires { at + 3 ≤ length holder.now }
    ensures { result ≡ one_bad (bad_rule cells) (rule_field cells at (drop (at + 3) holder.now)) }
{
    let c = &holder[at + 3..];
    if !headed(c) {
        return Err(Refusal::BadPolicySize(at));
    }
    let scope = Scope::at(cells, Moment::from(c[1]));
    let g = due(holder, Part::GUARD, at + 5)?;
    if !triples(g.contents) {
        return Err(Refusal::BadPolicySize(at + 5));
    }
    let bad = fault(g.contents, at + 5, scope);
    let more = updates(holder, g.next, scope)?;
    Ok(bad.or(more))
}

// The rules of a file from a place on: refused, or the place of the first bad expression.
fn rules(file: &[u8], from: usize, cells: u8) -> Result<Option<usize>, Refusal>
    ensures { result ≡ faulty (bad_rule cells) None (fields 64 67 (rule_field cells) from (drop from file.now)) }
{
    each(file, from, Part::RULE, 64, |h, at| rule(h, at, cells))
}

// Whether the contents of the head are the format, 1, and up to 16 cells.
fn heading(c: &[u8]) -> bool
    ensures { result ≡ format_and_cells c.now }
{
    matches!(c, [1, 0..=16])
}

// The head and the start values.
pub(crate) fn open(file: &[u8]) -> Result<Opening, Refusal>
    ensures { result ≡ opened file.now }
{
    if file.len() > 65535 {
        return Err(Refusal::BadPolicyField(0));
    }
    let h = due(file, Part::RULES_HEAD, 0)?;
    if !heading(h.contents) {
        return Err(Refusal::BadPolicySize(0));
    }
    let cells = h.contents[1];
    let s = due(file, Part::RULES_STARTS, h.next)?;
    if s.contents.len() != 4 * cells as usize {
        return Err(Refusal::BadPolicySize(h.next));
    }
    Ok(Opening {
        cells,
        rules: s.next,
    })
}

// Reads a rule policy: fields and sizes in file order, then expressions, then the lengths of blocks.
pub fn check(file: &[u8]) -> Result<(), Refusal>
    ensures { result ≡ forget (read_rules file.now) }
{
    let o = open(file)?;
    let bad = rules(file, o.rules, o.cells)?;
    if let Some(p) = bad {
        return Err(Refusal::BadExpression(p));
    }
    let at = o.rules;
    if !short_blocks(&file[at..]) {
        return Err(Refusal::BlockTooLong);
    }
    Ok(())
}

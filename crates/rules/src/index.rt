// Where the rules for each call and moment stand in a file.
ghost use Rattle.std.specs.Prelude.{◌≡◌, ℕ, ◌-◌, ◌<◌, ◌≤◌, List, length};
ghost use Rattle.model.specs.Rules.{Rule};
ghost use Rattle.rules.specs.Index.{all_at, span_of, kept_first, RowMet, Met, any_span, Firsts, Lasts};
ghost use Rattle.rules.specs.Views.{Written};

use crate::views::RuleViews;
use model::Moment;

// A part of a file, from a place up to the place behind it.
#[derive(Clone, Copy)]
pub struct Span {
    pub(crate) from: u16,
    pub(crate) to: u16,
}

// For each moment and call, the span from its first rule up to behind its last; without a rule it is
// empty, at the file's end: in the controller's memory an `Option` of a span would take six bytes, not
// four.
#[derive(Clone, Copy)]
pub struct Index {
    spans: [[Span; 64]; 3],
}

// Where a span begins once a rule was met at a place: the first that is met stays.
fn begin(from: u16, place: u16, end: u16) -> u16
    ensures { result ≡ kept_first end place from }
{
    if from == end { place } else { from }
}

// Takes in a rule for a call.
fn meet_in(row: &mut [Span; 64], call: u8, rule: Span, end: u16)
    ensures { RowMet end rule call row.old row.new }
{
    let k = usize::from(call);
    if k < 64 {
        let from = begin(row[k].from, rule.from, end);
        row[k] = Span { from, to: rule.to };
    }
}

impl Index {
    // The same empty span for each call and moment.
    fn all_at(place: u16) -> Index
        ensures { result ≡ all_at place }
    {
        let span = Span {
            from: place,
            to: place,
        };
        Index {
            spans: [[span; 64]; 3],
        }
    }

    // The span for a call and a moment.
    pub(crate) fn span(&self, call: u8, moment: Moment) -> Span
        requires { call < 64 }
        ensures { result ≡ span_of self.now call moment }
    {
        self.spans[usize::from(moment.number())][usize::from(call)]
    }

    // Takes in a rule for a call and a moment.
    fn meet(&mut self, call: u8, moment: Moment, rule: Span, end: u16)
        ensures { Met end rule call moment self.old self.new }
    {
        let row = &mut self.spans[usize::from(moment.number())];
        meet_in(row, call, rule, end);
    }

    // The index of rules in bytes that stand at the end of a file.
    pub(crate) fn of(rules: &[u8], end: usize) -> Index
        requires inside { length rules.now ≤ end }
        requires short { end < 65536 }
        ensures firsts { (n : ℕ) (rs : List Rule) → Written n rules.now rs → Firsts rs (end - length rules.now) result }
        ensures lasts { (n : ℕ) (rs : List Rule) → Written n rules.now rs → Lasts rs (end - length rules.now) end result }
    {
        let mut index = Index::all_at(end as u16);
        let mut from = end - rules.len();
        for r in RuleViews(rules) {
            let to = end - r.rest.len();
            let span = Span {
                from: from as u16,
                to: to as u16,
            };
            index.meet(r.call, r.moment, span, end as u16);
            from = to;
        }
        index
    }

    // Whether a call has a rule in a file that ends there.
    pub(crate) fn has_rule(&self, call: u8, end: usize) -> bool
        requires { call < 64 }
        ensures { result ≡ any_span self.now call end }
    {
        Moment::ALL
            .iter()
            .any(|t| usize::from(self.span(call, *t).from) < end)
    }
}

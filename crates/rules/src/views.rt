// Rules and updates as parts of a file that reads.
ghost use Rattle.std.specs.Prelude.{◌≡◌, ℕ, ◌+◌, ◌<◌, ◌≤◌, ◌&&◌, List, ◌++◌, length, nat_eq, Some, IfSome};
ghost use Rattle.std.specs.Option.{option_map};
ghost use Rattle.std.specs.Iterator.{at_most};
ghost use Rattle.model.specs.Fields.{field};
ghost use Rattle.model.specs.Moments.{same_moment};
ghost use Rattle.rules.specs.Views.{front, StepsRule, StepsUpdate};

use model::Moment;

// The contents of a first field, and what stands behind it.
#[derive(Clone, Copy)]
struct Front<'a> {
    contents: &'a [u8],
    rest: &'a [u8],
}

// A rule: its guard and its updates in bytes, and the bytes behind it.
#[derive(Clone, Copy)]
pub struct RuleView<'a> {
    pub call: u8,
    pub moment: Moment,
    pub guard: &'a [u8],
    pub updates: &'a [u8],
    pub rest: &'a [u8],
}

// An update: its expression in bytes.
#[derive(Clone, Copy)]
pub struct UpdateView<'a> {
    pub cell: u8,
    pub value: &'a [u8],
}

// The rules that bytes begin with.
#[derive(Drop)]
pub struct RuleViews<'a>(pub &'a [u8]);

// The updates that bytes begin with.
#[derive(Drop)]
pub struct UpdateViews<'a>(pub &'a [u8]);

// The first field of bytes that begin with one.
fn split<'a>(bytes: &'a [u8]) -> Option<Front<'a>>
    ensures parts { (tag : ℕ) (c z : List ℕ) → length c < 65536 → bytes.now ≡ field tag c ++ z → option_map front result ≡ Some (c, z) }
    ensures less { IfSome result (λ f. length f.contents.now + length f.rest.now + 3 ≤ length bytes.now) }
{
    let ([_, high, low], behind) = bytes.split_first_chunk::<3>()?;
    let size = u16::from_be_bytes([*high, *low]);
    let (contents, rest) = behind.split_at_checked(usize::from(size))?;
    Some(Front { contents, rest })
}

impl<'a> RuleView<'a> {
    // Whether the rule is for a call and a moment.
    pub(crate) fn is_for(&self, call: u8, moment: Moment) -> bool
        ensures { result ≡ nat_eq self.now.call call && same_moment self.now.moment moment }
    {
        self.call == call && self.moment == moment
    }
}

impl<'a> Iterator for RuleViews<'a> {
    type Item = RuleView<'a>;

    ghost next_gives = { λ s r t. StepsRule s.0.now r t.0.now };

    ghost remaining = { λ s. at_most (length s.0.now) };

    fn next(&mut self) -> Option<RuleView<'a>> {
        let rule = split(self.0)?;
        let (head, fields) = rule.contents.split_first_chunk::<2>()?;
        let guard = split(fields)?;
        self.0 = rule.rest;
        Some(RuleView {
            call: head[0],
            moment: Moment::from(head[1]),
            guard: guard.contents,
            updates: guard.rest,
            rest: rule.rest,
        })
    }
}

impl<'a> Iterator for UpdateViews<'a> {
    type Item = UpdateView<'a>;

    ghost next_gives = { λ s r t. StepsUpdate s.0.now r t.0.now };

    ghost remaining = { λ s. at_most (length s.0.now) };

    fn next(&mut self) -> Option<UpdateView<'a>> {
        let update = split(self.0)?;
        let (cell, value) = update.contents.split_first()?;
        self.0 = update.rest;
        Some(UpdateView { cell: *cell, value })
    }
}

// A policy of whichever kind its file is.
ghost use Rattle.std.specs.Prelude.{◌≡◌, IfOk, IfErr, Err};
ghost use Rattle.model.specs.Kinds.{read_policy};
ghost use Rattle.station.specs.declared.kinds.AnyPolicy.{AnyPolicy};
ghost use Rattle.station.specs.Held.{Holds};

use model::{Event, Moment, PolicyKind, Refusal, Verdict};
use policy::{Policy, policy_kind};
use rules::Rules;
use tables::Table;

// A policy of whichever kind its file is: an enum, since either side of a pair may be of either kind.
#[derive(Drop)]
pub enum AnyPolicy<'a> {
    Rules(Rules<'a>),
    Table(Table<'a>),
}

impl<'a> AnyPolicy<'a> {
    // The policy of a file that is one, or what is wrong with the file.
    pub(crate) fn read(file: &'a [u8]) -> Result<AnyPolicy<'a>, Refusal>
        ensures read { IfOk result (λ p. Holds file.now (⟦<AnyPolicy<'a> as Policy>⟧.meaning p) (⟦<AnyPolicy<'a> as Policy>⟧.blocks p)) }
        ensures refused { IfErr result (λ r. read_policy file.now ≡ Err r) }
    {
        match policy_kind(file)? {
            PolicyKind::Rules => Ok(AnyPolicy::Rules(Rules::read(file)?)),
            PolicyKind::Table => Ok(AnyPolicy::Table(Table::read(file)?)),
        }
    }

    // The kind's name.
    pub(crate) fn kind(&self) -> &'static str {
        match self {
            AnyPolicy::Rules(_) => "rules",
            AnyPolicy::Table(_) => "table",
        }
    }
}

impl<'a> Policy for AnyPolicy<'a> {
    ghost meaning = { elim [ AnyPolicy.Rules p ↦ ⟦<Rules<'a> as Policy>⟧.meaning p | AnyPolicy.Table p ↦ ⟦<Table<'a> as Policy>⟧.meaning p ] };

    ghost blocks = { elim [ AnyPolicy.Rules p ↦ ⟦<Rules<'a> as Policy>⟧.blocks p | AnyPolicy.Table p ↦ ⟦<Table<'a> as Policy>⟧.blocks p ] };

    ghost shows = { elim [ AnyPolicy.Rules p ↦ ⟦<Rules<'a> as Policy>⟧.shows p | AnyPolicy.Table p ↦ ⟦<Table<'a> as Policy>⟧.shows p ] };

    fn width(&self) -> u8 {
        match self {
            AnyPolicy::Rules(p) => p.width(),
            AnyPolicy::Table(p) => p.width(),
        }
    }

    fn starts(&self, row: &mut [i32]) -> Result<(), Refusal> {
        match self {
            AnyPolicy::Rules(p) => p.starts(row),
            AnyPolicy::Table(p) => p.starts(row),
        }
    }

    fn watches(&self, call: u8) -> Result<bool, Refusal> {
        match self {
            AnyPolicy::Rules(p) => p.watches(call),
            AnyPolicy::Table(p) => p.watches(call),
        }
    }

    fn step(&self, event: &Event, row: &mut [i32]) -> Result<Verdict, Refusal> {
        match self {
            AnyPolicy::Rules(p) => p.step(event, row),
            AnyPolicy::Table(p) => p.step(event, row),
        }
    }

    fn block_len(&self, call: u8, moment: Moment) -> u16 {
        match self {
            AnyPolicy::Rules(p) => p.block_len(call, moment),
            AnyPolicy::Table(p) => p.block_len(call, moment),
        }
    }

    fn write_block(
        &self,
        call: u8,
        moment: Moment,
        first: u8,
        area: &mut [u8],
    ) -> Result<usize, Refusal> {
        match self {
            AnyPolicy::Rules(p) => p.write_block(call, moment, first, area),
            AnyPolicy::Table(p) => p.write_block(call, moment, first, area),
        }
    }
}

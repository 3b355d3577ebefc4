// Rule policies, straight from their files.
ghost use Rattle.std.specs.Prelude.{◌≡◌, ◌<◌, length, Ok, Err, IfOk, IfErr, OnOk};
ghost use Rattle.model.specs.Tables.{RefusesCalls};
ghost use Rattle.model.specs.Rules.{has_rule, read_rules, rules_in, refusing_rules, rules_automaton, rules_block};
ghost use Rattle.model.proofs.RuleFiles.{rules_shown};
ghost use Rattle.rules.specs.Pieces.{forget};
ghost use Rattle.rules.specs.Index.{FirstsIn, LastsIn, WrittenFor};

use crate::file::RulesFile;
use crate::index::Index;
use crate::sizes::block_len;
use crate::steps::{start_cells, step_cells};
use crate::writer::write_rules;
use model::{Event, Moment, Refusal, Verdict};
use policy::{Policy, known, may_start, may_step, may_write};

// A rule policy.
#[derive(Drop)]
pub struct Rules<'a> {
    file: RulesFile<'a>,
    index: Index,
    ghost firsts: { FirstsIn file.bytes.now index },
    ghost lasts: { LastsIn file.bytes.now index },
}

impl<'a> Rules<'a> {
    // The policy of a file that is one, or what is wrong with the file.
    pub fn read(file: &'a [u8]) -> Result<Rules<'a>, Refusal>
        ensures file { IfOk result (λ p. p.file.bytes.now ≡ file.now) }
        ensures read { OnOk result (forget (read_rules file.now) ≡ Ok tt) }
        ensures refused { IfErr result (λ r. forget (read_rules file.now) ≡ Err r) }
    {
        let file = RulesFile::read(file)?;
        Ok(Rules::over(file))
    }

    // The policy of a file that is one; over any other file, the policy that refuses every call.
    pub fn new(file: &'a [u8]) -> Rules<'a>
        ensures value { rules_in result.file.bytes.now ≡ rules_in file.now }
        ensures refusing { RefusesCalls (rules_automaton refusing_rules) }
    {
        Rules::over(RulesFile::new(file))
    }

    // The policy of a file that reads.
    fn over(file: RulesFile<'a>) -> Rules<'a>
        ensures { result.file.bytes.now ≡ file.entry.bytes.now }
    {
        let index = Index::of(file.rules(), file.bytes.len());
        Rules { file, index }
    }

    // The rules in bytes, from the first one for a call and a moment up to behind the last.
    fn rules_for(&self, call: u8, moment: Moment) -> &'a [u8]
        ensures { WrittenFor (length (rules_in self.now.file.bytes.now).starts) call moment result.now (rules_in self.now.file.bytes.now).rules }
    {
        if call > 63 {
            return &[];
        }
        let span = self.index.span(call, moment);
        &self.file.bytes[usize::from(span.from)..usize::from(span.to)]
    }

    // Whether a call has a rule.
    fn has_rule(&self, call: u8) -> bool
        requires { call < 64 }
        ensures { result ≡ has_rule call (rules_in self.now.file.bytes.now).rules }
    {
        self.index.has_rule(call, self.file.bytes.len())
    }
}

impl<'a> Policy for Rules<'a> {
    ghost meaning = { λ p. rules_automaton (rules_in p.file.bytes.now) };

    ghost blocks = { λ p. rules_block (rules_in p.file.bytes.now) };

    ghost shows = { λ p. rules_shown p.file.bytes.now p.file.reads };

    fn width(&self) -> u8 {
        self.file.width()
    }

    fn starts(&self, row: &mut [i32]) -> Result<(), Refusal> {
        may_start(self.file.width(), row.len())?;
        start_cells(self.file.starts(), row);
        Ok(())
    }

    fn watches(&self, call: u8) -> Result<bool, Refusal> {
        known(call)?;
        Ok(self.has_rule(call))
    }

    fn step(&self, event: &Event, row: &mut [i32]) -> Result<Verdict, Refusal> {
        let width = self.file.width();
        may_step(event.call, width, row.len())?;
        let rules = self.rules_for(event.call, event.moment);
        Ok(step_cells(rules, width, event, &mut row[..usize::from(width)]))
    }

    // `limits` asks this 192 times, and is a third slower where it is a call of its own.
    #[inline(always)]
    fn block_len(&self, call: u8, moment: Moment) -> u16 {
        let rules = self.rules_for(call, moment);
        u16::try_from(block_len(rules, call, moment)).unwrap_or(u16::MAX)
    }

    fn write_block(
        &self,
        call: u8,
        moment: Moment,
        first: u8,
        area: &mut [u8],
    ) -> Result<usize, Refusal> {
        let n = self.block_len(call, moment);
        let width = self.file.width();
        may_write(call, width, first, n, area.len())?;
        let rules = self.rules_for(call, moment);
        write_rules(area, rules, width, call, moment, first);
        Ok(usize::from(n))
    }
}

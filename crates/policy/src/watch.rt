// One policy kept beside a run.
ghost use Rattle.std.specs.Prelude.{◌≡◌, false};
ghost use Rattle.model.specs.Watch.{begin_answer, begun_after, goes_on, judge_answer, judged_after, Watches};

use crate::Policy;
use crate::calls::may_step;
use model::{Event, Moment, Refusal, Verdict};

// A watch over a policy. The row of cells is the caller's, the same for every call. Until it is
// begun it refuses every event.
#[derive(Drop)]
pub struct Watch<P> {
    policy: P,
    begun: bool,
}

// A watch goes on behind an event that is taken and behind a refused before event; a refused answer
// ends it.
fn goes_on(verdict: Verdict, moment: Moment) -> bool
    ensures { result ≡ goes_on verdict moment }
{
    verdict == Verdict::Taken || moment == Moment::Before
}

impl<P: Policy> Watch<P> {
    // A watch that was not begun. From begin on it says of a run's events what the policy says.
    pub fn new(policy: P) -> Watch<P>
        ensures value { result ≡ record { policy = policy; begun = false } }
        ensures law { Watches (P.meaning policy) }
    {
        Watch {
            policy,
            begun: false,
        }
    }

    // Writes the start values into the row; from then on events are judged.
    pub fn begin(&mut self, row: &mut [i32]) -> Result<(), Refusal>
        ensures answer { result ≡ begin_answer (P.meaning self.old.policy) (record { cells = row.old; begun = self.old.begun }) }
        ensures watch { record { cells = row.new; begun = self.new.begun } ≡ begun_after (P.meaning self.old.policy) (record { cells = row.old; begun = self.old.begun }) }
        ensures policy { self.new.policy ≡ self.old.policy }
    {
        self.policy.starts(row)?;
        self.begun = true;
        Ok(())
    }

    // Whether an event is taken; if it is, the row is stepped by it.
    pub fn judge(&mut self, event: &Event, row: &mut [i32]) -> Result<Verdict, Refusal>
        ensures answer { result ≡ judge_answer (P.meaning self.old.policy) (record { cells = row.old; begun = self.old.begun }) event.now }
        ensures watch { record { cells = row.new; begun = self.new.begun } ≡ judged_after (P.meaning self.old.policy) (record { cells = row.old; begun = self.old.begun }) event.now }
        ensures policy { self.new.policy ≡ self.old.policy }
    {
        if !self.begun {
            may_step(event.call, self.policy.width(), row.len())?;
            return Ok(Verdict::Refused);
        }
        let verdict = self.policy.step(event, row)?;
        self.begun = goes_on(verdict, event.moment);
        Ok(verdict)
    }
}

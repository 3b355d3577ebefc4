// Two policies side by side.
ghost use Rattle.std.specs.Prelude.{◌≡◌, ◌+◌, ◌≤◌, ◌++◌, length, take, drop, Some};
ghost use Rattle.model.specs.declared.Verdict.{Verdict};
ghost use Rattle.model.specs.Calls.{verdict_of, block_area};
ghost use Rattle.model.specs.Kinds.{pair_automaton, pair_block};
ghost use Rattle.model.proofs.PairBlocks.{pair_showing};
ghost use Rattle.policy.specs.Calls.{is_taken};

use crate::Policy;
use crate::calls::{may_start, may_step, may_write};
use model::{Event, Moment, Refusal, Verdict};

// Two policies that must both take an event; the second's cells follow the first's.
#[derive(Drop)]
pub struct Pair<P, Q> {
    first: P,
    second: Q,
}

// The first cells of a row, put aside: so many of the 32, which may be more.
#[derive(Clone, Copy)]
struct Aside {
    cells: [i32; 32],
    width: usize,
    ghost narrow: { width ≤ 32 },
}

impl Aside {
    // So many of a row's first cells.
    fn new(row: &[i32], width: usize) -> Aside
        requires narrow { width ≤ 32 }
        requires room { width ≤ length row.now }
        ensures width { result.width ≡ width }
        ensures cells { take width result.cells ≡ take width row.now }
    {
        let mut cells = [0; 32];
        cells[..width].copy_from_slice(&row[..width]);
        Aside { cells, width }
    }

    // Writes them back over the first cells of a row.
    fn put_back(&self, row: &mut [i32])
        requires { self.now.width ≤ length row.old }
        ensures { row.new ≡ take self.now.width self.now.cells ++ drop self.now.width row.old }
    {
        row[..self.width].copy_from_slice(&self.cells[..self.width]);
    }
}

// Whether a step answers that the event is taken.
fn taken(answer: Result<Verdict, Refusal>) -> bool
    ensures { result ≡ is_taken answer }
{
    matches!(answer, Ok(Verdict::Taken))
}

// Writes a policy's block from a place of the area on.
fn write_behind<P: Policy>(p: &P, call: u8, moment: Moment, first: u8, area: &mut [u8], at: usize)
    requires { at ≤ length area.old }
    ensures { area.new ≡ take at area.old ++ block_area (P.meaning p.now) (P.blocks p.now) call moment first (drop at area.old) }
{
    let _ = p.write_block(call, moment, first, &mut area[at..]);
}

impl<P, Q> Pair<P, Q> {
    // The pair of two policies; `limits` says whether it is within the limits.
    pub fn new(first: P, second: Q) -> Pair<P, Q>
        ensures { result ≡ record { first = first; second = second } }
    {
        Pair { first, second }
    }
}

impl<P: Policy, Q: Policy> Pair<P, Q> {
    // Both steps in the row, of which the first has `a` cells and both have `w`. If one of them refuses
    // the event, only the first's cells may change.
    fn step_both(&self, event: &Event, cells: &mut [i32], a: usize, w: usize) -> Verdict
        requires known { event.now.call ≤ 63 }
        requires first { a ≡ (P.Policy.meaning self.now.first).width }
        requires both { w ≡ a + (Q.Policy.meaning self.now.second).width }
        requires narrow { w ≤ 32 }
        requires room { w ≤ length cells.old }
        ensures answer { result ≡ verdict_of ((pair_automaton (P.Policy.meaning self.now.first) (Q.Policy.meaning self.now.second)).step event.now (take w cells.old)) }
        ensures cells { result ≡ Verdict.Taken → Some (take w cells.new) ≡ (pair_automaton (P.Policy.meaning self.now.first) (Q.Policy.meaning self.now.second)).step event.now (take w cells.old) }
        ensures past { result ≡ Verdict.Taken → drop w cells.new ≡ drop w cells.old }
        ensures kept { result ≡ Verdict.Refused → drop a cells.new ≡ drop a cells.old }
    {
        if !taken(self.first.step(event, &mut cells[0..a])) {
            return Verdict::Refused;
        }
        if !taken(self.second.step(event, &mut cells[a..w])) {
            return Verdict::Refused;
        }
        Verdict::Taken
    }
}

impl<P: Policy, Q: Policy> Policy for Pair<P, Q> {
    ghost meaning = { λ p. pair_automaton (P.Policy.meaning p.first) (Q.Policy.meaning p.second) };

    ghost blocks = { λ p. pair_block (P.Policy.meaning p.first).width (P.Policy.blocks p.first) (Q.Policy.blocks p.second) };

    ghost shows = { λ p. pair_showing (P.Policy.meaning p.first) (Q.Policy.meaning p.second) (P.Policy.blocks p.first) (Q.Policy.blocks p.second) (P.Policy.shows p.first) (Q.Policy.shows p.second) };

    fn width(&self) -> u8 {
        self.first.width().saturating_add(self.second.width())
    }

    fn starts(&self, row: &mut [i32]) -> Result<(), Refusal> {
        may_start(self.width(), row.len())?;
        let a = usize::from(self.first.width());
        let _ = self.first.starts(row);
        let _ = self.second.starts(&mut row[a..]);
        Ok(())
    }

    fn watches(&self, call: u8) -> Result<bool, Refusal> {
        let a = self.first.watches(call)?;
        let b = self.second.watches(call)?;
        Ok(a || b)
    }

    fn step(&self, event: &Event, row: &mut [i32]) -> Result<Verdict, Refusal> {
        let w = self.width();
        may_step(event.call, w, row.len())?;
        let a = usize::from(self.first.width());
        let w = usize::from(w);
        let aside = Aside::new(row, a);
        let verdict = self.step_both(event, row, a, w);
        if verdict == Verdict::Refused {
            aside.put_back(row);
        }
        Ok(verdict)
    }

    fn block_len(&self, call: u8, moment: Moment) -> u16 {
        self.first
            .block_len(call, moment)
            .saturating_add(self.second.block_len(call, moment))
    }

    fn write_block(
        &self,
        call: u8,
        moment: Moment,
        first: u8,
        area: &mut [u8],
    ) -> Result<usize, Refusal> {
        let n = self.block_len(call, moment);
        may_write(call, self.width(), first, n, area.len())?;
        let second = first.saturating_add(self.first.width());
        let at = 4 * usize::from(self.first.block_len(call, moment));
        let _ = self.first.write_block(call, moment, first, area);
        write_behind(&self.second, call, moment, second, area, at);
        Ok(usize::from(n))
    }
}

// Policies: what they mean, what their calls answer, and the watch over one.
#![tactic(auto)]

ghost use Rattle.std.specs.Prelude.{◌≡◌};
ghost use Rattle.model.specs.Policy.{Automaton, Blocks, Showing};
ghost use Rattle.model.specs.Calls.{told_width, told_length, starts_answer, starts_row, watched_answer, step_answer, row_after, block_answer, block_area};

use model::{Event, Moment, Refusal, Verdict};

mod blocks;
mod bounds;
mod calls;
mod fields;
mod kind;
mod pair;
mod pieces;
mod watch;

pub use blocks::put;
pub use bounds::limits;
pub use calls::{known, may_start, may_step, may_write};
pub use fields::due;
pub use kind::policy_kind;
pub use pair::Pair;
pub use pieces::{Piece, Pieces};
pub use watch::Watch;

// A policy: an automaton over a row of cells that takes or refuses events, and for each call and
// moment a block of instructions that does what the step says. Every call answers for every input.
pub trait Policy {
    // what the policy means
    ghost meaning: { Self → Automaton };

    // its blocks, by call, moment and first cell
    ghost blocks: { Self → Blocks };

    // that its blocks do what its steps say
    ghost shows: { (p : Self) → Showing (meaning p) (blocks p) };

    // How many cells it has, or 255 where there are more: past 32 every call refuses, by how many does
    // not matter, and an `Option` would be asked for its number at each use.
    fn width(&self) -> u8
        ensures { result ≡ told_width (meaning self.now) };

    // Writes the start values into the row's first cells.
    fn starts(&self, row: &mut [i32]) -> Result<(), Refusal>
        ensures answer { result ≡ starts_answer (meaning self.now) row.old }
        ensures row { row.new ≡ starts_row (meaning self.now) row.old };

    // Whether it watches a call.
    fn watches(&self, call: u8) -> Result<bool, Refusal>
        ensures { result ≡ watched_answer (meaning self.now) call };

    // Steps the row by an event. If the policy refuses it, or the call is refused, the row stays; cells
    // past the width never change.
    fn step(&self, event: &Event, row: &mut [i32]) -> Result<Verdict, Refusal>
        ensures answer { result ≡ step_answer (meaning self.now) event.now row.old }
        ensures row { row.new ≡ row_after (meaning self.now) event.now row.old };

    // How many instructions the block for a call and a moment has, or 65,535 where there are more, as
    // past 1,000 the block is refused.
    fn block_len(&self, call: u8, moment: Moment) -> u16
        ensures { result ≡ told_length (blocks self.now) call moment };

    // Writes the block for a call, a moment and a first cell at the front of the area, four bytes for
    // an instruction, and answers how many instructions it has.
    fn write_block(
        &self,
        call: u8,
        moment: Moment,
        first: u8,
        area: &mut [u8],
    ) -> Result<usize, Refusal>
        ensures answer { result ≡ block_answer (meaning self.now) (blocks self.now) call moment first area.old }
        ensures area { area.new ≡ block_area (meaning self.now) (blocks self.now) call moment first area.old };
}

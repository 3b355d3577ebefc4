// Rows of state tables, straight from their bytes.
ghost use Rattle.std.specs.Prelude.{◌≡◌, ℕ, ◌+◌, ◌*◌, ◌≤◌, List, length, ℤ, pos, slice_set};
ghost use Rattle.std.specs.Option.{option_map};
ghost use Rattle.std.specs.Slice.Iter.{chunks_exact_size};
ghost use Rattle.model.specs.Tables.{from, row_for, row_in, states_block};
ghost use Rattle.model.specs.Calls.{block_bytes};
ghost use Rattle.policy.specs.Calls.{put_at};
ghost use Rattle.tables.specs.States.{state_of, state_tests};

use crate::blocks::put_all;
use model::{Moment, Operator, Test};
use policy::put;
use std::slice::ChunksExact;

// In a row, the byte of a refused event.
const REFUSED: u8 = 255;

// The state that a byte of a row tells, or none where the event is refused.
pub(crate) fn state_of(byte: u8) -> Option<u8>
    ensures { result ≡ state_of byte }
{
    (byte != REFUSED).then_some(byte)
}

// The instructions of a state that has a next one, so many others being behind them.
fn state_tests(first: u8, state: u8, next: u8, behind: u16) -> [Test; 7]
    ensures { result ≡ state_tests first state next behind }
{
    [
        Test::Mcell(0, first),
        Test::Mset(1, i16::from(state)),
        Test::Op(0, Operator::Equal),
        Test::Skz(0, 3),
        Test::Mset(0, i16::from(next)),
        Test::Store(0, first),
        Test::Skip(behind),
    ]
}

// A row: for a call and a moment by its number, by state, the byte of the next state.
#[derive(Clone, Copy)]
pub(crate) struct Row<'a> {
    pub call: u8,
    when: u8,
    nexts: &'a [u8],
    ghost few: { length nexts.now ≤ 16 },
}

impl<'a> Row<'a> {
    ghost use Rattle.tables.specs.Rows.{shown};

    // The row of a field's contents.
    pub(crate) fn new(contents: &'a [u8]) -> Row<'a>
        requires long { 2 ≤ length contents.now }
        requires few { length contents.now ≤ 18 }
        ensures { shown result ≡ row_in contents.now }
    {
        Row {
            call: contents[0],
            when: contents[1],
            nexts: &contents[2..],
        }
    }

    // The moment that it is for.
    pub(crate) fn moment(&self) -> Moment
        ensures { result ≡ (shown self.now).moment }
    {
        Moment::from(self.when)
    }

    // Whether it is for that call and moment.
    pub(crate) fn is_for(&self, call: u8, moment: Moment) -> bool
        ensures { result ≡ row_for call moment (shown self.now) }
    {
        self.call == call && self.moment() == moment
    }

    // The state behind the one that a cell holds, if there is one.
    pub(crate) fn next(&self, state: i32) -> Option<u8>
        ensures { (c : List ℤ) → option_map (λ q. slice_set c 0 (pos q)) result ≡ from c self.now.nexts.now state }
    {
        let state = usize::try_from(state).ok()?;
        let next = self.nexts.get(state)?;
        state_of(*next)
    }

    // How many instructions its block has.
    pub(crate) fn block_len(&self) -> u16
        ensures value { (f q : ℕ) → length (states_block f q self.now.nexts.now) ≡ result }
        ensures few { result ≤ 113 }
    {
        let states = self.nexts.iter().filter(|next| state_of(**next).is_some());
        1 + 7 * states.count() as u16
    }

    // Writes its block at the front of the area, its state being in that cell.
    pub(crate) fn put_block(&self, area: &mut [u8], cell: u8)
        requires { 4 * length (states_block cell 0 self.now.nexts.now) ≤ length area.old }
        ensures { area.new ≡ put_at area.old 0 (block_bytes (states_block cell 0 self.now.nexts.now)) }
    {
        let mut behind = self.block_len();
        let mut at = 0;
        for (state, next) in self.nexts.iter().enumerate() {
            if let Some(next) = state_of(*next) {
                behind -= 7;
                at = put_all(area, at, &state_tests(cell, state as u8, next, behind));
            }
        }
        put(area, at, Test::Viol);
    }
}

// The rows of a table, one field behind the other.
#[derive(Drop)]
pub(crate) struct Rows<'a> {
    fields: ChunksExact<'a, u8>,
    ghost long: { 5 ≤ chunks_exact_size fields },
    ghost few: { chunks_exact_size fields ≤ 21 },
}

impl<'a> Rows<'a> {
    ghost use Rattle.tables.specs.Rows.{rows_of, rows_left};

    // The rows of the file of a table of so many states.
    pub(crate) fn new(file: &'a [u8], states: u8) -> Rows<'a>
        requires head { 6 ≤ length file.now }
        requires few { states ≤ 16 }
        ensures { rows_left result ≡ rows_of states file.now }
    {
        Rows {
            fields: file[6..].chunks_exact(5 + usize::from(states)),
        }
    }
}

impl<'a> Iterator for Rows<'a> {
    ghost use Rattle.std.specs.Iterator.{YieldsFirstBy, item_count};
    ghost use Rattle.tables.specs.Rows.{shown, rows_left};

    type Item = Row<'a>;

    ghost next_gives = { YieldsFirstBy shown rows_left };

    ghost remaining = { item_count rows_left };

    fn next(&mut self) -> Option<Row<'a>> {
        let field = self.fields.next()?;
        Some(Row::new(&field[3..]))
    }
}

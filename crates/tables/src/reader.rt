// The reading of state tables: which files are state tables, and why others are not.
ghost use Rattle.std.specs.Prelude.{◌≡◌, ◌≤◌, ◌||◌, [], length, take, ◌==◌, nat_lt};
ghost use Rattle.std.specs.List.{list_any};
ghost use Rattle.model.specs.Tables.{row_for};
ghost use Rattle.tables.specs.Reading.{head_well, head_states, row_well, rows_answer, apart_from};
ghost use Rattle.tables.specs.Rows.{rows_of, rows_left};

use crate::row::{Rows, state_of};
use model::{Moment, Refusal};
use policy::{Pieces, due};
use tlv::Part;

// The most rows.
const ROWS: usize = 64;

// Whether a head is that of a table: a format of 1, 1 to 16 states, and one of them to start in.
fn is_head(head: &[u8]) -> bool
    ensures { result ≡ head_well head.now }
{
    matches!(head, [1, states @ 1..=16, start] if start < states)
}

// The number of states, from the head.
pub(crate) fn check_head(file: &[u8]) -> Result<u8, Refusal>
    ensures { result ≡ head_states file.now }
{
    let head = due(file, Part::TABLE_HEAD, 0)?;
    if !is_head(head.contents) {
        return Err(Refusal::BadPolicySize(0));
    }
    Ok(head.contents[1])
}

// Whether a byte of a row tells one of so many states, or none.
fn is_next(byte: u8, states: u8) -> bool
    ensures { result ≡ (nat_lt byte states || byte == 255) }
{
    state_of(byte).is_none_or(|state| state < states)
}

// Whether a row has its size, and its call, moment and next states are known.
fn is_row(row: &[u8], states: u8) -> bool
    ensures { result ≡ row_well states row.now }
{
    let [call, moment, nexts @ ..] = row else {
        return false;
    };
    nexts.len() == usize::from(states)
        && *call <= 63
        && *moment <= 2
        && nexts.iter().all(|next| is_next(*next, states))
}

// Row by row to the file's end.
pub(crate) fn check_rows(file: &[u8], states: u8) -> Result<(), Refusal>
    ensures { result ≡ rows_answer 64 states 6 file.now }
{
    for (i, (place, row)) in Pieces::new(file, Part::TABLE_ROW, 6).enumerate() {
        let row = row?;
        if i == ROWS || !is_row(row.contents, states) {
            return Err(Refusal::BadPolicySize(place));
        }
    }
    Ok(())
}

// Whether one of the first rows is for that call and moment.
fn is_taken(rows: Rows, count: usize, call: u8, moment: Moment) -> bool
    ensures { result ≡ list_any (row_for call moment) (take count (rows_left rows.entry)) }
{
    rows.take(count).any(|row| row.is_for(call, moment))
}

// Row by row: none is the second for its call and moment.
pub(crate) fn check_apart(file: &[u8], states: u8) -> Result<(), Refusal>
    requires head { 6 ≤ length file.now }
    requires few { states ≤ 16 }
    ensures { result ≡ apart_from states 0 [] (rows_of states file.now) }
{
    for (i, row) in Rows::new(file, states).enumerate() {
        if is_taken(Rows::new(file, states), i, row.call, row.moment()) {
            return Err(Refusal::SecondRow(6 + (5 + usize::from(states)) * i));
        }
    }
    Ok(())
}

// State tables, straight from their files.
ghost use Rattle.std.specs.Prelude.{◌≡◌, ◌≤◌, true, Ok, Err, IfOk, IfErr, OnOk};
ghost use Rattle.std.specs.Option.{option_map};
ghost use Rattle.model.specs.Tables.{has_row, reads_table, row_of, table_answer, table_automaton, table_block, table_in, refusing_table, write_table, RefusesCalls};
ghost use Rattle.model.proofs.TableFiles.{table_shown};

use crate::reader::{check_apart, check_head, check_rows};
use crate::row::{Row, Rows};
use model::{Event, Moment, Refusal, Verdict};
use policy::{Policy, known, may_start, may_step, may_write};

// The longest file.
const LONGEST: usize = 65535;

// The file of a table of one state with a row for each call, which refuses it. Written out, as it is
// lent for as long as the program runs, and there is no heap to make it in.
static REFUSING: &[u8; 390] = b"a\x00\x03\x01\x01\x00\
      b\x00\x03\x00\x00\xffb\x00\x03\x01\x00\xffb\x00\x03\x02\x00\xffb\x00\x03\x03\x00\xff\
      b\x00\x03\x04\x00\xffb\x00\x03\x05\x00\xffb\x00\x03\x06\x00\xffb\x00\x03\x07\x00\xff\
      b\x00\x03\x08\x00\xffb\x00\x03\x09\x00\xffb\x00\x03\x0a\x00\xffb\x00\x03\x0b\x00\xff\
      b\x00\x03\x0c\x00\xffb\x00\x03\x0d\x00\xffb\x00\x03\x0e\x00\xffb\x00\x03\x0f\x00\xff\
      b\x00\x03\x10\x00\xffb\x00\x03\x11\x00\xffb\x00\x03\x12\x00\xffb\x00\x03\x13\x00\xff\
      b\x00\x03\x14\x00\xffb\x00\x03\x15\x00\xffb\x00\x03\x16\x00\xffb\x00\x03\x17\x00\xff\
      b\x00\x03\x18\x00\xffb\x00\x03\x19\x00\xffb\x00\x03\x1a\x00\xffb\x00\x03\x1b\x00\xff\
      b\x00\x03\x1c\x00\xffb\x00\x03\x1d\x00\xffb\x00\x03\x1e\x00\xffb\x00\x03\x1f\x00\xff\
      b\x00\x03\x20\x00\xffb\x00\x03\x21\x00\xffb\x00\x03\x22\x00\xffb\x00\x03\x23\x00\xff\
      b\x00\x03\x24\x00\xffb\x00\x03\x25\x00\xffb\x00\x03\x26\x00\xffb\x00\x03\x27\x00\xff\
      b\x00\x03\x28\x00\xffb\x00\x03\x29\x00\xffb\x00\x03\x2a\x00\xffb\x00\x03\x2b\x00\xff\
      b\x00\x03\x2c\x00\xffb\x00\x03\x2d\x00\xffb\x00\x03\x2e\x00\xffb\x00\x03\x2f\x00\xff\
      b\x00\x03\x30\x00\xffb\x00\x03\x31\x00\xffb\x00\x03\x32\x00\xffb\x00\x03\x33\x00\xff\
      b\x00\x03\x34\x00\xffb\x00\x03\x35\x00\xffb\x00\x03\x36\x00\xffb\x00\x03\x37\x00\xff\
      b\x00\x03\x38\x00\xffb\x00\x03\x39\x00\xffb\x00\x03\x3a\x00\xffb\x00\x03\x3b\x00\xff\
      b\x00\x03\x3c\x00\xffb\x00\x03\x3d\x00\xffb\x00\x03\x3e\x00\xffb\x00\x03\x3f\x00\xff";

// A state table: one cell, which holds the state.
#[derive(Drop)]
pub struct Table<'a> {
    file: &'a [u8],
    ghost ok: { reads_table file.now ≡ true },
}

// The file of the table that refuses every call.
fn refusing_file() -> &'static [u8]
    ensures { result.now ≡ write_table refusing_table }
{
    REFUSING
}

impl<'a> Table<'a> {
    ghost use Rattle.tables.specs.Rows.{rows_left};

    // What is wrong with a file as a state table, if anything.
    pub fn check(file: &[u8]) -> Result<(), Refusal>
        ensures { result ≡ table_answer file.now }
    {
        if file.len() > LONGEST {
            return Err(Refusal::BadPolicyField(0));
        }
        let states = check_head(file)?;
        check_rows(file, states)?;
        check_apart(file, states)
    }

    // The table of a file that is one, or what is wrong with the file.
    pub fn read(file: &'a [u8]) -> Result<Table<'a>, Refusal>
        ensures file { IfOk result (λ t. t.file.now ≡ file.now) }
        ensures read { OnOk result (table_answer file.now ≡ Ok tt) }
        ensures refused { IfErr result (λ r. table_answer file.now ≡ Err r) }
    {
        Table::check(file)?;
        Ok(Table { file })
    }

    // The table of a file that is one; over any other file, the table that refuses every call.
    pub fn new(file: &'a [u8]) -> Table<'a>
        ensures value { table_in result.file.now ≡ table_in file.now }
        ensures refusing { RefusesCalls (table_automaton refusing_table) }
    {
        match Table::read(file) {
            Ok(table) => table,
            Err(_) => Table {
                file: refusing_file(),
            },
        }
    }

    // How many states the table has.
    fn states(&self) -> u8
        ensures value { result ≡ (table_in self.now.file.now).states }
        ensures few { result ≤ 16 }
    {
        self.file[4]
    }

    // The state that it starts in.
    fn start(&self) -> u8
        ensures { result ≡ (table_in self.now.file.now).start }
    {
        self.file[5]
    }

    // The table's rows.
    fn rows(&self) -> Rows<'a>
        ensures { rows_left result ≡ (table_in self.now.file.now).rows }
    {
        Rows::new(self.file, self.states())
    }

    // The row for a call and a moment, if there is one.
    fn row(&self, call: u8, moment: Moment) -> Option<Row<'a>>
        ensures { option_map (λ r. r.nexts.now) result ≡ row_of (table_in self.now.file.now).rows call moment }
    {
        self.rows().find(|row| row.is_for(call, moment))
    }

    // Whether there is a row for a call.
    fn has_row(&self, call: u8) -> bool
        ensures { result ≡ has_row call (table_in self.now.file.now).rows }
    {
        self.rows().any(|row| row.call == call)
    }
}

impl<'a> Policy for Table<'a> {
    ghost meaning = { λ p. table_automaton (table_in p.file.now) };

    ghost blocks = { λ p. table_block (table_in p.file.now) };

    ghost shows = { λ p. table_shown p.file.now p.ok };

    fn width(&self) -> u8 {
        1
    }

    fn starts(&self, row: &mut [i32]) -> Result<(), Refusal> {
        may_start(1, row.len())?;
        row[0] = i32::from(self.start());
        Ok(())
    }

    fn watches(&self, call: u8) -> Result<bool, Refusal> {
        known(call)?;
        Ok(self.has_row(call))
    }

    fn step(&self, event: &Event, row: &mut [i32]) -> Result<Verdict, Refusal> {
        may_step(event.call, 1, row.len())?;
        let Some(moves) = self.row(event.call, event.moment) else {
            return Ok(Verdict::Taken);
        };
        let Some(next) = moves.next(row[0]) else {
            return Ok(Verdict::Refused);
        };
        row[0] = i32::from(next);
        Ok(Verdict::Taken)
    }

    fn block_len(&self, call: u8, moment: Moment) -> u16 {
        self.row(call, moment).map_or(0, |row| row.block_len())
    }

    fn write_block(
        &self,
        call: u8,
        moment: Moment,
        first: u8,
        area: &mut [u8],
    ) -> Result<usize, Refusal> {
        let n = self.block_len(call, moment);
        may_write(call, 1, first, n, area.len())?;
        if let Some(row) = self.row(call, moment) {
            row.put_block(area, first);
        }
        Ok(usize::from(n))
    }
}

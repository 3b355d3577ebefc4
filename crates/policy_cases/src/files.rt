// Policy files for the tests, and what a reading of them answers. What stands under `cfg(test)` is seen
// in its own crate alone, so each crate of tests has its files.
use model::{PolicyKind, Refusal};
use policy::policy_kind;
use std::alloc::{AllocError, Global};
use tables::Table;

// The policy P: one cell, which starts at 0. Call 5 before: if a0 < 10, s0 becomes s0 + a0. The head
// stands at 0, the starts at 5, the rule at 12, its guard at 17 and its update at 29.
pub(crate) const P: &'static [u8; 42] = b"A\x00\x02\x01\x01B\x00\x04\x00\x00\x00\x00\
      C\x00\x1b\x05\x00D\x00\x09\x02\x00\x00\x00\x00\x0a\x03\x00\x02\
      E\x00\x0a\x00\x01\x00\x00\x02\x00\x00\x03\x00\x00";

// Rules over two cells, which start at 7 and -2, all of them for call 5. Before: if s1 < a1, s0
// becomes s0 + a0 and then s1 becomes s0. After: if a4, s1 becomes a4 - a3. Before again: if
// a2 = -1. Raised: if s0 and a0, or s1, s0 becomes -32768.
pub(crate) const R: &'static [u8; 124] =
    b"A\x00\x02\x01\x02B\x00\x08\x00\x00\x00\x07\xff\xff\xff\xfe\
      C\x00\x22\x05\x00D\x00\x09\x01\x00\x01\x02\x00\x01\x03\x00\x02\
      E\x00\x0a\x00\x01\x00\x00\x02\x00\x00\x03\x00\x00E\x00\x04\x01\x01\x00\x00\
      C\x00\x15\x05\x01D\x00\x03\x02\x00\x04E\x00\x0a\x01\x02\x00\x04\x02\x00\x03\x03\x00\x01\
      C\x00\x0e\x05\x00D\x00\x09\x02\x00\x02\x00\xff\xff\x03\x00\x03\
      C\x00\x1b\x05\x02D\x00\x0f\x01\x00\x00\x02\x00\x00\x03\x00\x04\x01\x00\x01\x03\x00\x05\
      E\x00\x04\x00\x00\x80\x00";

// A rule without cells. Call 7 before: if a0.
pub(crate) const Z: &'static [u8; 19] =
    b"A\x00\x02\x01\x00B\x00\x00C\x00\x08\x07\x00D\x00\x03\x02\x00\x00";

// One cell. Call 0 before: s0 becomes 1 - (2 - (3 - .. (7 - 8))), for which eight values are held.
pub(crate) const E: &'static [u8; 72] = b"A\x00\x02\x01\x01B\x00\x04\x00\x00\x00\x00\
      C\x00\x39\x00\x00D\x00\x03\x00\x00\x01E\x00\x2e\x00\
      \x00\x00\x01\x00\x00\x02\x00\x00\x03\x00\x00\x04\x00\x00\x05\x00\x00\x06\x00\x00\x07\x00\x00\x08\
      \x03\x00\x01\x03\x00\x01\x03\x00\x01\x03\x00\x01\x03\x00\x01\x03\x00\x01\x03\x00\x01";

// The table L: two states. Before call 1 from 0 to 1, before call 2 from 1 to 0, and refused
// otherwise. The head stands at 0, the rows at 6 and 13.
pub(crate) const L: &'static [u8; 20] =
    b"a\x00\x03\x01\x02\x00b\x00\x04\x01\x00\x01\xffb\x00\x04\x02\x00\xff\x00";

// A table of three states that starts in 2. Before call 5 from 0 to 1 and from 2 to 0; after call 5
// all refused; call 63 raised stays.
pub(crate) const T: &'static [u8; 30] =
    b"a\x00\x03\x01\x03\x02b\x00\x05\x05\x00\x01\xff\x00b\x00\x05\x05\x01\xff\xff\xff\
      b\x00\x05\x3f\x02\x00\x01\x02";

// A table of one state that refuses call 0.
pub(crate) const V: &'static [u8; 12] = b"a\x00\x03\x01\x01\x00b\x00\x03\x00\x00\xff";

// The head and the starts of P.
pub(crate) const FRONT: &'static [u8; 12] = b"A\x00\x02\x01\x01B\x00\x04\x00\x00\x00\x00";

// The heads and the starts of 15 cells and of 16 go on with four bytes for each.
pub(crate) const FIFTEEN: &'static [u8; 8] = b"A\x00\x02\x01\x0fB\x00\x3c";

pub(crate) const SIXTEEN: &'static [u8; 8] = b"A\x00\x02\x01\x10B\x00\x40";

pub(crate) const CELL: &'static [u8; 4] = b"\x00\x00\x00\x01";

// A rule for call 0 before with a guard of nine tokens and eight updates of one: 9 + 1 + 8 * 2 + 1 =
// 27 instructions.
pub(crate) const RULE_OF_27: &'static [u8; 91] = b"C\x00\x58\x00\x00D\x00\x1b\x00\x00\x01\
      \x00\x00\x01\x03\x00\x00\x00\x00\x01\x03\x00\x00\x00\x00\x01\x03\x00\x00\x00\x00\x01\x03\x00\x00\
      E\x00\x04\x00\x00\x00\x01E\x00\x04\x00\x00\x00\x01E\x00\x04\x00\x00\x00\x01\
      E\x00\x04\x00\x00\x00\x01E\x00\x04\x00\x00\x00\x01E\x00\x04\x00\x00\x00\x01\
      E\x00\x04\x00\x00\x00\x01E\x00\x04\x00\x00\x00\x01";

// A refusal's number and place, zeros where there is none.
pub(crate) fn fault<A: Drop>(answer: Result<A, Refusal>) -> (u8, usize) {
    match answer {
        Ok(_) => (0, 0),
        Err(r) => (r.number(), r.place()),
    }
}

// What the reader of a file's kind answers.
pub(crate) fn answer(file: &[u8]) -> (u8, usize) {
    match policy_kind(file) {
        Ok(PolicyKind::Rules) => fault(rules::check(file)),
        Ok(PolicyKind::Table) => fault(Table::check(file)),
        Err(r) => (r.number(), r.place()),
    }
}

// A file with some of its bytes changed: in turn an offset and its new byte.
pub(crate) fn changed<const N: usize>(file: &[u8; N], changes: &[u8]) -> [u8; N] {
    let mut file = *file;
    for change in changes.chunks_exact(2) {
        if let [at, byte] = change
            && let Some(b) = file.get_mut(usize::from(*at))
        {
            *b = *byte;
        }
    }
    file
}

// Puts a part behind a file so many times. Where its fourth byte, the call of a rule or of a row, is
// 255, it is for the next call each time.
fn put(file: &mut Vec<u8>, times: usize, part: &[u8]) -> Result<(), AllocError> {
    for turn in 0..times {
        for (i, b) in part.iter().enumerate() {
            let next = i == 3 && *b == 255;
            file.push(if next { (turn % 256) as u8 } else { *b })?;
        }
    }
    Ok(())
}

// A file of a front, so many times a part, and so many times a last one.
pub(crate) fn built(
    heap: Global,
    front: &[u8],
    times: usize,
    part: &[u8],
    last_times: usize,
    last: &[u8],
) -> Result<Vec<u8>, AllocError> {
    let mut file = front.to_vec(heap)?;
    put(&mut file, times, part)?;
    put(&mut file, last_times, last)?;
    Ok(file)
}

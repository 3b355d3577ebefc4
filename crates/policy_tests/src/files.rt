// Policy files for the tests, and what a reading of them answers. What stands under `cfg(test)` is seen
// in its own crate alone, so each crate of tests has its files.
use model::Refusal;

// The policy P: one cell, which starts at 0. Call 5 before: if a0 < 10, s0 becomes s0 + a0. The head
// stands at 0, the starts at 5, the rule at 12, its guard at 17 and its update at 29.
pub const P: &'static [u8; 42] = b"A\x00\x02\x01\x01B\x00\x04\x00\x00\x00\x00\
      C\x00\x1b\x05\x00D\x00\x09\x02\x00\x00\x00\x00\x0a\x03\x00\x02\
      E\x00\x0a\x00\x01\x00\x00\x02\x00\x00\x03\x00\x00";

// The table L: two states. Before call 1 from 0 to 1, before call 2 from 1 to 0, and refused
// otherwise. The head stands at 0, the rows at 6 and 13.
pub const L: &'static [u8; 20] =
    b"a\x00\x03\x01\x02\x00b\x00\x04\x01\x00\x01\xffb\x00\x04\x02\x00\xff\x00";

// A refusal's number and place, zeros where there is none.
pub(crate) fn told(answer: Result<(), Refusal>) -> (u8, usize) {
    match answer {
        Ok(()) => (0, 0),
        Err(r) => (r.number(), r.place()),
    }
}

// A file with some of its bytes changed, each by its offset.
pub(crate) fn changed<const N: usize>(file: &[u8; N], changes: &[(usize, u8)]) -> [u8; N] {
    let mut file = *file;
    for (at, byte) in changes {
        if let Some(b) = file.get_mut(*at) {
            *b = *byte;
        }
    }
    file
}

// Pairs, pairs of pairs, and their limits.
use crate::asking::{
    AFTER, BEFORE, Block, Expected, NO, RAISED, SHORT, Step, TAKEN, UNKNOWN, WIDE, meets,
};
use crate::files::{CELL, FIFTEEN, L, P, R, RULE_OF_27, SIXTEEN, T, V, built};
use model::Moment;
use policy::{Pair, Policy};
use rules::Rules;
use std::alloc::Global;
use std::process::Abort;
use std::test::Fail;
use tables::Table;

// Of P and T, and then R and L: s0 is P's, s1 is T's, s2 and s3 are R's and s4 is L's.
const STEPS: &'static [Step<'static>] = &[
    // P adds 3, T goes from 2 to 0, R adds 3 to 7 and copies the sum
    (
        BEFORE,
        5,
        [3, 0, 0, 0],
        0,
        &[0, 2, 7, -2, 0, 6],
        TAKEN,
        &[3, 0, 10, 10, 0, 6],
    ),
    // one of them refuses, and the whole row stays: P, T, R
    (
        BEFORE,
        5,
        [10, 0, 0, 0],
        0,
        &[0, 2, 7, -2, 0],
        NO,
        &[0, 2, 7, -2, 0],
    ),
    (
        BEFORE,
        5,
        [3, 0, 0, 0],
        0,
        &[0, 1, 7, -2, 0],
        NO,
        &[0, 1, 7, -2, 0],
    ),
    (
        BEFORE,
        5,
        [3, -2, 0, 0],
        0,
        &[0, 2, 7, -2, 0],
        NO,
        &[0, 2, 7, -2, 0],
    ),
    // T refuses every answer, of which R would take this one
    (
        AFTER,
        5,
        [0, 0, 0, 3],
        10,
        &[0, 2, 7, -2, 0],
        NO,
        &[0, 2, 7, -2, 0],
    ),
    // R alone has a rule; T alone has a row, and 3 is no state
    (
        RAISED,
        5,
        [0, 0, 0, 0],
        0,
        &[0, 3, 7, -2, 9],
        TAKEN,
        &[0, 3, -32768, -2, 9],
    ),
    (
        RAISED,
        63,
        [0, 0, 0, 0],
        0,
        &[5, 1, 7, -2, 9],
        TAKEN,
        &[5, 1, 7, -2, 9],
    ),
    (
        RAISED,
        63,
        [0, 0, 0, 0],
        0,
        &[5, 3, 7, -2, 9],
        NO,
        &[5, 3, 7, -2, 9],
    ),
    // L alone
    (
        BEFORE,
        1,
        [10, 0, 0, 0],
        0,
        &[0, 2, 7, -2, 0],
        TAKEN,
        &[0, 2, 7, -2, 1],
    ),
    (
        BEFORE,
        1,
        [10, 0, 0, 0],
        0,
        &[0, 2, 7, -2, 1],
        NO,
        &[0, 2, 7, -2, 1],
    ),
    // none of them
    (
        BEFORE,
        4,
        [10, 0, 0, 0],
        0,
        &[8, 8, 8, 8, 8],
        TAKEN,
        &[8, 8, 8, 8, 8],
    ),
    // five cells are asked for, of a call that none of them watches too
    (BEFORE, 64, [10, 0, 0, 0], 0, &[1], UNKNOWN, &[1]),
    (
        BEFORE,
        5,
        [10, 0, 0, 0],
        0,
        &[0, 2, 7, -2],
        SHORT,
        &[0, 2, 7, -2],
    ),
    (
        BEFORE,
        4,
        [0, 0, 0, 0],
        0,
        &[8, 8, 8, 8],
        SHORT,
        &[8, 8, 8, 8],
    ),
];

// P's block on cell 3, T's on cell 4 and R's on the cells 5 and 6; behind the call T's VIOL and R's on
// the cells 29 and 30; L's on cell 4.
const BLOCKS: &'static [Block<'static>] = &[
    (
        5,
        BEFORE,
        3,
        168,
        0,
        b"\x27\x00\x00\x00\x25\x01\x00\x0a\x29\x00\x00\x02\x23\x00\x00\x05\x26\x00\x00\x03\
          \x27\x01\x00\x00\x29\x00\x00\x00\x28\x00\x00\x03\x22\x00\x00\x01\x24\x00\x00\x00\
          \x26\x00\x00\x04\x25\x01\x00\x00\x29\x00\x00\x03\x23\x00\x00\x03\
          \x25\x00\x00\x01\x28\x00\x00\x04\x22\x00\x00\x08\x26\x00\x00\x04\
          \x25\x01\x00\x02\x29\x00\x00\x03\x23\x00\x00\x03\x25\x00\x00\x00\
          \x28\x00\x00\x04\x22\x00\x00\x01\x24\x00\x00\x00\
          \x26\x00\x00\x06\x27\x01\x00\x01\x29\x00\x00\x02\x23\x00\x00\x07\
          \x26\x00\x00\x05\x27\x01\x00\x00\x29\x00\x00\x00\x28\x00\x00\x05\
          \x26\x00\x00\x05\x28\x00\x00\x06\x22\x00\x00\x06\x27\x00\x00\x02\
          \x25\x01\xff\xff\x29\x00\x00\x03\x23\x00\x00\x01\x22\x00\x00\x01\
          \x24\x00\x00\x00",
    ),
    (
        5,
        AFTER,
        27,
        200,
        0,
        b"\x24\x00\x00\x00\x27\x00\x00\x04\x23\x00\x00\x05\x27\x00\x00\x04\x27\x01\x00\x03\
          \x29\x00\x00\x01\x28\x00\x00\x1e\x22\x00\x00\x01\x24\x00\x00\x00",
    ),
    (
        1,
        BEFORE,
        0,
        32,
        0,
        b"\x26\x00\x00\x04\x25\x01\x00\x00\x29\x00\x00\x03\x23\x00\x00\x03\
          \x25\x00\x00\x01\x28\x00\x00\x04\x22\x00\x00\x01\x24\x00\x00\x00",
    ),
    (4, BEFORE, 27, 0, 0, b""),
    (5, BEFORE, 28, 200, 25, b""),
    (4, BEFORE, 28, 0, 25, b""),
    (64, BEFORE, 28, 0, 8, b""),
    (5, BEFORE, 3, 167, 1, b""),
];

// Of 33 cells and more: 8 and then 25.
const WIDE_STEPS: &'static [Step<'static>] = &[
    (BEFORE, 64, [0, 0, 0, 0], 0, &[], UNKNOWN, &[]),
    (BEFORE, 0, [0, 0, 0, 0], 0, &[5], WIDE, &[5]),
];

// Of 32 cells and 1,000 instructions before call 0: one byte too few.
const LONG_BLOCKS: &'static [Block<'static>] = &[(0, BEFORE, 0, 3999, 1, b"")];

// Of 32 cells and 1,001 instructions before call 0: 8, then 25, then 24, all before 1.
const TOO_LONG_BLOCKS: &'static [Block<'static>] = &[
    (64, BEFORE, 1, 0, 8, b""),
    (0, BEFORE, 1, 0, 25, b""),
    (0, BEFORE, 0, 0, 24, b""),
    (0, AFTER, 0, 0, 0, b""),
];

// What is expected of the pair of P and T and that of R and L; of pairs that are as wide and long as
// may be, too long, and too wide.
const ALL_FOUR: Expected<'static> = Expected {
    limits: 0,
    told: Some((5, &[0, 2, 7, -2, 0, 9], &[1, 2, 5, 63])),
    steps: STEPS,
    blocks: BLOCKS,
};

const MOST: Expected<'static> = Expected {
    limits: 0,
    told: None,
    steps: &[],
    blocks: LONG_BLOCKS,
};

const TOO_LONG: Expected<'static> = Expected {
    limits: 24,
    told: None,
    steps: &[],
    blocks: TOO_LONG_BLOCKS,
};

const TOO_WIDE: Expected<'static> = Expected {
    limits: 25,
    told: None,
    steps: WIDE_STEPS,
    blocks: &[],
};

// A pair of two pairs, each of rules and a table.
fn four<'a>(
    rt: &impl Abort,
    heap: Global,
    a: &'a [u8],
    b: &'a [u8],
    c: &'a [u8],
    d: &'a [u8],
    e: &Expected,
) -> Result<(), Fail> {
    let p = Pair::new(
        Pair::new(Rules::new(a), Table::new(b)),
        Pair::new(Rules::new(c), Table::new(d)),
    );
    meets(rt, heap, &p, e)
}

#[test]
fn pairs_of_pairs(rt: HostRuntime) -> Result<(), Fail> {
    four(&rt, rt.alloc(), P, T, R, L, &ALL_FOUR)
}

// The front and the cells of the first rules, the tables, and what is expected of the pairs with rules
// of 15 cells and 1,000 instructions. 15 + 1 + 15 + 1 cells are allowed and one more is not, whatever
// the blocks; a block of 1,000 instructions is allowed beside none, and beside a lone VIOL it is not.
const LIMITS: &'static [(
    &'static [u8],
    usize,
    &'static [u8],
    &'static [u8],
    Expected<'static>,
)] = &[
    (FIFTEEN, 15, T, L, MOST),
    (FIFTEEN, 15, V, L, TOO_LONG),
    (FIFTEEN, 15, T, V, TOO_LONG),
    (SIXTEEN, 16, T, L, TOO_WIDE),
    (SIXTEEN, 16, V, L, TOO_WIDE),
];

#[test]
fn limits_of_pairs(rt: HostRuntime) -> Result<(), Fail> {
    for (front, cells, b, d, e) in LIMITS {
        let a = built(rt.alloc(), front, *cells, CELL, 0, b"")?;
        let c = built(rt.alloc(), FIFTEEN, 15, CELL, 37, RULE_OF_27)?;
        four(&rt, rt.alloc(), a.as_slice(), b, c.as_slice(), d, e)?;
    }
    Ok(())
}

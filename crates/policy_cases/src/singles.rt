// Rules and tables, each by itself.
use crate::asking::{
    AFTER, BEFORE, Block, Expected, NO, RAISED, SHORT, Step, TAKEN, UNKNOWN, meets,
};
use crate::files::{E, FRONT, L, P, R, RULE_OF_27, T, Z, built};
use model::Moment;
use policy::Policy;
use rules::Rules;
use std::process::Abort;
use std::test::Fail;
use tables::Table;

const STEPS_OF_P: &'static [Step<'static>] = &[
    (BEFORE, 5, [9, 0, 0, 0], 10, &[0, 7], TAKEN, &[9, 7]),
    (BEFORE, 5, [10, 0, 0, 0], 0, &[0, 7], NO, &[0, 7]),
    (BEFORE, 5, [-3, 0, 0, 0], 0, &[4, 7], TAKEN, &[1, 7]),
    (BEFORE, 5, [2147483647, 0, 0, 0], 0, &[3], NO, &[3]),
    (
        BEFORE,
        5,
        [-2147483648, 0, 0, 0],
        0,
        &[0],
        TAKEN,
        &[-2147483648],
    ),
    // sums wrap
    (
        BEFORE,
        5,
        [1, 0, 0, 0],
        0,
        &[2147483647],
        TAKEN,
        &[-2147483648],
    ),
    (
        BEFORE,
        5,
        [-1, 0, 0, 0],
        0,
        &[-2147483648],
        TAKEN,
        &[2147483647],
    ),
    // no rule for the moment, and calls that are not watched
    (AFTER, 5, [10, 0, 0, 0], 0, &[3, 7], TAKEN, &[3, 7]),
    (RAISED, 5, [10, 0, 0, 0], 0, &[3, 7], TAKEN, &[3, 7]),
    (BEFORE, 4, [10, 0, 0, 0], 0, &[3, 7], TAKEN, &[3, 7]),
    (AFTER, 63, [10, 0, 0, 0], 0, &[3, 7], TAKEN, &[3, 7]),
    // 8 before 1 before the policy's own refusal; 1 also of a call that is not watched
    (BEFORE, 64, [10, 0, 0, 0], 0, &[], UNKNOWN, &[]),
    (RAISED, 255, [0, 0, 0, 0], 0, &[3, 7], UNKNOWN, &[3, 7]),
    (BEFORE, 5, [10, 0, 0, 0], 0, &[], SHORT, &[]),
    (AFTER, 4, [0, 0, 0, 0], 0, &[], SHORT, &[]),
];

const STEPS_OF_R: &'static [Step<'static>] = &[
    // -2 < 0: s0 becomes 7 + 3, and s1 what s0 is by then
    (BEFORE, 5, [3, 0, 0, 0], 0, &[7, -2, 5], TAKEN, &[10, 10, 5]),
    // both guards hold, and the first rule acts
    (BEFORE, 5, [1, 5, -1, 0], 0, &[7, -2, 5], TAKEN, &[8, 8, 5]),
    // only the second does, and changes nothing; and none
    (BEFORE, 5, [3, -2, -1, 0], 0, &[7, -2], TAKEN, &[7, -2]),
    (BEFORE, 5, [3, -2, 1, 0], -1, &[7, -2, 5], NO, &[7, -2, 5]),
    // the answer less a3, which wraps; an answer of 0 is refused
    (AFTER, 5, [0, 0, 0, 3], 10, &[7, -2, 5], TAKEN, &[7, 7, 5]),
    (
        AFTER,
        5,
        [0, 0, 0, 1],
        -2147483648,
        &[7, -2],
        TAKEN,
        &[7, 2147483647],
    ),
    (AFTER, 5, [1, 1, 1, 1], 0, &[7, -2, 5], NO, &[7, -2, 5]),
    // s0 and a0, or s1
    (
        RAISED,
        5,
        [-4, 0, 0, 0],
        0,
        &[1, 0, 5],
        TAKEN,
        &[-32768, 0, 5],
    ),
    (
        RAISED,
        5,
        [0, 0, 0, 0],
        0,
        &[0, -1, 5],
        TAKEN,
        &[-32768, -1, 5],
    ),
    (RAISED, 5, [0, 9, 9, 9], 9, &[1, 0, 5], NO, &[1, 0, 5]),
    (RAISED, 5, [3, 9, 9, 9], 9, &[0, 0, 5], NO, &[0, 0, 5]),
    // one cell too few
    (RAISED, 5, [0, 0, 0, 0], 0, &[7], SHORT, &[7]),
];

// 1 - 2 + 3 - 4 + 5 - 6 + 7 - 8 = -4
const STEPS_OF_E: &'static [Step<'static>] = &[(
    BEFORE,
    0,
    [0, 0, 0, 0],
    0,
    &[1, 7],
    TAKEN,
    &[-4, 7],
)];

// Without cells a row may be empty.
const STEPS_OF_Z: &'static [Step<'static>] = &[
    (BEFORE, 7, [-1, 0, 0, 0], 0, &[], TAKEN, &[]),
    (BEFORE, 7, [0, 1, 1, 1], 1, &[7], NO, &[7]),
    (BEFORE, 64, [0, 0, 0, 0], 0, &[], UNKNOWN, &[]),
];

const STEPS_OF_L: &'static [Step<'static>] = &[
    (BEFORE, 1, [0, 0, 0, 0], 0, &[0, 7], TAKEN, &[1, 7]),
    (BEFORE, 1, [0, 0, 0, 0], 0, &[1, 7], NO, &[1, 7]),
    (BEFORE, 2, [0, 0, 0, 0], 0, &[0, 7], NO, &[0, 7]),
    (BEFORE, 2, [0, 0, 0, 0], 0, &[1, 7], TAKEN, &[0, 7]),
    // no state
    (BEFORE, 1, [0, 0, 0, 0], 0, &[2, 7], NO, &[2, 7]),
    (BEFORE, 1, [0, 0, 0, 0], 0, &[-1, 7], NO, &[-1, 7]),
    (BEFORE, 2, [0, 0, 0, 0], 0, &[256, 7], NO, &[256, 7]),
    (
        BEFORE,
        2,
        [0, 0, 0, 0],
        0,
        &[-2147483648],
        NO,
        &[-2147483648],
    ),
    // no row
    (AFTER, 1, [0, 0, 0, 0], 0, &[1, 7], TAKEN, &[1, 7]),
    (RAISED, 2, [0, 0, 0, 0], 0, &[-1, 7], TAKEN, &[-1, 7]),
    (BEFORE, 0, [0, 0, 0, 0], 0, &[5, 7], TAKEN, &[5, 7]),
    // 8 before 1 before the table's own refusal; 1 also of a call that is not watched
    (BEFORE, 64, [0, 0, 0, 0], 0, &[], UNKNOWN, &[]),
    (BEFORE, 2, [0, 0, 0, 0], 0, &[], SHORT, &[]),
    (BEFORE, 0, [0, 0, 0, 0], 0, &[], SHORT, &[]),
];

// MARG 0 0, MSET 1 10, OP 0 2, SKZ 0 5, MCELL 0 c, MARG 1 0, OP 0 0, STORE 0 c, SKIP 1, VIOL, for the
// cells 0, 3 and 31.
const BLOCKS_OF_P: &'static [Block<'static>] = &[
    (
        5,
        BEFORE,
        0,
        40,
        0,
        b"\x27\x00\x00\x00\x25\x01\x00\x0a\x29\x00\x00\x02\x23\x00\x00\x05\x26\x00\x00\x00\
          \x27\x01\x00\x00\x29\x00\x00\x00\x28\x00\x00\x00\x22\x00\x00\x01\x24\x00\x00\x00",
    ),
    (
        5,
        BEFORE,
        3,
        200,
        0,
        b"\x27\x00\x00\x00\x25\x01\x00\x0a\x29\x00\x00\x02\x23\x00\x00\x05\x26\x00\x00\x03\
          \x27\x01\x00\x00\x29\x00\x00\x00\x28\x00\x00\x03\x22\x00\x00\x01\x24\x00\x00\x00",
    ),
    (
        5,
        BEFORE,
        31,
        41,
        0,
        b"\x27\x00\x00\x00\x25\x01\x00\x0a\x29\x00\x00\x02\x23\x00\x00\x05\x26\x00\x00\x1f\
          \x27\x01\x00\x00\x29\x00\x00\x00\x28\x00\x00\x1f\x22\x00\x00\x01\x24\x00\x00\x00",
    ),
    // empty
    (5, AFTER, 0, 0, 0, b""),
    (5, RAISED, 31, 200, 0, b""),
    (4, BEFORE, 31, 0, 0, b""),
    // 8 before 25 before 1, and 25 also of a block that is empty
    (64, BEFORE, 32, 0, 8, b""),
    (255, AFTER, 0, 200, 8, b""),
    (5, BEFORE, 32, 0, 25, b""),
    (5, BEFORE, 255, 200, 25, b""),
    (5, AFTER, 32, 200, 25, b""),
    (4, BEFORE, 32, 200, 25, b""),
    (5, BEFORE, 31, 39, 1, b""),
    (5, BEFORE, 0, 0, 1, b""),
];

// Two cells, up to 31. Before: MCELL 0 1, MARG 1 1, OP 0 2, SKZ 0 7, MCELL 0 0, MARG 1 0, OP 0 0,
// STORE 0 0, MCELL 0 0, STORE 0 1, SKIP 6; MARG 0 2, MSET 1 -1, OP 0 3, SKZ 0 1, SKIP 1; VIOL.
// After: MARG 0 4, SKZ 0 5, MARG 0 4, MARG 1 3, OP 0 1, STORE 0 31, SKIP 1, VIOL. Raised: MCELL 0 7,
// MARG 1 0, OP 0 4, MCELL 1 8, OP 0 5, SKZ 0 3, MSET 0 -32768, STORE 0 7, SKIP 1, VIOL.
const BLOCKS_OF_R: &'static [Block<'static>] = &[
    (
        5,
        BEFORE,
        0,
        68,
        0,
        b"\x26\x00\x00\x01\x27\x01\x00\x01\x29\x00\x00\x02\x23\x00\x00\x07\
          \x26\x00\x00\x00\x27\x01\x00\x00\x29\x00\x00\x00\x28\x00\x00\x00\
          \x26\x00\x00\x00\x28\x00\x00\x01\x22\x00\x00\x06\x27\x00\x00\x02\
          \x25\x01\xff\xff\x29\x00\x00\x03\x23\x00\x00\x01\x22\x00\x00\x01\
          \x24\x00\x00\x00",
    ),
    (
        5,
        AFTER,
        30,
        32,
        0,
        b"\x27\x00\x00\x04\x23\x00\x00\x05\x27\x00\x00\x04\x27\x01\x00\x03\
          \x29\x00\x00\x01\x28\x00\x00\x1f\x22\x00\x00\x01\x24\x00\x00\x00",
    ),
    (
        5,
        RAISED,
        7,
        200,
        0,
        b"\x26\x00\x00\x07\x27\x01\x00\x00\x29\x00\x00\x04\x26\x01\x00\x08\
          \x29\x00\x00\x05\x23\x00\x00\x03\x25\x00\x80\x00\x28\x00\x00\x07\
          \x22\x00\x00\x01\x24\x00\x00\x00",
    ),
    (5, BEFORE, 31, 200, 25, b""),
    (5, BEFORE, 30, 67, 1, b""),
    (5, AFTER, 0, 31, 1, b""),
];

// MSET 0 1, SKZ 0 17; MSET 0 1 to MSET 7 8, OP 6 1 down to OP 0 1, STORE 0 2, SKIP 1; VIOL.
const BLOCKS_OF_E: &'static [Block<'static>] = &[(
    0,
    BEFORE,
    2,
    80,
    0,
    b"\x25\x00\x00\x01\x23\x00\x00\x11\x25\x00\x00\x01\x25\x01\x00\x02\
          \x25\x02\x00\x03\x25\x03\x00\x04\x25\x04\x00\x05\x25\x05\x00\x06\
          \x25\x06\x00\x07\x25\x07\x00\x08\x29\x06\x00\x01\x29\x05\x00\x01\
          \x29\x04\x00\x01\x29\x03\x00\x01\x29\x02\x00\x01\x29\x01\x00\x01\
          \x29\x00\x00\x01\x28\x00\x00\x02\x22\x00\x00\x01\x24\x00\x00\x00",
)];

// MARG 0 0, SKZ 0 1, SKIP 1, VIOL. Without cells any first cell will do.
const BLOCKS_OF_Z: &'static [Block<'static>] = &[
    (
        7,
        BEFORE,
        255,
        16,
        0,
        b"\x27\x00\x00\x00\x23\x00\x00\x01\x22\x00\x00\x01\x24\x00\x00\x00",
    ),
    (7, BEFORE, 255, 15, 1, b""),
    (7, AFTER, 255, 0, 0, b""),
    (64, BEFORE, 255, 0, 8, b""),
];

// MCELL 0 c, MSET 1 q, OP 0 3, SKZ 0 3, MSET 0 next, STORE 0 c, SKIP 1, VIOL.
const BLOCKS_OF_L: &'static [Block<'static>] = &[
    (
        1,
        BEFORE,
        0,
        32,
        0,
        b"\x26\x00\x00\x00\x25\x01\x00\x00\x29\x00\x00\x03\x23\x00\x00\x03\
          \x25\x00\x00\x01\x28\x00\x00\x00\x22\x00\x00\x01\x24\x00\x00\x00",
    ),
    (
        2,
        BEFORE,
        31,
        200,
        0,
        b"\x26\x00\x00\x1f\x25\x01\x00\x01\x29\x00\x00\x03\x23\x00\x00\x03\
          \x25\x00\x00\x00\x28\x00\x00\x1f\x22\x00\x00\x01\x24\x00\x00\x00",
    ),
    (1, AFTER, 31, 0, 0, b""),
    (1, BEFORE, 0, 31, 1, b""),
    (1, BEFORE, 32, 31, 25, b""),
    (0, BEFORE, 32, 31, 25, b""),
    (64, BEFORE, 32, 31, 8, b""),
];

// Before call 5 the seven of state 0 and of state 2, whose first SKIP is over 7 + 1; after it VIOL.
const BLOCKS_OF_T: &'static [Block<'static>] = &[
    (
        5,
        BEFORE,
        9,
        60,
        0,
        b"\x26\x00\x00\x09\x25\x01\x00\x00\x29\x00\x00\x03\x23\x00\x00\x03\
          \x25\x00\x00\x01\x28\x00\x00\x09\x22\x00\x00\x08\x26\x00\x00\x09\
          \x25\x01\x00\x02\x29\x00\x00\x03\x23\x00\x00\x03\x25\x00\x00\x00\
          \x28\x00\x00\x09\x22\x00\x00\x01\x24\x00\x00\x00",
    ),
    (5, AFTER, 9, 4, 0, b"\x24\x00\x00\x00"),
    (5, RAISED, 9, 4, 0, b""),
];

// Rules, the last without any rule, and what is expected of them.
const RULES: &'static [(&'static [u8], Expected<'static>)] = &[
    (
        P,
        Expected {
            limits: 0,
            told: Some((1, &[0, 9, 9, 9, 9, 9], &[5])),
            steps: STEPS_OF_P,
            blocks: BLOCKS_OF_P,
        },
    ),
    (
        R,
        Expected {
            limits: 0,
            told: Some((2, &[7, -2, 9, 9, 9, 9], &[5])),
            steps: STEPS_OF_R,
            blocks: BLOCKS_OF_R,
        },
    ),
    (
        E,
        Expected {
            limits: 0,
            told: Some((1, &[0, 9, 9, 9, 9, 9], &[0])),
            steps: STEPS_OF_E,
            blocks: BLOCKS_OF_E,
        },
    ),
    (
        Z,
        Expected {
            limits: 0,
            told: Some((0, &[9, 9, 9, 9, 9, 9], &[7])),
            steps: STEPS_OF_Z,
            blocks: BLOCKS_OF_Z,
        },
    ),
    (
        FRONT,
        Expected {
            limits: 0,
            told: Some((1, &[0, 9, 9, 9, 9, 9], &[])),
            steps: &[],
            blocks: &[],
        },
    ),
];

// Tables, and what is expected of them.
const TABLES: &'static [(&'static [u8], Expected<'static>)] = &[
    (
        L,
        Expected {
            limits: 0,
            told: Some((1, &[0, 9, 9, 9, 9, 9], &[1, 2])),
            steps: STEPS_OF_L,
            blocks: BLOCKS_OF_L,
        },
    ),
    (
        T,
        Expected {
            limits: 0,
            told: Some((1, &[2, 9, 9, 9, 9, 9], &[5, 63])),
            steps: &[],
            blocks: BLOCKS_OF_T,
        },
    ),
];

#[test]
fn alone(rt: HostRuntime) -> Result<(), Fail> {
    for (file, e) in RULES {
        meets(&rt, rt.alloc(), &Rules::new(file), e)?;
    }
    for (file, e) in TABLES {
        meets(&rt, rt.alloc(), &Table::new(file), e)?;
    }
    Ok(())
}

// Bytes of an area: offset and byte.
fn bytes(rt: &impl Abort, area: &[u8], cases: &[(usize, u8)]) {
    for (at, b) in cases {
        assert_eq!(rt; area.get(*at).copied(), Some(*b));
    }
}

// 37 rules of 27 instructions each, and VIOL: the SKIP at index 26 passes over 973, which is 3 * 256 +
// 205.
#[test]
fn longest_block(rt: HostRuntime) -> Result<(), Fail> {
    let file = built(rt.alloc(), FRONT, 37, RULE_OF_27, 0, b"")?;
    let p = Rules::new(file.as_slice());
    let mut area = [0xeeu8; 4001];
    let part = area.get_mut(..4000).ok_or("no room")?;
    assert_eq!(rt; p.write_block(0, BEFORE, 0, part)?, 1000);
    bytes(
        &rt,
        &area,
        &[
            (104, 0x22),
            (106, 3),
            (107, 205),
            (3996, 0x24),
            (4000, 0xee),
        ],
    );
    Ok(())
}

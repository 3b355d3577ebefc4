// Reading policy files: fields, sizes, expressions, double rows and long blocks, each refusal with its
// place.
use crate::files::{CELL, FRONT, L, P, RULE_OF_27, SIXTEEN, answer, built, changed};
use model::{PolicyKind, Refusal};
use policy::policy_kind;
use std::process::Abort;
use std::test::Fail;
use tables::Table;

// Changed bytes of P, in turn an offset and its new byte, and the refusal.
const CHANGES_OF_P: &'static [(&'static [u8], u8, usize)] = &[
    (&[], 0, 0),
    // fields: another tag, a length past the end of its holder
    (&[0, 66], 20, 0),
    (&[1, 1], 20, 0),
    (&[5, 67], 20, 5),
    (&[12, 66], 20, 12),
    (&[14, 28], 20, 12),
    (&[14, 26], 20, 29),
    (&[14, 3], 20, 17),
    (&[14, 2], 20, 17),
    (&[17, 69], 20, 17),
    (&[19, 23], 20, 17),
    (&[29, 68], 20, 29),
    (&[31, 11], 20, 29),
    (&[14, 14], 20, 29),
    // sizes: format, cells, starts, call, moment, tokens, the cell of an update
    (&[2, 3], 21, 0),
    (&[2, 1], 21, 0),
    (&[3, 2], 21, 0),
    (&[3, 0], 21, 0),
    (&[4, 17], 21, 0),
    (&[4, 2], 21, 5),
    (&[4, 0], 21, 5),
    (&[7, 3], 21, 5),
    (&[14, 1], 21, 12),
    (&[14, 0], 21, 12),
    (&[15, 64], 21, 12),
    (&[16, 3], 21, 12),
    (&[19, 0], 21, 17),
    (&[19, 8], 21, 17),
    (&[31, 0], 21, 29),
    (&[31, 1], 21, 29),
    (&[31, 9], 21, 29),
    (&[32, 1], 21, 29),
    // expressions: kinds, cells, arguments, operators, the answer before, values held
    (&[20, 4], 22, 17),
    (&[22, 5], 22, 17),
    (&[21, 1], 22, 17),
    (&[22, 4], 22, 17),
    (&[28, 6], 22, 17),
    (&[27, 1], 22, 17),
    (&[23, 3, 25, 2], 22, 17),
    (&[34, 1], 22, 29),
    (&[35, 1], 22, 29),
    (&[39, 2], 22, 29),
    // the call and the moment before the guard, 20 and 21 before 22, the first expression first
    (&[16, 3, 17, 69], 21, 12),
    (&[22, 4, 32, 1], 21, 29),
    (&[22, 4, 35, 1], 22, 17),
    // the answer behind a call, the fourth argument before it, the smallest constant, the last call
    (&[16, 1, 22, 4], 0, 0),
    (&[16, 2, 38, 4], 0, 0),
    (&[22, 3], 0, 0),
    (&[24, 128, 25, 0], 0, 0),
    (&[15, 63], 0, 0),
];

// Changed bytes of L, and the refusal.
const CHANGES_OF_L: &'static [(&'static [u8], u8, usize)] = &[
    (&[], 0, 0),
    (&[0, 98], 20, 0),
    (&[1, 1], 20, 0),
    (&[6, 97], 20, 6),
    (&[15, 5], 20, 13),
    (&[2, 2], 21, 0),
    (&[2, 4], 21, 0),
    (&[3, 2], 21, 0),
    (&[4, 0], 21, 0),
    (&[4, 17], 21, 0),
    (&[5, 2], 21, 0),
    (&[4, 3], 21, 6),
    (&[4, 1], 21, 6),
    (&[8, 3], 21, 6),
    (&[9, 64], 21, 6),
    (&[10, 3], 21, 6),
    (&[11, 2], 21, 6),
    (&[12, 254], 21, 6),
    (&[18, 2], 21, 13),
    (&[19, 16], 21, 13),
    (&[16, 1], 23, 13),
    // an earlier size before a later field, and all sizes before a double row
    (&[11, 2, 13, 97], 21, 6),
    (&[16, 1, 19, 2], 21, 13),
    // the same call at another moment, and the last start
    (&[16, 1, 17, 2], 0, 0),
    (&[5, 1], 0, 0),
];

// A file, from how many bytes on and below how many it is cut, and the refusal. At 5 bytes P lacks its
// starts; at 12 it has no rule, and at 6 and 13 L has no row and one.
const CUTS: &'static [(&'static [u8], usize, usize, u8, usize)] = &[
    (P, 0, 5, 20, 0),
    (P, 5, 12, 20, 5),
    (P, 12, 13, 0, 0),
    (P, 13, 42, 20, 12),
    (P, 42, 43, 0, 0),
    (L, 0, 6, 20, 0),
    (L, 6, 7, 0, 0),
    (L, 7, 13, 20, 6),
    (L, 13, 14, 0, 0),
    (L, 14, 20, 20, 13),
    (L, 20, 21, 0, 0),
];

// The rule of P, 30 bytes.
const RULE: &'static [u8; 30] = b"C\x00\x1b\x05\x00D\x00\x09\x02\x00\x00\x00\x00\x0a\x03\x00\x02\
      E\x00\x0a\x00\x01\x00\x00\x02\x00\x00\x03\x00\x00";

// A rule for call 0 before with a guard of seven tokens and eight updates of one: 7 + 1 + 8 * 2 + 1 =
// 25 instructions in 85 bytes.
const RULE_OF_25: &'static [u8; 85] = b"C\x00\x52\x00\x00D\x00\x15\x00\x00\x01\
      \x00\x00\x01\x03\x00\x00\x00\x00\x01\x03\x00\x00\x00\x00\x01\x03\x00\x00\
      E\x00\x04\x00\x00\x00\x01E\x00\x04\x00\x00\x00\x01E\x00\x04\x00\x00\x00\x01\
      E\x00\x04\x00\x00\x00\x01E\x00\x04\x00\x00\x00\x01E\x00\x04\x00\x00\x00\x01\
      E\x00\x04\x00\x00\x00\x01E\x00\x04\x00\x00\x00\x01";

// An update of cell 0 by one token, the head of a table of one state, and a row of it: 7, 6 and 6
// bytes.
const UPDATE: &'static [u8; 7] = b"E\x00\x04\x00\x00\x00\x01";

const STATE: &'static [u8; 6] = b"a\x00\x03\x01\x01\x00";

const ROW: &'static [u8; 6] = b"b\x00\x03\x00\x00\x00";

// A row and a rule, each time for the next call: a rule of 3 instructions.
const EACH_ROW: &'static [u8; 6] = b"b\x00\x03\xff\x00\x00";

const EACH_RULE: &'static [u8; 11] = b"C\x00\x08\xff\x00D\x00\x03\x00\x00\x01";

// A token, two that add one to what is held, and one that adds the last two.
const ONE: &'static [u8; 3] = b"\x00\x00\x01";

const MORE: &'static [u8; 6] = b"\x00\x00\x01\x03\x00\x00";

const ADD: &'static [u8; 3] = b"\x03\x00\x00";

// FRONT and a rule up to its updates, of which it announces 56, 63 and 59 bytes.
const UPDATES_56: &'static [u8; 23] =
    b"A\x00\x02\x01\x01B\x00\x04\x00\x00\x00\x00C\x00\x40\x05\x00D\x00\x03\x00\x00\x01";

const UPDATES_63: &'static [u8; 23] =
    b"A\x00\x02\x01\x01B\x00\x04\x00\x00\x00\x00C\x00\x47\x05\x00D\x00\x03\x00\x00\x01";

const UPDATES_59: &'static [u8; 23] =
    b"A\x00\x02\x01\x01B\x00\x04\x00\x00\x00\x00C\x00C\x05\x00D\x00\x03\x00\x00\x01";

// FRONT and a rule up to the tokens of its guard, of which it announces so many.
const GUARD_1: &'static [u8; 20] =
    b"A\x00\x02\x01\x01B\x00\x04\x00\x00\x00\x00C\x00\x08\x05\x00D\x00\x03";

const GUARD_15: &'static [u8; 20] =
    b"A\x00\x02\x01\x01B\x00\x04\x00\x00\x00\x00C\x00\x32\x05\x00D\x00\x2d";

const GUARD_17: &'static [u8; 20] =
    b"A\x00\x02\x01\x01B\x00\x04\x00\x00\x00\x00C\x00\x38\x05\x00D\x00\x33";

const GUARD_31: &'static [u8; 20] =
    b"A\x00\x02\x01\x01B\x00\x04\x00\x00\x00\x00C\x00b\x05\x00D\x00\x5d";

const GUARD_32: &'static [u8; 20] =
    b"A\x00\x02\x01\x01B\x00\x04\x00\x00\x00\x00C\x00\x65\x05\x00D\x00\x60";

const GUARD_33: &'static [u8; 20] =
    b"A\x00\x02\x01\x01B\x00\x04\x00\x00\x00\x00C\x00\x68\x05\x00D\x00\x63";

// FRONT and a rule up to the tokens of its first update, of which it announces so many.
const UPDATE_15: &'static [u8; 27] =
    b"A\x00\x02\x01\x01B\x00\x04\x00\x00\x00\x00C\x00\x39\x05\x00D\x00\x03\x00\x00\x01E\x00\x2e\x00";

const UPDATE_17: &'static [u8; 27] =
    b"A\x00\x02\x01\x01B\x00\x04\x00\x00\x00\x00C\x00\x3f\x05\x00D\x00\x03\x00\x00\x01E\x00\x34\x00";

const UPDATE_31: &'static [u8; 27] =
    b"A\x00\x02\x01\x01B\x00\x04\x00\x00\x00\x00C\x00\x69\x05\x00D\x00\x03\x00\x00\x01E\x00\x5e\x00";

const UPDATE_32: &'static [u8; 27] =
    b"A\x00\x02\x01\x01B\x00\x04\x00\x00\x00\x00C\x00\x6c\x05\x00D\x00\x03\x00\x00\x01E\x00a\x00";

const UPDATE_33: &'static [u8; 27] =
    b"A\x00\x02\x01\x01B\x00\x04\x00\x00\x00\x00C\x00\x6f\x05\x00D\x00\x03\x00\x00\x01E\x00\x64\x00";

// A file of a front, so many times a part and so many times a last one, and the refusal.
const BUILT: &'static [(
    &'static [u8],
    usize,
    &'static [u8],
    usize,
    &'static [u8],
    u8,
    usize,
)] = &[
    // the 65th rule is due at 12 + 64 * 30 = 1932: one too many, also without its guard; but first a
    // header that is broken or has another tag, and a length past the end
    (FRONT, 64, RULE, 0, b"", 0, 0),
    (FRONT, 65, RULE, 0, b"", 21, 1932),
    (FRONT, 64, RULE, 1, b"C\x00\x02\x05\x00", 21, 1932),
    (FRONT, 64, RULE, 1, b"C\x00", 20, 1932),
    (FRONT, 64, RULE, 1, b"D\x00\x00", 20, 1932),
    (FRONT, 64, RULE, 1, b"C\x00\x03\x05\x00", 20, 1932),
    // the guard is at 17 and the updates, of 7 bytes each, from 23 on; the ninth is due at 23 + 56 = 79
    (UPDATES_56, 8, UPDATE, 0, b"", 0, 0),
    (UPDATES_63, 9, UPDATE, 0, b"", 21, 79),
    (UPDATES_59, 8, UPDATE, 1, b"E\x00\x04", 20, 79),
    (UPDATES_59, 8, UPDATE, 1, b"D\x00\x00", 20, 79),
    // rows for the calls 0 to 63; the 65th is due at 6 + 64 * 6 = 390, and comes before a double row
    (STATE, 64, EACH_ROW, 0, b"", 0, 0),
    (STATE, 64, EACH_ROW, 1, ROW, 21, 390),
    (STATE, 65, ROW, 0, b"", 21, 390),
    (STATE, 64, ROW, 0, b"", 23, 12),
    (STATE, 64, EACH_ROW, 1, b"b\x00", 20, 390),
    (STATE, 64, EACH_ROW, 1, b"b\x00\x04\x00\x00\x00", 20, 390),
    (STATE, 64, EACH_ROW, 1, b"a\x00\x00", 20, 390),
    // guards of 1, 31, 32 and 33 tokens: 32 leave two values
    (GUARD_1, 1, ONE, 0, b"", 0, 0),
    (GUARD_31, 1, ONE, 15, MORE, 0, 0),
    (GUARD_32, 2, ONE, 15, MORE, 22, 17),
    (GUARD_33, 1, ONE, 16, MORE, 21, 17),
    // eight values held, and nine
    (GUARD_15, 8, ONE, 7, ADD, 0, 0),
    (GUARD_17, 9, ONE, 8, ADD, 22, 17),
    // the same of an update
    (UPDATE_31, 1, ONE, 15, MORE, 0, 0),
    (UPDATE_32, 2, ONE, 15, MORE, 22, 23),
    (UPDATE_33, 1, ONE, 16, MORE, 21, 23),
    (UPDATE_15, 8, ONE, 7, ADD, 0, 0),
    (UPDATE_17, 9, ONE, 8, ADD, 22, 23),
    // sixteen cells: the rule is at 5 + 67 = 72 and its guard at 77, which reads s15 and then s16
    (
        SIXTEEN,
        16,
        CELL,
        1,
        b"C\x00\x08\x05\x00D\x00\x03\x01\x00\x0f",
        0,
        0,
    ),
    (
        SIXTEEN,
        16,
        CELL,
        1,
        b"C\x00\x08\x05\x00D\x00\x03\x01\x00\x10",
        22,
        77,
    ),
    // blocks of 37 * 27 + 1 = 1000 and 40 * 25 + 1 = 1001 instructions; a bad guard in a rule at
    // 12 + 40 * 85 = 3412 comes first; 64 rules of one call each
    (FRONT, 37, RULE_OF_27, 0, b"", 0, 0),
    (FRONT, 40, RULE_OF_25, 0, b"", 24, 0),
    (
        FRONT,
        40,
        RULE_OF_25,
        1,
        b"C\x00\x08\x05\x00D\x00\x03\x03\x00\x00",
        22,
        3417,
    ),
    (FRONT, 64, EACH_RULE, 0, b"", 0, 0),
    // 65,535 bytes with something left over behind P and L, and one byte more
    (P, 65493, b"\x00", 0, b"", 20, 42),
    (P, 65494, b"\x00", 0, b"", 20, 0),
    (L, 65515, b"\x00", 0, b"", 20, 20),
    (L, 65516, b"\x00", 0, b"", 20, 0),
];

// What a file is refused for with its bytes changed.
fn changes<const N: usize>(rt: &impl Abort, file: &[u8; N], cases: &[(&[u8], u8, usize)]) {
    for (bytes, number, place) in cases {
        assert_eq!(rt; answer(&changed(file, bytes)), (*number, *place));
    }
}

#[test]
fn changed_files(rt: HostRuntime) {
    changes(&rt, P, CHANGES_OF_P);
    changes(&rt, L, CHANGES_OF_L);
}

#[test]
fn cut_files(rt: HostRuntime) {
    for (file, from, below, number, place) in CUTS {
        for n in *from..*below {
            let part = file.get(..n).unwrap_or(file);
            assert_eq!(rt; answer(part), (*number, *place));
        }
    }
}

#[test]
fn built_files(rt: HostRuntime) -> Result<(), Fail> {
    for (front, times, part, last_times, last, number, place) in BUILT {
        let file = built(rt.alloc(), front, *times, part, *last_times, last)?;
        assert_eq!(rt; answer(file.as_slice()), (*number, *place));
    }
    Ok(())
}

// The first tag tells the kind, and each reader refuses the other's file.
#[test]
fn kinds(rt: HostRuntime) {
    assert_eq!(rt; policy_kind(P), Ok(PolicyKind::Rules));
    assert_eq!(rt; policy_kind(&[97]), Ok(PolicyKind::Table));
    for file in [b"".as_slice(), b"B\x00\x00", b"b", b"\x01\x00\x02\x01\x01"] {
        assert_eq!(rt; policy_kind(file), Err(Refusal::BadPolicyField(0)));
    }
    assert_eq!(rt; rules::check(L), Err(Refusal::BadPolicyField(0)));
    assert_eq!(rt; Table::check(P), Err(Refusal::BadPolicyField(0)));
}

// Fields, limits, places, and what an applet shows of its file.
use crate::files::{B, END, METHOD, built, changed, longest};
use applet::Applet;
use applet_tests::{A, answer};
use std::process::Abort;
use std::test::Fail;
use tlv::{Fields, Part};

// From how many bytes on and below how many A is cut, and where it is refused: each field is missing
// until it is whole.
const CUTS: &'static [(usize, usize, usize)] = &[(0, 5, 0), (5, 9, 5), (9, 12, 9), (12, 27, 12)];

#[test]
fn truncations(rt: HostRuntime) {
    for (from, below, place) in CUTS {
        for n in *from..*below {
            let part = A.get(..n).unwrap_or(&A);
            assert_eq!(rt; answer(part), (10, *place));
        }
    }
    assert_eq!(rt; answer(&A), (0, 0));
}

// Changed bytes of A, in turn an offset and its new byte, and the refusal.
const CHANGES_OF_A: &'static [(&'static [u8], u8, usize)] = &[
    // fields: another tag, a length past the end, a method missing
    (&[0, 2], 10, 0),
    (&[0, 65], 10, 0),
    (&[5, 3], 10, 5),
    (&[9, 4], 10, 9),
    (&[12, 3], 10, 12),
    (&[12, 0], 10, 12),
    (&[14, 13], 10, 12),
    (&[1, 1], 10, 0),
    (&[4, 2], 10, 27),
    // sizes and counts: format, methods, lengths, threads
    (&[3, 2], 11, 0),
    (&[3, 0], 11, 0),
    (&[4, 0], 11, 0),
    (&[4, 33], 11, 0),
    (&[2, 3], 11, 0),
    (&[2, 1], 11, 0),
    (&[7, 0], 11, 5),
    (&[8, 1], 11, 5),
    (&[8, 255], 11, 5),
    (&[11, 3], 11, 9),
    (&[14, 11], 11, 12),
    (&[14, 0], 11, 12),
    // the earlier field first, and all fields before the first instruction
    (&[8, 1, 14, 13], 11, 5),
    (&[3, 2, 5, 3], 11, 0),
    (&[15, 15, 14, 8], 10, 23),
    (&[15, 15, 4, 2], 10, 27),
    // opcodes and operands
    (&[19, 15], 12, 19),
    (&[16, 8], 12, 15),
    (&[20, 64], 12, 19),
    (&[26, 1], 12, 23),
    (&[24, 1], 12, 23),
    (&[19, 11, 20, 0, 22, 1], 12, 19),
    // landings
    (&[22, 3], 13, 19),
    (&[21, 255], 13, 19),
    (&[19, 34, 20, 0, 22, 1], 13, 19),
    (&[23, 33], 13, 23),
    (&[23, 32], 13, 23),
    // 12 before 13 at one instruction, the earlier instruction first
    (&[23, 1, 24, 8], 12, 23),
    (&[20, 64, 22, 3], 12, 19),
    (&[22, 3, 23, 15], 13, 19),
    // SKIP 0, and CALL of method 0
    (&[19, 34, 20, 0, 22, 0], 0, 0),
    (&[19, 11, 20, 0, 22, 0], 0, 0),
];

// Changed bytes of B, and the refusal.
const CHANGES_OF_B: &'static [(&'static [u8], u8, usize)] = &[
    (&[], 0, 0),
    // a method left over, a method missing, a length up to the middle of the next method
    (&[4, 2, 8, 0], 10, 39),
    (&[4, 4], 10, 54),
    (&[34, 8], 10, 43),
    // each thread's method, cells of 7 and 9 bytes, a method of 0 and of 6 bytes
    (&[8, 3], 11, 5),
    (&[9, 3], 11, 5),
    (&[4, 2], 11, 5),
    (&[12, 7], 11, 10),
    (&[12, 9], 11, 10),
    (&[34, 0], 11, 32),
    (&[23, 6], 11, 21),
    // a filled dash, a missing method, and the last one
    (&[30, 1], 12, 28),
    (&[43, 1], 12, 42),
    (&[45, 3], 12, 42),
    (&[45, 2], 0, 0),
    // SKIP to the end, JUMP to the end and to itself
    (&[49, 1], 13, 46),
    (&[53, 3], 13, 50),
    (&[53, 2], 0, 0),
    // wrong last instructions: SET, MOV, HOST, CALL
    (&[35, 1], 13, 35),
    (&[28, 2], 13, 28),
    (&[50, 13], 13, 50),
    (&[50, 11], 13, 50),
    // the earlier method first
    (&[28, 2, 35, 15], 13, 28),
    (&[35, 15, 53, 3], 12, 35),
];

// What a file is refused for with its bytes changed.
fn changes<const N: usize>(rt: &impl Abort, file: &[u8; N], cases: &[(&[u8], u8, usize)]) {
    for (bytes, number, place) in cases {
        assert_eq!(rt; answer(&changed(file, bytes)), (*number, *place));
    }
}

#[test]
fn changed_files(rt: HostRuntime) {
    changes(&rt, &A, CHANGES_OF_A);
    changes(&rt, B, CHANGES_OF_B);
}

// The head, of one method, of 32 and of 33 and of none, with one thread and no cells.
const ONE: &'static [u8; 12] = b"\x01\x00\x02\x01\x01\x02\x00\x01\x00\x03\x00\x00";

const MOST: &'static [u8; 12] = b"\x01\x00\x02\x01\x20\x02\x00\x01\x00\x03\x00\x00";

const MORE: &'static [u8; 12] = b"\x01\x00\x02\x01\x21\x02\x00\x01\x00\x03\x00\x00";

const NONE: &'static [u8; 12] = b"\x01\x00\x02\x01\x00\x02\x00\x01\x00\x03\x00\x00";

// The same of 32 methods, with the thread in the last of them and past it.
const LAST: &'static [u8; 12] = b"\x01\x00\x02\x01\x20\x02\x00\x01\x1f\x03\x00\x00";

const PAST: &'static [u8; 12] = b"\x01\x00\x02\x01\x20\x02\x00\x01\x20\x03\x00\x00";

// A cell, and no cells and a method.
const CELL: &'static [u8; 4] = b"\xff\xff\xff\xf9";

const REST: &'static [u8; 10] = b"\x03\x00\x00\x04\x00\x04\x0e\x00\x00\x00";

// ONE, and a method that announces 0, 1, 4,096 and 4,097 instructions.
const SIZE_0: &'static [u8; 15] = b"\x01\x00\x02\x01\x01\x02\x00\x01\x00\x03\x00\x00\x04\x00\x00";

const SIZE_1: &'static [u8; 15] = b"\x01\x00\x02\x01\x01\x02\x00\x01\x00\x03\x00\x00\x04\x00\x04";

const SIZE_4096: &'static [u8; 15] =
    b"\x01\x00\x02\x01\x01\x02\x00\x01\x00\x03\x00\x00\x04\x40\x00";

const SIZE_4097: &'static [u8; 15] =
    b"\x01\x00\x02\x01\x01\x02\x00\x01\x00\x03\x00\x00\x04\x40\x04";

// A file of a front, so many times a part and so many times a last one, and the refusal.
const BUILT: &'static [(
    &'static [u8],
    usize,
    &'static [u8],
    usize,
    &'static [u8],
    u8,
    usize,
)] = &[
    (b"", 0, b"", 0, b"", 10, 0),
    // methods, of 7 bytes each from 12 on
    (NONE, 0, METHOD, 0, b"", 11, 0),
    (ONE, 1, METHOD, 0, b"", 0, 0),
    (MOST, 32, METHOD, 0, b"", 0, 0),
    (MORE, 33, METHOD, 0, b"", 11, 0),
    (MOST, 31, METHOD, 0, b"", 10, 229),
    (MOST, 33, METHOD, 0, b"", 10, 236),
    (MOST, 32, METHOD, 1, b"\x04", 10, 236),
    // the thread's method
    (LAST, 32, METHOD, 0, b"", 0, 0),
    (PAST, 32, METHOD, 0, b"", 11, 5),
    // CALL of the last method and past it, in the last method, whose code is at 12 + 31 * 7 + 3 = 232
    (
        MOST,
        31,
        METHOD,
        1,
        b"\x04\x00\x08\x0b\x00\x00\x1f\x0e\x00\x00\x00",
        0,
        0,
    ),
    (
        MOST,
        31,
        METHOD,
        1,
        b"\x04\x00\x08\x0b\x00\x00\x20\x0e\x00\x00\x00",
        12,
        232,
    ),
    // no thread, one, eight and nine
    (
        b"\x01\x00\x02\x01\x01\x02\x00\x00",
        0,
        b"\x00",
        1,
        REST,
        11,
        5,
    ),
    (
        b"\x01\x00\x02\x01\x01\x02\x00\x01",
        1,
        b"\x00",
        1,
        REST,
        0,
        0,
    ),
    (
        b"\x01\x00\x02\x01\x01\x02\x00\x08",
        8,
        b"\x00",
        1,
        REST,
        0,
        0,
    ),
    (
        b"\x01\x00\x02\x01\x01\x02\x00\x09",
        9,
        b"\x00",
        1,
        REST,
        11,
        5,
    ),
    // one cell, 32 and 33
    (
        b"\x01\x00\x02\x01\x01\x02\x00\x01\x00\x03\x00\x04",
        1,
        CELL,
        1,
        METHOD,
        0,
        0,
    ),
    (
        b"\x01\x00\x02\x01\x01\x02\x00\x01\x00\x03\x00\x80",
        32,
        CELL,
        1,
        METHOD,
        0,
        0,
    ),
    (
        b"\x01\x00\x02\x01\x01\x02\x00\x01\x00\x03\x00\x84",
        33,
        CELL,
        1,
        METHOD,
        11,
        9,
    ),
    // the cells left out, and behind the method
    (
        b"\x01\x00\x02\x01\x01\x02\x00\x01\x00",
        1,
        METHOD,
        0,
        b"",
        10,
        9,
    ),
    (
        b"\x01\x00\x02\x01\x01\x02\x00\x01\x00",
        1,
        METHOD,
        1,
        b"\x03\x00\x00",
        10,
        9,
    ),
    // instructions, from 15 on
    (SIZE_0, 0, END, 0, b"", 11, 12),
    (SIZE_1, 1, END, 0, b"", 0, 0),
    (SIZE_4096, 4096, END, 0, b"", 0, 0),
    (SIZE_4097, 4097, END, 0, b"", 11, 12),
    // the last of 4,096, at 15 + 4 * 4095 = 16395: JUMP to itself and past it, RET, HOST
    (SIZE_4096, 4095, END, 1, b"\x09\x00\x0f\xff", 0, 0),
    (SIZE_4096, 4095, END, 1, b"\x09\x00\x10\x00", 13, 16395),
    (SIZE_4096, 4095, END, 1, b"\x0c\x00\x00\x00", 0, 0),
    (SIZE_4096, 4095, END, 1, b"\x0d\x00\x00\x00", 13, 16395),
    // 65,535 bytes with something left over behind A, and one byte more
    (&A, 65508, b"\x00", 0, b"", 10, 27),
    (&A, 65509, b"\x00", 0, b"", 10, 0),
];

#[test]
fn built_files(rt: HostRuntime) -> Result<(), Fail> {
    for (front, times, part, last_times, last, number, place) in BUILT {
        let file = built(rt.alloc(), front, *times, part, *last_times, last)?;
        assert_eq!(rt; answer(file.as_slice()), (*number, *place));
    }
    Ok(())
}

#[test]
fn longest_file(rt: HostRuntime) -> Result<(), Fail> {
    let mut file = longest(rt.alloc())?;
    assert_eq!(rt; file.len(), 65535);
    assert_eq!(rt; answer(file.as_slice()), (0, 0));
    file.push(0)?;
    assert_eq!(rt; answer(file.as_slice()), (10, 0));
    Ok(())
}

// The methods of B: place and code.
const METHODS: &'static [(usize, Option<usize>, Option<&'static [u8]>)] = &[
    (0, Some(21), Some(b"\x01\x00\x00\x07\x0c\x00\x00\x00")),
    (1, Some(32), Some(END)),
    (
        2,
        Some(39),
        Some(b"\x0b\x00\x00\x01\x22\x00\x00\x00\x09\x00\x00\x00"),
    ),
    (3, None, None),
    (255, None, None),
];

// The start values of B.
const STARTS: &'static [(usize, Option<i32>)] = &[
    (0, Some(7)),
    (1, Some(-2)),
    (2, None),
    (255, None),
];

#[test]
fn accessors(rt: HostRuntime) -> Result<(), Fail> {
    let a = Applet::read(B)?;
    assert!(rt; a.entries() == [2, 0].as_slice());
    assert_eq!(rt; a.starts(), 2);
    assert_eq!(rt; a.methods(), 3);
    for (s, start) in STARTS {
        assert_eq!(rt; a.start(*s), *start);
    }
    for (m, place, code) in METHODS {
        assert_eq!(rt; a.place(*m), *place);
        assert_eq!(rt; a.code(*m), *code);
    }
    Ok(())
}

// The fields of B: place, tag and length.
const FIELDS: &'static [(usize, u8, usize)] = &[
    (0, 1, 2),
    (5, 2, 2),
    (10, 3, 8),
    (21, 4, 8),
    (32, 4, 4),
    (39, 4, 12),
];

// The next field: its place, its tag and its length.
fn next_of(fields: &mut Fields) -> Option<(usize, u8, usize)> {
    match fields.next() {
        Ok(Some(f)) => Some((f.place, f.part.tag(), f.part.contents().len())),
        _ => None,
    }
}

#[test]
fn fields(rt: HostRuntime) -> Result<(), Fail> {
    let mut fields = Fields::new(B, 0);
    for (place, tag, size) in FIELDS {
        assert_eq!(rt; fields.place(), *place);
        assert!(rt; !fields.ended());
        assert_eq!(rt; next_of(&mut fields), Some((*place, *tag, *size)));
    }
    assert!(rt; fields.ended());
    assert!(rt; matches!(fields.next(), Ok(None)));
    let Err(e) = fields.due(Part::METHOD) else {
        return Err(Fail::new("a field behind the last one"));
    };
    assert_eq!(rt; e.place, 54);
    Ok(())
}

// Fields, limits, places, and what an applet shows of its file.
use crate::files::{changed, longest, sized, small};
use crate::{A, answer};
use applet::Applet;
use std::test::Fail;
use tlv::{Fields, Part};

// Where A is refused when it is cut to so many bytes: the head's field reaches to 5, the threads' to
// 9, the cells' to 12 and the method's to 27, and each is missing until it is whole.
const CUTS: [usize; 27] = [
    0, 0, 0, 0, 0, 5, 5, 5, 5, 9, 9, 9, 12, 12, 12, 12, 12, 12, 12, 12, 12, 12, 12, 12, 12, 12, 12,
];

#[test]
fn truncations(rt: HostRuntime) -> Result<(), Fail> {
    for (n, place) in CUTS.iter().enumerate() {
        let part = A.get(..n).ok_or("a cut past the end")?;
        assert_eq!(rt; answer(part), (10, *place));
    }
    assert_eq!(rt; answer(&A), (0, 0));
    Ok(())
}

// Changed bytes of A, and the refusal.
const CHANGES: [(&'static [(usize, u8)], u8, usize); 38] = [
    // fields: another tag, a length past the end, a method missing
    (&[(0, 2)], 10, 0),
    (&[(0, 65)], 10, 0),
    (&[(5, 3)], 10, 5),
    (&[(9, 4)], 10, 9),
    (&[(12, 3)], 10, 12),
    (&[(12, 0)], 10, 12),
    (&[(14, 13)], 10, 12),
    (&[(1, 1)], 10, 0),
    (&[(4, 2)], 10, 27),
    // sizes and counts: format, methods, lengths, threads
    (&[(3, 2)], 11, 0),
    (&[(3, 0)], 11, 0),
    (&[(4, 0)], 11, 0),
    (&[(4, 33)], 11, 0),
    (&[(2, 3)], 11, 0),
    (&[(2, 1)], 11, 0),
    (&[(7, 0)], 11, 5),
    (&[(8, 1)], 11, 5),
    (&[(8, 255)], 11, 5),
    (&[(11, 3)], 11, 9),
    (&[(14, 11)], 11, 12),
    (&[(14, 0)], 11, 12),
    // the earlier field first, and all fields before the first instruction
    (&[(8, 1), (14, 13)], 11, 5),
    (&[(3, 2), (5, 3)], 11, 0),
    (&[(15, 15), (14, 8)], 10, 23),
    (&[(15, 15), (4, 2)], 10, 27),
    // opcodes and operands
    (&[(19, 15)], 12, 19),
    (&[(16, 8)], 12, 15),
    (&[(20, 64)], 12, 19),
    (&[(26, 1)], 12, 23),
    (&[(24, 1)], 12, 23),
    (&[(19, 11), (20, 0), (22, 1)], 12, 19),
    // landings
    (&[(22, 3)], 13, 19),
    (&[(21, 255)], 13, 19),
    (&[(19, 34), (20, 0), (22, 1)], 13, 19),
    (&[(23, 33)], 13, 23),
    // 12 before 13 at one instruction, the earlier instruction first
    (&[(23, 1), (24, 8)], 12, 23),
    (&[(20, 64), (22, 3)], 12, 19),
    (&[(22, 3), (23, 15)], 13, 19),
];

#[test]
fn changes(rt: HostRuntime) {
    for (bytes, number, place) in CHANGES {
        assert_eq!(rt; answer(&changed(bytes)), (number, place));
    }
    assert_eq!(rt; answer(&changed(&[(19, 34), (20, 0), (22, 0)])), (0, 0));
    assert_eq!(rt; answer(&changed(&[(19, 11), (20, 0), (22, 0)])), (0, 0));
}

// Other files, and the refusal: none at all, a byte and a field left over, the cells left out, cells
// of five bytes, the threads behind the cells.
const OTHERS: [(&'static [u8], u8, usize); 6] = [
    (&[], 10, 0),
    (
        &[1, 0, 2, 1, 1, 2, 0, 1, 0, 3, 0, 0, 4, 0, 4, 14, 0, 0, 0, 4],
        10,
        19,
    ),
    (
        &[
            1, 0, 2, 1, 1, 2, 0, 1, 0, 3, 0, 0, 4, 0, 4, 14, 0, 0, 0, 4, 0, 4, 14, 0, 0, 0,
        ],
        10,
        19,
    ),
    (&[1, 0, 2, 1, 1, 2, 0, 1, 0, 4, 0, 4, 14, 0, 0, 0], 10, 9),
    (
        &[
            1, 0, 2, 1, 1, 2, 0, 1, 0, 3, 0, 5, 0, 0, 0, 0, 0, 4, 0, 4, 14, 0, 0, 0,
        ],
        11,
        9,
    ),
    (
        &[1, 0, 2, 1, 1, 3, 0, 0, 2, 0, 1, 0, 4, 0, 4, 14, 0, 0, 0],
        10,
        5,
    ),
];

#[test]
fn other_files(rt: HostRuntime) {
    for (file, number, place) in OTHERS {
        assert_eq!(rt; answer(file), (number, place));
    }
}

// So many methods, threads and cells, and the refusal.
const COUNTS: [(u8, usize, usize, u8, usize); 10] = [
    (0, 1, 0, 11, 0),
    (1, 1, 0, 0, 0),
    (32, 1, 0, 0, 0),
    (33, 1, 0, 11, 0),
    (1, 0, 0, 11, 5),
    (1, 8, 0, 0, 0),
    (1, 9, 0, 11, 5),
    (1, 1, 32, 0, 0),
    (1, 1, 33, 11, 9),
    (32, 8, 33, 11, 16),
];

#[test]
fn counts(rt: HostRuntime) -> Result<(), Fail> {
    for (methods, threads, cells, number, place) in COUNTS {
        let file = small(rt.alloc(), methods, threads, cells)?;
        assert_eq!(rt; answer(file.as_slice()), (number, place));
    }
    Ok(())
}

#[test]
fn lengths(rt: HostRuntime) -> Result<(), Fail> {
    for (size, number, place) in [(0, 11, 12), (1, 0, 0), (4096, 0, 0), (4097, 11, 12)] {
        let file = sized(rt.alloc(), size)?;
        assert_eq!(rt; answer(file.as_slice()), (number, place));
    }
    let mut file = longest(rt.alloc())?;
    assert_eq!(rt; file.len(), 65535);
    assert_eq!(rt; answer(file.as_slice()), (0, 0));
    file.push(0)?;
    assert_eq!(rt; answer(file.as_slice()), (10, 0));
    Ok(())
}

// Two threads, two cells and three methods. The fields stand at 0, 5, 10, 21, 32 and 39.
const B: [u8; 54] = [
    1, 0, 2, 1, 3, 2, 0, 2, 2, 0, 3, 0, 8, 0, 0, 0, 7, 255, 255, 255, 254, 4, 0, 8, 1, 0, 0, 7, 12,
    0, 0, 0, 4, 0, 4, 14, 0, 0, 0, 4, 0, 12, 11, 0, 0, 1, 34, 0, 0, 0, 9, 0, 0, 0,
];

#[test]
fn accessors(rt: HostRuntime) -> Result<(), Fail> {
    let a = Applet::read(&B)?;
    assert!(rt; a.entries() == [2, 0].as_slice());
    assert_eq!(rt; a.starts(), 2);
    assert_eq!(rt; a.start(0), Some(7));
    assert_eq!(rt; a.start(1), Some(-2));
    assert_eq!(rt; a.start(2), None);
    assert_eq!(rt; a.methods(), 3);
    for (m, place, size, first) in [(0, 21, 8, 1), (1, 32, 4, 14), (2, 39, 12, 11)] {
        assert_eq!(rt; a.place(m), Some(place));
        let code = a.code(m).ok_or("no such method")?;
        assert_eq!(rt; code.len(), size);
        assert_eq!(rt; code.first().copied(), Some(first));
    }
    assert_eq!(rt; a.place(3), None);
    assert!(rt; a.code(3).is_none());
    Ok(())
}

// The fields of B one by one.
#[test]
fn fields(rt: HostRuntime) -> Result<(), Fail> {
    let mut fields = Fields::new(&B, 0);
    for (place, tag, size) in [
        (0, 1, 2),
        (5, 2, 2),
        (10, 3, 8),
        (21, 4, 8),
        (32, 4, 4),
        (39, 4, 12),
    ] {
        assert_eq!(rt; fields.place(), place);
        assert!(rt; !fields.ended());
        let Ok(Some(f)) = fields.next() else {
            return Err(Fail::new("no field"));
        };
        assert_eq!(rt; f.place, place);
        assert_eq!(rt; f.part.tag(), tag);
        assert_eq!(rt; f.part.contents().len(), size);
    }
    assert!(rt; fields.ended());
    assert_eq!(rt; fields.place(), 54);
    assert!(rt; matches!(fields.next(), Ok(None)));
    let Err(e) = fields.due(Part::METHOD) else {
        return Err(Fail::new("a field behind the last one"));
    };
    assert_eq!(rt; e.place, 54);
    Ok(())
}

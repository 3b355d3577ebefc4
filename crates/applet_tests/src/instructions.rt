// Opcodes with their operands, landings, and instructions in four bytes.
use crate::files::only;
use crate::{INSTRUCTIONS, LIMITS, answer, led_by};
use opcodes::{Word, decode, encode, look_up};

#[test]
fn operands(rt: HostRuntime) {
    for (op, x, y, past) in LIMITS {
        assert_eq!(rt; answer(&led_by(op, x, y)), (0, 0));
        assert_eq!(rt; answer(&led_by(op, x.saturating_add(1), y)), (12, 15));
        assert_eq!(rt; answer(&led_by(op, 255, y)), (12, 15));
        if past != 0 {
            assert_eq!(rt; answer(&led_by(op, x, y.saturating_add(1))), (past, 15));
            assert_eq!(rt; answer(&led_by(op, x, y.saturating_add(256))), (past, 15));
            assert_eq!(rt; answer(&led_by(op, x, 65535)), (past, 15));
            assert_eq!(rt; answer(&led_by(op, x.saturating_add(1), 65535)), (12, 15));
        }
    }
}

// All other opcodes are unknown.
#[test]
fn opcodes(rt: HostRuntime) {
    for op in 0..=255u8 {
        let known = matches!(op, 1..=14 | 32..=41);
        assert_eq!(rt; look_up(op).is_some(), known);
        if !known {
            assert_eq!(rt; answer(&led_by(op, 0, 0)), (12, 15));
        }
    }
}

// Only JUMP, RET and END may be last.
#[test]
fn last_instructions(rt: HostRuntime) {
    for (op, x, _, _) in LIMITS {
        let expected = match op {
            0x09 | 0x0c | 0x0e => (0, 0),
            _ => (13, 15),
        };
        assert_eq!(rt; answer(&only(op, 0, 0)), expected);
        assert_eq!(rt; answer(&only(op, x.saturating_add(1), 0)), (12, 15));
    }
    assert_eq!(rt; answer(&only(0x09, 0, 1)), (13, 15));
}

#[test]
fn four_bytes(rt: HostRuntime) {
    for (i, bytes) in INSTRUCTIONS {
        assert_eq!(rt; encode(i), bytes);
        assert_eq!(rt; decode(bytes, 32), Some(i));
        assert_eq!(rt; Word::of(i).op, bytes[0]);
    }
    assert_eq!(rt; decode([0x0b, 0, 0, 32], 32), None);
    assert_eq!(rt; decode([0x29, 7, 0, 0], 32), None);
}

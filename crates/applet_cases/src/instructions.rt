// Opcodes with their operands, landings, and instructions in four bytes.
use crate::files::built;
use applet_tests::{INSTRUCTIONS, LIMITS, answer, led_by};
use opcodes::{Word, decode, encode, look_up};
use std::process::Abort;
use std::test::Fail;

// The refusal's number with such an instruction at index 0, whose place is 15.
fn at_first(rt: &impl Abort, op: u8, x: u8, y: u16, number: u8) {
    let place = if number == 0 { 0 } else { 15 };
    assert_eq!(rt; answer(&led_by(op, x, y)), (number, place));
}

// The operands at their limits and past each of them.
fn limit(rt: &impl Abort, op: u8, x: u8, y: u16, past: u8) {
    at_first(rt, op, 0, 0, 0);
    at_first(rt, op, x, y, 0);
    at_first(rt, op, x.saturating_add(1), y, 12);
    at_first(rt, op, 255, y, 12);
    if past != 0 {
        at_first(rt, op, x, y.saturating_add(1), past);
        at_first(rt, op, x, y.saturating_add(256), past);
        at_first(rt, op, x, 65535, past);
        at_first(rt, op, x.saturating_add(1), 65535, 12);
    }
}

#[test]
fn operands(rt: HostRuntime) {
    for (op, x, y, past) in LIMITS {
        limit(&rt, op, x, y, past);
    }
}

// All other opcodes are unknown.
#[test]
fn opcodes(rt: HostRuntime) {
    for op in 0..=255u8 {
        let known = matches!(op, 1..=14 | 32..=41);
        assert_eq!(rt; look_up(op).is_some(), known);
        at_first(&rt, op, 0, 0, if known { 0 } else { 12 });
    }
}

// Only JUMP, RET and END may be last: each opcode as the only instruction of a method, at 15.
#[test]
fn last_instructions(rt: HostRuntime) -> Result<(), Fail> {
    for (op, x, _, _) in LIMITS {
        let expected = match op {
            0x09 | 0x0c | 0x0e => (0, 0),
            _ => (13, 15),
        };
        let file = built(rt.alloc(), ALONE, 1, &[op, 0, 0, 0], 0, b"")?;
        assert_eq!(rt; answer(file.as_slice()), expected);
        let past = [op, x.saturating_add(1), 0, 0];
        let file = built(rt.alloc(), ALONE, 1, &past, 0, b"")?;
        assert_eq!(rt; answer(file.as_slice()), (12, 15));
    }
    Ok(())
}

// A up to its instructions, with a method of one.
const ALONE: &'static [u8; 15] = b"\x01\x00\x02\x01\x01\x02\x00\x01\x00\x03\x00\x00\x04\x00\x04";

#[test]
fn four_bytes(rt: HostRuntime) {
    for (i, bytes) in INSTRUCTIONS {
        assert_eq!(rt; encode(i), bytes);
        assert_eq!(rt; decode(bytes, 32), Some(i));
        assert_eq!(rt; Word::of(i).op, bytes[0]);
    }
    assert_eq!(rt; decode([0x0b, 0, 0, 32], 32), None);
    assert_eq!(rt; decode([0x29, 7, 0, 0], 32), None);
}

// Woven files, refusals, and what the area holds afterwards.
use crate::files::{A, L, P, WOVEN, answer, changed, hosts, told};
use policy::Pair;
use rules::Rules;
use std::test::Fail;
use tables::Table;
use weaver::weave;

// The woven file stands at the front of the area, and the rest stays.
#[test]
fn example(rt: HostRuntime) {
    let mut area = [0xeeu8; 100];
    assert_eq!(rt; told(weave(&Rules::new(P), A, &mut area)), (0, 91));
    assert!(rt; area.starts_with(WOVEN));
    assert!(rt; area.ends_with(&[0xee; 9]));
}

// Exactly enough room, and one byte too few, which leaves the area as it was.
#[test]
fn room(rt: HostRuntime) {
    let mut enough = [0u8; 91];
    assert_eq!(rt; told(weave(&Rules::new(P), A, &mut enough)), (0, 91));
    let mut short = [7u8; 90];
    assert_eq!(rt; told(weave(&Rules::new(P), A, &mut short)), (1, 0));
    assert!(rt; short == [7; 90]);
}

// A calls nothing that L watches, and with 1 in place of call 5 it does. That block has seven
// instructions and VIOL.
#[test]
fn kinds(rt: HostRuntime) {
    let mut area = [0u8; 200];
    // no site, one cell
    assert_eq!(rt; told(weave(&Table::new(L), A, &mut area)), (0, 31));
    // SET, a site of 8 + 6, END
    assert_eq!(rt;
        told(weave(&Table::new(L), &changed(&[(20, 1)]), &mut area)),
        (0, 83)
    );
    // of both: two cells, and P's site of 10 + 6
    let both = Pair::new(Table::new(L), Rules::new(P));
    assert_eq!(rt; told(weave(&both, A, &mut area)), (0, 95));
}

// Changed bytes of A, and the refusal.
#[test]
fn refusals(rt: HostRuntime) {
    // another tag, an operand out of range, a target outside
    assert_eq!(rt; answer(&changed(&[(0, 2)])), (10, 0));
    assert_eq!(rt; answer(&changed(&[(16, 8)])), (12, 15));
    assert_eq!(rt; answer(&changed(&[(22, 3)])), (13, 19));
    // opcodes from 20 up: LOCK, UNLOCK, SKIP 0
    assert_eq!(rt; answer(&changed(&[(15, 0x20), (16, 1), (18, 0)])), (14, 15));
    assert_eq!(rt; answer(&changed(&[(19, 0x21), (20, 0), (22, 0)])), (14, 19));
    assert_eq!(rt; answer(&changed(&[(19, 0x22), (20, 0), (22, 0)])), (14, 19));
    assert_eq!(rt; answer(&[]), (10, 0));
}

// A filled cells' field is refused before an opcode from 20 up.
#[test]
fn filled(rt: HostRuntime) {
    let file = b"\x01\x00\x02\x01\x01\x02\x00\x01\x00\x03\x00\x04\x00\x00\x00\x00\x04\x00\x08\
          \x20\x05\x00\x00\x0e\x00\x00\x00";
    assert_eq!(rt; answer(file), (14, 9));
}

// A site of P has 16 instructions: 255 of them and END are 4,081, and 256 are one too many.
#[test]
fn limits(rt: HostRuntime) -> Result<(), Fail> {
    assert_eq!(rt; answer(&hosts(rt.alloc(), 1, &[(255, 1)])?), (0, 16343));
    assert_eq!(rt; answer(&hosts(rt.alloc(), 1, &[(256, 1)])?), (15, 12));
    assert_eq!(rt; answer(&hosts(rt.alloc(), 1, &[(256, 1); 2])?), (15, 12));
    // 16 + 4 × 16,327 = 65,324 bytes; five methods of 209 sites are 66,971
    assert_eq!(rt; answer(&hosts(rt.alloc(), 1, &[(255, 1); 4])?), (0, 65324));
    assert_eq!(rt; answer(&hosts(rt.alloc(), 1, &[(209, 1); 5])?), (16, 0));
    Ok(())
}

// Woven files, refusals, and what the area holds afterwards.
use crate::files::{LEAPS, LEAPS_WOVEN, Z, long_rules, many_cells};
use policy::Pair;
use rules::Rules;
use std::test::Fail;
use tables::Table;
use weaver::weave;
use weaver_tests::files::{A, L, P, WOVEN, answer, changed, hosts, told};

// The woven file stands at the front of the area, and the rest stays.
#[test]
fn example(rt: HostRuntime) {
    let mut area = [0xeeu8; 100];
    assert_eq!(rt; told(weave(&Rules::new(P), A, &mut area)), (0, 91));
    assert!(rt; area.starts_with(WOVEN));
    assert!(rt; area.ends_with(&[0xee; 9]));
}

// Exactly enough room, and one byte too few, which leaves the area as it was.
#[test]
fn room(rt: HostRuntime) {
    let mut enough = [0u8; 91];
    assert_eq!(rt; told(weave(&Rules::new(P), A, &mut enough)), (0, 91));
    let mut short = [7u8; 90];
    assert_eq!(rt; told(weave(&Rules::new(P), A, &mut short)), (1, 0));
    assert!(rt; short == [7; 90]);
}

// A calls nothing that L watches, and with 1 in place of call 5 it does. That block has seven
// instructions and VIOL.
#[test]
fn kinds(rt: HostRuntime) {
    let mut area = [0u8; 200];
    // no site, one cell
    assert_eq!(rt; told(weave(&Table::new(L), A, &mut area)), (0, 31));
    // SET, a site of 8 + 6, END
    assert_eq!(rt;
        told(weave(&Table::new(L), &changed(&[(20, 1)]), &mut area)),
        (0, 83)
    );
    // of both: two cells, and P's site of 10 + 6
    let both = Pair::new(Table::new(L), Rules::new(P));
    assert_eq!(rt; told(weave(&both, A, &mut area)), (0, 95));
}

// Changed bytes of A, and the refusal.
#[test]
fn refusals(rt: HostRuntime) {
    // another tag, another format, a thread of no method, an operand out of range, a target outside
    assert_eq!(rt; answer(&changed(&[(0, 2)])), (10, 0));
    assert_eq!(rt; answer(&changed(&[(3, 2)])), (11, 0));
    assert_eq!(rt; answer(&changed(&[(8, 1)])), (11, 5));
    assert_eq!(rt; answer(&changed(&[(16, 8)])), (12, 15));
    assert_eq!(rt; answer(&changed(&[(22, 3)])), (13, 19));
    // opcodes from 20 up: LOCK, UNLOCK, SKIP 0
    assert_eq!(rt; answer(&changed(&[(15, 0x20), (16, 1), (18, 0)])), (14, 15));
    assert_eq!(rt; answer(&changed(&[(19, 0x21), (20, 0), (22, 0)])), (14, 19));
    assert_eq!(rt; answer(&changed(&[(19, 0x22), (20, 0), (22, 0)])), (14, 19));
    assert_eq!(rt; answer(&[]), (10, 0));
}

// A filled cells' field is refused before an opcode from 20 up.
#[test]
fn filled(rt: HostRuntime) {
    let file = b"\x01\x00\x02\x01\x01\x02\x00\x01\x00\x03\x00\x04\x00\x00\x00\x00\x04\x00\x08\
          \x20\x05\x00\x00\x0e\x00\x00\x00";
    assert_eq!(rt; answer(file), (14, 9));
}

// A site of P has 16 instructions: 255 of them and 16 times END are 4,096, and one END more is too many.
// A file has 16 bytes before its methods, of which four are the cell's start, and each method three and
// four for each instruction.
#[test]
fn limits(rt: HostRuntime) -> Result<(), Fail> {
    let heap = rt.alloc();
    assert_eq!(rt; answer(&hosts(heap, 1, &[(255, 16)])?), (0, 16403));
    assert_eq!(rt; answer(&hosts(heap, 1, &[(255, 17)])?), (15, 12));
    // the second method stands behind the first one of seven bytes
    assert_eq!(rt; answer(&hosts(heap, 1, &[(0, 1), (256, 1)])?), (15, 19));
    // 4 × 3,275 + 3,276 = 16,376 instructions: 16 + 5 × 3 + 65,504 bytes; a thread more is a byte more
    let most = [(204, 11), (204, 11), (204, 11), (204, 11), (204, 12)];
    assert_eq!(rt; answer(&hosts(heap, 1, &most)?), (0, 65535));
    assert_eq!(rt; answer(&hosts(heap, 2, &most)?), (16, 0));
    // too long a method comes before too long a file; each before it has 3 + 4 × 271 bytes
    assert_eq!(rt;
        answer(&hosts(heap, 1, &[(255, 16), (255, 16), (255, 16), (255, 17)])?),
        (15, 3273)
    );
    Ok(())
}

// Jumps forwards and backwards, over sites and onto them, sites side by side and before the last
// instruction, and a policy without cells.
#[test]
fn leaps(rt: HostRuntime) {
    let mut area = [0xeeu8; 150];
    assert_eq!(rt; told(weave(&Rules::new(Z), LEAPS, &mut area)), (0, 147));
    assert!(rt; area.starts_with(LEAPS_WOVEN));
    assert!(rt; area.ends_with(&[0xee; 3]));
}

// 16 + 16 + 1 cells are too many; blocks of 961 + 961 instructions are too long, which comes after. The
// policy is refused before the applet.
#[test]
fn pairs(rt: HostRuntime) -> Result<(), Fail> {
    let cells = many_cells(rt.alloc())?;
    let long = long_rules(rt.alloc())?;
    let mut area = [7u8; 10];
    let wide = Pair::new(Rules::new(&cells), Rules::new(&cells));
    assert_eq!(rt; told(weave(&wide, A, &mut area)), (1, 0));
    assert_eq!(rt;
        told(weave(&Pair::new(wide, Rules::new(P)), &[], &mut area)),
        (25, 0)
    );
    assert_eq!(rt; told(weave(&Rules::new(&long), A, &mut area)), (1, 0));
    let blocks = Pair::new(Rules::new(&long), Rules::new(&long));
    assert_eq!(rt; told(weave(&blocks, &[], &mut area)), (24, 0));
    assert!(rt; area.starts_with(&[7; 10]));
    Ok(())
}

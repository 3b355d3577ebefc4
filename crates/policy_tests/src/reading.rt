// Reading policy files: fields, sizes, expressions and double rows, each refusal with its place.
use crate::files::{L, P, changed, told};
use model::{PolicyKind, Refusal};
use policy::policy_kind;
use tables::Table;

// Changed bytes of P, and the refusal.
const CHANGES_OF_P: [(&'static [(usize, u8)], u8, usize); 40] = [
    // fields: another tag, a length past the end of its holder
    (&[(0, 66)], 20, 0),
    (&[(1, 1)], 20, 0),
    (&[(5, 67)], 20, 5),
    (&[(12, 66)], 20, 12),
    (&[(14, 28)], 20, 12),
    (&[(14, 26)], 20, 29),
    (&[(14, 3)], 20, 17),
    (&[(17, 69)], 20, 17),
    (&[(19, 23)], 20, 17),
    (&[(29, 68)], 20, 29),
    (&[(31, 11)], 20, 29),
    (&[(14, 14)], 20, 29),
    // sizes: format, cells, starts, call, moment, tokens, the cell of an update
    (&[(2, 3)], 21, 0),
    (&[(3, 2)], 21, 0),
    (&[(3, 0)], 21, 0),
    (&[(4, 17)], 21, 0),
    (&[(4, 2)], 21, 5),
    (&[(4, 0)], 21, 5),
    (&[(7, 3)], 21, 5),
    (&[(14, 1)], 21, 12),
    (&[(14, 0)], 21, 12),
    (&[(15, 64)], 21, 12),
    (&[(16, 3)], 21, 12),
    (&[(19, 0)], 21, 17),
    (&[(19, 8)], 21, 17),
    (&[(31, 0)], 21, 29),
    (&[(31, 1)], 21, 29),
    (&[(31, 9)], 21, 29),
    (&[(32, 1)], 21, 29),
    // expressions: kinds, cells, arguments, operators, the answer before, values held
    (&[(20, 4)], 22, 17),
    (&[(22, 5)], 22, 17),
    (&[(21, 1)], 22, 17),
    (&[(22, 4)], 22, 17),
    (&[(28, 6)], 22, 17),
    (&[(23, 3), (25, 2)], 22, 17),
    (&[(35, 1)], 22, 29),
    (&[(39, 2)], 22, 29),
    // the call and the moment before the guard, 20 and 21 before 22, the first expression first
    (&[(16, 3), (17, 69)], 21, 12),
    (&[(22, 4), (32, 1)], 21, 29),
    (&[(22, 4), (35, 1)], 22, 17),
];

#[test]
fn changes_of_p(rt: HostRuntime) {
    for (bytes, number, place) in CHANGES_OF_P {
        assert_eq!(rt; told(rules::check(&changed(P, bytes))), (number, place));
    }
    assert_eq!(rt; told(rules::check(P)), (0, 0));
    // the answer behind a call, the fourth argument before it, and the smallest constant
    assert_eq!(rt;
        told(rules::check(&changed(P, &[(16, 1), (22, 4)]))),
        (0, 0)
    );
    assert_eq!(rt;
        told(rules::check(&changed(P, &[(16, 2), (38, 4)]))),
        (0, 0)
    );
    assert_eq!(rt; told(rules::check(&changed(P, &[(22, 3)]))), (0, 0));
    assert_eq!(rt;
        told(rules::check(&changed(P, &[(24, 128), (25, 0)]))),
        (0, 0)
    );
}

// Where P is refused when it is cut to so many bytes. At 5 and 12 a field ends: there the starts are
// missing, and the policy has no rule.
#[test]
fn cuts_of_p(rt: HostRuntime) {
    for n in 0..42usize {
        let place = if n < 5 {
            0
        } else if n < 12 {
            5
        } else {
            12
        };
        let number = if n == 12 { 0 } else { 20 };
        let place = if n == 12 { 0 } else { place };
        assert_eq!(rt; told(rules::check(&P[..n])), (number, place));
    }
}

// Changed bytes of L, and the refusal.
const CHANGES_OF_L: [(&'static [(usize, u8)], u8, usize); 21] = [
    (&[(0, 98)], 20, 0),
    (&[(1, 1)], 20, 0),
    (&[(6, 97)], 20, 6),
    (&[(15, 5)], 20, 13),
    (&[(2, 2)], 21, 0),
    (&[(3, 2)], 21, 0),
    (&[(4, 0)], 21, 0),
    (&[(4, 17)], 21, 0),
    (&[(5, 2)], 21, 0),
    (&[(4, 3)], 21, 6),
    (&[(4, 1)], 21, 6),
    (&[(8, 3)], 21, 6),
    (&[(9, 64)], 21, 6),
    (&[(10, 3)], 21, 6),
    (&[(11, 2)], 21, 6),
    (&[(12, 254)], 21, 6),
    (&[(18, 2)], 21, 13),
    (&[(19, 16)], 21, 13),
    (&[(16, 1)], 23, 13),
    // an earlier size before a later field, and all sizes before a double row
    (&[(11, 2), (13, 97)], 21, 6),
    (&[(16, 1), (19, 2)], 21, 13),
];

#[test]
fn changes_of_l(rt: HostRuntime) {
    for (bytes, number, place) in CHANGES_OF_L {
        assert_eq!(rt; told(Table::check(&changed(L, bytes))), (number, place));
    }
    assert_eq!(rt; told(Table::check(L)), (0, 0));
    // the same call at another moment, and the last start
    assert_eq!(rt;
        told(Table::check(&changed(L, &[(16, 1), (17, 2)]))),
        (0, 0)
    );
    assert_eq!(rt; told(Table::check(&changed(L, &[(5, 1)]))), (0, 0));
}

// Where L is refused when it is cut to so many bytes; at 6 and 13 it reads.
#[test]
fn cuts_of_l(rt: HostRuntime) {
    for n in 0..20usize {
        let whole = n == 6 || n == 13;
        let place = if n < 7 {
            0
        } else if n < 14 {
            6
        } else {
            13
        };
        let number = if whole { 0 } else { 20 };
        let place = if whole { 0 } else { place };
        assert_eq!(rt; told(Table::check(&L[..n])), (number, place));
    }
}

#[test]
fn kinds(rt: HostRuntime) {
    assert_eq!(rt; policy_kind(P), Ok(PolicyKind::Rules));
    assert_eq!(rt; policy_kind(L), Ok(PolicyKind::Table));
    assert_eq!(rt; policy_kind(&[97]), Ok(PolicyKind::Table));
    for file in [b"".as_slice(), b"B\x00\x00", b"b", b"\x01\x00\x02\x01\x01"] {
        assert_eq!(rt; policy_kind(file), Err(Refusal::BadPolicyField(0)));
    }
    // each reader refuses the other's file
    assert_eq!(rt; told(rules::check(L)), (20, 0));
    assert_eq!(rt; told(Table::check(P)), (20, 0));
}

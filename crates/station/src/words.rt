// Instructions in words, and refusals by their numbers.
use model::{Operator, Refusal};
use opcodes::{Kind, Word, look_up};
use std::fmt;

// The name of an opcode.
pub(crate) fn name(op: u8) -> &'static str {
    match op {
        0x01 => "SET",
        0x02 => "MOV",
        0x03 => "ADD",
        0x04 => "SUB",
        0x05 => "LT",
        0x06 => "EQ",
        0x07 => "GET",
        0x08 => "PUT",
        0x09 => "JUMP",
        0x0a => "BRZ",
        0x0b => "CALL",
        0x0c => "RET",
        0x0d => "HOST",
        0x0e => "END",
        0x20 => "LOCK",
        0x21 => "UNLOCK",
        0x22 => "SKIP",
        0x23 => "SKZ",
        0x24 => "VIOL",
        0x25 => "MSET",
        0x26 => "MCELL",
        0x27 => "MARG",
        0x28 => "STORE",
        0x29 => "OP",
        _ => "?",
    }
}

// What an operand of a kind is called, with its number.
#[derive(Drop)]
pub struct Named {
    pub kind: Kind,
    pub value: u16,
}

impl fmt::Display for Named {
    fn fmt<W: fmt::Write>(&self, f: &mut fmt::Formatter<W>) -> fmt::Result {
        let n = self.value;
        match self.kind {
            Kind::Dash => Ok(()),
            Kind::Register => write!(f, "r{n}"),
            Kind::Shared => write!(f, "g{n}"),
            Kind::Scratch => write!(f, "m{n}"),
            Kind::Cell => write!(f, "s{n}"),
            Kind::Call => write!(f, "call {n}"),
            Kind::Argument => write!(f, "a{n}"),
            Kind::Operator => write!(f, "{}", Operator::from(n.min(5) as u8)),
            Kind::Signed => write!(f, "{}", i16::from_be_bytes(n.to_be_bytes())),
            Kind::Target => write!(f, "to {n}"),
            Kind::Count => write!(f, "over {n}"),
            Kind::Method => write!(f, "method {n}"),
        }
    }
}

// An instruction in words: its name and its operands.
#[derive(Drop)]
pub struct Written(pub Word);

impl fmt::Display for Written {
    fn fmt<W: fmt::Write>(&self, f: &mut fmt::Formatter<W>) -> fmt::Result {
        let Word { op, x, y } = self.0;
        let name = name(op);
        let Some(e) = look_up(op) else {
            return f.write_str(name);
        };
        let x = Named {
            kind: e.x.kind,
            value: u16::from(x),
        };
        let y = Named {
            kind: e.y.kind,
            value: y,
        };
        match (e.x.kind, e.y.kind) {
            (Kind::Dash, Kind::Dash) => f.write_str(name),
            (Kind::Dash, _) => write!(f, "{name:<7}{y}"),
            (_, Kind::Dash) => write!(f, "{name:<7}{x}"),
            _ => write!(f, "{name:<7}{x} {y}"),
        }
    }
}

// A refusal by its number and place.
#[derive(Drop)]
pub struct Numbered(pub Refusal);

impl fmt::Display for Numbered {
    fn fmt<W: fmt::Write>(&self, f: &mut fmt::Formatter<W>) -> fmt::Result {
        write!(f, "refused {} {}", self.0.number(), self.0.place())
    }
}

// Instructions in four bytes: an opcode, a byte x, two bytes y.
ghost use Rattle.std.specs.Prelude.{◌≡◌, ℕ, [], ◌∷◌, IfSome, Some, nat_lt};
ghost use Rattle.model.specs.Words.{operator_number, limit, word, quad_at, flat, Ranged, wd, word_of, decode as decoding, encode as encoding};
ghost use Rattle.opcodes.specs.Table.{operand, row, row_fits};
ghost use Rattle.opcodes.specs.Instructions.{instr_of, numbers};
ghost use Rattle.opcodes.specs.Judging.{row_lands};

use crate::table::{Entry, Kind, Operand, look_up};
use model::{Instr, Operator, Own, Test};

// An instruction as numbers.
#[derive(Clone, Copy)]
pub struct Word {
    pub op: u8,
    pub x: u8,
    pub y: u16,
}

// The number of an operator, as instructions and expressions have it.
pub fn operator_number(o: Operator) -> u8
    ensures { result ≡ operator_number o }
{
    o as u8
}

impl Operand {
    // Whether a number is in range, where there are so many methods.
    pub fn takes(&self, v: u32, methods: u8) -> bool
        ensures { result ≡ nat_lt v (limit methods (operand self.now.kind self.now.limit)) }
    {
        match self.kind {
            Kind::Signed | Kind::Target | Kind::Count => v < 65536,
            Kind::Method => v < u32::from(methods),
            _ => v < self.limit,
        }
    }
}

impl Entry {
    // Whether both operands are in range, where there are so many methods.
    pub fn fits(&self, x: u8, y: u16, methods: u8) -> bool
        ensures { result ≡ row_fits methods (row self.now) x y }
    {
        self.x.takes(u32::from(x), methods) && self.y.takes(u32::from(y), methods)
    }

    // Whether where an instruction at an index leads, by its operand y, lies in a method of that size,
    // and so does the next instruction if a thread may go on there.
    pub fn lands(&self, y: u16, index: u16, size: u16) -> bool
        ensures { result ≡ row_lands size index (row self.now) y }
    {
        let next = u32::from(index) + 1;
        let leads = match self.y.kind {
            Kind::Target => y < size,
            Kind::Count => next + u32::from(y) < u32::from(size),
            _ => true,
        };
        leads && (!self.falls || next < u32::from(size))
    }
}

// The instruction of an opcode, y in two bytes; operands of one byte are the low one.
fn build(op: u8, x: u8, high: u8, low: u8) -> Option<Instr>
    ensures { result ≡ instr_of op x (word high low) }
{
    let y = u16::from_be_bytes([high, low]);
    match op {
        0x01 => Some(Instr::Own(Own::Set(x, y.cast_signed()))),
        0x02 => Some(Instr::Own(Own::Mov(x, low))),
        0x03 => Some(Instr::Own(Own::Add(x, low))),
        0x04 => Some(Instr::Own(Own::Sub(x, low))),
        0x05 => Some(Instr::Own(Own::Lt(x, low))),
        0x06 => Some(Instr::Own(Own::Eq(x, low))),
        0x07 => Some(Instr::Own(Own::Get(x, low))),
        0x08 => Some(Instr::Own(Own::Put(x, low))),
        0x09 => Some(Instr::Own(Own::Jump(y))),
        0x0a => Some(Instr::Own(Own::Brz(x, y))),
        0x0b => Some(Instr::Own(Own::Call(low))),
        0x0c => Some(Instr::Own(Own::Ret)),
        0x0d => Some(Instr::Own(Own::Host(x, y))),
        0x0e => Some(Instr::Own(Own::End)),
        0x20 => Some(Instr::Lock(x)),
        0x21 => Some(Instr::Unlock),
        0x22 => Some(Instr::Test(Test::Skip(y))),
        0x23 => Some(Instr::Test(Test::Skz(x, y))),
        0x24 => Some(Instr::Test(Test::Viol)),
        0x25 => Some(Instr::Test(Test::Mset(x, y.cast_signed()))),
        0x26 => Some(Instr::Test(Test::Mcell(x, low))),
        0x27 => Some(Instr::Test(Test::Marg(x, low))),
        0x28 => Some(Instr::Test(Test::Store(x, low))),
        0x29 => Some(Instr::Test(Test::Op(x, Operator::from(low)))),
        _ => None,
    }
}

fn own_numbers(i: Own) -> (u8, u8, u16)
    ensures { wd result.0 result.1 result.2 ≡ word_of (Instr.Own i) }
{
    match i {
        Own::Set(x, y) => (0x01, x, y.cast_unsigned()),
        Own::Mov(x, y) => (0x02, x, u16::from(y)),
        Own::Add(x, y) => (0x03, x, u16::from(y)),
        Own::Sub(x, y) => (0x04, x, u16::from(y)),
        Own::Lt(x, y) => (0x05, x, u16::from(y)),
        Own::Eq(x, y) => (0x06, x, u16::from(y)),
        Own::Get(x, y) => (0x07, x, u16::from(y)),
        Own::Put(x, y) => (0x08, x, u16::from(y)),
        Own::Jump(y) => (0x09, 0, y),
        Own::Brz(x, y) => (0x0a, x, y),
        Own::Call(y) => (0x0b, 0, u16::from(y)),
        Own::Ret => (0x0c, 0, 0),
        Own::Host(x, y) => (0x0d, x, y),
        Own::End => (0x0e, 0, 0),
    }
}

fn test_numbers(i: Test) -> (u8, u8, u16)
    ensures { wd result.0 result.1 result.2 ≡ word_of (Instr.Test i) }
{
    match i {
        Test::Skip(y) => (0x22, 0, y),
        Test::Skz(x, y) => (0x23, x, y),
        Test::Viol => (0x24, 0, 0),
        Test::Mset(x, y) => (0x25, x, y.cast_unsigned()),
        Test::Mcell(x, y) => (0x26, x, u16::from(y)),
        Test::Marg(x, y) => (0x27, x, u16::from(y)),
        Test::Store(x, y) => (0x28, x, u16::from(y)),
        Test::Op(x, o) => (0x29, x, u16::from(operator_number(o))),
    }
}

impl Word {
    // Opcode and operands of an instruction.
    pub fn of(i: Instr) -> Word
        ensures { numbers result ≡ word_of i }
    {
        let (op, x, y) = match i {
            Instr::Own(i) => own_numbers(i),
            Instr::Lock(x) => (0x20, x, 0),
            Instr::Unlock => (0x21, 0, 0),
            Instr::Test(i) => test_numbers(i),
        };
        Word { op, x, y }
    }
}

// The instruction of four bytes, in an applet of so many methods: none if the opcode is unknown or an
// operand outside its range. What is read has these bytes.
pub fn decode(bytes: [u8; 4], methods: u8) -> Option<Instr>
    ensures value { result ≡ decoding methods (quad_at bytes 0) }
    ensures back { IfSome result (λ i. encoding i ≡ quad_at bytes 0) }
{
    let [op, x, high, low] = bytes;
    if !look_up(op)?.fits(x, u16::from_be_bytes([high, low]), methods) {
        return None;
    }
    build(op, x, high, low)
}

// The four bytes of an instruction. If its operands are in their ranges, it is read back from them.
pub fn encode(i: Instr) -> [u8; 4]
    ensures value { result ≡ flat (encoding i ∷ []) }
    ensures back { (n : ℕ) → Ranged n i → decoding n (quad_at result 0) ≡ Some i }
{
    let w = Word::of(i);
    let [high, low] = w.y.to_be_bytes();
    [w.op, w.x, high, low]
}

// What the tests of crate applet_cases share with these: a file, what a reading answers, opcodes
// with their limits, and instructions in their four bytes.
ghost use Rattle.std.specs.Prelude.{◌≡◌, ◌/◌, ◌%◌, ◌∷◌, ◌++◌, take, drop};
ghost use Rattle.model.specs.Reading.{read_applet};
ghost use Rattle.applet_tests.specs.Answers.{answer_of};

use applet::Applet;
use model::{Instr, Operator, Own, Test};

// One method and one thread: SET r0 7, HOST 5 with target 2, END. The head stands at 0, the threads at
// 5, the cells at 9 and the method at 12, its instructions at 15, 19 and 23.
pub const A: [u8; 27] = [
    1, 0, 2, 1, 1, 2, 0, 1, 0, 3, 0, 0, 4, 0, 12, 1, 0, 0, 7, 13, 5, 0, 2, 14, 0, 0, 0,
];

// A refusal's number and place, zeros where the file reads.
pub fn answer(file: &[u8]) -> (u8, usize)
    ensures { result ≡ answer_of (read_applet file.now) }
{
    match Applet::read(file) {
        Ok(_) => (0, 0),
        Err(r) => (r.number(), r.place()),
    }
}

// A with another instruction at index 0.
pub fn led_by(op: u8, x: u8, y: u16) -> [u8; 27]
    ensures { result ≡ take 15 A ++ (op ∷ x ∷ y / 256 ∷ y % 256 ∷ drop 19 A) }
{
    let [high, low] = y.to_be_bytes();
    let mut file = A;
    file[15] = op;
    file[16] = x;
    file[17] = high;
    file[18] = low;
    file
}

// Each opcode, the largest x, the largest y at index 0 of three instructions in the one method of an
// applet, and how a larger y is refused: 0 if there is none.
pub const LIMITS: [(u8, u8, u16, u8); 24] = [
    (0x01, 7, 65535, 0),
    (0x02, 7, 7, 12),
    (0x03, 7, 7, 12),
    (0x04, 7, 7, 12),
    (0x05, 7, 7, 12),
    (0x06, 7, 7, 12),
    (0x07, 7, 63, 12),
    (0x08, 7, 63, 12),
    (0x09, 0, 2, 13),
    (0x0a, 7, 2, 13),
    (0x0b, 0, 0, 12),
    (0x0c, 0, 0, 12),
    (0x0d, 63, 2, 13),
    (0x0e, 0, 0, 12),
    (0x20, 63, 0, 12),
    (0x21, 0, 0, 12),
    (0x22, 0, 1, 13),
    (0x23, 7, 1, 13),
    (0x24, 0, 0, 12),
    (0x25, 7, 65535, 0),
    (0x26, 7, 31, 12),
    (0x27, 7, 4, 12),
    (0x28, 7, 31, 12),
    (0x29, 6, 5, 12),
];

// Every opcode with its operands at their limits, in an applet of 32 methods.
pub const INSTRUCTIONS: [(Instr, [u8; 4]); 25] = [
    (Instr::Own(Own::Set(7, -32768)), [0x01, 7, 0x80, 0]),
    (Instr::Own(Own::Set(0, 32767)), [0x01, 0, 0x7f, 255]),
    (Instr::Own(Own::Mov(7, 6)), [0x02, 7, 0, 6]),
    (Instr::Own(Own::Add(6, 7)), [0x03, 6, 0, 7]),
    (Instr::Own(Own::Sub(7, 0)), [0x04, 7, 0, 0]),
    (Instr::Own(Own::Lt(0, 7)), [0x05, 0, 0, 7]),
    (Instr::Own(Own::Eq(7, 1)), [0x06, 7, 0, 1]),
    (Instr::Own(Own::Get(7, 63)), [0x07, 7, 0, 63]),
    (Instr::Own(Own::Put(1, 63)), [0x08, 1, 0, 63]),
    (Instr::Own(Own::Jump(65535)), [0x09, 0, 255, 255]),
    (Instr::Own(Own::Brz(7, 258)), [0x0a, 7, 1, 2]),
    (Instr::Own(Own::Call(31)), [0x0b, 0, 0, 31]),
    (Instr::Own(Own::Ret), [0x0c, 0, 0, 0]),
    (Instr::Own(Own::Host(63, 4095)), [0x0d, 63, 15, 255]),
    (Instr::Own(Own::End), [0x0e, 0, 0, 0]),
    (Instr::Lock(63), [0x20, 63, 0, 0]),
    (Instr::Unlock, [0x21, 0, 0, 0]),
    (Instr::Test(Test::Skip(65535)), [0x22, 0, 255, 255]),
    (Instr::Test(Test::Skz(7, 256)), [0x23, 7, 1, 0]),
    (Instr::Test(Test::Viol), [0x24, 0, 0, 0]),
    (Instr::Test(Test::Mset(7, -1)), [0x25, 7, 255, 255]),
    (Instr::Test(Test::Mcell(7, 31)), [0x26, 7, 0, 31]),
    (Instr::Test(Test::Marg(7, 4)), [0x27, 7, 0, 4]),
    (Instr::Test(Test::Store(6, 31)), [0x28, 6, 0, 31]),
    (Instr::Test(Test::Op(6, Operator::Either)), [0x29, 6, 0, 5]),
];

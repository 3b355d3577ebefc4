// The instructions of a method's code, one after the other.
ghost use Rattle.std.specs.Prelude.{length};
ghost use Rattle.std.specs.Iterator.{at_most};

use opcodes::Word;

// The instructions of a method's code that are left.
#[derive(Drop)]
pub struct Words<'a>(pub &'a [u8]);

impl Iterator for Words<'_> {
    type Item = Word;

    ghost remaining = { λ s. at_most (length s.0.now) };

    fn next(&mut self) -> Option<Word> {
        let [op, x, high, low, rest @ ..] = self.0 else {
            return None;
        };
        self.0 = rest;
        Some(Word {
            op: *op,
            x: *x,
            y: u16::from_be_bytes([*high, *low]),
        })
    }
}

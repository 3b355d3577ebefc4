// The fields of one tag, one behind the other.
ghost use Rattle.std.specs.Prelude.{◌≡◌, ◌-◌, length};

use crate::fields::due;
use model::Refusal;

// The contents of a field, and the place behind it.
#[derive(Clone, Copy)]
pub struct Piece<'a> {
    pub contents: &'a [u8],
    pub next: usize,
}

// The fields of a tag from a place of a holder on, each with its place, up to the holder's end or the
// first that is refused.
#[derive(Drop)]
pub struct Pieces<'a> {
    holder: &'a [u8],
    tag: u8,
    at: usize,
}

impl<'a> Pieces<'a> {
    // The fields of that tag from that place on.
    pub fn new(holder: &'a [u8], tag: u8, at: usize) -> Pieces<'a>
        ensures holder { result.holder.now ≡ holder.now }
        ensures tag { result.tag ≡ tag }
        ensures at { result.at ≡ at }
    {
        Pieces { holder, tag, at }
    }
}

impl<'a> Iterator for Pieces<'a> {
    ghost use Rattle.std.specs.Iterator.{at_most};
    ghost use Rattle.policy.specs.Rows.{GivesDue};

    type Item = (usize, Result<Piece<'a>, Refusal>);

    ghost next_gives = { GivesDue };

    ghost remaining = { λ s. at_most (length s.holder.now - s.at) };

    fn next(&mut self) -> Option<(usize, Result<Piece<'a>, Refusal>)> {
        let at = self.at;
        if at >= self.holder.len() {
            return None;
        }
        let piece = due(self.holder, self.tag, at);
        self.at = match piece {
            Ok(piece) => piece.next,
            Err(_) => self.holder.len(),
        };
        Some((at, piece))
    }
}

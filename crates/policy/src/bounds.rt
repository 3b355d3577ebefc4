// The limits of a policy.
ghost use Rattle.std.specs.Prelude.{◌≡◌, length, nat_le};
ghost use Rattle.model.specs.Moments.{each_moment};
ghost use Rattle.model.specs.Files.{policy_limits};

use crate::Policy;
use model::{Moment, Refusal};

// Whether the blocks for a call have at most 1,000 instructions each.
fn short_blocks<P: Policy>(p: &P, call: u8) -> bool
    ensures { result ≡ each_moment (λ t. nat_le (length (P.blocks p.now call t 0)) 1000) }
{
    Moment::ALL
        .iter()
        .all(|moment| p.block_len(call, *moment) <= 1000)
}

// A policy has at most 32 cells, and each of its blocks at most 1,000 instructions.
pub fn limits<P: Policy>(p: &P) -> Result<(), Refusal>
    ensures { result ≡ policy_limits (P.meaning p.now) (P.blocks p.now) }
{
    if p.width() > 32 {
        return Err(Refusal::TooManyCells);
    }
    if !(0..64).all(|call| short_blocks(p, call)) {
        return Err(Refusal::BlockTooLong);
    }
    Ok(())
}

// Blocks in bytes.
ghost use Rattle.std.specs.Prelude.{◌≡◌, ◌+◌, ◌≤◌, [], ◌∷◌, length};
ghost use Rattle.model.specs.Calls.{block_bytes};
ghost use Rattle.policy.specs.Calls.{put_at, put_if_room, behind_put};

use model::{Instr, Test};
use opcodes::encode;

// Writes an instruction at a place of the area, if there is room for it, and answers the place behind
// it; where there is none the area stays, and so does the place.
pub fn put(area: &mut [u8], at: usize, test: Test) -> usize
    ensures area { area.new ≡ put_if_room area.old at (block_bytes (test ∷ [])) }
    ensures room { at + 4 ≤ length area.old → area.new ≡ put_at area.old at (block_bytes (test ∷ [])) }
    ensures behind { result ≡ behind_put area.old at (block_bytes (test ∷ [])) }
{
    if area.len().saturating_sub(at) < 4 {
        return at;
    }
    area[at..at + 4].copy_from_slice(&encode(Instr::Test(test)));
    at + 4
}

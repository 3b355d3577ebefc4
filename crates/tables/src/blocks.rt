// Instructions in bytes, where there is room for them.
ghost use Rattle.std.specs.Prelude.{◌≡◌, ◌+◌, ◌*◌, ◌≤◌, length};
ghost use Rattle.model.specs.Calls.{block_bytes};
ghost use Rattle.policy.specs.Calls.{put_at};

use model::Test;
use policy::put;

// Writes instructions one after the other from a place of the area on, and answers the place behind
// them.
pub(crate) fn put_all(area: &mut [u8], at: usize, tests: &[Test]) -> usize
    requires { at + 4 * length tests.now ≤ length area.old }
    ensures area { area.new ≡ put_at area.old at (block_bytes tests.now) }
    ensures behind { result ≡ at + 4 * length tests.now }
{
    let mut to = at;
    for test in tests {
        to = put(area, to, *test);
    }
    to
}

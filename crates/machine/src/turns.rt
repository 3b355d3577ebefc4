// A test of a block, on the cells and the scratch numbers.
ghost use Rattle.std.specs.Prelude.{◌≡◌};
ghost use Rattle.model.specs.Policy.{turn as turning};
ghost use Rattle.machine.specs.Ranges.{TestValid};
ghost use Rattle.machine.specs.Views.{passes, cells_after, scratch_after};

use model::Test;

// How many of the instructions behind it are passed over, or none where the machine stops.
pub(crate) fn turn(
    i: Test,
    args: &[i32; 5],
    cells: &mut [i32; 32],
    scratch: &mut [i32; 8],
) -> Option<u16>
    requires { TestValid i }
    ensures value { result ≡ passes (turning args.now i cells.old scratch.old) }
    ensures cells { cells.new ≡ cells_after cells.old (turning args.now i cells.old scratch.old) }
    ensures scratch { scratch.new ≡ scratch_after scratch.old (turning args.now i cells.old scratch.old) }
{
    match i {
        Test::Skip(n) => return Some(n),
        Test::Skz(x, n) => {
            if scratch[x as usize] == 0 {
                return Some(n);
            }
        }
        Test::Viol => return None,
        Test::Mset(x, y) => scratch[x as usize] = i32::from(y),
        Test::Mcell(x, y) => scratch[x as usize] = cells[y as usize],
        Test::Marg(x, y) => scratch[x as usize] = args[y as usize],
        Test::Store(x, y) => cells[y as usize] = scratch[x as usize],
        Test::Op(x, o) => {
            scratch[x as usize] = o.apply(scratch[x as usize], scratch[x as usize + 1]);
        }
    }
    Some(0)
}

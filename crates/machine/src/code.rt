// The instruction at which a thread stands.
ghost use Rattle.std.specs.Prelude.{◌≡◌, ◌<◌, IfSome};
ghost use Rattle.model.specs.Machine.{raised_target as going_on};
ghost use Rattle.applet.specs.Applets.{or_end, meant};
ghost use Rattle.machine.specs.Ranges.{Valid};
ghost use Rattle.machine.specs.Views.{fetched};

use crate::frames::Stand;
use applet::Applet;
use model::{Instr, Own};
use opcodes::decode;

// The instruction at which a thread stands; none past the end of its method's code.
pub(crate) fn fetch(applet: &Applet<'_>, at: Stand) -> Option<Instr>
    ensures value { or_end result ≡ fetched (meant applet.now) at }
    ensures valid { IfSome result (λ i. Valid i × (at.index < 65536)) }
{
    let bytes = applet.quad(at.method as usize, at.index)?;
    decode(bytes, applet.methods())
}

// Where a HOST that is answered as raised goes on.
pub(crate) fn raised_target(i: Option<Instr>) -> u16
    ensures { result ≡ going_on (or_end i) }
{
    match i {
        Some(Instr::Own(Own::Host(_, n))) => n,
        _ => 0,
    }
}

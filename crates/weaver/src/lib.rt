// Weaving: a plain applet becomes one with a policy's tests around each host call that it watches.
#![tactic(auto)]

ghost use Rattle.std.specs.Prelude.{◌≡◌, take, IfOk};
ghost use Rattle.model.specs.Areas.{weave_answer, weave_area};
ghost use Rattle.model.specs.Stripping.{Stripped};

use applet::Applet;
use methods::plain_applet;
use model::Refusal;
use policy::{Policy, limits};
use weaving::Weaving;

mod code;
mod files;
mod indices;
mod methods;
mod pen;
mod sites;
mod weaving;

// Weaves a policy into a plain applet: writes the woven file at the front of the area, and answers its
// length. On a refusal the area stays as it was. What was written can be stripped of its sites again,
// which gives back the plain applet.
pub fn weave<P: Policy>(policy: &P, plain: &[u8], area: &mut [u8]) -> Result<usize, Refusal>
    ensures answer { result ≡ weave_answer (P.meaning policy.now) (P.blocks policy.now) plain.now area.old }
    ensures area { area.new ≡ weave_area (P.meaning policy.now) (P.blocks policy.now) plain.now area.old }
    ensures stripped { IfOk result (λ n. Stripped (P.meaning policy.now) (P.blocks policy.now) plain.now (take n area.new)) }
{
    limits(policy)?;
    let applet = Applet::read(plain)?;
    plain_applet(&applet)?;
    Weaving::new(policy, &applet).weave(area)
}

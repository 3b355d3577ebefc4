// What is woven, and how many instructions stand for each in the woven code.
ghost use Rattle.std.specs.Prelude.{◌≡◌, ◌<◌, [], ◌∷◌, length};
ghost use Rattle.model.specs.declared.Moment.TheVariants.{Before, After, Raised};
ghost use Rattle.model.specs.Calls.{told_length};
ghost use Rattle.model.specs.Weave.{size};
ghost use Rattle.model.specs.Weaving.{Limited};
ghost use Rattle.applet.specs.Applets.{meant};
ghost use Rattle.weaver.specs.Pieces.{own_in, host_size, HostSizes};
ghost use Rattle.weaver.specs.Weaves.{Sound};
ghost use Rattle.std.proofs.Props.{props};

use applet::Applet;
use model::Moment;
use policy::Policy;
use std::array;

// A policy, the applet that it is woven into, and how many instructions stand for a HOST of each call:
// 1 where the call is not watched, as the HOST itself is one; an `Option` would be `map_or(1, ..)`.
#[derive(Drop)]
pub(crate) struct Weaving<'a, P: Policy> {
    pub policy: &'a P,
    pub applet: &'a Applet<'a>,
    pub sizes: [u16; 64],
    ghost limited: { Limited (P.meaning policy.now) (P.blocks policy.now) },
    ghost sound: { Sound applet.now } by { Prim.hlevel props },
    ghost sized: { HostSizes (P.meaning policy.now) (P.blocks policy.now) sizes },
}

// Whether a policy watches a call.
#[tactic(auto, using(crate::proofs::SiteBytes::known))]
fn watched<P: Policy>(policy: &P, call: u8) -> bool
    requires { call < 64 }
    ensures { result ≡ (P.meaning policy.now).watched call }
{
    policy.watches(call).unwrap_or(false)
}

// How many instructions the blocks of a call have.
pub(crate) fn block_lens<P: Policy>(policy: &P, call: u8) -> [u16; 3]
    ensures { result ≡ told_length (P.blocks policy.now) call Before ∷ told_length (P.blocks policy.now) call After ∷ told_length (P.blocks policy.now) call Raised ∷ [] }
{
    Moment::ALL.map(|moment| policy.block_len(call, moment))
}

// How many instructions stand for a HOST of a call: a site, or the HOST itself.
fn host_size<P: Policy>(policy: &P, call: u8) -> u16
    requires call { call < 64 }
    requires limited { Limited (P.meaning policy.now) (P.blocks policy.now) }
    ensures { result ≡ host_size (P.meaning policy.now) (P.blocks policy.now) call }
{
    if !watched(policy, call) {
        return 1;
    }
    let [before, after, raised] = block_lens(policy, call);
    before + after + raised + 6
}

impl<'a, P: Policy> Weaving<'a, P> {
    // The weaving of a policy within its limits into an applet that was read.
    pub(crate) fn new(policy: &'a P, applet: &'a Applet<'a>) -> Weaving<'a, P>
        requires limited { Limited (P.meaning policy.now) (P.blocks policy.now) }
        requires sound { Sound applet.now }
        ensures policy { result.policy.now ≡ policy.now }
        ensures applet { result.applet.now ≡ applet.now }
    {
        Weaving {
            policy,
            applet,
            sizes: array::from_fn(|call| host_size(policy, call as u8)),
        }
    }

    // How many instructions stand for the one in four bytes, by its opcode and its call.
    pub(crate) fn size_of(&self, bytes: &[u8; 4]) -> u16
        ensures { result ≡ size (P.meaning self.now.policy.now).watched (λ k t. P.blocks self.now.policy.now k t 0) (own_in (length (meant self.now.applet.now).methods) bytes.now) }
    {
        match *bytes {
            [0x0d, call, _, _] if call < 64 => self.sizes[usize::from(call)],
            _ => 1,
        }
    }
}

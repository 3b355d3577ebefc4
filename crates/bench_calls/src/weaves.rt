// Weaving a rule policy into an applet.
ghost use Rattle.std.specs.Prelude.{◌≡◌};
ghost use Rattle.bench_calls.specs.Answers.{number_of, place_of, length_of, rules_weave, rules_area};

use crate::Reading;
use model::Refusal;
use rules::Rules;
use weaver::weave;

// A refusal's number and place, both 0 where the file was woven, and the woven file's length; flat, as
// C reads it.
#[repr(C)]
#[derive(Clone, Copy)]
pub struct Weaving {
    pub number: u32,
    pub place: u64,
    pub length: u64,
}

// Weaves the policy of a file of rules.
fn weave_rules(policy: &[u8], plain: &[u8], area: &mut [u8]) -> Result<usize, Refusal>
    ensures answer { result ≡ rules_weave policy.now plain.now area.old }
    ensures area { area.new ≡ rules_area policy.now plain.now area.old }
{
    weave(&Rules::new(policy), plain, area)
}

// Weaves a rule policy into a plain applet.
#[unsafe(no_mangle)]
pub extern "C" fn station_weave(policy: &[u8], plain: &[u8], area: &mut [u8]) -> Weaving
    ensures number { result.number ≡ number_of (rules_weave policy.now plain.now area.old) }
    ensures place { result.place ≡ place_of (rules_weave policy.now plain.now area.old) }
    ensures length { result.length ≡ length_of (rules_weave policy.now plain.now area.old) }
    ensures area { area.new ≡ rules_area policy.now plain.now area.old }
{
    let woven = weave_rules(policy, plain, area);
    let Reading { number, place } = Reading::of(&woven);
    let length = woven.unwrap_or(0);
    Weaving {
        number,
        place,
        length: length as u64,
    }
}

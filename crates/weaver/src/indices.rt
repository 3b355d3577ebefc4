// Woven indices.
ghost use Rattle.std.specs.Prelude.{◌≤◌};

use crate::weaving::Weaving;
use model::Own;
use policy::Policy;

// The woven index of each of a method's indices and of its end, which has index `count`.
#[derive(Drop)]
pub(crate) struct WovenIndices {
    pub all: [u16; 4097],
    pub count: usize,
    ghost few: { count ≤ 4096 },
}

impl WovenIndices {
    ghost use Rattle.std.specs.Prelude.{◌≡◌, ◌≤◌, length, OnSome};
    ghost use Rattle.model.specs.Weave.{retarget as retargeted};
    ghost use Rattle.applet.specs.Applets.{meant};
    ghost use Rattle.weaver.specs.Pieces.{Called, own_code, woven_code, within_limit};
    ghost use Rattle.weaver.specs.Indices.{index_of, Filled};

    // Room for the woven indices of the longest method.
    pub(crate) fn new() -> WovenIndices {
        WovenIndices {
            all: [0; 4097],
            count: 0,
        }
    }

    // Fills in the woven indices of a method, and answers that of its end: none if it is over the limit.
    pub(crate) fn fill<P: Policy>(
        &mut self,
        weaving: &Weaving<'_, P>,
        code: &[[u8; 4]],
    ) -> Option<usize>
        requires { length code.now ≤ 4096 }
        ensures size { result ≡ within_limit (length (woven_code (P.meaning weaving.now.policy.now) (P.blocks weaving.now.policy.now) (meant weaving.now.applet.now) code.now)) }
        ensures filled { OnSome result (Filled (P.meaning weaving.now.policy.now) (P.blocks weaving.now.policy.now) (own_code (meant weaving.now.applet.now) code.now) self.new) }
    {
        let mut end = 0;
        self.all[0] = 0;
        self.count = code.len();
        for (index, bytes) in code.iter().enumerate() {
            end += usize::from(weaving.size_of(bytes));
            if end > 4096 {
                return None;
            }
            self.all[index + 1] = end as u16;
        }
        Some(end)
    }

    // The woven index of an index; past the end, that of the end.
    pub(crate) fn of(&self, index: usize) -> u16
        ensures { result ≡ index_of self.now index }
    {
        self.all[index.min(self.count)]
    }

    // The same instruction with its target's woven index.
    pub(crate) fn retarget(&self, c: Own) -> Own
        ensures value { result ≡ retargeted (index_of self.now) c }
        ensures known { Called c → Called result }
    {
        match c {
            Own::Jump(t) => Own::Jump(self.of(usize::from(t))),
            Own::Brz(x, t) => Own::Brz(x, self.of(usize::from(t))),
            Own::Host(k, t) => Own::Host(k, self.of(usize::from(t))),
            _ => c,
        }
    }
}

// Sites: what stands for a watched call.
ghost use Rattle.std.specs.Prelude.{◌≡◌, ◌+◌, ◌*◌, ◌<◌, ◌≤◌, length};
ghost use Rattle.model.specs.Reading.{write_code};
ghost use Rattle.model.specs.Calls.{block_bytes};
ghost use Rattle.model.specs.Weave.{site, piece, size, watched_call, behind};
ghost use Rattle.weaver.specs.Pieces.{Called};
ghost use Rattle.weaver.specs.Pens.{Room, Wrote};

use crate::pen::Pen;
use crate::weaving::{Weaving, block_lens};
use model::{Instr, Moment, Own, Test};
use policy::Policy;

impl<P: Policy> Weaving<'_, P> {
    // Writes a block.
    fn put_block(&self, call: u8, moment: Moment, pen: &mut Pen<'_>)
        requires call { call < 64 }
        requires room { Room pen.old (4 * length (P.blocks self.now.policy.now call moment 0)) }
        ensures { Wrote pen.old (block_bytes (P.blocks self.now.policy.now call moment 0)) pen.new }
    {
        let at = pen.at;
        let _ = self
            .policy
            .write_block(call, moment, 0, &mut pen.area[at..]);
        pen.at = at + 4 * usize::from(self.policy.block_len(call, moment));
    }

    // Writes the site of a call, which starts at a woven index and whose raised leg goes on at `raised`.
    #[tactic(auto, using(policy::proofs::Writes::bytes_length))]
    fn put_site(&self, call: u8, index: u16, raised: u16, pen: &mut Pen<'_>)
        requires call { call < 64 }
        requires index { index ≤ 4096 }
        requires room { Room pen.old (4 * (behind (λ k t. P.blocks self.now.policy.now k t 0) call + 1)) }
        ensures { Wrote pen.old (write_code (site (λ k t. P.blocks self.now.policy.now k t 0) index call raised)) pen.new }
    {
        let [before, after, leg] = block_lens(self.policy, call);
        pen.put_instr(Instr::Lock(call));
        self.put_block(call, Moment::Before, pen);
        pen.put_instr(Instr::Own(Own::Host(call, index + before + after + 4)));
        self.put_block(call, Moment::After, pen);
        pen.put_instr(Instr::Unlock);
        pen.put_instr(Instr::Test(Test::Skip(leg + 2)));
        self.put_block(call, Moment::Raised, pen);
        pen.put_instr(Instr::Unlock);
        pen.put_instr(Instr::Own(Own::Jump(raised)));
    }

    // Writes what stands for an instruction at a woven index, its target being a woven index too.
    pub(crate) fn put_piece(&self, c: Own, index: u16, pen: &mut Pen<'_>)
        requires call { Called c }
        requires index { index ≤ 4096 }
        requires room { Room pen.old (4 * size (P.meaning self.now.policy.now).watched (λ k t. P.blocks self.now.policy.now k t 0) c) }
        ensures { Wrote pen.old (write_code (piece (λ k t. P.blocks self.now.policy.now k t 0) index c (watched_call (P.meaning self.now.policy.now).watched c))) pen.new }
    {
        match c {
            // a site has more than one instruction
            Own::Host(call, raised) if self.sizes[usize::from(call)] > 1 => {
                self.put_site(call, index, raised, pen)
            }
            _ => pen.put_instr(Instr::Own(c)),
        }
    }
}

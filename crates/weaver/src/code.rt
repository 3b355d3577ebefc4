// The instructions of a plain method.
ghost use Rattle.std.specs.Prelude.{◌≡◌};
ghost use Rattle.weaver.specs.Pieces.{instr_in, own_in, Called};
ghost use Rattle.weaver.specs.Weaves.{is_own};

use model::{Instr, Own};
use opcodes::decode;

// The applet's own instruction in four bytes, END for any other.
pub(crate) fn own_in(bytes: [u8; 4], methods: u8) -> Own
    ensures value { result ≡ own_in methods bytes }
    ensures known { Called result }
{
    match decode(bytes, methods) {
        Some(Instr::Own(c)) => c,
        _ => Own::End,
    }
}

// Whether four bytes are one of the applet's own; opcodes below 20 need no decoding.
#[tactic(auto, using(crate::proofs::Opcodes::own_below))]
pub(crate) fn is_own(bytes: [u8; 4], methods: u8) -> bool
    ensures { result ≡ is_own (instr_in methods bytes) }
{
    bytes[0] < 0x20 || matches!(decode(bytes, methods), None | Some(Instr::Own(_)))
}

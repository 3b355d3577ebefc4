// Fields of policy files, each by the tag that is due.
ghost use Rattle.std.specs.Prelude.{◌≡◌};
ghost use Rattle.policy.specs.Pieces.{seen, due_piece};

use crate::pieces::Piece;
use model::Refusal;
use tlv::Fields;

// The field that is due at a place of a holder.
pub fn due<'a>(holder: &'a [u8], tag: u8, at: usize) -> Result<Piece<'a>, Refusal>
    ensures { seen result ≡ due_piece tag at holder.now }
{
    let mut fields = Fields::new(holder, at);
    match fields.due(tag) {
        Ok(contents) => Ok(Piece {
            contents,
            next: fields.place(),
        }),
        Err(_) => Err(Refusal::BadPolicyField(at)),
    }
}

// The kinds of policy files.
ghost use Rattle.std.specs.Prelude.{◌≡◌};
ghost use Rattle.model.specs.Kinds.{policy_kind, ReadByKind};

use model::{PolicyKind, Refusal};
use tlv::Part;

// The first tag tells the kind.
pub fn policy_kind(file: &[u8]) -> Result<PolicyKind, Refusal>
    ensures value { result ≡ policy_kind file.now }
    ensures read { ReadByKind file.now result }
{
    match file {
        [Part::TABLE_HEAD, ..] => Ok(PolicyKind::Table),
        [Part::RULES_HEAD, ..] => Ok(PolicyKind::Rules),
        _ => Err(Refusal::BadPolicyField(0)),
    }
}

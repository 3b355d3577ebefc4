// What the calls on any policy refuse before the policy itself is asked.
ghost use Rattle.std.specs.Prelude.{◌≡◌};
ghost use Rattle.model.specs.Calls.{known_call};
ghost use Rattle.policy.specs.Calls.{may_start, may_step, may_write};

use model::Refusal;

// Calls go up to 63.
pub fn known(call: u8) -> Result<(), Refusal>
    ensures { result ≡ known_call call }
{
    if call > 63 {
        return Err(Refusal::NoSuchEvent);
    }
    Ok(())
}

// A policy of at most 32 cells, in a row with room for them.
pub fn may_start(width: u8, room: usize) -> Result<(), Refusal>
    ensures { result ≡ may_start width room }
{
    if width > 32 {
        return Err(Refusal::TooManyCells);
    }
    if usize::from(width) > room {
        return Err(Refusal::AreaTooShort);
    }
    Ok(())
}

// A step by a call, in such a row.
pub fn may_step(call: u8, width: u8, room: usize) -> Result<(), Refusal>
    ensures { result ≡ may_step call width room }
{
    known(call)?;
    may_start(width, room)
}

// A block of so many instructions for a call, from a first cell on, in an area of so many bytes.
pub fn may_write(call: u8, width: u8, first: u8, len: u16, room: usize) -> Result<(), Refusal>
    ensures { result ≡ may_write call width first len room }
{
    known(call)?;
    if width != 0 && u16::from(first) + u16::from(width) > 32 {
        return Err(Refusal::TooManyCells);
    }
    if len > 1000 {
        return Err(Refusal::BlockTooLong);
    }
    if 4 * usize::from(len) > room {
        return Err(Refusal::AreaTooShort);
    }
    Ok(())
}

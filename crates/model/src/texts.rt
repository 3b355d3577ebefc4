// What refusals and operators are called.
use crate::{Operator, Refusal};
use std::error::Error;
use std::fmt;

// What is wrong, in words.
impl fmt::Display for Refusal {
    fn fmt<W: fmt::Write>(&self, f: &mut fmt::Formatter<W>) -> fmt::Result {
        f.write_str(match *self {
            Refusal::AreaTooShort => "the area is too short",
            Refusal::NoThread => "there is no such thread",
            Refusal::NotAwaiting => "the thread awaits no answer",
            Refusal::StillAwaiting => "the thread awaits an answer",
            Refusal::ThreadEnded => "the thread has ended",
            Refusal::MachineStopped => "the machine has stopped",
            Refusal::LockHeld => "the lock is held",
            Refusal::NoSuchEvent => "calls go up to 63, moments up to 2",
            Refusal::BadField(_) =>
                "a field is broken, missing, out of order or left over, or the file is too long",
            Refusal::BadSize(_) => "a size or a count of this field is outside its limits",
            Refusal::BadInstruction(_) =>
                "this opcode is unknown, or an operand is outside its range",
            Refusal::BadLanding(_) =>
                "this instruction leads outside its method, or cannot be the last one",
            Refusal::NotPlain(_) => "the applet is not plain",
            Refusal::MethodTooLong(_) =>
                "this method would have more than 4096 instructions once woven",
            Refusal::FileTooLong => "the woven file would have more than 65535 bytes",
            Refusal::BadPolicyField(_) =>
                "a field of the policy is broken, missing, out of order or left over, or the file is too long",
            Refusal::BadPolicySize(_) =>
                "a size, a count or a number of this field is outside its limits",
            Refusal::BadExpression(_) => "this expression is not one that the policy can have",
            Refusal::SecondRow(_) => "a row for this call and moment stands before",
            Refusal::BlockTooLong => "a block has more than 1000 instructions",
            Refusal::TooManyCells => "the cells do not fit in 32",
            Refusal::OtherStarts(_) => "the start values are not the policy's",
            Refusal::OutsideSite(_) => "a watched call stands outside a site",
            Refusal::OffSite(_) => "this instruction is not the one that the site has here",
            Refusal::NoEntry(_) => "the target is no entry",
        })
    }
}

impl Error for Refusal {}

impl fmt::Display for Operator {
    fn fmt<W: fmt::Write>(&self, f: &mut fmt::Formatter<W>) -> fmt::Result {
        f.write_str(match *self {
            Operator::Plus => "plus",
            Operator::Minus => "minus",
            Operator::Less => "less",
            Operator::Equal => "equal",
            Operator::Both => "both",
            Operator::Either => "either",
        })
    }
}

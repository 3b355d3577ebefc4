// Numbers of refusals, moments and operators, and what an operator makes of two numbers.
ghost use Rattle.std.specs.Prelude.{◌≡◌};
ghost use Rattle.model.specs.Refusals.{number, location, place};
ghost use Rattle.model.specs.Moments.{moment_number, moment_of};
ghost use Rattle.model.specs.Words.{operator_of};
ghost use Rattle.model.specs.Policy.{operate};

use crate::{Moment, Operator, Refusal};

impl Refusal {
    // The refusal's number.
    pub fn number(&self) -> u8
        ensures { result ≡ number self.now }
    {
        match *self {
            Refusal::AreaTooShort => 1,
            Refusal::NoThread => 2,
            Refusal::NotAwaiting => 3,
            Refusal::StillAwaiting => 4,
            Refusal::ThreadEnded => 5,
            Refusal::MachineStopped => 6,
            Refusal::LockHeld => 7,
            Refusal::NoSuchEvent => 8,
            Refusal::BadField(_) => 10,
            Refusal::BadSize(_) => 11,
            Refusal::BadInstruction(_) => 12,
            Refusal::BadLanding(_) => 13,
            Refusal::NotPlain(_) => 14,
            Refusal::MethodTooLong(_) => 15,
            Refusal::FileTooLong => 16,
            Refusal::BadPolicyField(_) => 20,
            Refusal::BadPolicySize(_) => 21,
            Refusal::BadExpression(_) => 22,
            Refusal::SecondRow(_) => 23,
            Refusal::BlockTooLong => 24,
            Refusal::TooManyCells => 25,
            Refusal::OtherStarts(_) => 30,
            Refusal::OutsideSite(_) => 31,
            Refusal::OffSite(_) => 32,
            Refusal::NoEntry(_) => 33,
        }
    }

    // The offset in the file that is at fault, if one is.
    pub fn location(&self) -> Option<usize>
        ensures { result ≡ location self.now }
    {
        match *self {
            Refusal::BadField(p)
            | Refusal::BadSize(p)
            | Refusal::BadInstruction(p)
            | Refusal::BadLanding(p)
            | Refusal::NotPlain(p)
            | Refusal::MethodTooLong(p)
            | Refusal::BadPolicyField(p)
            | Refusal::BadPolicySize(p)
            | Refusal::BadExpression(p)
            | Refusal::SecondRow(p)
            | Refusal::OtherStarts(p)
            | Refusal::OutsideSite(p)
            | Refusal::OffSite(p)
            | Refusal::NoEntry(p) => Some(p),
            _ => None,
        }
    }

    // The refusal's place, 0 where no file is at fault.
    pub fn place(&self) -> usize
        ensures { result ≡ place self.now }
    {
        self.location().unwrap_or(0)
    }
}

impl Operator {
    // What it makes of two numbers.
    pub fn apply(self, a: i32, b: i32) -> i32
        ensures { result ≡ operate self a b }
    {
        match self {
            Operator::Plus => a.wrapping_add(b),
            Operator::Minus => a.wrapping_sub(b),
            Operator::Less => i32::from(a < b),
            Operator::Equal => i32::from(a == b),
            Operator::Both => i32::from(a != 0 && b != 0),
            Operator::Either => i32::from(a != 0 || b != 0),
        }
    }
}

// The operator of a number, as files have it; from 5 up it is the last one.
impl From<u8> for Operator {
    ghost from_gives = { λ n o. o ≡ operator_of n };

    fn from(n: u8) -> Operator {
        match n {
            0 => Operator::Plus,
            1 => Operator::Minus,
            2 => Operator::Less,
            3 => Operator::Equal,
            4 => Operator::Both,
            _ => Operator::Either,
        }
    }
}

impl Moment {
    // All moments, in the order of their numbers.
    pub const ALL: [Moment; 3] = [Moment::Before, Moment::After, Moment::Raised];

    // The moment's number: 0, 1 or 2.
    pub fn number(&self) -> u8
        ensures { result ≡ moment_number self.now }
    {
        *self as u8
    }
}

// The moment of a number, as files have it; from 2 up it is the last one.
impl From<u8> for Moment {
    ghost from_gives = { λ n t. t ≡ moment_of n };

    fn from(n: u8) -> Moment {
        match n {
            0 => Moment::Before,
            1 => Moment::After,
            _ => Moment::Raised,
        }
    }
}

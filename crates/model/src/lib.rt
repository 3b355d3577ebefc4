// What everything means: instructions, moments, outcomes and refusals as types; in specs/ the
// formats, the machine, policies, weave, check and enforcement.
#![tactic(auto)]

ghost use Rattle.std.specs.Prelude.{◌≡◌};
ghost use Rattle.model.specs.Machine.{reason_number};
ghost use Rattle.model.specs.Examples.{Worked};
ghost use Rattle.model.specs.RefusedFiles.{Refused, Listed};

mod numbers;
mod texts;

// An operator of a policy's test: a sum or a difference, which wrap, or a comparison or a
// connective, which give 1 or 0.
#[derive(Clone, Copy, PartialEq, Eq, Debug)]
pub enum Operator {
    Plus,
    Minus,
    Less,
    Equal,
    Both,
    Either,
}

// What an applet's own code is made of. Registers, shared numbers, calls and targets by number.
#[derive(Clone, Copy, PartialEq, Eq, Debug)]
pub enum Own {
    Set(u8, i16),
    Mov(u8, u8),
    Add(u8, u8),
    Sub(u8, u8),
    Lt(u8, u8),
    Eq(u8, u8),
    Get(u8, u8),
    Put(u8, u8),
    Jump(u16),
    Brz(u8, u16),
    Call(u8),
    Ret,
    Host(u8, u16),
    End,
}

// What a policy's block is made of.
#[derive(Clone, Copy, PartialEq, Eq, Debug)]
pub enum Test {
    Skip(u16),
    Skz(u8, u16),
    Viol,
    Mset(u8, i16),
    Mcell(u8, u8),
    Marg(u8, u8),
    Store(u8, u8),
    Op(u8, Operator),
}

// An instruction: of the applet's own, or one that weaving adds.
#[derive(Clone, Copy, PartialEq, Eq, Debug)]
pub enum Instr {
    Own(Own),
    Lock(u8),
    Unlock,
    Test(Test),
}

// When a policy is asked: before a call is handed out, after its normal answer, or after one that
// was raised.
#[derive(Clone, Copy, PartialEq, Eq, Debug)]
pub enum Moment {
    Before,
    After,
    Raised,
}

// A watched call at a moment: its number and arguments, and, behind it, its answer.
#[derive(Clone, Copy, PartialEq, Eq, Debug)]
pub struct Event {
    pub moment: Moment,
    pub call: u8,
    pub args: [i32; 4],
    pub answer: i32,
}

// What a policy says of an event: it takes it, or refuses it, which is no refusal of the call.
#[derive(Clone, Copy, PartialEq, Eq, Debug)]
pub enum Verdict {
    Taken,
    Refused,
}

// What a policy file holds, by its first tag.
#[derive(Clone, Copy, PartialEq, Eq, Debug)]
pub enum PolicyKind {
    Rules,
    Table,
}

// A thread can be stepped, awaits an answer, or has ended.
#[derive(Clone, Copy, PartialEq, Eq, Debug)]
pub enum Status {
    Ready,
    Awaiting,
    Ended,
}

// The host's answer to a call: normal, or raised. No `Result`: a raised answer is no fault of the
// call, and `?` would pass it on.
#[derive(Clone, Copy, PartialEq, Eq, Debug)]
pub enum Reply {
    Normal(i32),
    Raised(i32),
}

// Why a thread ended: END, or RET in its first frame; CALL with all frames in use; UNLOCK without
// the lock.
#[derive(Clone, Copy, PartialEq, Eq, Debug)]
pub enum Reason {
    Finished,
    TooDeep,
    NotHolder,
}

impl Reason {
    // The reason's number: 0, 1 or 2.
    pub fn number(&self) -> u8
        ensures { result ≡ reason_number self.now }
    {
        *self as u8
    }
}

// What a step says: it moved on, handed out a call with its arguments, ended, or the machine stops.
#[derive(Clone, Copy, PartialEq, Eq, Debug)]
pub enum Outcome {
    Moved,
    Called(u8, [i32; 4]),
    Ended(Reason),
    Stop,
}

// Why a call is refused. Where a file is at fault, with the place: the offset of the field's tag or
// of the instruction's first byte.
#[derive(Clone, Copy, PartialEq, Eq, Debug)]
pub enum Refusal {
    // the host program
    AreaTooShort,
    NoThread,
    NotAwaiting,
    StillAwaiting,
    ThreadEnded,
    // the run
    MachineStopped,
    LockHeld,
    // the host program: a call over 63, or a moment over 2
    NoSuchEvent,
    // applets: fields, sizes and counts, opcodes and operands, landings
    BadField(usize),
    BadSize(usize),
    BadInstruction(usize),
    BadLanding(usize),
    // applets, for weave
    NotPlain(usize),
    MethodTooLong(usize),
    FileTooLong,
    // policies: fields, sizes and counts, expressions, double rows, blocks, cells of a pair
    BadPolicyField(usize),
    BadPolicySize(usize),
    BadExpression(usize),
    SecondRow(usize),
    BlockTooLong,
    TooManyCells,
    // woven files, for check: other start values, a watched call outside a site, an instruction off
    // its site, a target that is no entry
    OtherStarts(usize),
    OutsideSite(usize),
    OffSite(usize),
    NoEntry(usize),
}

// The definitions compute, from bytes up, what was worked out by hand: the examples of the
// documentation, files that are refused, and the list of opcodes. How many groups there are.
pub fn examples_hold() -> u8
    ensures worked { Worked }
    ensures refused { Refused }
    ensures listed { Listed }
    ensures groups { result ≡ 3 }
{
    3
}

// What any policy answers to the calls on it, by tables of cases.
use crate::files::fault;
use model::{Event, Moment, Refusal, Verdict};
use policy::{Policy, limits};
use std::alloc::Global;
use std::process::Abort;
use std::test::Fail;

pub(crate) const BEFORE: Moment = Moment::Before;

pub(crate) const AFTER: Moment = Moment::After;

pub(crate) const RAISED: Moment = Moment::Raised;

// What a step answers: the event is taken, or refused by the policy, or the call is refused, 8 and 1.
pub(crate) type Says = Result<Verdict, Refusal>;

pub(crate) const TAKEN: Says = Ok(Verdict::Taken);

pub(crate) const NO: Says = Ok(Verdict::Refused);

pub(crate) const UNKNOWN: Says = Err(Refusal::NoSuchEvent);

pub(crate) const SHORT: Says = Err(Refusal::AreaTooShort);

pub(crate) const WIDE: Says = Err(Refusal::TooManyCells);

// Moment, call, arguments, answer, row, what the step answers, and the row behind it.
pub(crate) type Step<'a> = (Moment, u8, [i32; 4], i32, &'a [i32], Says, &'a [i32]);

// Call, moment, first cell, room in bytes, the refusal's number, and the block.
pub(crate) type Block<'a> = (u8, Moment, u8, usize, u8, &'a [u8]);

// What a policy tells: its width, its starts before the nines of a row of six, and the calls that it watches.
pub(crate) type Told<'a> = (u8, &'a [i32], &'a [u8]);

// What is expected of a policy: the number of the refusal for its limits, what it tells if that is
// asked, its steps and its blocks.
pub(crate) struct Expected<'a> {
    pub(crate) limits: u8,
    pub(crate) told: Option<Told<'a>>,
    pub(crate) steps: &'a [Step<'a>],
    pub(crate) blocks: &'a [Block<'a>],
}

// The starts in a row that is one cell too short, and in a longer one.
fn starts<Q: Policy>(rt: &impl Abort, p: &Q, width: u8, after: &[i32]) -> Result<(), Fail> {
    let mut row = [9; 6];
    if let Some(short) = row.get_mut(1..usize::from(width)) {
        assert_eq!(rt; fault(p.starts(short)), (1, 0));
    }
    assert_eq!(rt; row, [9; 6]);
    p.starts(&mut row)?;
    assert_eq!(rt; row.as_slice(), after);
    Ok(())
}

// Which calls are watched.
fn watches<Q: Policy>(rt: &impl Abort, p: &Q, watched: &[u8]) {
    for call in 0..=255u8 {
        let answer = if call > 63 {
            Err(Refusal::NoSuchEvent)
        } else {
            Ok(watched.contains(&call))
        };
        assert_eq!(rt; p.watches(call), answer);
    }
}

// What a step answered, and the row behind it.
pub(crate) fn same(rt: &impl Abort, got: Says, says: Says, row: &[i32], after: &[i32]) {
    assert_eq!(rt; got, says);
    assert_eq!(rt; row, after);
}

// Steps, each in a row of its own.
fn steps<Q: Policy>(rt: &impl Abort, heap: Global, p: &Q, cases: &[Step]) -> Result<(), Fail> {
    for (moment, call, args, answer, row, says, after) in cases {
        let mut cells = row.to_vec(heap)?;
        let event = Event {
            moment: *moment,
            call: *call,
            args: *args,
            answer: *answer,
        };
        let got = p.step(&event, cells.as_mut_slice());
        same(rt, got, *says, cells.as_slice(), after);
    }
    Ok(())
}

// The area holds the block, and what it held before behind it.
fn holds(rt: &impl Abort, area: &[u8], block: &[u8]) -> Result<(), Fail> {
    let rest = area.strip_prefix(block).ok_or("another block")?;
    for b in rest {
        assert_eq!(rt; *b, 0xee);
    }
    Ok(())
}

// Blocks, each in an area of its own.
fn blocks<Q: Policy>(rt: &impl Abort, p: &Q, cases: &[Block]) -> Result<(), Fail> {
    for (call, moment, first, room, number, block) in cases {
        let mut area = [0xeeu8; 4001];
        let part = area.get_mut(..*room).ok_or("no such room")?;
        let answer = p.write_block(*call, *moment, *first, part);
        let size = answer.unwrap_or(0);
        assert_eq!(rt; fault(answer), (*number, 0));
        assert_eq!(rt; size, block.len() / 4);
        holds(rt, &area, block)?;
    }
    Ok(())
}

// All that is expected of a policy.
pub(crate) fn meets<Q: Policy>(
    rt: &impl Abort,
    heap: Global,
    p: &Q,
    e: &Expected,
) -> Result<(), Fail> {
    assert_eq!(rt; fault(limits(p)), (e.limits, 0));
    if let Some((width, after, watched)) = e.told {
        assert_eq!(rt; p.width(), width);
        starts(rt, p, width, after)?;
        watches(rt, p, watched);
    }
    steps(rt, heap, p, e.steps)?;
    blocks(rt, p, e.blocks)
}

// Steps and answers, one script for each applet.
use crate::applets::*;
use crate::scripts::{Line, follow};
use machine::{Act, Machine, Seen};
use model::{Refusal, Reply};
use std::test::Fail;

// A woven with P, in which SET r0 7 stands at 19.
const WOVEN: &'static [u8; 91] =
    b"\x01\x00\x02\x01\x01\x02\x00\x01\x00\x03\x00\x04\x00\x00\x00\x00\x04\x00\x48\
      \x01\x00\x00\x07\x20\x05\x00\x00\
      \x27\x00\x00\x00\x25\x01\x00\x0a\x29\x00\x00\x02\x23\x00\x00\x05\x26\x00\x00\x00\
      \x27\x01\x00\x00\x29\x00\x00\x00\x28\x00\x00\x00\x22\x00\x00\x01\x24\x00\x00\x00\
      \x0d\x05\x00\x0f\x21\x00\x00\x00\x22\x00\x00\x02\x21\x00\x00\x00\x09\x00\x00\x11\
      \x0e\x00\x00\x00";

// Before the call SET, LOCK, eight tests of P's block and SKIP run; behind it UNLOCK, SKIP and END.
const TAKEN: [Line; 9] = [
    Line::Moves(0, 11),
    Line::Calls(0, 5, [7, 0, 0, 0]),
    Line::Refused(0, 4),
    Line::Cell(0, 7),
    Line::Answer(0, Reply::Normal(20)),
    Line::Argument(4, 20),
    Line::Moves(0, 2),
    Line::At(0, 0, 17, 0),
    Line::Ends(0, 0),
];

// 10 is not below 10: SKZ is the sixth step and passes over to VIOL.
const STOPPED: [Line; 5] = [
    Line::Moves(0, 6),
    Line::Stops(0),
    Line::Refused(0, 6),
    Line::NoAnswer(0, 6),
    Line::Cell(0, 0),
];

// The instructions of an applet's own. Numbers of 32 bits come in by answers, and go out as arguments.
const OWN: [[u8; 4]; 39] = [
    [METHOD, 0, 0, 152],
    [HOST, 1, 0, 0],
    // 1: r1 = 2^31 - 1 + 1, r3 = -2^31 - 1
    [MOV, 1, 0, 0],
    [SET, 2, 0, 1],
    [ADD, 1, 0, 2],
    [MOV, 3, 0, 1],
    [SUB, 3, 0, 2],
    [HOST, 63, 0, 0],
    // 7: r7 = -32,768, r6 = 32,767
    [SET, 7, 0x80, 0],
    [SET, 6, 0x7f, 0xff],
    [MOV, 1, 0, 7],
    [LT, 1, 0, 6],
    [MOV, 2, 0, 6],
    [LT, 2, 0, 7],
    [MOV, 3, 0, 0],
    [LT, 3, 0, 7],
    [HOST, 0, 0, 0],
    // 16: equal, not equal, -1 and -1, a register less itself
    [EQ, 0, 0, 7],
    [MOV, 1, 0, 6],
    [EQ, 1, 0, 7],
    [SET, 2, 0xff, 0xff],
    [MOV, 3, 0, 2],
    [EQ, 2, 0, 3],
    [SUB, 3, 0, 3],
    [HOST, 5, 0, 0],
    // 24: g0 and g63, and g1, which nothing was put into
    [PUT, 0, 0, 0],
    [PUT, 7, 0, 63],
    [GET, 1, 0, 63],
    [GET, 2, 0, 0],
    [GET, 3, 0, 1],
    [HOST, 5, 0, 0],
    // 30: a branch taken over 31, one not taken, a jump over 34
    [BRZ, 0, 0, 32],
    [SET, 1, 0, 99],
    [BRZ, 1, 0, 31],
    [JUMP, 0, 0, 35],
    [SET, 1, 0, 98],
    [HOST, 5, 0, 37],
    [SET, 1, 0, 97],
    [END, 0, 0, 0],
];

const OWN_SCRIPT: [Line; 26] = [
    Line::NoAnswer(0, 3),
    Line::Calls(0, 1, [0, 0, 0, 0]),
    Line::Answer(0, Reply::Normal(2147483647)),
    Line::Moves(0, 5),
    Line::Calls(0, 63, [2147483647, -2147483648, 1, 2147483647]),
    Line::Answer(0, Reply::Normal(-1)),
    // -32,768 < 32,767; not 32,767 < -32,768; not -1 < -32,768
    Line::Moves(0, 8),
    Line::Calls(0, 0, [-1, 1, 0, 0]),
    Line::Answer(0, Reply::Normal(-32768)),
    Line::Moves(0, 7),
    Line::Calls(0, 5, [1, 0, 1, 0]),
    Line::Answer(0, Reply::Normal(77)),
    Line::Moves(0, 5),
    Line::Shared(0, 77),
    Line::Shared(63, -32768),
    Line::Calls(0, 5, [77, -32768, 77, 0]),
    Line::Answer(0, Reply::Normal(0)),
    Line::Moves(0, 1),
    Line::At(0, 0, 32, 0),
    Line::Moves(0, 2),
    Line::Calls(0, 5, [0, -32768, 77, 0]),
    Line::Answer(0, Reply::Raised(4)),
    Line::At(0, 0, 37, 0),
    Line::Register(0, 0, 4),
    Line::Ends(0, 0),
    Line::Refused(0, 5),
];

// The instructions of blocks; s0 starts at 2^31 - 1.
const BLOCK: [[u8; 4]; 39] = [
    [METHOD, 0, 0, 152],
    [SET, 0, 0xff, 0xf9],
    [SET, 3, 0, 9],
    [LOCK, 5, 0, 0],
    [MARG, 0, 0, 0],
    [MARG, 7, 0, 3],
    [HOST, 5, 0, 6],
    // 6: the answer, under the lock
    [MARG, 1, 0, 4],
    [UNLOCK, 0, 0, 0],
    [MCELL, 2, 0, 0],
    [MSET, 3, 0, 1],
    [OP, 2, 0, 0],
    // 11: -2^31 less 1
    [OP, 2, 0, 1],
    [STORE, 2, 0, 31],
    [MCELL, 6, 0, 31],
    [OP, 6, 0, 2],
    // 15: -5 and -5, then 1 and -5
    [MSET, 4, 0xff, 0xfb],
    [MSET, 5, 0xff, 0xfb],
    [OP, 4, 0, 3],
    [OP, 4, 0, 3],
    // 19: -32,768 and -5, then 1 and -5
    [MSET, 4, 0x80, 0],
    [OP, 4, 0, 2],
    [OP, 4, 0, 4],
    // 22: 0 and 9, 0 or 9, 0 or 0
    [OP, 6, 0, 4],
    [OP, 6, 0, 5],
    [MSET, 7, 0, 0],
    [MSET, 6, 0, 0],
    [OP, 6, 0, 5],
    // 27: taken, not taken, over two, over none, taken over none
    [SKZ, 6, 0, 1],
    [VIOL, 0, 0, 0],
    [SKZ, 4, 0, 1],
    [SKIP, 0, 0, 2],
    [VIOL, 0, 0, 0],
    [VIOL, 0, 0, 0],
    [SKIP, 0, 0, 0],
    [SKZ, 6, 0, 0],
    [STORE, 1, 0, 0],
    [VIOL, 0, 0, 0],
    [END, 0, 0, 0],
];

const BLOCK_SCRIPT: [Line; 34] = [
    Line::Cell(0, 2147483647),
    Line::Cell(31, 0),
    Line::Moves(0, 5),
    Line::Scratch(0, -7),
    Line::Scratch(7, 9),
    Line::Calls(0, 5, [-7, 0, 0, 9]),
    Line::Answer(0, Reply::Normal(1234567)),
    Line::Moves(0, 2),
    Line::Scratch(1, 1234567),
    Line::Free,
    // MCELL, MSET, plus
    Line::Moves(0, 3),
    Line::Scratch(2, -2147483648),
    Line::Scratch(3, 1),
    Line::Moves(0, 2),
    Line::Cell(31, 2147483647),
    // not 2^31 - 1 < 9
    Line::Moves(0, 2),
    Line::Scratch(6, 0),
    Line::Moves(0, 3),
    Line::Scratch(4, 1),
    Line::Moves(0, 1),
    Line::Scratch(4, 0),
    Line::Moves(0, 2),
    Line::Scratch(4, 1),
    Line::Moves(0, 2),
    Line::Scratch(6, 0),
    Line::Moves(0, 1),
    Line::Scratch(6, 1),
    Line::Moves(0, 3),
    Line::Scratch(6, 0),
    // to 29, 30, 33, 34, 35, 36
    Line::Moves(0, 6),
    Line::At(0, 0, 36, 0),
    Line::Cell(0, 1234567),
    Line::Stops(0),
    Line::At(0, 0, 36, 0),
];

// Threads start in the methods 0, 2, 3, 5 and 6.
const FRAMES: [[u8; 4]; 35] = [
    // 0: r0 = 3, r4 = 8, r7 = 9, r3 = 6
    [METHOD, 0, 0, 28],
    [SET, 0, 0, 3],
    [SET, 4, 0, 8],
    [SET, 7, 0, 9],
    [SET, 3, 0, 6],
    [CALL, 0, 0, 1],
    [HOST, 2, 0, 0],
    [END, 0, 0, 0],
    // 1: answers r0 + r3
    [METHOD, 0, 0, 12],
    [ADD, 0, 0, 3],
    [SET, 3, 0, 1],
    [RET, 0, 0, 0],
    // 2: calls itself without end
    [METHOD, 0, 0, 8],
    [CALL, 0, 0, 2],
    [END, 0, 0, 0],
    // 3: calls 4, which ends the thread
    [METHOD, 0, 0, 8],
    [CALL, 0, 0, 4],
    [END, 0, 0, 0],
    [METHOD, 0, 0, 4],
    [END, 0, 0, 0],
    // 5: returns from the first frame
    [METHOD, 0, 0, 4],
    [RET, 0, 0, 0],
    // 6: calls 7, which adds 1 to r0 in each frame and calls itself until r0 is 15
    [METHOD, 0, 0, 16],
    [SET, 1, 0, 1],
    [CALL, 0, 0, 7],
    [HOST, 0, 0, 0],
    [END, 0, 0, 0],
    [METHOD, 0, 0, 28],
    [ADD, 0, 0, 1],
    [MOV, 2, 0, 0],
    [SET, 3, 0, 15],
    [LT, 2, 0, 3],
    [BRZ, 2, 0, 6],
    [CALL, 0, 0, 7],
    [RET, 0, 0, 0],
];

const FRAMES_SCRIPT: [Line; 25] = [
    // r3 is handed over, r4 and r7 are 0 in the new frame
    Line::Moves(0, 5),
    Line::At(0, 1, 0, 1),
    Line::Register(0, 0, 3),
    Line::Register(0, 3, 6),
    Line::Register(0, 4, 0),
    Line::Register(0, 7, 0),
    // r0 comes back, the caller's other registers are as they were
    Line::Moves(0, 3),
    Line::At(0, 0, 5, 0),
    Line::Register(0, 4, 8),
    Line::Register(0, 7, 9),
    Line::Calls(0, 2, [9, 0, 0, 6]),
    // 15 calls make sixteen frames
    Line::Moves(1, 15),
    Line::At(1, 2, 0, 15),
    Line::Ends(1, 1),
    Line::At(1, 2, 0, 15),
    Line::Refused(1, 5),
    Line::Moves(2, 1),
    Line::Ends(2, 0),
    Line::At(2, 4, 0, 1),
    Line::Ends(3, 0),
    // SET and CALL; six steps in each of the frames 2 to 15; in frame 16 five and RET; 14 more RET
    Line::Moves(4, 91),
    Line::At(4, 7, 6, 15),
    Line::Moves(4, 15),
    Line::At(4, 6, 2, 0),
    Line::Calls(4, 0, [15, 1, 0, 0]),
];

// Threads start in the methods 0 to 3.
const LOCKS: [[u8; 4]; 21] = [
    [METHOD, 0, 0, 24],
    [SET, 0, 0, 5],
    [LOCK, 3, 0, 0],
    [HOST, 3, 0, 4],
    [UNLOCK, 0, 0, 0],
    [UNLOCK, 0, 0, 0],
    [END, 0, 0, 0],
    [METHOD, 0, 0, 24],
    [SET, 1, 0, 6],
    [LOCK, 63, 0, 0],
    [HOST, 7, 0, 4],
    [END, 0, 0, 0],
    [LOCK, 0, 0, 0],
    [END, 0, 0, 0],
    [METHOD, 0, 0, 8],
    [UNLOCK, 0, 0, 0],
    [END, 0, 0, 0],
    [METHOD, 0, 0, 12],
    [HOST, 9, 0, 2],
    [HOST, 9, 0, 0],
    [END, 0, 0, 0],
];

const LOCKS_SCRIPT: [Line; 45] = [
    Line::Refused(4, 2),
    Line::NoAnswer(4, 2),
    Line::Free,
    Line::Moves(0, 2),
    Line::Holder(0),
    Line::Argument(0, 5),
    // LOCK by another thread, again and again, which stays where it is
    Line::Moves(1, 1),
    Line::Refused(1, 7),
    Line::Refused(1, 7),
    Line::At(1, 1, 1, 0),
    Line::NoAnswer(1, 3),
    // UNLOCK by a thread without the lock
    Line::Ends(2, 2),
    Line::Holder(0),
    Line::Refused(2, 5),
    Line::NoAnswer(2, 3),
    // answers without the lock leave a4 as it is
    Line::Calls(3, 9, [0, 0, 0, 0]),
    Line::Refused(3, 4),
    Line::Answer(3, Reply::Normal(100)),
    Line::At(3, 3, 1, 0),
    Line::Register(3, 0, 100),
    Line::Argument(4, 0),
    Line::Calls(3, 9, [100, 0, 0, 0]),
    Line::Answer(3, Reply::Raised(-100)),
    Line::At(3, 3, 0, 0),
    Line::Register(3, 0, -100),
    Line::Argument(4, 0),
    // the lock is held across the call, and the answer goes into a4
    Line::Calls(0, 3, [5, 0, 0, 0]),
    Line::Refused(0, 4),
    Line::Refused(1, 7),
    Line::Answer(0, Reply::Normal(200)),
    Line::Register(0, 0, 200),
    Line::Argument(4, 200),
    Line::Moves(0, 1),
    Line::Free,
    // the next thread takes it; a4 stays until its answer, which is raised
    Line::Moves(1, 1),
    Line::Holder(1),
    Line::Argument(0, 0),
    Line::Argument(1, 6),
    Line::Argument(4, 200),
    Line::Ends(0, 2),
    Line::Calls(1, 7, [0, 6, 0, 0]),
    Line::Answer(1, Reply::Raised(-1)),
    Line::Argument(4, -1),
    // LOCK by its holder
    Line::Refused(1, 7),
    Line::At(1, 1, 4, 0),
];

// Threads start in the methods 0, 1, 2, 3 and 3.
const ORDER: [[u8; 4]; 11] = [
    [METHOD, 0, 0, 8],
    [VIOL, 0, 0, 0],
    [END, 0, 0, 0],
    [METHOD, 0, 0, 4],
    [END, 0, 0, 0],
    [METHOD, 0, 0, 8],
    [HOST, 4, 0, 1],
    [END, 0, 0, 0],
    [METHOD, 0, 0, 8],
    [LOCK, 1, 0, 0],
    [END, 0, 0, 0],
];

// Each refusal on its own, then with the machine stopped, where a missing thread still comes first.
const ORDER_SCRIPT: [Line; 18] = [
    Line::Ends(1, 0),
    Line::Refused(1, 5),
    Line::Calls(2, 4, [0, 0, 0, 0]),
    Line::Refused(2, 4),
    Line::Moves(3, 1),
    Line::Refused(4, 7),
    Line::Stops(0),
    Line::Refused(5, 2),
    Line::Refused(255, 2),
    Line::Refused(0, 6),
    Line::Refused(1, 6),
    Line::Refused(2, 6),
    Line::Refused(4, 6),
    Line::NoAnswer(5, 2),
    Line::NoAnswer(2, 6),
    Line::NoAnswer(1, 6),
    Line::Holder(3),
    Line::At(2, 2, 0, 0),
];

#[test]
fn scripts(rt: HostRuntime) -> Result<(), Fail> {
    let heap = rt.alloc();
    follow(&rt, &file(heap, &[0], &[], 1, &OWN)?, &OWN_SCRIPT)?;
    let starts = [0x7f, 0xff, 0xff, 0xff];
    follow(&rt, &file(heap, &[0], &starts, 1, &BLOCK)?, &BLOCK_SCRIPT)?;
    follow(
        &rt,
        &file(heap, &[0, 2, 3, 5, 6], &[], 8, &FRAMES)?,
        &FRAMES_SCRIPT,
    )?;
    follow(
        &rt,
        &file(heap, &[0, 1, 2, 3], &[], 4, &LOCKS)?,
        &LOCKS_SCRIPT,
    )?;
    follow(
        &rt,
        &file(heap, &[0, 1, 2, 3, 3], &[], 4, &ORDER)?,
        &ORDER_SCRIPT,
    )
}

// The refusal of a file, its number and place.
fn refusal(file: &[u8]) -> Option<(u8, usize)> {
    Machine::load(file).err().map(|e| (e.number(), e.place()))
}

// The example of the documents, the same without its last byte, where the field of the method at 16
// runs past the end, and the same with SET r0 10.
#[test]
fn example(rt: HostRuntime) -> Result<(), Fail> {
    follow(&rt, WOVEN, &TAKEN)?;
    assert_eq!(rt; refusal(&WOVEN[..90]), Some((10, 16)));
    let mut ten = *WOVEN;
    ten[22] = 10;
    follow(&rt, &ten, &STOPPED)
}

// Carries out acts on the woven applet: what that says, and where the thread stands then.
fn ran(acts: &[Act], seen: &mut [Seen]) -> Result<(Result<usize, Refusal>, Option<u32>), Refusal> {
    let mut m = Machine::load(WOVEN)?;
    let said = m.run(acts, seen);
    Ok((said, m.state().index(0)))
}

// Twelve steps, one that is refused, and two answers, of which one works; and too short an area, with
// which nothing happens.
#[test]
fn acts(rt: HostRuntime) -> Result<(), Fail> {
    let mut acts = [Act::Step(0); 15];
    acts[13] = Act::Answer(0, Reply::Raised(-5));
    acts[14] = Act::Answer(0, Reply::Normal(6));
    let untouched = Seen::Reply(9, Reply::Normal(9));
    let mut short = [untouched; 14];
    assert_eq!(rt;
        ran(&acts, &mut short)?,
        (Err(Refusal::AreaTooShort), Some(0))
    );
    assert_eq!(rt; short[0], untouched);
    let mut seen = [untouched; 15];
    assert_eq!(rt; ran(&acts, &mut seen)?, (Ok(2), Some(15)));
    assert_eq!(rt; seen[0], Seen::Call(0, 5, [7, 0, 0, 0]));
    assert_eq!(rt; seen[1], Seen::Reply(0, Reply::Raised(-5)));
    assert_eq!(rt; seen[2], untouched);
    Ok(())
}

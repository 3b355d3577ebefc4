// Scripts: what is done to a machine, and what is expected of it.
use machine::{Machine, State};
use model::{Outcome, Reply};
use std::process::Abort;
use std::test::Fail;

#[derive(Clone, Copy)]
pub(crate) enum Line {
    // so many steps of a thread, which say moved
    Moves(u8, u8),
    // a step of a thread hands out this call with these arguments
    Calls(u8, u8, [i32; 4]),
    // a step of a thread ends it, with this reason
    Ends(u8, u8),
    // a step of a thread stops the machine
    Stops(u8),
    // a step of a thread is refused with this number
    Refused(u8, u8),
    // an answer to a thread works
    Answer(u8, Reply),
    // an answer to a thread is refused with this number
    NoAnswer(u8, u8),
    // a thread stands in this method at this index, so many frames below
    At(u8, u8, u32, u8),
    // a register of a thread
    Register(u8, u8, i32),
    Shared(u8, i32),
    Cell(u8, i32),
    Scratch(u8, i32),
    Argument(u8, i32),
    Holder(u8),
    Free,
}

// Whether the state is as a line says.
fn shows(s: &State, line: Line) -> bool {
    match line {
        Line::At(t, method, index, depth) => s
            .position(t)
            .is_some_and(|p| (p.method, p.index, p.depth) == (method, index, depth)),
        Line::Register(t, x, v) => s
            .position(t)
            .is_some_and(|p| p.registers.get(x as usize) == Some(&v)),
        Line::Shared(i, v) => s.shared_number(i) == Some(v),
        Line::Cell(i, v) => s.cell(i) == Some(v),
        Line::Scratch(i, v) => s.scratch.get(i as usize) == Some(&v),
        Line::Argument(i, v) => s.args.get(i as usize) == Some(&v),
        Line::Holder(t) => s.lock_holder() == Some(t),
        Line::Free => s.lock_holder() == None,
        _ => false,
    }
}

// Whether a line comes out as it says.
fn holds(m: &mut Machine<'_>, line: Line) -> bool {
    match line {
        Line::Moves(t, times) => (0..times).all(|_| m.step(t) == Ok(Outcome::Moved)),
        Line::Calls(t, k, a) => m.step(t) == Ok(Outcome::Called(k, a)),
        Line::Ends(t, r) => matches!(m.step(t), Ok(Outcome::Ended(e)) if e.number() == r),
        Line::Stops(t) => m.step(t) == Ok(Outcome::Stop),
        Line::Refused(t, n) => m.step(t).is_err_and(|e| e.number() == n),
        Line::Answer(t, reply) => m.answer(t, reply).is_ok(),
        Line::NoAnswer(t, n) => m
            .answer(t, Reply::Raised(1))
            .is_err_and(|e| e.number() == n),
        _ => shows(m.state(), line),
    }
}

// Loads a file, and follows a script line by line.
pub(crate) fn follow(rt: &impl Abort, file: &[u8], script: &[Line]) -> Result<(), Fail> {
    let mut m = Machine::load(file)?;
    for (i, line) in script.iter().enumerate() {
        assert_eq!(rt; (i, holds(&mut m, *line)), (i, true));
    }
    Ok(())
}

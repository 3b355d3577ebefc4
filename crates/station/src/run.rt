// Running an applet: by a script, or round robin over its threads.
use crate::scripts;
use crate::stop::Stop;
use crate::views::Numbers;
use applet::Applet;
use machine::{Act, Machine, Position, State};
use model::{Outcome, Reply, Status};
use std::fmt;

// How an applet is run: by the lines of a script, or by so many rounds.
#[derive(Clone, Copy)]
pub(crate) enum Course<'a> {
    Script(&'a str),
    Rounds(u32),
}

// What a line of a script comes to.
#[derive(Drop)]
pub enum Said {
    Step(Outcome),
    Answered,
}

impl fmt::Display for Said {
    fn fmt<W: fmt::Write>(&self, f: &mut fmt::Formatter<W>) -> fmt::Result {
        match self {
            Said::Step(Outcome::Moved) => f.write_str("moved"),
            Said::Step(Outcome::Called(k, args)) => write!(f, "call {k}{}", Numbers(args)),
            Said::Step(Outcome::Ended(reason)) => write!(f, "ended {}", reason.number()),
            Said::Step(Outcome::Stop) => f.write_str("stop"),
            Said::Answered => f.write_str("answered"),
        }
    }
}

// Carries out one line.
fn line(rt: &HostRuntime, m: &mut Machine<'_>, act: Act) -> anyhow::Result<()> {
    let said = match act {
        Act::Step(t) => m.step(t).map(Said::Step),
        Act::Answer(t, reply) => m.answer(t, reply).map(|()| Said::Answered),
    };
    match said {
        Ok(said) => println!(rt; "{said}")?,
        Err(r) => println!(rt; "refused {}", r.number())?,
    }
    Ok(())
}

// Carries out a script.
fn script(rt: &HostRuntime, m: &mut Machine<'_>, text: &str) -> Result<(), Stop> {
    for (i, l) in text.lines().enumerate() {
        let words: Vec<&str> = l.split_whitespace().collect(rt.alloc())?;
        let act = scripts::act(&words).ok_or(Stop::NoAct(i.saturating_add(1)))?;
        line(rt, m, act)?;
    }
    Ok(())
}

// What rounds come to.
#[derive(Clone, Copy, Default)]
struct Counts {
    steps: u64,
    calls: u64,
    refusals: u64,
}

impl Counts {
    // One step of a thread; a call is answered normally with 0. Whether the step worked.
    fn turn(&mut self, m: &mut Machine<'_>, t: u8) -> bool {
        let Ok(outcome) = m.step(t) else {
            self.refusals = self.refusals.saturating_add(1);
            return false;
        };
        self.steps = self.steps.saturating_add(1);
        if let Outcome::Called(_, _) = outcome {
            self.calls = self.calls.saturating_add(1);
            let _ = m.answer(t, Reply::Normal(0));
        }
        true
    }

    // One round: a step of each thread. Whether any of them worked.
    fn round(&mut self, m: &mut Machine<'_>) -> bool {
        let mut any = false;
        for t in 0..m.state().many() {
            any |= self.turn(m, t);
        }
        any
    }
}

// Up to so many rounds, until none of the threads can go on; then how it went.
fn rounds(rt: &HostRuntime, m: &mut Machine<'_>, n: u32) -> anyhow::Result<()> {
    let mut counts = Counts::default();
    for _ in 0..n {
        if !counts.round(m) {
            break;
        }
    }
    let Counts {
        steps,
        calls,
        refusals,
    } = counts;
    println!(rt; "steps {steps}, calls {calls}, refusals {refusals}")?;
    Ok(())
}

// A thread and where it stands.
#[derive(Drop)]
pub struct Standing {
    thread: u8,
    position: Position,
}

// The word for a status.
fn status(s: Status) -> &'static str {
    match s {
        Status::Ready => "ready",
        Status::Awaiting => "awaiting",
        Status::Ended => "ended",
    }
}

impl fmt::Display for Standing {
    fn fmt<W: fmt::Write>(&self, f: &mut fmt::Formatter<W>) -> fmt::Result {
        let thread = self.thread;
        let p = &self.position;
        let status = status(p.status);
        write!(
            f,
            "thread {thread} {status} method {} index {}",
            p.method, p.index
        )?;
        let depth = p.depth.saturating_add(1);
        write!(f, " depth {depth} registers{}", Numbers(&p.registers))
    }
}

// The machine as it stands: its threads, the cells in use, the lock, and whether it has stopped.
fn report(rt: &HostRuntime, s: &State, cells: usize) -> anyhow::Result<()> {
    for thread in 0..s.many() {
        if let Some(position) = s.position(thread) {
            println!(rt; "{}", Standing { thread, position })?;
        }
    }
    println!(rt; "cells{}", Numbers(&s.cells[..cells.min(32)]))?;
    match s.lock_holder() {
        Some(t) => println!(rt; "lock held by thread {t}")?,
        None => println!(rt; "lock free")?,
    }
    let stopped = if s.stopped() {
        "stopped"
    } else {
        "not stopped"
    };
    println!(rt; "machine {stopped}")?;
    Ok(())
}

// Runs an applet, and reports how its machine stands then.
pub(crate) fn applet(rt: &HostRuntime, file: &[u8], course: Course<'_>) -> Result<(), Stop> {
    let cells = Applet::read(file)?.starts();
    let mut m = Machine::load(file)?;
    match course {
        Course::Script(text) => script(rt, &mut m, text)?,
        Course::Rounds(n) => rounds(rt, &mut m, n)?,
    }
    report(rt, m.state(), cells)?;
    Ok(())
}

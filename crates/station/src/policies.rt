// Policies: their report, their blocks, and a watch that judges a script.
use crate::scripts::WatchLine;
use crate::stop::{Stop, at_path};
use crate::views::Cells;
use crate::words::Numbered;
use crate::{list, scripts, weave};
use model::{Moment, Verdict};
use policy::{Policy, Watch};
use std::fs;

// What is asked of a policy: its report; a block; a watch that judges a script; or to weave it into a
// plain applet and write the woven file at a path. No closure, as one is not generic over the policy.
#[derive(Clone, Copy)]
pub(crate) enum Task<'a> {
    Report,
    Block { call: u8, moment: Moment, first: u8 },
    Watch(&'a str),
    Weave { plain: &'a [u8], woven: &'a str },
}

// A watched call, with the length of each of its blocks.
fn watched<P: Policy>(rt: &HostRuntime, p: &P, call: u8) -> anyhow::Result<()> {
    let [before, after, raised] = Moment::ALL.map(|moment| p.block_len(call, moment));
    println!(rt; "call {call}: before {before}, after {after}, raised {raised}")?;
    Ok(())
}

// Kind, width, starts, and the watched calls.
fn report<P: Policy>(rt: &HostRuntime, p: &P, kind: &str) -> Result<(), Stop> {
    let mut row = [0; 32];
    p.starts(&mut row)?;
    let width = p.width();
    println!(rt; "kind {kind}, width {width}")?;
    println!(rt; "starts {}", Cells(&row[..usize::from(width).min(32)]))?;
    for call in 0..64 {
        if p.watches(call) == Ok(true) {
            watched(rt, p, call)?;
        }
    }
    Ok(())
}

// Lists the block for a call, a moment and a first cell.
fn block<P: Policy>(
    rt: &HostRuntime,
    p: &P,
    call: u8,
    moment: Moment,
    first: u8,
) -> Result<(), Stop> {
    let mut area = [0; 4000];
    let n = p.write_block(call, moment, first, &mut area)?;
    println!(rt; "{n} instructions")?;
    let end = n.saturating_mul(4).min(4000);
    list::code(rt, &area[..end], 0)?;
    Ok(())
}

// What a watch says of an event.
fn verdict(v: Verdict) -> &'static str {
    match v {
        Verdict::Taken => "taken",
        Verdict::Refused => "refused",
    }
}

// A watch over a policy with its row of cells, of which the policy has so many.
#[derive(Drop)]
struct Judge<P> {
    watch: Watch<P>,
    row: [i32; 32],
    width: usize,
}

impl<P: Policy> Judge<P> {
    // Carries out one line of a script.
    fn line(&mut self, rt: &HostRuntime, l: &WatchLine) -> anyhow::Result<()> {
        let said = match l {
            WatchLine::Begin => self.watch.begin(&mut self.row).map(|()| "begun"),
            WatchLine::Event(event) => self.watch.judge(event, &mut self.row).map(verdict),
        };
        match said {
            Ok(said) => println!(rt; "{said} {}", Cells(&self.row[..self.width.min(32)]))?,
            Err(r) => println!(rt; "{}", Numbered(r))?,
        }
        Ok(())
    }
}

// Judges a script.
fn watch<P: Policy + Drop>(rt: &HostRuntime, p: P, script: &str) -> Result<(), Stop> {
    let width = usize::from(p.width());
    let mut judge = Judge {
        watch: Watch::new(p),
        row: [0; 32],
        width,
    };
    for (i, l) in script.lines().enumerate() {
        let words: Vec<&str> = l.split_whitespace().collect(rt.alloc())?;
        let l = scripts::watch_line(&words).ok_or(Stop::NoEvent(i.saturating_add(1)))?;
        judge.line(rt, &l)?;
    }
    Ok(())
}

// Weaves a policy into a plain applet, writes the woven file, and reports; on a refusal no file is
// written.
fn weave_file<P: Policy>(rt: &HostRuntime, p: &P, plain: &[u8], woven: &str) -> Result<(), Stop> {
    let mut area = Vec::from_elem(rt.alloc(), 0, 65535)?;
    let n = weaver::weave(p, plain, area.as_mut_slice())?;
    area.truncate(n);
    at_path(
        rt.alloc(),
        woven,
        fs::write(rt, woven, area.as_slice()),
        Stop::File,
    )?;
    weave::report(rt, plain, area.as_slice())?;
    Ok(())
}

// Carries out a task on a policy.
pub(crate) fn carry_out<P: Policy + Drop>(
    rt: &HostRuntime,
    p: P,
    kind: &str,
    task: Task<'_>,
) -> Result<(), Stop> {
    match task {
        Task::Report => report(rt, &p, kind),
        Task::Block {
            call,
            moment,
            first,
        } => block(rt, &p, call, moment, first),
        Task::Watch(script) => watch(rt, p, script),
        Task::Weave { plain, woven } => weave_file(rt, &p, plain, woven),
    }
}

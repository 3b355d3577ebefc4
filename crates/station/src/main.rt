// The command line for planners.
#![tactic(auto)]

mod code;
mod diff;
mod kinds;
mod list;
mod policies;
mod run;
mod scripts;
mod sites;
mod stop;
mod views;
mod weave;
mod words;

use applet::Applet;
use kinds::AnyPolicy;
use policies::Task;
use policy::{Pair, limits};
use run::Course;
use std::process::ExitCode;
use std::{env, fs};
use stop::{Stop, at_path};

// The bytes of a file.
fn bytes(rt: &HostRuntime, path: &str) -> Result<Vec<u8>, Stop> {
    at_path(rt.alloc(), path, fs::read(rt, path), Stop::File)
}

// The text of a script.
fn text(rt: &HostRuntime, path: &str) -> Result<String, Stop> {
    at_path(rt.alloc(), path, fs::read_to_string(rt, path), Stop::File)
}

// The applet of one of several files.
fn applet<'a>(rt: &HostRuntime, path: &str, file: &'a [u8]) -> Result<Applet<'a>, Stop> {
    at_path(rt.alloc(), path, Applet::read(file), Stop::RefusedFile)
}

// Lists an applet.
fn list_file(rt: &HostRuntime, path: &str) -> Result<(), Stop> {
    let file = bytes(rt, path)?;
    let a = Applet::read(&file)?;
    list::applet(rt, &a, file.len())?;
    Ok(())
}

// Lists a plain applet and a woven one side by side.
fn diff_files(rt: &HostRuntime, plain: &str, woven: &str) -> Result<(), Stop> {
    let one = bytes(rt, plain)?;
    let two = bytes(rt, woven)?;
    let p = applet(rt, plain, &one)?;
    let w = applet(rt, woven, &two)?;
    if diff::applets(rt, &p, &w)? {
        Ok(())
    } else {
        Err(Stop::Parted)
    }
}

// Runs an applet by a script.
fn run_script(rt: &HostRuntime, path: &str, script: &str) -> Result<(), Stop> {
    let file = bytes(rt, path)?;
    let script = text(rt, script)?;
    run::applet(rt, &file, Course::Script(script.as_str()))
}

// Runs an applet round robin.
fn run_rounds(rt: &HostRuntime, path: &str, n: &str) -> Result<(), Stop> {
    let Ok(n) = n.parse::<u32>() else {
        return Err(Stop::Usage);
    };
    let file = bytes(rt, path)?;
    run::applet(rt, &file, Course::Rounds(n))
}

// Carries out a task on the policy of one file, or on the pair of two.
fn on_files(rt: &HostRuntime, paths: &[&str], task: Task<'_>) -> Result<(), Stop> {
    match paths {
        [path] => {
            let file = bytes(rt, path)?;
            let p = AnyPolicy::read(&file)?;
            let kind = p.kind();
            policies::carry_out(rt, p, kind, task)
        }
        [path, path2] => {
            let one = bytes(rt, path)?;
            let two = bytes(rt, path2)?;
            let pair = Pair::new(AnyPolicy::read(&one)?, AnyPolicy::read(&two)?);
            limits(&pair)?;
            policies::carry_out(rt, pair, "pair", task)
        }
        _ => Err(Stop::Usage),
    }
}

// What lists a block: its call, its moment and its first cell.
fn block(call: &str, moment: &str, first: &str) -> Option<Task<'static>> {
    Some(Task::Block {
        call: scripts::small(call)?,
        moment: scripts::moment(moment)?,
        first: scripts::small(first)?,
    })
}

// Carries out a command.
fn command(rt: &HostRuntime, args: &[&str]) -> Result<(), Stop> {
    match args {
        ["list", applet] => list_file(rt, applet),
        ["run", applet, script] => run_script(rt, applet, script),
        ["run", applet, "--rounds", n] => run_rounds(rt, applet, n),
        ["policy", paths @ ..] => on_files(rt, paths, Task::Report),
        ["block", call, moment, first, paths @ ..] => {
            let task = block(call, moment, first).ok_or(Stop::Usage)?;
            on_files(rt, paths, task)
        }
        ["watch", script, paths @ ..] => {
            let script = text(rt, script)?;
            on_files(rt, paths, Task::Watch(script.as_str()))
        }
        ["weave", plain, woven, paths @ ..] => {
            let plain = bytes(rt, plain)?;
            on_files(
                rt,
                paths,
                Task::Weave {
                    plain: &plain,
                    woven,
                },
            )
        }
        ["diff", plain, woven] => diff_files(rt, plain, woven),
        _ => Err(Stop::Usage),
    }
}

// The status is 0 for a report; what stopped a command is told.
fn main(rt: HostRuntime) -> anyhow::Result<ExitCode> {
    let args: Vec<String> = env::args(&rt)?.skip(1).collect(rt.alloc())?;
    let words: Vec<&str> = args.iter().map(|a| a.as_str()).collect(rt.alloc())?;
    match command(&rt, &words) {
        Ok(()) => Ok(ExitCode::SUCCESS),
        Err(stop) => {
            stop.tell(&rt)?;
            Ok(ExitCode::FAILURE)
        }
    }
}

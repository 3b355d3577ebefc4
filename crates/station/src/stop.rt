// Why a command does not end well, and how that is told.
use crate::words::Numbered;
use model::Refusal;
use std::alloc::{AllocError, Global};
use std::io;

// How the program is called.
const USAGE: &str = "usage: station list APPLET
       station run APPLET SCRIPT
       station run APPLET --rounds N
       station policy POLICY [POLICY2]
       station block CALL MOMENT FIRST POLICY [POLICY2]
       station watch SCRIPT POLICY [POLICY2]
       station weave PLAIN WOVEN POLICY [POLICY2]
       station diff PLAIN WOVEN";

// Why a command does not end well.
#[derive(Drop)]
pub(crate) enum Stop {
    // The arguments are no command's.
    Usage,
    // The file at this path cannot be read or written.
    File(String, io::Error),
    // The line of this number is none of a script for a run.
    NoAct(usize),
    // The line of this number is none of a script for a watch.
    NoEvent(usize),
    // What was asked for is refused.
    Refused(Refusal),
    // Of several files, the one at this path is refused.
    RefusedFile(String, Refusal),
    // Two applets part, as their report says.
    Parted,
    // Printing failed, or memory ran out.
    Error(anyhow::Error),
}

impl From<Refusal> for Stop {
    fn from(r: Refusal) -> Stop {
        Stop::Refused(r)
    }
}

impl From<anyhow::Error> for Stop {
    fn from(e: anyhow::Error) -> Stop {
        Stop::Error(e)
    }
}

impl From<io::Error> for Stop {
    fn from(e: io::Error) -> Stop {
        Stop::Error(e.into())
    }
}

impl From<AllocError> for Stop {
    fn from(e: AllocError) -> Stop {
        Stop::Error(e.into())
    }
}

// What was done with the file at a path, or what stopped it there.
pub(crate) fn at_path<T, E: Drop, F: FnOnce(String, E) -> Stop>(
    heap: Global,
    path: &str,
    answer: Result<T, E>,
    stop: F,
) -> Result<T, Stop>
    requires { F.IsAlwaysCallable stop }
{
    match answer {
        Ok(value) => Ok(value),
        Err(e) => Err(stop(String::from_str(heap, path)?, e)),
    }
}

// Prints a refusal: its number and place, then what is wrong and where.
fn tell_refusal(rt: &HostRuntime, r: &Refusal) -> anyhow::Result<()> {
    println!(rt; "{}", Numbered(*r))?;
    match r.location() {
        Some(place) => println!(rt; "at byte {place}: {r}")?,
        None => println!(rt; "{r}")?,
    }
    Ok(())
}

impl Stop {
    // Tells of it: of refusals on standard output, of all else on standard error.
    pub(crate) fn tell(self, rt: &HostRuntime) -> anyhow::Result<()> {
        match self {
            Stop::Usage => eprintln!(rt; "{USAGE}")?,
            Stop::File(path, e) => eprintln!(rt; "station: {path}: {e}")?,
            Stop::NoAct(line) => {
                eprintln!(rt; "station: line {line} of the script is no step and no answer")?;
            }
            Stop::NoEvent(line) => {
                eprintln!(rt; "station: line {line} of the script is no begin and no event")?;
            }
            Stop::Refused(r) => tell_refusal(rt, &r)?,
            Stop::RefusedFile(path, r) => {
                println!(rt; "{path}:")?;
                tell_refusal(rt, &r)?;
            }
            Stop::Parted => {}
            Stop::Error(e) => return Err(e),
        }
        Ok(())
    }
}

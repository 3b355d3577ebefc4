// The state of a machine that was just loaded.
ghost use Rattle.std.specs.Prelude.{◌≡◌, ◌<◌, ◌≤◌, ◌++◌, map, length, drop, pos, slice_index_or};
ghost use Rattle.model.specs.Machine.{new_thread, fresh as new_machine};
ghost use Rattle.applet.specs.Applets.{meant};
ghost use Rattle.machine.specs.Views.{thread_of, threads_of, machine_of};

use crate::frames::{Callers, Frame};
use crate::states::State;
use crate::threads::Thread;
use applet::Applet;
use model::Status;

// A thread at index 0 of its method.
fn thread_in(method: u8) -> Thread
    ensures { thread_of result ≡ new_thread method }
{
    let top = Frame::start(method, [0; 8]);
    Thread {
        status: Status::Ready,
        top,
        callers: Callers {
            depth: 0,
            frames: [top; 15],
        },
    }
}

// The threads that start in these methods.
fn start_in(threads: &mut [Thread; 8], entries: &[u8])
    requires { length entries.now ≤ 8 }
    ensures { threads_of (length entries.now) threads.new ≡ map new_thread entries.now }
{
    // Through `threads.iter_mut().zip(entries)` a proof learns of no element, so the place is written.
    for (i, method) in entries.iter().enumerate() {
        threads[i] = thread_in(*method);
    }
}

// The start value of a cell, 0 if it has none.
fn start_of(applet: &Applet<'_>, cell: usize) -> i32
    ensures { result ≡ slice_index_or (meant applet.now).starts cell (pos 0) }
{
    applet.start(cell).unwrap_or(0)
}

// Writes the start values over the first cells.
fn fill(cells: &mut [i32; 32], applet: &Applet<'_>)
    requires { length (meant applet.now).starts ≤ 32 }
    ensures { cells.new ≡ (meant applet.now).starts ++ drop (length (meant applet.now).starts) cells.old }
{
    // The applet tells its start values by their index: `applet.start(i)`.
    for i in 0..applet.starts() {
        cells[i] = start_of(applet, i);
    }
}

impl State {
    // The state of an applet that was just loaded.
    pub(crate) fn loaded(applet: &Applet<'_>) -> State
        requires threads { length (meant applet.now).entries ≤ 8 }
        requires cells { length (meant applet.now).starts ≤ 32 }
        ensures { machine_of result ≡ new_machine (meant applet.now) }
    {
        let entries = applet.entries();
        let mut threads = [thread_in(0); 8];
        start_in(&mut threads, entries);
        let mut cells = [0; 32];
        fill(&mut cells, applet);
        State {
            threads,
            count: entries.len() as u8,
            shared: [0; 64],
            cells,
            scratch: [0; 8],
            args: [0; 5],
            holder: None,
            halted: false,
        }
    }
}

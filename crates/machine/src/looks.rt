// Looking at a machine without changing it. Nothing is told of a thread, a register, a shared number
// or a cell that there is not.
ghost use Rattle.std.specs.Prelude.{◌≡◌, ◌<◌, length, pos, if◌then◌else◌, Some, None, nat_lt, slice_index_or};
ghost use Rattle.std.specs.Option.{option_map};
ghost use Rattle.applet.specs.Applets.{nth};
ghost use Rattle.model.specs.Machine.{reg as reg_of};
ghost use Rattle.machine.specs.Positions.{position_of};
ghost use Rattle.machine.specs.Views.{machine_of, shown_thread};

use crate::states::State;
use crate::threads::Thread;
use model::Status;

// Where a thread stands: its status, the method and the index of its topmost frame, how many frames lie
// below that one, and its registers.
#[derive(Clone, Copy)]
pub struct Position {
    pub status: Status,
    pub method: u8,
    pub index: u32,
    pub depth: u8,
    pub registers: [i32; 8],
}

// Each part of a position has a call of its own, for callers that ask for no more.
impl State {
    // Thread t, as it is stored.
    fn thread(&self, t: u8) -> Option<&Thread>
        ensures { shown_thread result ≡ nth (machine_of self.now).threads t }
    {
        self.threads[..self.many() as usize].get(t as usize)
    }

    pub fn status(&self, t: u8) -> Option<Status>
        ensures { result ≡ option_map (λ u. u.status) (nth (machine_of self.now).threads t) }
    {
        self.thread(t).map(|u| u.status)
    }

    // The method that the topmost frame runs.
    pub fn method(&self, t: u8) -> Option<u8>
        ensures { result ≡ option_map (λ u. u.top.method) (nth (machine_of self.now).threads t) }
    {
        self.thread(t).map(|u| u.at().method)
    }

    // The index at which the topmost frame stands.
    pub fn index(&self, t: u8) -> Option<u32>
        ensures { result ≡ option_map (λ u. u.top.index) (nth (machine_of self.now).threads t) }
    {
        self.thread(t).map(|u| u.at().index)
    }

    // How many frames lie below the topmost one.
    pub fn depth(&self, t: u8) -> Option<u8>
        ensures { result ≡ option_map (λ u. length u.callers) (nth (machine_of self.now).threads t) }
    {
        self.thread(t).map(|u| u.callers.len())
    }

    // A register of the topmost frame.
    pub fn register(&self, t: u8, x: u8) -> Option<i32>
        ensures { result ≡ (if nat_lt x 8 then option_map (λ u. reg_of u.top x) (nth (machine_of self.now).threads t) else None) }
    {
        self.thread(t)?.top.regs.get(x as usize).copied()
    }

    // Where a thread stands.
    pub fn position(&self, t: u8) -> Option<Position>
        ensures { result ≡ option_map position_of (nth (machine_of self.now).threads t) }
    {
        let u = self.thread(t)?;
        Some(Position {
            status: u.status,
            method: u.top.method,
            index: u.at().index,
            depth: u.callers.len(),
            registers: u.top.regs,
        })
    }

    pub fn shared_number(&self, i: u8) -> Option<i32>
        ensures { result ≡ (if nat_lt i 64 then Some (slice_index_or (machine_of self.now).shared i (pos 0)) else None) }
    {
        self.shared.get(i as usize).copied()
    }

    pub fn cell(&self, i: u8) -> Option<i32>
        ensures { result ≡ (if nat_lt i 32 then Some (slice_index_or (machine_of self.now).cells i (pos 0)) else None) }
    {
        self.cells.get(i as usize).copied()
    }

    // The thread that holds the lock.
    pub fn lock_holder(&self) -> Option<u8>
        ensures { result ≡ (machine_of self.now).holder }
    {
        self.holder
    }

    pub fn stopped(&self) -> bool
        ensures { result ≡ (machine_of self.now).halted }
    {
        self.halted
    }
}

// Threads: one instruction of the applet's own, and what a thread waits for.
ghost use Rattle.std.specs.Prelude.{◌≡◌, ◌+◌, ◌<◌, List, take, ℤ, IfOk};
ghost use Rattle.model.specs.declared.Status.TheVariants.{Ready as IsReady, Awaiting as IsAwaiting, Ended as IsEnded};
ghost use Rattle.model.specs.Machine.{reg as reg_of, goto as going, write as writing, with_top, with_status, onward, local};
ghost use Rattle.machine.specs.Ranges.{OwnValid};
ghost use Rattle.machine.specs.Views.{waiting, thread_of, stand_of, ready_by, awaiting_by, going_on, Runs};

use crate::frames::{Callers, Frame, Stand, rest};
use model::{Outcome, Own, Reason, Refusal, Status};

// A thread: the topmost frame, and those that it was called from.
#[derive(Clone, Copy)]
pub struct Thread {
    pub status: Status,
    pub top: Frame,
    pub callers: Callers,
}

// A thread that runs is ready and stands below 65,536: the record `Runs` says so to each move. With
// the index in the status, as `Ready(u32)` beside `Awaiting(u16)`, no move would ask it, but steps are a
// tenth slower, and those of eight threads and of host calls miss the goal of bench/steps.rs.
impl Thread {
    // Where it stands.
    pub(crate) fn at(&self) -> Stand
        ensures { result ≡ stand_of (thread_of self.now) }
    {
        let index = match self.status {
            Status::Awaiting => rest(self.top.index),
            Status::Ready | Status::Ended => self.top.index,
        };
        Stand {
            method: self.top.method,
            index,
        }
    }

    // Where it stands, if it can be stepped.
    pub(crate) fn ready(&self) -> Result<Stand, Refusal>
        ensures value { result ≡ ready_by (thread_of self.now) self.now.status }
        ensures ready { IfOk result (λ s. (self.now.status ≡ IsReady) × (s.index ≡ self.now.top.index)) }
    {
        match self.status {
            Status::Ready => Ok(Stand {
                method: self.top.method,
                index: self.top.index,
            }),
            Status::Awaiting => Err(Refusal::StillAwaiting),
            Status::Ended => Err(Refusal::ThreadEnded),
        }
    }

    // Where it stands, if it awaits an answer.
    pub(crate) fn awaiting(&self) -> Result<Stand, Refusal>
        ensures value { result ≡ awaiting_by (thread_of self.now) self.now.status }
        ensures low { IfOk result (λ s. s.index < 65536) }
    {
        match self.status {
            Status::Awaiting => Ok(self.at()),
            Status::Ready | Status::Ended => Err(Refusal::NotAwaiting),
        }
    }

    // Goes on at an index, with a number in r0.
    pub(crate) fn resume(&mut self, index: u32, v: i32)
        ensures { thread_of self.new ≡ going_on (thread_of self.old) index v }
    {
        self.status = Status::Ready;
        self.top.index = index;
        self.top.regs[0] = v;
    }

    // Register x.
    fn reg(&self, x: u8) -> i32
        requires { x < 8 }
        ensures { result ≡ reg_of (thread_of self.now).top x }
    {
        self.top.regs[x as usize]
    }

    // Sets a register, and goes on.
    fn put(&mut self, x: u8, v: i32)
        requires register { x < 8 }
        requires runs { Runs self.old }
        ensures { thread_of self.new ≡ with_top (thread_of self.old) (writing (thread_of self.old).top x v) }
    {
        self.top.regs[x as usize] = v;
        self.top.index += 1;
    }

    fn goto(&mut self, to: u16)
        requires { Runs self.old }
        ensures { thread_of self.new ≡ with_top (thread_of self.old) (going (thread_of self.old).top to) }
    {
        self.top.index = u32::from(to);
    }

    // Goes on behind its instruction and n more.
    pub(crate) fn skip(&mut self, n: u16)
        requires { Runs self.old }
        ensures { thread_of self.new ≡ with_top (thread_of self.old) (going (thread_of self.old).top ((thread_of self.old).top.index + 1 + n)) }
    {
        self.top.index += 1 + u32::from(n);
    }

    // Goes on behind its instruction.
    pub(crate) fn next(&mut self)
        requires { Runs self.old }
        ensures { thread_of self.new ≡ onward (thread_of self.old) }
    {
        self.top.index += 1;
    }

    // The thread ends with a reason.
    pub(crate) fn finish(&mut self, reason: Reason) -> Outcome
        requires { self.old.status ≡ IsReady }
        ensures says { result ≡ Outcome.Ended reason }
        ensures after { thread_of self.new ≡ with_status (thread_of self.old) IsEnded }
    {
        self.status = Status::Ended;
        Outcome::Ended(reason)
    }

    // HOST hands out a call, whose answer the thread awaits.
    fn wait(&mut self, call: u8) -> Outcome
        requires { Runs self.old }
        ensures says { result ≡ Outcome.Called call (take 4 self.old.top.regs) }
        ensures after { thread_of self.new ≡ with_status (thread_of self.old) IsAwaiting }
    {
        self.status = Status::Awaiting;
        Outcome::Called(call, self.top.arguments())
    }

    // CALL: a frame for method n, r0 to r3 copied, r4 to r7 zero. The thread ends where there is no
    // room for another frame.
    fn call(&mut self, n: u8) -> Outcome
        requires { Runs self.old }
        ensures says { (g : List ℤ) → result ≡ (local (Own.Call n) (thread_of self.old) g).says }
        ensures after { (g : List ℤ) → thread_of self.new ≡ (local (Own.Call n) (thread_of self.old) g).after }
        ensures shared { (g : List ℤ) → g ≡ (local (Own.Call n) (thread_of self.old) g).shared }
    {
        if !self.callers.push(self.top) {
            return self.finish(Reason::TooDeep);
        }
        self.top = self.top.called(n);
        Outcome::Moved
    }

    // RET: back to the caller, behind its CALL, with r0. The thread ends in its first frame.
    fn ret(&mut self) -> Outcome
        requires { Runs self.old }
        ensures says { (g : List ℤ) → result ≡ (local Own.Ret (thread_of self.old) g).says }
        ensures after { (g : List ℤ) → thread_of self.new ≡ (local Own.Ret (thread_of self.old) g).after }
        ensures shared { (g : List ℤ) → g ≡ (local Own.Ret (thread_of self.old) g).shared }
    {
        let Some(caller) = self.callers.pop() else {
            return self.finish(Reason::Finished);
        };
        let v = self.top.regs[0];
        self.top = caller;
        self.top.regs[0] = v;
        self.top.index = rest(caller.index) + 1;
        Outcome::Moved
    }

    // An instruction of the applet's own.
    pub(crate) fn run(&mut self, i: Own, shared: &mut [i32; 64]) -> Outcome
        requires valid { OwnValid i }
        requires runs { Runs self.old }
        ensures says { result ≡ (local i (thread_of self.old) shared.old).says }
        ensures after { thread_of self.new ≡ (local i (thread_of self.old) shared.old).after }
        ensures shared { shared.new ≡ (local i (thread_of self.old) shared.old).shared }
    {
        match i {
            Own::Set(x, y) => self.put(x, i32::from(y)),
            Own::Mov(x, y) => self.put(x, self.reg(y)),
            Own::Add(x, y) => self.put(x, self.reg(x).wrapping_add(self.reg(y))),
            Own::Sub(x, y) => self.put(x, self.reg(x).wrapping_sub(self.reg(y))),
            Own::Lt(x, y) => self.put(x, i32::from(self.reg(x) < self.reg(y))),
            Own::Eq(x, y) => self.put(x, i32::from(self.reg(x) == self.reg(y))),
            Own::Get(x, y) => self.put(x, shared[y as usize]),
            Own::Put(x, y) => {
                shared[y as usize] = self.reg(x);
                self.next();
            }
            Own::Jump(n) => self.goto(n),
            Own::Brz(x, n) => {
                if self.reg(x) == 0 {
                    self.goto(n);
                } else {
                    self.next();
                }
            }
            Own::Call(n) => return self.call(n),
            Own::Ret => return self.ret(),
            Own::Host(k, _) => return self.wait(k),
            Own::End => return self.finish(Reason::Finished),
        }
        Outcome::Moved
    }
}

// The state of a machine: threads, shared numbers, cells, scratch numbers, arguments and the lock.
ghost use Rattle.std.specs.Prelude.{◌≡◌, ◌+◌, ◌<◌, ◌≤◌, ◌++◌, length, drop, IfOk, Ok, OnOk, nat_lt};
ghost use Rattle.model.specs.Machine.{run_instr, thread as nth_thread, lock_step, unlock_step, holds, local};
ghost use Rattle.model.specs.Runs.{after};
ghost use Rattle.machine.specs.Ranges.{OwnValid, TestValid, Valid};
ghost use Rattle.machine.specs.Views.{machine_of, said, admitted, stored, Ready, Steps, ready_of, awaiting_of, resumed};

use crate::frames::Stand;
use crate::threads::Thread;
use crate::turns::turn;
use model::{Instr, Outcome, Own, Reason, Refusal, Test};

// The state in fixed memory, as the controller has no heap: the first `count` threads are in use, and
// a step writes to one of them in place. A struct of threads with their count would be read as
// `self.threads.all[t as usize]` all the same, and so would a handle of one thread, as a method that
// lends it out of the array gets no proof: so `Steps` of state and thread is said of each step.
#[derive(Drop)]
pub struct State {
    pub threads: [Thread; 8],
    pub count: u8,
    pub shared: [i32; 64],
    pub cells: [i32; 32],
    pub scratch: [i32; 8],
    pub args: [i32; 5],
    pub holder: Option<u8>,
    pub halted: bool,
}

// Writes r0 to r3 into a0 to a3.
fn copy(args: &mut [i32; 5], regs: [i32; 4])
    ensures { args.new ≡ regs ++ drop 4 args.old }
{
    args[..4].copy_from_slice(&regs);
}

impl State {
    fn run_own(&mut self, t: u8, i: Own) -> Outcome
        requires steps { Steps self.old t }
        requires valid { OwnValid i }
        ensures value { result ≡ (local i (nth_thread (machine_of self.old) t) self.old.shared).says }
        ensures after { machine_of self.new ≡ after (machine_of self.old) (run_instr (Instr.Own i) (machine_of self.old) t (nth_thread (machine_of self.old) t)) }
    {
        self.threads[t as usize].run(i, &mut self.shared)
    }

    // LOCK takes the lock, and copies r0 to r3 into a0 to a3.
    fn lock(&mut self, t: u8) -> Result<Outcome, Refusal>
        requires { Steps self.old t }
        ensures value { result ≡ said (lock_step self.old.holder (machine_of self.old) t (nth_thread (machine_of self.old) t)) }
        ensures after { machine_of self.new ≡ after (machine_of self.old) (lock_step self.old.holder (machine_of self.old) t (nth_thread (machine_of self.old) t)) }
    {
        if let Some(_) = self.holder {
            return Err(Refusal::LockHeld);
        }
        self.holder = Some(t);
        let th = &mut self.threads[t as usize];
        copy(&mut self.args, th.top.arguments());
        th.next();
        Ok(Outcome::Moved)
    }

    // Whether thread t holds the lock.
    fn holds(&self, t: u8) -> bool
        ensures { result ≡ holds self.now.holder t }
    {
        self.holder == Some(t)
    }

    // UNLOCK frees the lock; a thread that does not hold it ends.
    fn unlock(&mut self, t: u8) -> Outcome
        requires { Steps self.old t }
        ensures value { Ok result ≡ said (unlock_step (holds self.old.holder t) (machine_of self.old) t (nth_thread (machine_of self.old) t)) }
        ensures after { machine_of self.new ≡ after (machine_of self.old) (unlock_step (holds self.old.holder t) (machine_of self.old) t (nth_thread (machine_of self.old) t)) }
    {
        if !self.holds(t) {
            return self.threads[t as usize].finish(Reason::NotHolder);
        }
        self.holder = None;
        self.threads[t as usize].next();
        Outcome::Moved
    }

    // A test: on behind those that it passes over, or the machine stops.
    fn run_test(&mut self, t: u8, i: Test) -> Outcome
        requires steps { Steps self.old t }
        requires valid { TestValid i }
        ensures value { Ok result ≡ said (run_instr (Instr.Test i) (machine_of self.old) t (nth_thread (machine_of self.old) t)) }
        ensures after { machine_of self.new ≡ after (machine_of self.old) (run_instr (Instr.Test i) (machine_of self.old) t (nth_thread (machine_of self.old) t)) }
    {
        match turn(i, &self.args, &mut self.cells, &mut self.scratch) {
            Some(n) => {
                self.threads[t as usize].skip(n);
                Outcome::Moved
            }
            None => {
                self.halted = true;
                Outcome::Stop
            }
        }
    }

    // One instruction of thread t.
    pub(crate) fn execute(&mut self, t: u8, i: Instr) -> Result<Outcome, Refusal>
        requires steps { Steps self.old t }
        requires valid { Valid i }
        ensures value { result ≡ said (run_instr i (machine_of self.old) t (nth_thread (machine_of self.old) t)) }
        ensures after { machine_of self.new ≡ after (machine_of self.old) (run_instr i (machine_of self.old) t (nth_thread (machine_of self.old) t)) }
    {
        match i {
            Instr::Own(i) => Ok(self.run_own(t, i)),
            Instr::Lock(_) => self.lock(t),
            Instr::Unlock => Ok(self.unlock(t)),
            Instr::Test(i) => Ok(self.run_test(t, i)),
        }
    }

    // What stands past the end of a method's code: the thread ends.
    pub(crate) fn end(&mut self, t: u8) -> Outcome
        requires { Ready self.old t }
        ensures value { result ≡ Outcome.Ended Reason.Finished }
        ensures after { machine_of self.new ≡ after (machine_of self.old) (run_instr (Instr.Own Own.End) (machine_of self.old) t (nth_thread (machine_of self.old) t)) }
    {
        self.threads[t as usize].finish(Reason::Finished)
    }

    // How many threads there are.
    pub fn many(&self) -> u8
        ensures value { result ≡ length (machine_of self.now).threads }
        ensures few { (result ≤ 8) × (result ≤ self.now.count) }
    {
        self.count.min(8)
    }

    // Only a thread that there is, on a machine that has not stopped. Each step asks this: two
    // comparisons are quicker than one with `many`.
    fn admit(&self, t: u8) -> Result<(), Refusal>
        ensures value { result ≡ admitted (nat_lt t (length (machine_of self.now).threads)) self.now.halted (Ok tt) }
        ensures there { OnOk result ((t < 8) × (t < self.now.count)) }
    {
        if t >= self.count || t as usize >= self.threads.len() {
            return Err(Refusal::NoThread);
        }
        if self.halted {
            return Err(Refusal::MachineStopped);
        }
        Ok(())
    }

    // Where a thread stands that can be stepped.
    pub(crate) fn ready(&self, t: u8) -> Result<Stand, Refusal>
        ensures value { result ≡ ready_of (machine_of self.now) t }
        ensures there { IfOk result (λ s. Ready self.now t × (s.index ≡ (stored self.now t).top.index)) }
    {
        self.admit(t)?;
        self.threads[t as usize].ready()
    }

    // Where a thread stands that awaits an answer.
    pub(crate) fn awaiting(&self, t: u8) -> Result<Stand, Refusal>
        ensures value { result ≡ awaiting_of (machine_of self.now) t }
        ensures there { IfOk result (λ s. (t < 8) × (t < self.now.count) × (s.index < 65536)) }
    {
        self.admit(t)?;
        self.threads[t as usize].awaiting()
    }

    // Thread t goes on at an index with its answer in r0, and in a4 if it holds the lock.
    pub(crate) fn resume(&mut self, t: u8, index: u32, v: i32)
        requires { (t < 8) × (t < self.old.count) }
        ensures { machine_of self.new ≡ resumed (machine_of self.old) t index v }
    {
        self.threads[t as usize].resume(index, v);
        if self.holds(t) {
            self.args[4] = v;
        }
    }
}

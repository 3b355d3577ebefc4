// The machine: load, step, answer.
ghost use Rattle.std.specs.Prelude.{◌≡◌, ◌<◌};
ghost use Rattle.model.specs.Machine.{step as stepping, answer as answering, is_raised, reply_value};
ghost use Rattle.model.specs.Runs.{after};
ghost use Rattle.model.specs.Files.{load_file};
ghost use Rattle.machine.specs.Views.{machine_of, said};
ghost use Rattle.machine.specs.Machines.{load_seen, program, holds_now, replied};

use crate::code::{fetch, raised_target};
use crate::states::State;
use applet::Applet;
use model::{Outcome, Refusal, Reply};

// A machine runs an applet out of the caller's file.
#[derive(Drop)]
pub struct Machine<'a> {
    applet: Applet<'a>,
    state: State,
}

impl<'a> Machine<'a> {
    // Loads an applet: each thread at index 0 of its method, the cells at their start values, every
    // other number 0, the lock free.
    pub fn load(file: &'a [u8]) -> Result<Machine<'a>, Refusal>
        ensures { load_seen result ≡ load_file file.now }
    {
        let applet = Applet::read(file)?;
        let state = State::loaded(&applet);
        Ok(Machine { applet, state })
    }

    // One instruction of a thread. What is refused changes nothing.
    pub fn step(&mut self, thread: u8) -> Result<Outcome, Refusal>
        ensures value { result ≡ said (stepping (program self.old) (holds_now self.old) thread) }
        ensures after { holds_now self.new ≡ after (holds_now self.old) (stepping (program self.old) (holds_now self.old) thread) }
        ensures program { program self.new ≡ program self.old }
    {
        let at = self.state.ready(thread)?;
        match fetch(&self.applet, at) {
            Some(i) => self.state.execute(thread, i),
            None => Ok(self.state.end(thread)),
        }
    }

    // The host's answer to the call that a thread handed out: it goes on behind its HOST, or at its
    // target if the answer is raised. What is refused changes nothing.
    pub fn answer(&mut self, thread: u8, reply: Reply) -> Result<(), Refusal>
        ensures value { result ≡ replied (answering (program self.old) (holds_now self.old) thread (is_raised reply) (reply_value reply)) }
        ensures after { holds_now self.new ≡ after (holds_now self.old) (answering (program self.old) (holds_now self.old) thread (is_raised reply) (reply_value reply)) }
        ensures program { program self.new ≡ program self.old }
    {
        let at = self.state.awaiting(thread)?;
        match reply {
            Reply::Normal(value) => self.state.resume(thread, at.index + 1, value),
            Reply::Raised(value) => {
                let target = raised_target(fetch(&self.applet, at));
                self.state.resume(thread, u32::from(target), value);
            }
        }
        Ok(())
    }

    // What the machine holds now, to look at.
    pub fn state(&self) -> &State
        ensures { machine_of result.now ≡ holds_now self.now }
    {
        &self.state
    }
}

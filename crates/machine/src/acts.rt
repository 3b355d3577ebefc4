// A list of steps and answers, carried out one after the other.
ghost use Rattle.std.specs.Prelude.{◌≡◌, ◌+◌, ◌<◌, ◌≤◌, leb, ◌++◌, map, length, take, drop, if◌then◌else◌, Ok, Err, nat_le};
ghost use Rattle.model.specs.Runs.{act as acting, sees, run as running, trace};
ghost use Rattle.machine.specs.Machines.{program, holds_now};
ghost use Rattle.machine.specs.Acts.{act_of, seen_of, seen_list, run_said, written};

use crate::machines::Machine;
use model::{Outcome, Refusal, Reply};

// One step of a thread, or one answer to it.
#[derive(Clone, Copy, PartialEq, Eq, Debug)]
pub enum Act {
    Step(u8),
    Answer(u8, Reply),
}

// What the host sees: a call that a thread hands out, by its number and its four arguments, or the
// answer to one.
#[derive(Clone, Copy, PartialEq, Eq, Debug)]
pub enum Seen {
    Call(u8, u8, [i32; 4]),
    Reply(u8, Reply),
}

// Writes what was seen at index n, if anything was, and tells the index behind it.
fn note(seen: &mut [Seen], n: usize, s: Option<Seen>) -> usize
    requires { n < length seen.old }
    ensures count { result ≡ n + length (seen_list s) }
    ensures front { take result (map seen_of seen.new) ≡ take n (map seen_of seen.old) ++ seen_list s }
    ensures behind { drop result (map seen_of seen.new) ≡ drop result (map seen_of seen.old) }
{
    match s {
        Some(s) => {
            seen[n] = s;
            n + 1
        }
        None => n,
    }
}

impl Machine<'_> {
    // One act, and what is seen of it.
    fn carry_out(&mut self, x: Act) -> Option<Seen>
        ensures value { seen_list result ≡ sees (program self.old) (holds_now self.old) (act_of x) }
        ensures after { holds_now self.new ≡ acting (program self.old) (holds_now self.old) (act_of x) }
        ensures program { program self.new ≡ program self.old }
    {
        match x {
            Act::Step(t) => match self.step(t) {
                Ok(Outcome::Called(k, a)) => Some(Seen::Call(t, k, a)),
                _ => None,
            },
            Act::Answer(t, reply) => {
                self.answer(t, reply).ok()?;
                Some(Seen::Reply(t, reply))
            }
        }
    }

    // All acts, where the area has room for one thing for each.
    fn carry_out_all(&mut self, acts: &[Act], seen: &mut [Seen]) -> usize
        requires { length acts.now ≤ length seen.old }
        ensures value { result ≡ length (trace (program self.old) (holds_now self.old) (map act_of acts.now)) }
        ensures area { map seen_of seen.new ≡ written (map seen_of seen.old) (trace (program self.old) (holds_now self.old) (map act_of acts.now)) }
        ensures after { holds_now self.new ≡ running (program self.old) (holds_now self.old) (map act_of acts.now) }
        ensures program { program self.new ≡ program self.old }
    {
        let mut n = 0;
        for x in acts {
            let s = self.carry_out(*x);
            n = note(seen, n, s);
        }
        n
    }

    // Carries out a list of acts, and writes what the host sees into the area, from its start on: tells
    // how much that was. A refused act changes nothing and is not seen. The area has room for one thing
    // for each act; if it is shorter, nothing is carried out and nothing written.
    pub fn run(&mut self, acts: &[Act], seen: &mut [Seen]) -> Result<usize, Refusal>
        ensures value { result ≡ run_said (nat_le (length acts.now) (length seen.old)) (trace (program self.old) (holds_now self.old) (map act_of acts.now)) }
        ensures area { map seen_of seen.new ≡ (if leb (length acts.now) (length seen.old) then written (map seen_of seen.old) (trace (program self.old) (holds_now self.old) (map act_of acts.now)) else map seen_of seen.old) }
        ensures after { holds_now self.new ≡ (if leb (length acts.now) (length seen.old) then running (program self.old) (holds_now self.old) (map act_of acts.now) else holds_now self.old) }
        ensures program { program self.new ≡ program self.old }
    {
        if seen.len() < acts.len() {
            return Err(Refusal::AreaTooShort);
        }
        Ok(self.carry_out_all(acts, seen))
    }
}

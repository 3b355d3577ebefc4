// Steps of policies and of a machine, many at a time.
ghost use Rattle.std.specs.Prelude.{◌≡◌, ◌≤◌};
ghost use Rattle.model.specs.Calls.{row_after, step_answer};
ghost use Rattle.model.specs.Machine.{step as stepping};
ghost use Rattle.model.specs.Files.{load_file};
ghost use Rattle.model.specs.Rules.{rules_in, rules_automaton};
ghost use Rattle.model.specs.Kinds.{pair_automaton};
ghost use Rattle.policy.specs.Calls.{is_taken};
ghost use Rattle.machine.specs.Machines.{program, holds_now};
ghost use Rattle.bench_calls.specs.Counts.{before_call, takes_of, worked, served, next_of, works as works_in, works_of};

use machine::Machine;
use model::{Event, Moment, Outcome, Reply, Verdict};
use policy::{Pair, Policy};
use rules::Rules;

// The thread behind a thread, of those up to the last one.
fn next_of(thread: u8, last: u8) -> u8
    ensures { result ≡ next_of last thread }
{
    if thread < last { thread + 1 } else { 0 }
}

// Whether a policy takes a before event, by which the row is stepped.
fn takes<P: Policy>(p: &P, call: u8, a0: i32, row: &mut [i32; 32]) -> bool
    ensures value { result ≡ is_taken (step_answer (P.meaning p.now) (before_call call a0) row.old) }
    ensures row { row.new ≡ row_after (P.meaning p.now) (before_call call a0) row.old }
{
    let event = Event {
        moment: Moment::Before,
        call,
        args: [a0, 0, 0, 0],
        answer: 0,
    };
    p.step(&event, row) == Ok(Verdict::Taken)
}

// Steps a policy's row by the same before event so many times, and answers how many were taken.
fn taken<P: Policy>(p: &P, call: u8, a0: i32, times: u32) -> u32
    ensures value { result ≡ takes_of (P.meaning p.now) call a0 times }
    ensures most { result ≤ times }
{
    let mut row = [0i32; 32];
    let _ = p.starts(&mut row);
    let mut n = 0;
    for _ in 0..times {
        n += u32::from(takes(p, call, a0, &mut row));
    }
    n
}

// Steps a rule policy by the same before event so many times, and answers how many were taken.
#[unsafe(no_mangle)]
pub extern "C" fn station_steps(policy: &[u8], call: u8, a0: i32, times: u32) -> u32
    ensures value { result ≡ takes_of (rules_automaton (rules_in policy.now)) call a0 times }
    ensures most { result ≤ times }
{
    taken(&Rules::new(policy), call, a0, times)
}

// The same of two rule policies side by side.
#[unsafe(no_mangle)]
pub extern "C" fn station_pair_steps(
    first: &[u8],
    second: &[u8],
    call: u8,
    a0: i32,
    times: u32,
) -> u32
    ensures value { result ≡ takes_of (pair_automaton (rules_automaton (rules_in first.now)) (rules_automaton (rules_in second.now))) call a0 times }
    ensures most { result ≤ times }
{
    taken(
        &Pair::new(Rules::new(first), Rules::new(second)),
        call,
        a0,
        times,
    )
}

// One step of a thread; a call is answered normally with 0. Whether it worked.
fn works(m: &mut Machine<'_>, thread: u8) -> bool
    ensures value { result ≡ worked (stepping (program m.old) (holds_now m.old) thread) }
    ensures after { holds_now m.new ≡ served (program m.old) (holds_now m.old) thread (stepping (program m.old) (holds_now m.old) thread) }
    ensures program { program m.new ≡ program m.old }
{
    match m.step(thread) {
        Ok(Outcome::Called(_, _)) => {
            let _ = m.answer(thread, Reply::Normal(0));
            true
        }
        Ok(_) => true,
        Err(_) => false,
    }
}

// Steps the threads of a machine in turn, from the first to the one with the last number, and answers
// how many steps worked.
fn worked_steps(m: &mut Machine<'_>, last: u8, steps: u32) -> u64
    ensures value { result ≡ works_in (program m.old) (holds_now m.old) last steps }
    ensures most { result ≤ steps }
{
    let mut n = 0;
    let mut thread = 0;
    for _ in 0..steps {
        n += u64::from(works(m, thread));
        thread = next_of(thread, last);
    }
    n
}

// Loads an applet and steps its first thread so many times, and answers how many steps worked.
#[unsafe(no_mangle)]
pub extern "C" fn station_run(applet: &[u8], steps: u32) -> u64
    ensures value { result ≡ works_of (load_file applet.now) 0 steps }
    ensures most { result ≤ steps }
{
    station_run_in_turn(applet, 0, steps)
}

// The same with its threads in turn, from the first to the one with the last number.
#[unsafe(no_mangle)]
pub extern "C" fn station_run_in_turn(applet: &[u8], last: u8, steps: u32) -> u64
    ensures value { result ≡ works_of (load_file applet.now) last steps }
    ensures most { result ≤ steps }
{
    let Ok(mut m) = Machine::load(applet) else {
        return 0;
    };
    worked_steps(&mut m, last, steps)
}

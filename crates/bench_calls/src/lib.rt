// The reader, weaving, and steps of policies and machines, for programs in other languages, as the benchmarks
// call them.
#![tactic(auto)]

ghost use Rattle.std.specs.Prelude.{◌≡◌};
ghost use Rattle.model.specs.Reading.{read_applet};
ghost use Rattle.bench_calls.specs.Answers.{number_of, place_of};

use applet::Applet;
use model::Refusal;

mod steps;
mod weaves;

// A refusal's number and place, both 0 where there is none.
#[repr(C)]
#[derive(Clone, Copy)]
pub struct Reading {
    pub number: u32,
    pub place: u64,
}

impl Reading {
    // What an answer tells.
    pub(crate) fn of<T>(answer: &Result<T, Refusal>) -> Reading
        ensures number { result.number ≡ number_of answer.now }
        ensures place { result.place ≡ place_of answer.now }
    {
        match answer {
            Ok(_) => Reading {
                number: 0,
                place: 0,
            },
            Err(r) => Reading {
                number: u32::from(r.number()),
                place: r.place() as u64,
            },
        }
    }
}

// Reads an applet.
#[unsafe(no_mangle)]
pub extern "C" fn station_read(file: &[u8]) -> Reading
    ensures number { result.number ≡ number_of (read_applet file.now) }
    ensures place { result.place ≡ place_of (read_applet file.now) }
{
    Reading::of(&Applet::read(file))
}

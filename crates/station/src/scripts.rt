// Scripts: what a line asks for.
use machine::Act;
use model::{Event, Moment, Reply};

// A line for the watch. No `Option` of an event, whose none would not say that the watch begins.
#[derive(Clone, Copy)]
pub(crate) enum WatchLine {
    Begin,
    Event(Event),
}

// A call or a thread: a number that is too large for its byte is the largest one, which there is
// never.
pub(crate) fn small(word: &str) -> Option<u8> {
    let n = word.parse::<u32>().ok()?;
    Some(n.min(255) as u8)
}

// A signed number.
fn signed(word: &str) -> Option<i32> {
    word.parse().ok()
}

// Four arguments.
fn four(words: &[&str]) -> Option<[i32; 4]> {
    let [a, b, c, d] = words else {
        return None;
    };
    Some([signed(a)?, signed(b)?, signed(c)?, signed(d)?])
}

// A moment by its name or its number.
pub(crate) fn moment(word: &str) -> Option<Moment> {
    match word {
        "before" | "0" => Some(Moment::Before),
        "after" | "1" => Some(Moment::After),
        "raised" | "2" => Some(Moment::Raised),
        _ => None,
    }
}

// A line for the watch, by its words: `begin`, `before K A0 A1 A2 A3`,
// `after K A0 A1 A2 A3 V` or `raised K A0 A1 A2 A3 V`.
pub(crate) fn watch_line(words: &[&str]) -> Option<WatchLine> {
    match words {
        ["begin"] => Some(WatchLine::Begin),
        [name, call, args @ ..] => {
            let moment = moment(name)?;
            let call = small(call)?;
            let (args, answer) = match (moment, args) {
                (Moment::Before, args) => (four(args)?, 0),
                (_, [args @ .., answer]) => (four(args)?, signed(answer)?),
                _ => return None,
            };
            Some(WatchLine::Event(Event {
                moment,
                call,
                args,
                answer,
            }))
        }
        _ => None,
    }
}

// A line for the machine, by its words: `step T`, `answer T normal V` or `answer T raised V`.
pub(crate) fn act(words: &[&str]) -> Option<Act> {
    match words {
        ["step", thread] => Some(Act::Step(small(thread)?)),
        ["answer", thread, "normal", v] => Some(Act::Answer(
            small(thread)?,
            Reply::Normal(signed(v)?),
        )),
        ["answer", thread, "raised", v] => Some(Act::Answer(
            small(thread)?,
            Reply::Raised(signed(v)?),
        )),
        _ => None,
    }
}

// A watch, event after event.
use crate::asking::{AFTER, BEFORE, NO, RAISED, SHORT, Says, TAKEN, UNKNOWN, WIDE, same};
use crate::files::R;
use model::{Event, Moment, Verdict};
use policy::{Policy, Watch};
use rules::Rules;
use std::process::Abort;

// The moment, or none for begin, the call, the arguments, the answer, the cells in the row, what is
// answered, and the row behind it.
type Turn<'a> = (Option<Moment>, u8, [i32; 4], i32, usize, Says, &'a [i32]);

// R has two cells, which start at 7 and -2. Before call 5 it asks for s1 < a1 or a2 = -1, after it for
// a4, and behind a raised one for s0 and a0, or s1.
const TURNS: &'static [Turn<'static>] = &[
    // not begun: every event is refused, and 8 and 1 come first
    (Some(BEFORE), 5, [3, 0, 0, 0], 0, 3, NO, &[9, 9, 9]),
    (Some(BEFORE), 4, [0, 0, 0, 0], 0, 3, NO, &[9, 9, 9]),
    (Some(AFTER), 64, [0, 0, 0, 0], 0, 1, UNKNOWN, &[9, 9, 9]),
    (Some(AFTER), 4, [0, 0, 0, 0], 0, 1, SHORT, &[9, 9, 9]),
    // a row too short does not begin it
    (None, 0, [0, 0, 0, 0], 0, 1, SHORT, &[9, 9, 9]),
    (Some(BEFORE), 4, [0, 0, 0, 0], 0, 3, NO, &[9, 9, 9]),
    (None, 0, [0, 0, 0, 0], 0, 3, TAKEN, &[7, -2, 9]),
    (Some(BEFORE), 5, [3, 0, 0, 0], 0, 3, TAKEN, &[10, 10, 9]),
    // a refused before event leaves it begun, and so do 8 and 1
    (Some(BEFORE), 5, [3, 0, 0, 0], 0, 3, NO, &[10, 10, 9]),
    (Some(AFTER), 64, [0, 0, 0, 0], 0, 0, UNKNOWN, &[10, 10, 9]),
    (Some(AFTER), 5, [0, 0, 0, 0], 0, 1, SHORT, &[10, 10, 9]),
    (Some(AFTER), 4, [0, 0, 0, 0], 0, 3, TAKEN, &[10, 10, 9]),
    // 10 - 3
    (Some(AFTER), 5, [0, 0, 0, 3], 10, 2, TAKEN, &[10, 7, 9]),
    // a refused answer ends it, for unwatched calls too; 8 and 1 still come first
    (Some(AFTER), 5, [0, 0, 0, 3], 0, 3, NO, &[10, 7, 9]),
    (Some(BEFORE), 5, [3, 8, 0, 0], 0, 3, NO, &[10, 7, 9]),
    (Some(BEFORE), 4, [0, 0, 0, 0], 0, 3, NO, &[10, 7, 9]),
    (Some(BEFORE), 64, [0, 0, 0, 0], 0, 3, UNKNOWN, &[10, 7, 9]),
    (Some(BEFORE), 4, [0, 0, 0, 0], 0, 0, SHORT, &[10, 7, 9]),
    // until it is begun again
    (None, 0, [0, 0, 0, 0], 0, 1, SHORT, &[10, 7, 9]),
    (Some(AFTER), 4, [0, 0, 0, 0], 0, 3, NO, &[10, 7, 9]),
    (None, 0, [0, 0, 0, 0], 0, 2, TAKEN, &[7, -2, 9]),
    (Some(RAISED), 5, [0, 0, 0, 0], 0, 3, TAKEN, &[-32768, -2, 9]),
    // 3 - 3, and then a refused raised answer ends it too
    (Some(AFTER), 5, [0, 0, 0, 3], 3, 3, TAKEN, &[-32768, 0, 9]),
    (Some(RAISED), 5, [0, 0, 0, 0], 0, 3, NO, &[-32768, 0, 9]),
    (Some(BEFORE), 4, [0, 0, 0, 0], 0, 3, NO, &[-32768, 0, 9]),
    // begin may come while it is begun
    (None, 0, [0, 0, 0, 0], 0, 3, TAKEN, &[7, -2, 9]),
    (Some(BEFORE), 5, [0, 0, 0, 0], 0, 3, TAKEN, &[7, 7, 9]),
    (None, 0, [0, 0, 0, 0], 0, 3, TAKEN, &[7, -2, 9]),
];

// What a watch answers to an event, or to begin, which says no more than that it worked.
fn said<Q: Policy>(watch: &mut Watch<Q>, event: Option<Event>, row: &mut [i32]) -> Says {
    match event {
        Some(event) => watch.judge(&event, row),
        None => watch.begin(row).map(|_| Verdict::Taken),
    }
}

// Turn after turn, in one row. No turn expects what a row with less room would say.
fn turns<Q: Policy>(rt: &impl Abort, watch: &mut Watch<Q>, row: &mut [i32], cases: &[Turn]) {
    for (moment, call, args, answer, room, says, after) in cases {
        let event = moment.map(|moment| Event {
            moment,
            call: *call,
            args: *args,
            answer: *answer,
        });
        let got = match row.get_mut(..*room) {
            Some(cells) => said(watch, event, cells),
            None => WIDE,
        };
        same(rt, got, *says, row, after);
    }
}

#[test]
fn watched(rt: HostRuntime) {
    let mut watch = Watch::new(Rules::new(R));
    turns(&rt, &mut watch, &mut [9, 9, 9], TURNS);
}

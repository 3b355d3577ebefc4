// Steps of rules and tables, one event at a time.
use crate::files::{L, P};
use model::{Event, Moment, Refusal, Verdict};
use policy::Policy;
use rules::Rules;
use std::test::Fail;
use tables::Table;

// Moment, call, a0, s0, whether the event is taken, and s0 behind it.
const STEPS_OF_P: [(Moment, u8, i32, i32, bool, i32); 11] = [
    (Moment::Before, 5, 9, 0, true, 9),
    (Moment::Before, 5, 10, 0, false, 0),
    (Moment::Before, 5, -3, 4, true, 1),
    (Moment::Before, 5, 1, 2147483647, true, -2147483648),
    (Moment::Before, 5, -1, -2147483648, true, 2147483647),
    (Moment::Before, 5, -2147483648, 0, true, -2147483648),
    (Moment::Before, 5, 2147483647, 3, false, 3),
    // no rule for the moment, and a call that is not watched
    (Moment::After, 5, 10, 3, true, 3),
    (Moment::Raised, 5, 10, 3, true, 3),
    (Moment::Before, 4, 10, 3, true, 3),
    (Moment::After, 63, 10, 3, true, 3),
];

// One step in a row of two cells: whether the event is taken, and the row behind it.
pub(crate) fn stepped<Q: Policy>(
    p: &Q,
    event: &Event,
    row: [i32; 2],
) -> Result<(bool, [i32; 2]), Refusal> {
    let mut cells = row;
    let verdict = p.step(event, &mut cells)?;
    Ok((verdict == Verdict::Taken, cells))
}

#[test]
fn steps_of_p(rt: HostRuntime) -> Result<(), Fail> {
    let p = Rules::new(P);
    for (moment, call, a0, s0, taken, after) in STEPS_OF_P {
        let event = Event {
            moment,
            call,
            args: [a0, 0, 0, 0],
            answer: 10,
        };
        let got = stepped(&p, &event, [s0, 77])?;
        assert_eq!(rt; got, (taken, [after, 77]));
    }
    Ok(())
}

// Moment, call, state, whether the event is taken, and the state behind it.
const STEPS_OF_L: [(Moment, u8, i32, bool, i32); 11] = [
    (Moment::Before, 1, 0, true, 1),
    (Moment::Before, 1, 1, false, 1),
    (Moment::Before, 2, 0, false, 0),
    (Moment::Before, 2, 1, true, 0),
    // no state
    (Moment::Before, 1, 2, false, 2),
    (Moment::Before, 1, -1, false, -1),
    (Moment::Before, 2, 256, false, 256),
    (Moment::Before, 2, -2147483648, false, -2147483648),
    // no row
    (Moment::After, 1, 1, true, 1),
    (Moment::Raised, 2, -1, true, -1),
    (Moment::Before, 0, 5, true, 5),
];

#[test]
fn steps_of_l(rt: HostRuntime) -> Result<(), Fail> {
    let l = Table::new(L);
    for (moment, call, state, taken, after) in STEPS_OF_L {
        let event = Event {
            moment,
            call,
            args: [1, 2, 3, 4],
            answer: 5,
        };
        let got = stepped(&l, &event, [state, 77])?;
        assert_eq!(rt; got, (taken, [after, 77]));
    }
    Ok(())
}

// A quick test of an instruction, by its opcode alone: what it lets pass reads, and what it stops is
// looked at closely.
ghost use Rattle.std.specs.Prelude.{◌≡◌, ℕ, ◌<◌, true, Ok, slice_index_or};
ghost use Rattle.model.specs.Words.{quad_at, decode};
ghost use Rattle.model.specs.Reading.{landed};
ghost use Rattle.opcodes.specs.Table.{row};
ghost use Rattle.opcodes.specs.Judging.{passed};
ghost use Rattle.applet.specs.Glances.{Sees, Seen, blind};

use crate::spot::Spot;
use opcodes::{Entry, Kind, look_up};
use std::array;

// Where an operand leads: nowhere, to that index, or over so many instructions.
#[derive(Clone, Copy)]
pub(crate) enum Leads {
    Nowhere,
    To,
    Over,
}

// Operands below these limits pass, and y may lead on.
#[derive(Clone, Copy)]
pub(crate) struct Glance {
    x: u32,
    y: u32,
    leads: Leads,
}

// Nothing passes.
const BLIND: Glance = Glance {
    x: 0,
    y: 0,
    leads: Leads::Nowhere,
};

// The quick tests of all opcodes below 64, where there are so many methods.
#[derive(Drop)]
pub(crate) struct Glances {
    all: [Glance; 64],
    pub(crate) methods: u8,
    ghost seen: { (op : ℕ) → op < 64 → Seen methods op (slice_index_or all op blind) },
}

// The quick test of a row, where there are so many methods.
fn glance_of(e: &Entry, methods: u8) -> Glance
    ensures { Sees methods (row e.now) result }
{
    let x = match e.x.kind {
        Kind::Method => 0,
        _ => e.x.limit,
    };
    let y = match e.y.kind {
        Kind::Method => u32::from(methods),
        _ => e.y.limit,
    };
    let leads = match e.y.kind {
        Kind::Target => Leads::To,
        Kind::Count => Leads::Over,
        _ => Leads::Nowhere,
    };
    Glance { x, y, leads }
}

// The quick test of an opcode, where there are so many methods.
fn glance_at(op: u8, methods: u8) -> Glance
    ensures { Seen methods op result }
{
    match look_up(op) {
        Some(e) => glance_of(&e, methods),
        None => BLIND,
    }
}

impl Glances {
    // The quick tests where there are so many methods.
    pub(crate) fn new(methods: u8) -> Glances
        ensures { result.methods ≡ methods }
    {
        Glances {
            all: array::from_fn(move |op| glance_at(op as u8, methods)),
            methods,
        }
    }

    // Whether an instruction passes the quick test.
    pub(crate) fn passes(&self, bytes: &[u8; 4], spot: Spot) -> bool
        ensures { result ≡ true → passed (landed spot.size spot.index spot.place (decode self.now.methods (quad_at bytes.now 0))) (Ok tt) ≡ Ok tt }
    {
        let [op, x, high, low] = *bytes;
        let Some(glance) = self.all.get(usize::from(op)) else {
            return false;
        };
        let x = u32::from(x);
        let y = u32::from(u16::from_be_bytes([high, low]));
        let size = u32::from(spot.size);
        let next = u32::from(spot.index) + 1;
        // Two choices, since a `match` is a jump by the opcode: with it reading takes twice as long.
        let step = if matches!(glance.leads, Leads::Over) {
            next
        } else {
            0
        };
        let lead = if matches!(glance.leads, Leads::Nowhere) {
            0
        } else {
            y + step
        };
        (x < glance.x) & (y < glance.y) & (lead < size) & (next < size)
    }
}

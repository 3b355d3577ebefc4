// The one table of opcodes.
ghost use Rattle.std.specs.Prelude.{◌≡◌, map};
ghost use Rattle.std.specs.Option.{option_map};
ghost use Rattle.model.specs.Words.{find, table};
ghost use Rattle.opcodes.specs.Table.{row, listed, ranges};

// What an operand names.
#[derive(Clone, Copy)]
pub enum Kind {
    Dash,
    Register,
    Shared,
    Scratch,
    Cell,
    Call,
    Argument,
    Operator,
    Signed,
    Target,
    Count,
    Method,
}

// What an operand may be: of its kind, and below its limit. A method is also below the number of
// methods, and where a target or a count leads lies in the method. The limit stands beside the kind,
// as one kind has two: a scratch number is below 8, the first of a pair below 7.
#[derive(Clone, Copy)]
pub struct Operand {
    pub kind: Kind,
    pub limit: u32,
}

// An opcode with its operands, and whether a thread may go on behind it.
#[derive(Clone, Copy)]
pub struct Entry {
    pub op: u8,
    pub x: Operand,
    pub y: Operand,
    pub falls: bool,
}

const DASH: Operand = Operand {
    kind: Kind::Dash,
    limit: 1,
};

const REGISTER: Operand = Operand {
    kind: Kind::Register,
    limit: 8,
};

const SHARED: Operand = Operand {
    kind: Kind::Shared,
    limit: 64,
};

const SCRATCH: Operand = Operand {
    kind: Kind::Scratch,
    limit: 8,
};

// the first of two neighbours
const SCRATCH_PAIR: Operand = Operand {
    kind: Kind::Scratch,
    limit: 7,
};

const CELL: Operand = Operand {
    kind: Kind::Cell,
    limit: 32,
};

const CALL: Operand = Operand {
    kind: Kind::Call,
    limit: 64,
};

const ARGUMENT: Operand = Operand {
    kind: Kind::Argument,
    limit: 5,
};

const OPERATOR: Operand = Operand {
    kind: Kind::Operator,
    limit: 6,
};

const SIGNED: Operand = Operand {
    kind: Kind::Signed,
    limit: 65536,
};

const TARGET: Operand = Operand {
    kind: Kind::Target,
    limit: 65536,
};

const COUNT: Operand = Operand {
    kind: Kind::Count,
    limit: 65536,
};

const METHOD: Operand = Operand {
    kind: Kind::Method,
    limit: 65536,
};

// 01 to 0E, then 20 to 29: opcodes with x and y, and whether a thread may go on behind them.
static TABLE: [(u8, Operand, Operand, bool); 24] = [
    (0x01, REGISTER, SIGNED, true),
    (0x02, REGISTER, REGISTER, true),
    (0x03, REGISTER, REGISTER, true),
    (0x04, REGISTER, REGISTER, true),
    (0x05, REGISTER, REGISTER, true),
    (0x06, REGISTER, REGISTER, true),
    (0x07, REGISTER, SHARED, true),
    (0x08, REGISTER, SHARED, true),
    (0x09, DASH, TARGET, false),
    (0x0a, REGISTER, TARGET, true),
    (0x0b, DASH, METHOD, true),
    (0x0c, DASH, DASH, false),
    (0x0d, CALL, TARGET, true),
    (0x0e, DASH, DASH, false),
    (0x20, CALL, DASH, true),
    (0x21, DASH, DASH, true),
    (0x22, DASH, COUNT, true),
    (0x23, SCRATCH, COUNT, true),
    (0x24, DASH, DASH, true),
    (0x25, SCRATCH, SIGNED, true),
    (0x26, SCRATCH, CELL, true),
    (0x27, SCRATCH, ARGUMENT, true),
    (0x28, SCRATCH, CELL, true),
    (0x29, SCRATCH_PAIR, OPERATOR, true),
];

// The rows, which are those of the list of opcodes.
fn rows() -> &'static [(u8, Operand, Operand, bool); 24]
    ensures { map (λ r. row (listed r)) result.now ≡ map ranges table }
{
    &TABLE
}

// The row of an opcode, if there is one.
pub fn look_up(op: u8) -> Option<Entry>
    ensures { option_map row result ≡ option_map ranges (find op table) }
{
    let index = match op {
        0x01..=0x0e => op - 0x01,
        0x20..=0x29 => op - 0x20 + 14,
        _ => return None,
    };
    let (op, x, y, falls) = rows()[usize::from(index)];
    Some(Entry { op, x, y, falls })
}

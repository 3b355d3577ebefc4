// Fields: a tag, a length in two bytes, the contents.
ghost use Rattle.std.specs.Prelude.{◌≡◌, length, nat_le};
ghost use Rattle.model.specs.Fields.{standing, behind};
ghost use Rattle.tlv.specs.Parts.{stood, due_stood, due, part_tag, part_contents, MadePart};

// The kinds of field that files have, each with its contents as a part of the file: so that a `match`
// has both at hand, where a struct of kind and contents would be matched by `(f.kind, f.contents)`.
#[derive(Clone, Copy)]
pub enum Part<'a> {
    // applets
    Head(&'a [u8]),
    Entries(&'a [u8]),
    Cells(&'a [u8]),
    Method(&'a [u8]),
    // rule policies
    RulesHead(&'a [u8]),
    RulesStarts(&'a [u8]),
    Rule(&'a [u8]),
    Guard(&'a [u8]),
    Update(&'a [u8]),
    // state tables
    TableHead(&'a [u8]),
    TableRow(&'a [u8]),
}

// A field at its place.
#[derive(Clone, Copy)]
pub struct Field<'a> {
    pub place: usize,
    pub part: Part<'a>,
}

// A field that is missing, broken or not the one that is due, by the place where it is due.
#[derive(Clone, Copy)]
pub struct Fault {
    pub place: usize,
}

// The fields of a holder, from a cursor on. A holder is a file, or a file cut behind the field that
// holds others, so that places count from the file's start.
#[derive(Drop)]
pub struct Fields<'a> {
    holder: &'a [u8],
    at: usize,
}

impl<'a> Part<'a> {
    // Tags are bytes, as `new` and `due` take any byte: an enum of tags would need `TryFrom<u8>` beside
    // `new`, and `Tag::Head as u8` where `Part::HEAD` stands.
    pub const HEAD: u8 = 1;

    pub const ENTRIES: u8 = 2;

    pub const CELLS: u8 = 3;

    pub const METHOD: u8 = 4;

    pub const RULES_HEAD: u8 = 65;

    pub const RULES_STARTS: u8 = 66;

    pub const RULE: u8 = 67;

    pub const GUARD: u8 = 68;

    pub const UPDATE: u8 = 69;

    pub const TABLE_HEAD: u8 = 97;

    pub const TABLE_ROW: u8 = 98;

    // The field of a tag, if files have it.
    pub fn new(tag: u8, c: &'a [u8]) -> Option<Part<'a>>
        ensures { MadePart tag c.now result }
    {
        match tag {
            Part::HEAD => Some(Part::Head(c)),
            Part::ENTRIES => Some(Part::Entries(c)),
            Part::CELLS => Some(Part::Cells(c)),
            Part::METHOD => Some(Part::Method(c)),
            Part::RULES_HEAD => Some(Part::RulesHead(c)),
            Part::RULES_STARTS => Some(Part::RulesStarts(c)),
            Part::RULE => Some(Part::Rule(c)),
            Part::GUARD => Some(Part::Guard(c)),
            Part::UPDATE => Some(Part::Update(c)),
            Part::TABLE_HEAD => Some(Part::TableHead(c)),
            Part::TABLE_ROW => Some(Part::TableRow(c)),
            _ => None,
        }
    }

    // The field's tag.
    pub fn tag(&self) -> u8
        ensures { result ≡ part_tag self.now }
    {
        match *self {
            Part::Head(_) => Part::HEAD,
            Part::Entries(_) => Part::ENTRIES,
            Part::Cells(_) => Part::CELLS,
            Part::Method(_) => Part::METHOD,
            Part::RulesHead(_) => Part::RULES_HEAD,
            Part::RulesStarts(_) => Part::RULES_STARTS,
            Part::Rule(_) => Part::RULE,
            Part::Guard(_) => Part::GUARD,
            Part::Update(_) => Part::UPDATE,
            Part::TableHead(_) => Part::TABLE_HEAD,
            Part::TableRow(_) => Part::TABLE_ROW,
        }
    }

    // The field's contents, as that part of the file.
    pub fn contents(&self) -> &'a [u8]
        ensures { result.now ≡ part_contents self.now }
    {
        match *self {
            Part::Head(c)
            | Part::Entries(c)
            | Part::Cells(c)
            | Part::Method(c)
            | Part::RulesHead(c)
            | Part::RulesStarts(c)
            | Part::Rule(c)
            | Part::Guard(c)
            | Part::Update(c)
            | Part::TableHead(c)
            | Part::TableRow(c) => c,
        }
    }
}

impl<'a> Fields<'a> {
    // The fields of a holder from a place on.
    pub fn new(holder: &'a [u8], at: usize) -> Fields<'a>
        ensures holder { result.holder.now ≡ holder.now }
        ensures at { result.at ≡ at }
    {
        Fields { holder, at }
    }

    // Where the next field is due.
    pub fn place(&self) -> usize
        ensures { result ≡ self.now.at }
    {
        self.at
    }

    // Whether the holder has ended.
    pub fn ended(&self) -> bool
        ensures { result ≡ nat_le (length self.now.holder.now) self.now.at }
    {
        self.at >= self.holder.len()
    }

    // The next field, none at the holder's end, or a fault at its place; the cursor goes behind a
    // field, and stays at a fault.
    pub fn next(&mut self) -> Result<Option<Field<'a>>, Fault>
        ensures value { stood result ≡ standing self.old.holder.now self.old.at }
        ensures holder { self.new.holder.now ≡ self.old.holder.now }
        ensures at { self.new.at ≡ behind self.old.at (standing self.old.holder.now self.old.at) }
    {
        let place = self.at;
        match self.holder.get(place..).unwrap_or(&[]) {
            [] => Ok(None),
            [tag, high, low, rest @ ..] => {
                let size = usize::from(u16::from_be_bytes([*high, *low]));
                let contents = rest.get(..size).ok_or(Fault { place })?;
                let part = Part::new(*tag, contents).ok_or(Fault { place })?;
                self.at = place + 3 + size;
                Ok(Some(Field { place, part }))
            }
            _ => Err(Fault { place }),
        }
    }

    // The contents of the next field, which is to be of this tag.
    pub fn due(&mut self, tag: u8) -> Result<&'a [u8], Fault>
        ensures value { due_stood result ≡ due tag self.old.at (standing self.old.holder.now self.old.at) }
        ensures holder { self.new.holder.now ≡ self.old.holder.now }
        ensures at { self.new.at ≡ behind self.old.at (standing self.old.holder.now self.old.at) }
    {
        let place = self.at;
        match self.next() {
            Ok(Some(f)) if f.part.tag() == tag => Ok(f.part.contents()),
            _ => Err(Fault { place }),
        }
    }
}

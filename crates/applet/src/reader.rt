// The reader of applets.
ghost use Rattle.std.specs.Prelude.{◌≡◌, ℕ, ◌+◌, ◌*◌, ◌<◌, ◌≤◌, length, take, drop, IfSome, IfOk, Some, Ok, OnSome, nat_lt};
ghost use Rattle.std.specs.Option.{option_map};
ghost use Rattle.std.specs.List.{All};
ghost use Rattle.model.specs.Words.{quads, quad_at, decode};
ghost use Rattle.model.specs.Reading.{landed, read_applet};
ghost use Rattle.model.specs.Fields.{standing, behind, every, contents_at};
ghost use Rattle.applet.specs.Applets.{quad_in, found_in, meant, read_seen, Placed, Kept, nth, places_of, shown};
ghost use Rattle.opcodes.specs.Judging.{passed};
ghost use Rattle.applet.specs.Stages.{staged, head_of, entries_of, cells_of, method_of, due_at, listed, places_from, places_in, judged, codes_judged};

use crate::glance::Glances;
use crate::places::Places;
use crate::spot::Spot;
use model::Refusal;
use opcodes::look_up;
use tlv::{Fields, Part};

// What an applet's file holds: how many threads and cells there are, and the place of each method.
#[derive(Clone, Copy)]
pub struct Layout {
    threads: u8,
    cells: u8,
    places: Places,
}

// An applet, over the file that it was read from.
#[derive(Clone, Copy)]
pub struct Applet<'a> {
    file: &'a [u8],
    layout: Layout,
}

// Whether every byte is below n.
fn all_below(bytes: &[u8], n: u8) -> bool
    ensures { result ≡ every (λ e. nat_lt e n) bytes.now }
{
    bytes.iter().all(|b| *b < n)
}

// Each field has a function of its own. One for all would be called as `read_field(fields, Part::HEAD,
// |c| match c { [1, n @ 1..=32] => Some(*n), _ => None })`, which is no shorter.

// The head: how many methods there are.
fn read_head(fields: &mut Fields<'_>) -> Result<u8, Refusal>
    ensures value { result ≡ head_of fields.old.at (due_at 1 fields.old.holder.now fields.old.at) }
    ensures holder { fields.new.holder.now ≡ fields.old.holder.now }
    ensures at { IfOk result (λ n. fields.new.at ≡ fields.old.at + 5) }
{
    let place = fields.place();
    match fields
        .due(Part::HEAD)
        .map_err(|e| Refusal::BadField(e.place))?
    {
        [1, methods @ 1..=32] => Ok(*methods),
        _ => Err(Refusal::BadSize(place)),
    }
}

// The entries: how many threads there are.
fn read_entries(fields: &mut Fields<'_>, methods: u8) -> Result<u8, Refusal>
    ensures value { result ≡ entries_of methods fields.old.at (due_at 2 fields.old.holder.now fields.old.at) }
    ensures holder { fields.new.holder.now ≡ fields.old.holder.now }
    ensures at { IfOk result (λ t. fields.new.at ≡ fields.old.at + (3 + t)) }
{
    let place = fields.place();
    let entries = fields
        .due(Part::ENTRIES)
        .map_err(|e| Refusal::BadField(e.place))?;
    match entries.len() {
        threads @ 1..=8 if all_below(entries, methods) => Ok(threads as u8),
        _ => Err(Refusal::BadSize(place)),
    }
}

// The start values: how many cells have one.
fn read_cells(fields: &mut Fields<'_>) -> Result<u8, Refusal>
    ensures value { result ≡ cells_of fields.old.at (due_at 3 fields.old.holder.now fields.old.at) }
    ensures holder { fields.new.holder.now ≡ fields.old.holder.now }
    ensures at { IfOk result (λ s. fields.new.at ≡ fields.old.at + (3 + 4 * s)) }
{
    let place = fields.place();
    let starts = fields
        .due(Part::CELLS)
        .map_err(|e| Refusal::BadField(e.place))?;
    match (starts.len() / 4, starts.len() % 4) {
        (cells @ 0..=32, 0) => Ok(cells as u8),
        _ => Err(Refusal::BadSize(place)),
    }
}

// One method's code, by its size.
fn read_method(fields: &mut Fields<'_>) -> Result<(), Refusal>
    ensures value { result ≡ method_of fields.old.at (due_at 4 fields.old.holder.now fields.old.at) }
    ensures holder { fields.new.holder.now ≡ fields.old.holder.now }
    ensures at { fields.new.at ≡ behind fields.old.at (standing fields.old.holder.now fields.old.at) }
{
    let place = fields.place();
    let code = fields
        .due(Part::METHOD)
        .map_err(|e| Refusal::BadField(e.place))?;
    match (code.len() / 4, code.len() % 4) {
        (1..=4096, 0) => Ok(()),
        _ => Err(Refusal::BadSize(place)),
    }
}

// The places of the methods, and nothing behind them.
fn read_places(fields: &mut Fields<'_>, methods: u8) -> Result<Places, Refusal>
    requires { methods ≤ 32 }
    ensures value { places_in result ≡ places_from methods fields.old.holder.now fields.old.at }
    ensures inside { IfOk result (λ ps. All (λ p. p < length fields.old.holder.now) (listed ps)) }
{
    let mut places = Places::new();
    for _ in 0..methods {
        places.push(fields.place());
        read_method(fields)?;
    }
    if !fields.ended() {
        return Err(Refusal::BadField(fields.place()));
    }
    Ok(places)
}

// One instruction of a method's code, where there are so many methods.
fn judge(bytes: [u8; 4], methods: u8, spot: Spot) -> Result<(), Refusal>
    ensures { result ≡ passed (landed spot.size spot.index spot.place (decode methods (quad_at bytes 0))) (Ok tt) }
{
    let [op, x, high, low] = bytes;
    let y = u16::from_be_bytes([high, low]);
    let Some(entry) = look_up(op) else {
        return Err(Refusal::BadInstruction(spot.place));
    };
    if !entry.fits(x, y, methods) {
        return Err(Refusal::BadInstruction(spot.place));
    }
    if !entry.lands(y, spot.index, spot.size) {
        return Err(Refusal::BadLanding(spot.place));
    }
    Ok(())
}

// The instructions of a method, whose code stands at a place.
fn judge_code(glances: &Glances, code: &[u8], place: usize) -> Result<(), Refusal>
    requires size { length code.now ≤ 65535 }
    requires place { place < 65539 }
    ensures { result ≡ judged glances.now.methods (length (quads code.now)) 0 place (quads code.now) }
{
    let (instructions, _) = code.as_chunks::<4>();
    let size = instructions.len() as u16;
    for (index, bytes) in instructions.iter().enumerate() {
        let spot = Spot {
            index: index as u16,
            size,
            place: place + 4 * index,
        };
        if glances.passes(bytes, spot) {
            continue;
        }
        judge(*bytes, glances.methods, spot)?;
    }
    Ok(())
}

// The first n bytes, or as many as there are.
fn front_of(bytes: &[u8], n: usize) -> &[u8]
    ensures { result.now ≡ take n bytes.now }
{
    bytes.get(..n).unwrap_or(bytes)
}

// A file from a place on.
fn rest_of(file: &[u8], from: usize) -> &[u8]
    ensures { result.now ≡ drop from file.now }
{
    file.get(from..).unwrap_or(&[])
}

// A part of a file from a place on, as far as there is any.
fn part_of(file: &[u8], from: usize, n: usize) -> &[u8]
    ensures { result.now ≡ take n (drop from file.now) }
{
    front_of(rest_of(file, from), n)
}

// The contents of the field at a place, as that part of the file.
fn contents_of(file: &[u8], place: usize) -> &[u8]
    ensures value { result.now ≡ contents_at file.now place }
    ensures size { length result.now ≤ 65535 }
{
    match rest_of(file, place) {
        [_, high, low, rest @ ..] => {
            front_of(rest, usize::from(u16::from_be_bytes([*high, *low])))
        }
        _ => &[],
    }
}

// The instructions of all methods, which stand at these places.
fn judge_codes(file: &[u8], methods: u8, places: &[usize]) -> Result<(), Refusal>
    requires { All (λ p. p < 65536) places.now }
    ensures { result ≡ codes_judged methods file.now places.now }
{
    let glances = Glances::new(methods);
    for place in places {
        judge_code(&glances, contents_of(file, *place), *place + 3)?;
    }
    Ok(())
}

// The parts of a file, its fields and its instructions judged.
fn read_layout(file: &[u8]) -> Result<Layout, Refusal>
    ensures { found_in result ≡ staged file.now }
{
    if file.len() > 65535 {
        return Err(Refusal::BadField(0));
    }
    let mut fields = Fields::new(file, 0);
    let methods = read_head(&mut fields)?;
    let threads = read_entries(&mut fields, methods)?;
    let cells = read_cells(&mut fields)?;
    let places = read_places(&mut fields, methods)?;
    judge_codes(file, methods, places.as_slice())?;
    Ok(Layout {
        threads,
        cells,
        places,
    })
}

impl<'a> Applet<'a> {
    // Reads an applet: one pass over the fields, then one over the instructions. What is refused, and
    // at which place, is the model's; what is read is within all limits, and written again it is the
    // file.
    pub fn read(file: &'a [u8]) -> Result<Applet<'a>, Refusal>
        ensures value { read_seen result ≡ read_applet file.now }
        ensures file { IfOk result (λ a. a.file.now ≡ file.now) }
        ensures places { IfOk result Placed }
        ensures kept { IfOk result (λ a. Kept file.now (meant a)) }
    {
        let layout = read_layout(file)?;
        Ok(Applet { file, layout })
    }

    // The method in which each thread starts, as that part of the file.
    pub fn entries(&self) -> &'a [u8]
        ensures { result.now ≡ (meant self.now).entries }
    {
        part_of(self.file, 8, usize::from(self.layout.threads))
    }

    // The start values in their four bytes each, as that part of the file.
    fn start_bytes(&self) -> &'a [u8]
        ensures { result.now ≡ take (4 * self.now.layout.cells) (drop (11 + self.now.layout.threads) self.now.file.now) }
    {
        part_of(
            self.file,
            11 + usize::from(self.layout.threads),
            4 * usize::from(self.layout.cells),
        )
    }

    // How many cells have a start value.
    pub fn starts(&self) -> usize
        ensures { result ≡ length (meant self.now).starts }
    {
        self.start_bytes().len() / 4
    }

    // The start value of a cell, if it has one.
    pub fn start(&self, cell: usize) -> Option<i32>
        ensures { result ≡ nth (meant self.now).starts cell }
    {
        let (starts, _) = self.start_bytes().as_chunks::<4>();
        Some(i32::from_be_bytes(*starts.get(cell)?))
    }

    // How many methods there are.
    pub fn methods(&self) -> u8
        ensures { result ≡ length (meant self.now).methods }
    {
        self.layout.places.count()
    }

    // The place of a method, if there is one.
    pub fn place(&self, m: usize) -> Option<usize>
        ensures { result ≡ nth (places_of self.now) m }
    {
        self.layout.places.as_slice().get(m).copied()
    }

    // The code of a method, as that part of the file.
    pub fn code(&self, m: usize) -> Option<&'a [u8]>
        ensures size { IfSome result (λ c. length c.now ≤ 65535) }
        ensures value { shown result ≡ option_map (contents_at self.now.file.now) (nth (places_of self.now) m) }
    {
        Some(contents_of(self.file, self.place(m)?))
    }

    // The four bytes at an index of a method's code, if it is so long.
    pub fn quad(&self, m: usize, index: u32) -> Option<[u8; 4]>
        ensures value { result ≡ quad_in (option_map (contents_at self.now.file.now) (nth (places_of self.now) m)) index }
        ensures low { OnSome result (index < 16384) }
    {
        let code = self.code(m)?;
        code.get(4 * index as usize..)?.first_chunk().copied()
    }
}

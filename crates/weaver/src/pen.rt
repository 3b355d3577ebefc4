// A pen over the area, and the parts of a file that it writes.
ghost use Rattle.std.specs.Prelude.{◌≡◌, ◌+◌, ◌*◌, ◌≤◌, [], ◌∷◌, map, length};
ghost use Rattle.model.specs.Words.{high, low, flat, quad_of};
ghost use Rattle.model.specs.Fields.{field};
ghost use Rattle.model.specs.Reading.{write_code};
ghost use Rattle.weaver.specs.Pens.{Room, Wrote};

use model::Instr;
use opcodes::encode;

// An area, and the place up to which it is written.
#[derive(Drop)]
pub(crate) struct Pen<'a> {
    pub area: &'a mut [u8],
    pub at: usize,
}

impl<'a> Pen<'a> {
    // A pen at the front of an area.
    pub(crate) fn new(area: &'a mut [u8]) -> Pen<'a>
        ensures same_area { result.area.ghost_name ≡ area.entry.ghost_name }
        ensures area { result.area.now ≡ area.old }
        ensures at { result.at ≡ 0 }
    {
        Pen { area, at: 0 }
    }
}

impl Pen<'_> {
    // Writes bytes.
    fn put(&mut self, bytes: &[u8])
        requires { Room self.old (length bytes.now) }
        ensures { Wrote self.old bytes.now self.new }
    {
        let end = self.at + bytes.len();
        self.area[self.at..end].copy_from_slice(bytes);
        self.at = end;
    }

    // Writes an instruction.
    pub(crate) fn put_instr(&mut self, instr: Instr)
        requires { Room self.old 4 }
        ensures { Wrote self.old (write_code (instr ∷ [])) self.new }
    {
        self.put(&encode(instr));
    }

    // Writes the tag of a field and the length of its contents.
    pub(crate) fn put_head(&mut self, tag: u8, len: usize)
        requires room { Room self.old 3 }
        requires len { len ≤ 65535 }
        ensures { Wrote self.old (tag ∷ high len ∷ low len ∷ []) self.new }
    {
        let [high, low] = (len as u16).to_be_bytes();
        self.put(&[tag, high, low]);
    }

    // Writes a field.
    pub(crate) fn put_field(&mut self, tag: u8, contents: &[u8])
        requires room { Room self.old (3 + length contents.now) }
        requires len { length contents.now ≤ 65535 }
        ensures { Wrote self.old (field tag contents.now) self.new }
    {
        self.put_head(tag, contents.len());
        self.put(contents);
    }

    // Writes numbers in four bytes each.
    pub(crate) fn put_cells(&mut self, cells: &[i32])
        requires { Room self.old (4 * length cells.now) }
        ensures { Wrote self.old (flat (map quad_of cells.now)) self.new }
    {
        for cell in cells {
            self.put(&cell.to_be_bytes());
        }
    }
}

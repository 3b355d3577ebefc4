// Woven files.
ghost use Rattle.std.specs.Prelude.{◌≡◌, ◌+◌, ◌*◌, ◌≤◌, length, map, take, Ok};
ghost use Rattle.std.specs.List.{AllByRecursion};
ghost use Rattle.model.specs.Fields.{field};
ghost use Rattle.model.specs.Reading.{write_applet, write_code, write_codes};
ghost use Rattle.model.specs.Files.{plain_of};
ghost use Rattle.model.specs.Words.{flat, quad_of};
ghost use Rattle.applet.specs.Applets.{meant};
ghost use Rattle.weaver.specs.Pieces.{own_code, woven_code};
ghost use Rattle.weaver.specs.Weaves.{forget, woven_of, woven_length, woven_answer, woven_area};
ghost use Rattle.weaver.specs.Pens.{Room, Wrote};
ghost use Rattle.weaver.specs.Indices.{Filled};

use crate::code::own_in;
use crate::indices::WovenIndices;
use crate::methods::Methods;
use crate::pen::Pen;
use crate::weaving::Weaving;
use model::Refusal;
use policy::Policy;
use tlv::Part;

impl<P: Policy> Weaving<'_, P> {
    // The length of the woven file, if each of its methods is within the limit.
    fn woven_len(&self, indices: &mut WovenIndices) -> Result<usize, Refusal>
        ensures { result ≡ woven_length (P.meaning self.now.policy.now) (P.blocks self.now.policy.now) (meant self.now.applet.now) }
    {
        let mut len = 11 + self.applet.entries().len() + 4 * usize::from(self.policy.width());
        for method in Methods::of(self.applet) {
            let Some(size) = indices.fill(self, method.code) else {
                return Err(Refusal::MethodTooLong(method.place));
            };
            len += 3 + 4 * size;
        }
        Ok(len)
    }

    // The start values of the policy's cells, then zeros.
    fn start_row(&self) -> [i32; 32]
        ensures { take (P.meaning self.now.policy.now).width result ≡ (P.meaning self.now.policy.now).starts }
    {
        let mut row = [0; 32];
        let _ = self.policy.starts(&mut row);
        row
    }

    // Writes the field of the start values.
    #[tactic(auto, using(model::proofs::Places::length_field, crate::proofs::Bytes::cells_length))]
    fn put_starts(&self, pen: &mut Pen<'_>)
        requires { Room pen.old (length (field 3 (flat (map quad_of (P.meaning self.now.policy.now).starts)))) }
        ensures { Wrote pen.old (field 3 (flat (map quad_of (P.meaning self.now.policy.now).starts))) pen.new }
    {
        let width = usize::from(self.policy.width());
        let row = self.start_row();
        pen.put_head(Part::CELLS, 4 * width);
        pen.put_cells(&row[..width]);
    }

    // Writes a method's woven code, its woven indices being known.
    fn put_code(&self, code: &[[u8; 4]], indices: &WovenIndices, pen: &mut Pen<'_>)
        requires filled { Filled (P.meaning self.now.policy.now) (P.blocks self.now.policy.now) (own_code (meant self.now.applet.now) code.now) indices.now }
        requires short { length (woven_code (P.meaning self.now.policy.now) (P.blocks self.now.policy.now) (meant self.now.applet.now) code.now) ≤ 4096 }
        requires room { Room pen.old (4 * length (woven_code (P.meaning self.now.policy.now) (P.blocks self.now.policy.now) (meant self.now.applet.now) code.now)) }
        ensures { Wrote pen.old (write_code (woven_code (P.meaning self.now.policy.now) (P.blocks self.now.policy.now) (meant self.now.applet.now) code.now)) pen.new }
    {
        let methods = self.applet.methods();
        for (index, bytes) in code.iter().enumerate() {
            let c = indices.retarget(own_in(*bytes, methods));
            self.put_piece(c, indices.of(index), pen);
        }
    }

    // Writes the field of a method's woven code.
    fn put_method(&self, code: &[[u8; 4]], indices: &mut WovenIndices, pen: &mut Pen<'_>)
        requires size { length code.now ≤ 4096 }
        requires short { length (woven_code (P.meaning self.now.policy.now) (P.blocks self.now.policy.now) (meant self.now.applet.now) code.now) ≤ 4096 }
        requires room { Room pen.old (3 + 4 * length (woven_code (P.meaning self.now.policy.now) (P.blocks self.now.policy.now) (meant self.now.applet.now) code.now)) }
        ensures { Wrote pen.old (field 4 (write_code (woven_code (P.meaning self.now.policy.now) (P.blocks self.now.policy.now) (meant self.now.applet.now) code.now))) pen.new }
    {
        // no method is over the limit here
        let Some(size) = indices.fill(self, code) else {
            return;
        };
        pen.put_head(Part::METHOD, 4 * size);
        self.put_code(code, indices, pen);
    }

    // Writes the fields of the woven methods.
    fn put_methods(&self, indices: &mut WovenIndices, pen: &mut Pen<'_>)
        requires short { AllByRecursion (λ c. length c ≤ 4096) (woven_of (P.meaning self.now.policy.now) (P.blocks self.now.policy.now) (meant self.now.applet.now)).methods }
        requires room { Room pen.old (length (write_codes (woven_of (P.meaning self.now.policy.now) (P.blocks self.now.policy.now) (meant self.now.applet.now)).methods)) }
        ensures { Wrote pen.old (write_codes (woven_of (P.meaning self.now.policy.now) (P.blocks self.now.policy.now) (meant self.now.applet.now)).methods) pen.new }
    {
        for method in Methods::of(self.applet) {
            self.put_method(method.code, indices, pen);
        }
    }

    // Writes the woven file.
    #[tactic(auto, using(crate::proofs::WovenFile::file_length, model::proofs::Places::length_field, crate::proofs::Bytes::cells_length))]
    fn put_file(&self, indices: &mut WovenIndices, pen: &mut Pen<'_>)
        requires short { AllByRecursion (λ c. length c ≤ 4096) (woven_of (P.meaning self.now.policy.now) (P.blocks self.now.policy.now) (meant self.now.applet.now)).methods }
        requires room { Room pen.old (length (write_applet (woven_of (P.meaning self.now.policy.now) (P.blocks self.now.policy.now) (meant self.now.applet.now)))) }
        ensures { Wrote pen.old (write_applet (woven_of (P.meaning self.now.policy.now) (P.blocks self.now.policy.now) (meant self.now.applet.now))) pen.new }
    {
        pen.put_field(Part::HEAD, &[1, self.applet.methods()]);
        pen.put_field(Part::ENTRIES, self.applet.entries());
        self.put_starts(pen);
        self.put_methods(indices, pen);
    }

    // Weaves the policy into the applet, which is plain.
    pub(crate) fn weave(&self, area: &mut [u8]) -> Result<usize, Refusal>
        requires { Ok tt ≡ forget (plain_of (meant self.now.applet.now)) }
        ensures answer { result ≡ woven_answer (P.meaning self.now.policy.now) (P.blocks self.now.policy.now) (meant self.now.applet.now) area.old }
        ensures area { area.new ≡ woven_area (P.meaning self.now.policy.now) (P.blocks self.now.policy.now) (meant self.now.applet.now) area.old }
    {
        let mut indices = WovenIndices::new();
        let len = self.woven_len(&mut indices)?;
        if len > 65535 {
            return Err(Refusal::FileTooLong);
        }
        if len > area.len() {
            return Err(Refusal::AreaTooShort);
        }
        self.put_file(&mut indices, &mut Pen::new(area));
        Ok(len)
    }
}

// The methods of an applet.
ghost use Rattle.std.specs.Prelude.{◌≡◌, ◌+◌, ◌*◌, ◌≤◌, not, length, position};
ghost use Rattle.model.specs.Reading.{instr_place};
ghost use Rattle.model.specs.Files.{plain_code, plain_codes, plain_of};
ghost use Rattle.applet.specs.Applets.{meant};
ghost use Rattle.weaver.specs.Pieces.{instr_in, instrs};
ghost use Rattle.weaver.specs.Weaves.{is_own, forget, Sound};
ghost use Rattle.std.proofs.Props.{props};

use crate::code::is_own;
use applet::Applet;
use model::Refusal;

// A method: its place in the file, and the four bytes of each of its instructions.
#[derive(Clone, Copy)]
pub(crate) struct Method<'a> {
    pub place: usize,
    pub code: &'a [[u8; 4]],
}

// The methods of an applet from one of them on.
#[derive(Drop)]
pub(crate) struct Methods<'a> {
    pub applet: &'a Applet<'a>,
    pub next: usize,
    ghost sound: { Sound applet.now } by { Prim.hlevel props },
}

impl<'a> Methods<'a> {
    // All methods of an applet that was read.
    pub(crate) fn of(applet: &'a Applet<'a>) -> Methods<'a>
        requires { Sound applet.now }
        ensures applet { result.applet.now ≡ applet.now }
        ensures next { result.next ≡ 0 }
    {
        Methods { applet, next: 0 }
    }
}

impl<'a> Iterator for Methods<'a> {
    ghost use Rattle.std.specs.Prelude.{◌-◌, length};
    ghost use Rattle.std.specs.Iterator.{at_most};
    ghost use Rattle.applet.specs.Applets.{meant};
    ghost use Rattle.weaver.specs.Steps.{GivesMethod};

    type Item = Method<'a>;

    ghost remaining = { λ s. at_most (length (meant s.applet.now).methods - s.next) };

    ghost next_gives = { GivesMethod };

    fn next(&mut self) -> Option<Method<'a>> {
        let place = self.applet.place(self.next)?;
        let (code, _) = self.applet.code(self.next)?.as_chunks();
        self.next += 1;
        Some(Method { place, code })
    }
}

impl Method<'_> {
    // The index of the first instruction that is none of the applet's own.
    fn first_added(&self, methods: u8) -> Option<usize>
        ensures { result ≡ position (λ b. not (is_own (instr_in methods b))) self.now.code.now }
    {
        self.code.iter().position(|bytes| !is_own(*bytes, methods))
    }

    // Refuses a method with such an instruction.
    pub(crate) fn plain(&self, methods: u8) -> Result<(), Refusal>
        requires { self.now.place + 3 + 4 * length self.now.code.now ≤ 65535 }
        ensures { result ≡ forget (plain_code (λ i. self.now.place + 3 + 4 * i) 0 (instrs methods self.now.code.now)) }
    {
        match self.first_added(methods) {
            Some(index) => Err(Refusal::NotPlain(self.place + 3 + 4 * index)),
            None => Ok(()),
        }
    }
}

// Refuses the first instruction of all methods that is none of the applet's own.
fn plain_methods(applet: &Applet<'_>) -> Result<(), Refusal>
    requires { Sound applet.now }
    ensures { result ≡ forget (plain_codes (instr_place (meant applet.now)) 0 (meant applet.now).methods) }
{
    for method in Methods::of(applet) {
        method.plain(applet.methods())?;
    }
    Ok(())
}

// Refuses an applet that has cells or an instruction that is none of the applet's own.
pub(crate) fn plain_applet(applet: &Applet<'_>) -> Result<(), Refusal>
    requires { Sound applet.now }
    ensures { result ≡ forget (plain_of (meant applet.now)) }
{
    if applet.starts() > 0 {
        return Err(Refusal::NotPlain(8 + applet.entries().len()));
    }
    plain_methods(applet)
}

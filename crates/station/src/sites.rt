// Sites in woven code: where each instruction of one stands, where it ends, and what it stands for.
ghost use Rattle.std.specs.Prelude.{◌≡◌, ◌/◌, ◌<◌, ◌≤◌, length, IfSome};
ghost use Rattle.station.specs.Sites.{next_spot, spot_fits, SiteFor, has_target, same_word, word_at};

use opcodes::Word;

// Where an instruction of a site stands.
#[derive(Clone, Copy)]
pub(crate) enum Spot {
    Lock,
    Before,
    Call,
    After,
    Free,
    Over,
    Raised,
    FreeRaised,
    Back,
}

// A site in woven code: its call, the index of its raised leg, the length of that leg, the index at
// which the leg goes on, and the index behind the site.
#[derive(Clone, Copy)]
pub(crate) struct Site {
    pub call: u8,
    pub raised: usize,
    pub over: usize,
    pub back: usize,
    pub end: usize,
}

// The leg that an instruction of a site belongs to.
pub(crate) fn leg(spot: Spot) -> &'static str {
    match spot {
        Spot::Lock => "lock",
        Spot::Before => "before",
        Spot::Call => "call",
        Spot::After | Spot::Free | Spot::Over => "after",
        Spot::Raised | Spot::FreeRaised | Spot::Back => "raised",
    }
}

// Where an instruction stands that follows a spot of a site; none if no site goes on so. Opcodes from
// 0x22 up to 0x29 may stand in blocks.
pub(crate) fn next_spot(spot: Spot, op: u8) -> Option<Spot>
    ensures { result ≡ next_spot spot op }
{
    match (spot, op) {
        (Spot::Lock | Spot::Before, 0x22..=0x29) => Some(Spot::Before),
        (Spot::Lock | Spot::Before, 0x0d) => Some(Spot::Call),
        (Spot::Call | Spot::After, 0x22..=0x29) => Some(Spot::After),
        (Spot::Call | Spot::After, 0x21) => Some(Spot::Free),
        (Spot::Free, 0x22) => Some(Spot::Over),
        (Spot::Over | Spot::Raised, 0x22..=0x29) => Some(Spot::Raised),
        (Spot::Over | Spot::Raised, 0x21) => Some(Spot::FreeRaised),
        (Spot::FreeRaised, 0x09) => Some(Spot::Back),
        _ => None,
    }
}

// Whether an instruction is the one that a site has at a spot; what stands in blocks is the policy's.
pub(crate) fn spot_fits(spot: Spot, word: Word, site: Site) -> bool
    ensures { result ≡ spot_fits spot word site }
{
    match spot {
        Spot::Lock => word.x == site.call,
        Spot::Call => word.x == site.call && word.y as usize == site.raised,
        Spot::Over => word.y as usize == site.over,
        Spot::Back => word.y as usize == site.back,
        _ => true,
    }
}

// Whether an opcode of a plain applet has a target: JUMP, BRZ and HOST.
fn has_target(op: u8) -> bool
    ensures { result ≡ has_target op }
{
    matches!(op, 0x09 | 0x0a | 0x0d)
}

// Whether an instruction of woven code is one of a plain applet, its target renumbered.
pub(crate) fn same_word(plain: Word, woven: Word, target: usize) -> bool
    ensures { result ≡ same_word plain woven target }
{
    if plain.op >= 0x20 || plain.op != woven.op || plain.x != woven.x {
        return false;
    }
    if has_target(plain.op) {
        woven.y as usize == target
    } else {
        woven.y == plain.y
    }
}

// The instruction at an index of a method's code, if there is one.
pub(crate) fn word_at(code: &[u8], index: usize) -> Option<Word>
    ensures { result ≡ word_at code.now index }
{
    if index >= code.len() / 4 {
        return None;
    }
    let at = 4 * index;
    Some(Word {
        op: code[at],
        x: code[at + 1],
        y: u16::from_be_bytes([code[at + 2], code[at + 3]]),
    })
}

// The site that starts at an index of woven code, for a call and with a raised leg that goes on at
// `back`; none if no whole site stands there.
pub(crate) fn site_at(code: &[u8], at: usize, call: u8, back: usize) -> Option<Site>
    ensures { IfSome result (λ s. SiteFor call back s × (at < s.end) × (s.end ≤ length code.now / 4)) }
{
    if word_at(code, at)?.op != 0x20 {
        return None;
    }
    let mut spot = Spot::Lock;
    let mut raised = at;
    // `Words(code).enumerate().skip(at + 1)` would be no plainer: a site is made of indices
    for index in at.saturating_add(1)..code.len() / 4 {
        spot = next_spot(spot, word_at(code, index)?.op)?;
        let end = index.saturating_add(1);
        match spot {
            Spot::Over => raised = end,
            Spot::Back => {
                return Some(Site {
                    call,
                    raised,
                    over: end.saturating_sub(raised),
                    back,
                    end,
                });
            }
            _ => {}
        }
    }
    None
}

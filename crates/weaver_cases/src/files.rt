// Files for the tests that only these have.
use std::alloc::{AllocError, Global};

// A policy without cells. Before call 5: if 1, nothing changes. The block is MSET m0 1, SKZ m0 over 1,
// SKIP over 1, VIOL, and the site has 4 + 6 instructions.
pub(crate) const Z: &'static [u8; 19] =
    b"A\x00\x02\x01\x00B\x00\x00C\x00\x08\x05\x00D\x00\x03\x00\x00\x01";

// BRZ r1 to 4, HOST 5 to 3, JUMP to 1, HOST 5 to 0, HOST 5 to 5, JUMP to 3.
pub(crate) const LEAPS: &'static [u8; 39] =
    b"\x01\x00\x02\x01\x01\x02\x00\x01\x00\x03\x00\x00\x04\x00\x18\
      \x0a\x01\x00\x04\x0d\x05\x00\x03\x09\x00\x00\x01\x0d\x05\x00\x00\x0d\x05\x00\x05\x09\x00\x00\x03";

// LEAPS woven with Z. Its instructions are at 0, 1, 11, 12, 22 and 32 now, sites being at 1, 12 and 22,
// and the method has 33. In a site at i the HOST stands at i + 5 and goes to i + 8 when raised.
pub(crate) const LEAPS_WOVEN: &'static [u8; 147] =
    b"\x01\x00\x02\x01\x01\x02\x00\x01\x00\x03\x00\x00\x04\x00\x84\
      \x0a\x01\x00\x16\
      \x20\x05\x00\x00\x25\x00\x00\x01\x23\x00\x00\x01\x22\x00\x00\x01\x24\x00\x00\x00\
      \x0d\x05\x00\x09\x21\x00\x00\x00\x22\x00\x00\x02\x21\x00\x00\x00\x09\x00\x00\x0c\
      \x09\x00\x00\x01\
      \x20\x05\x00\x00\x25\x00\x00\x01\x23\x00\x00\x01\x22\x00\x00\x01\x24\x00\x00\x00\
      \x0d\x05\x00\x14\x21\x00\x00\x00\x22\x00\x00\x02\x21\x00\x00\x00\x09\x00\x00\x00\
      \x20\x05\x00\x00\x25\x00\x00\x01\x23\x00\x00\x01\x22\x00\x00\x01\x24\x00\x00\x00\
      \x0d\x05\x00\x1e\x21\x00\x00\x00\x22\x00\x00\x02\x21\x00\x00\x00\x09\x00\x00\x20\
      \x09\x00\x00\x0c";

// Rules for call 5 before, each with a guard of thirteen tokens: 1, and six times 1 and plus. A rule has
// fifteen instructions in the block, which with VIOL has 961.
pub(crate) fn long_rules(heap: Global) -> Result<Vec<u8>, AllocError> {
    let mut rule = [67, 0, 44, 5, 0, 68, 0, 39, 0, 0, 1].to_vec(heap)?;
    rule.extend_from_slice(&[0, 0, 1, 3, 0, 0].repeat(heap, 6)?)?;
    let mut file = [65, 0, 2, 1, 0, 66, 0, 0].to_vec(heap)?;
    file.extend_from_slice(&rule.repeat(heap, 64)?)?;
    Ok(file)
}

// Sixteen cells and no rules.
pub(crate) fn many_cells(heap: Global) -> Result<Vec<u8>, AllocError> {
    let mut file = [65, 0, 2, 1, 16, 66, 0, 64].to_vec(heap)?;
    file.extend_from_slice(&[0; 64])?;
    Ok(file)
}

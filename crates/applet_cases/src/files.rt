// Files for the tests, and what a reading of them answers.
use std::alloc::{AllocError, Global};

// Two threads, which start in the methods 2 and 0, two cells, 7 and -2, and three methods: SET r0 7 and
// RET; END; CALL 1, SKIP 0 and JUMP 0. The fields stand at 0, 5, 10, 21, 32 and 39, the instructions at
// 24 and 28, at 35, and at 42, 46 and 50.
pub(crate) const B: &'static [u8; 54] = b"\x01\x00\x02\x01\x03\x02\x00\x02\x02\x00\
      \x03\x00\x08\x00\x00\x00\x07\xff\xff\xff\xfe\
      \x04\x00\x08\x01\x00\x00\x07\x0c\x00\x00\x00\x04\x00\x04\x0e\x00\x00\x00\
      \x04\x00\x0c\x0b\x00\x00\x01\x22\x00\x00\x00\x09\x00\x00\x00";

// END, and a method of one.
pub(crate) const END: &'static [u8; 4] = b"\x0e\x00\x00\x00";

pub(crate) const METHOD: &'static [u8; 7] = b"\x04\x00\x04\x0e\x00\x00\x00";

// A file with some of its bytes changed: in turn an offset and its new byte.
pub(crate) fn changed<const N: usize>(file: &[u8; N], changes: &[u8]) -> [u8; N] {
    let mut file = *file;
    let (pairs, _) = changes.as_chunks::<2>();
    for [at, new] in pairs {
        if let Some(byte) = file.get_mut(usize::from(*at)) {
            *byte = *new;
        }
    }
    file
}

// Puts a part behind a file so many times.
fn put(file: &mut Vec<u8>, times: usize, part: &[u8]) -> Result<(), AllocError> {
    for _ in 0..times {
        file.extend_from_slice(part)?;
    }
    Ok(())
}

// A file of a front, so many times a part, and so many times a last one.
pub(crate) fn built(
    heap: Global,
    front: &[u8],
    times: usize,
    part: &[u8],
    last_times: usize,
    last: &[u8],
) -> Result<Vec<u8>, AllocError> {
    let mut file = front.to_vec(heap)?;
    put(&mut file, times, part)?;
    put(&mut file, last_times, last)?;
    Ok(file)
}

// A file of 65,535 bytes: 5 for the head, 11 for eight threads, 3 for no cells, and four methods of 3
// bytes and 4,094 instructions each.
pub(crate) fn longest(heap: Global) -> Result<Vec<u8>, AllocError> {
    let mut file =
        b"\x01\x00\x02\x01\x04\x02\x00\x08\x00\x01\x02\x03\x03\x02\x01\x00\x03\x00\x00".to_vec(
            heap,
        )?;
    for _ in 0..4 {
        put(&mut file, 1, b"\x04\x3f\xf8")?;
        put(&mut file, 4094, END)?;
    }
    Ok(file)
}

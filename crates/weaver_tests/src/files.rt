// Files for the tests of weaving, and what weaving answers.
ghost use Rattle.std.specs.Prelude.{◌≡◌, IfOk, slice_set};
ghost use Rattle.model.specs.Examples.{plain_file};
ghost use Rattle.weaver_tests.specs.Files.{told, changed_file, answer_of, method_of, hosts_file};

use model::Refusal;
use rules::Rules;
use std::alloc::{AllocError, Global};
use weaver::weave;

// The policy P: one cell, which starts at 0. Call 5 before: if a0 < 10, s0 becomes s0 + a0.
pub const P: &'static [u8; 42] = b"A\x00\x02\x01\x01B\x00\x04\x00\x00\x00\x00\
      C\x00\x1b\x05\x00D\x00\x09\x02\x00\x00\x00\x00\x0a\x03\x00\x02\
      E\x00\x0a\x00\x01\x00\x00\x02\x00\x00\x03\x00\x00";

// The table L: two states. Before call 1 from 0 to 1, before call 2 from 1 to 0.
pub const L: &'static [u8; 20] =
    b"a\x00\x03\x01\x02\x00b\x00\x04\x01\x00\x01\xffb\x00\x04\x02\x00\xff\x00";

// One method and one thread: SET r0 7, HOST 5 with target 2, END. The cells' field stands at 9, the
// method's at 12 and its instructions at 15, 19 and 23.
pub const A: &'static [u8; 27] = b"\x01\x00\x02\x01\x01\x02\x00\x01\x00\x03\x00\x00\x04\x00\x0c\
      \x01\x00\x00\x07\x0d\x05\x00\x02\x0e\x00\x00\x00";

// A woven with P.
pub const WOVEN: &'static [u8; 91] =
    b"\x01\x00\x02\x01\x01\x02\x00\x01\x00\x03\x00\x04\x00\x00\x00\x00\x04\x00\x48\
      \x01\x00\x00\x07\x20\x05\x00\x00\
      \x27\x00\x00\x00\x25\x01\x00\x0a\x29\x00\x00\x02\x23\x00\x00\x05\x26\x00\x00\x00\
      \x27\x01\x00\x00\x29\x00\x00\x00\x28\x00\x00\x00\x22\x00\x00\x01\x24\x00\x00\x00\
      \x0d\x05\x00\x0f\x21\x00\x00\x00\x22\x00\x00\x02\x21\x00\x00\x00\x09\x00\x00\x11\
      \x0e\x00\x00\x00";

// A refusal's number and place, or 0 and the length.
pub fn told(answer: Result<usize, Refusal>) -> (u8, usize)
    ensures { result ≡ told answer }
{
    match answer {
        Ok(n) => (0, n),
        Err(r) => (r.number(), r.place()),
    }
}

// Changes the byte at a place, if there is one.
fn put(file: &mut [u8], at: usize, byte: u8)
    ensures { file.new ≡ slice_set file.old at byte }
{
    if at < file.len() {
        file[at] = byte;
    }
}

// A with some of its bytes changed.
pub fn changed(changes: &[(usize, u8)]) -> [u8; 27]
    ensures { result ≡ changed_file (plain_file 7) changes.now }
{
    let mut file = *A;
    for &(at, byte) in changes {
        put(&mut file, at, byte);
    }
    file
}

// What weaving P into a file answers, with room for any woven file.
pub fn answer(file: &[u8]) -> (u8, usize)
    ensures { result ≡ answer_of file.now }
{
    let mut area = [0; 65536];
    told(weave(&Rules::new(P), file, &mut area))
}

// A method of so many times HOST 5 with target 0, and then of so many times END.
fn method(heap: Global, hosts: u16, ends: u16) -> Result<Vec<u8>, AllocError>
    ensures { IfOk result (λ v. v.items ≡ method_of (hosts, ends)) }
{
    let length = 4 * (usize::from(hosts) + usize::from(ends));
    let mut bytes = [4, (length / 256 % 256) as u8, (length % 256) as u8].to_vec(heap)?;
    bytes.extend_from_slice(&[13, 5, 0, 0].repeat(heap, usize::from(hosts))?)?;
    bytes.extend_from_slice(&[14, 0, 0, 0].repeat(heap, usize::from(ends))?)?;
    Ok(bytes)
}

// A file of so many threads, with a method for each number of HOST 5 and of END.
pub fn hosts(heap: Global, threads: u8, methods: &[(u16, u16)]) -> Result<Vec<u8>, AllocError>
    ensures { IfOk result (λ v. v.items ≡ hosts_file threads methods.now) }
{
    let count = (methods.len() % 256) as u8;
    let mut file = [1, 0, 2, 1, count, 2, 0, threads].to_vec(heap)?;
    file.extend_from_slice(&[0].repeat(heap, usize::from(threads))?)?;
    file.extend_from_slice(&[3, 0, 0])?;
    for &(hosts, ends) in methods {
        file.extend_from_slice(&method(heap, hosts, ends)?)?;
    }
    Ok(file)
}

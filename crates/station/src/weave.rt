// The report of a weaving.
use crate::code::Words;
use applet::Applet;

// How many sites a method's code has, each of which has one LOCK.
fn sites(code: &[u8]) -> usize {
    Words(code).filter(|word| word.op == 0x20).count()
}

// One method: instructions before and after, and the number of sites.
fn method(rt: &HostRuntime, m: usize, plain: &[u8], woven: &[u8]) -> anyhow::Result<()> {
    let was = plain.len() / 4;
    let is = woven.len() / 4;
    let sites = sites(woven);
    println!(rt; "method {m}: {was} instructions, woven {is}, sites {sites}")?;
    Ok(())
}

// By how many percent a file has grown.
fn growth(before: usize, after: usize) -> usize {
    after.saturating_sub(before).saturating_mul(100) / before.max(1)
}

// Bytes before and after, growth, and each method.
pub(crate) fn report(rt: &HostRuntime, plain: &[u8], woven: &[u8]) -> anyhow::Result<()> {
    let before = plain.len();
    let after = woven.len();
    let percent = growth(before, after);
    println!(rt; "bytes {before}, woven {after}, growth {percent} percent")?;
    let (Ok(plain), Ok(woven)) = (Applet::read(plain), Applet::read(woven)) else {
        return Ok(());
    };
    for m in 0..usize::from(plain.methods()) {
        if let (Some(p), Some(w)) = (plain.code(m), woven.code(m)) {
            method(rt, m, p, w)?;
        }
    }
    Ok(())
}

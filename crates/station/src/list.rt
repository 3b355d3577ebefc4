// The listing of an applet.
use crate::code::Words;
use crate::words::Written;
use applet::Applet;

// The instructions of a method, whose code stands at a place: index, place, name and operands.
pub(crate) fn code(rt: &HostRuntime, code: &[u8], place: usize) -> anyhow::Result<()> {
    for (index, word) in Words(code).enumerate() {
        let place = place.saturating_add(index.saturating_mul(4));
        println!(rt; "  {index:>5} {place:>6}  {}", Written(word))?;
    }
    Ok(())
}

// One method: its place, then its instructions.
fn method(rt: &HostRuntime, a: &Applet<'_>, m: usize) -> anyhow::Result<()> {
    let (Some(place), Some(bytes)) = (a.place(m), a.code(m)) else {
        return Ok(());
    };
    let count = bytes.len() / 4;
    println!(rt; "method {m} at {place}: {count} instructions")?;
    code(rt, bytes, place.saturating_add(3))
}

// The head line, each thread's entry, each start value, each method.
pub(crate) fn applet(rt: &HostRuntime, a: &Applet<'_>, bytes: usize) -> anyhow::Result<()> {
    let entries = a.entries();
    let threads = entries.len();
    let methods = a.methods();
    let starts = a.starts();
    println!(rt; "threads {threads}, methods {methods}, start values {starts}, bytes {bytes}")?;
    for (t, e) in entries.iter().enumerate() {
        println!(rt; "thread {t} starts in method {e}")?;
    }
    for s in 0..starts {
        if let Some(v) = a.start(s) {
            println!(rt; "cell {s} starts at {v}")?;
        }
    }
    for m in 0..usize::from(methods) {
        method(rt, a, m)?;
    }
    Ok(())
}

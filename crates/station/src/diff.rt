// A plain applet and a woven one, side by side.
use crate::code::Words;
use crate::sites;
use crate::sites::{Site, Spot};
use crate::words::Written;
use applet::Applet;
use opcodes::Word;
use std::alloc::{AllocError, Global};
use std::fmt;

// One side of a row: an instruction with its index, or nothing.
#[derive(Clone, Copy)]
pub struct Side(Option<(usize, Word)>);

impl fmt::Display for Side {
    fn fmt<W: fmt::Write>(&self, f: &mut fmt::Formatter<W>) -> fmt::Result {
        match self.0 {
            Some((index, word)) => write!(f, "{index:>5}  {}", Written(word)),
            None => Ok(()),
        }
    }
}

// A plain instruction, the woven one beside it, the leg of its site, and whether the second stands for
// the first.
#[derive(Clone, Copy)]
struct Row {
    plain: Side,
    woven: Side,
    leg: &'static str,
    stands: bool,
}

// The rows of a method as they are printed, and what they have come to: how many sites there are, and
// how many rows in which the woven instruction does not stand for the plain one.
#[derive(Drop)]
struct Rows<'a> {
    rt: &'a HostRuntime,
    woven: &'a [u8],
    sites: usize,
    apart: usize,
}

impl Rows<'_> {
    // One row. The first of a method whose sides part is pointed out.
    fn row(&mut self, row: Row) -> anyhow::Result<()> {
        let rt = self.rt;
        let left = row.plain.to_string(rt.alloc())?;
        let mark = if row.stands { " " } else { "!" };
        println!(rt; "{mark} {left:<30}  {:<6}  {}", row.leg, row.woven)?;
        if !row.stands {
            if self.apart == 0 {
                println!(rt; "! they part here")?;
            }
            self.apart = self.apart.saturating_add(1);
        }
        Ok(())
    }

    // The rows of the site that stands at an index of the woven code for a plain instruction.
    fn site(&mut self, plain: (usize, Word), at: usize, site: Site) -> anyhow::Result<()> {
        let mut spot = Spot::Lock;
        let whole = site.end.saturating_sub(at);
        for (index, word) in Words(self.woven).enumerate().skip(at).take(whole) {
            let mut left = Some(plain);
            if index > at {
                spot = sites::next_spot(spot, word.op).unwrap_or(spot);
                left = None;
            }
            self.row(Row {
                plain: Side(left),
                woven: Side(Some((index, word))),
                leg: sites::leg(spot),
                stands: sites::spot_fits(spot, word, site),
            })?;
        }
        self.sites = self.sites.saturating_add(1);
        Ok(())
    }

    // The rows of a plain instruction, from an index of the woven code on; its target's woven index is
    // known.
    fn instruction(
        &mut self,
        plain: (usize, Word),
        at: usize,
        target: usize,
    ) -> anyhow::Result<()> {
        let (_, word) = plain;
        if let Some(site) = site_for(word, self.woven, at, target) {
            return self.site(plain, at, site);
        }
        let here = sites::word_at(self.woven, at);
        self.row(Row {
            plain: Side(Some(plain)),
            woven: Side(here.map(|w| (at, w))),
            leg: "",
            stands: here.is_some_and(|w| sites::same_word(word, w, target)),
        })
    }

    // The woven instructions that are left, which stand for nothing.
    fn rest(&mut self, from: usize) -> anyhow::Result<()> {
        for here in Words(self.woven).enumerate().skip(from) {
            self.row(Row {
                plain: Side(None),
                woven: Side(Some(here)),
                leg: "",
                stands: false,
            })?;
        }
        Ok(())
    }

    // All rows of a method.
    fn code(&mut self, plain: &[u8]) -> anyhow::Result<()> {
        let starts = starts(self.rt.alloc(), plain, self.woven)?;
        for (p, at) in Words(plain).enumerate().zip(starts.iter()) {
            let (_, word) = p;
            let target = starts.get(usize::from(word.y)).copied().unwrap_or(0);
            self.instruction(p, *at, target)?;
        }
        self.rest(starts.last().copied().unwrap_or(0))
    }
}

// The site that stands for a plain instruction at an index of the woven code, if it is a HOST and a whole
// one does.
fn site_for(plain: Word, woven: &[u8], at: usize, back: usize) -> Option<Site> {
    if plain.op != 0x0d {
        return None;
    }
    sites::site_at(woven, at, plain.x, back)
}

// The woven index of each plain index, and of the plain code's end. A site stands for a HOST where a whole
// one does, else one instruction stands for one.
fn starts(heap: Global, plain: &[u8], woven: &[u8]) -> Result<Vec<usize>, AllocError> {
    let mut all = Vec::new(heap);
    let mut at = 0usize;
    for word in Words(plain) {
        all.push(at)?;
        at = site_for(word, woven, at, 0).map_or(at.saturating_add(1), |site| site.end);
    }
    all.push(at)?;
    Ok(all)
}

// One method: its rows, then instructions before and after, and sites. Whether each row corresponds.
fn method(rt: &HostRuntime, m: usize, plain: &[u8], woven: &[u8]) -> anyhow::Result<bool> {
    println!(rt; "method {m}")?;
    let mut rows = Rows {
        rt,
        woven,
        sites: 0,
        apart: 0,
    };
    rows.code(plain)?;
    let Rows { sites, apart, .. } = rows;
    let was = plain.len() / 4;
    let is = woven.len() / 4;
    print!(rt; "method {m}: {was} instructions, woven {is}, sites {sites}")?;
    if apart > 0 {
        print!(rt; ", rows that part {apart}")?;
    }
    println!(rt; "")?;
    Ok(apart == 0)
}

// Says in which respect two applets part, if they do.
fn part(rt: &HostRuntime, apart: bool, how: &str) -> anyhow::Result<bool> {
    if apart {
        println!(rt; "! they part: {how}")?;
    }
    Ok(apart)
}

// Start values, threads and methods of both. Whether they correspond.
fn heads(rt: &HostRuntime, plain: &Applet<'_>, woven: &Applet<'_>) -> anyhow::Result<bool> {
    let was = plain.starts();
    let is = woven.starts();
    println!(rt; "start values {was}, woven {is}")?;
    let cells = part(rt, was > 0, "a plain applet has no start values")?;
    let threads = part(
        rt,
        plain.entries() != woven.entries(),
        "other threads, or other methods in which they start",
    )?;
    let methods = part(
        rt,
        plain.methods() != woven.methods(),
        "another number of methods",
    )?;
    Ok(!cells && !threads && !methods)
}

// Both applets, method by method. Whether the second can be a weaving of the first.
pub(crate) fn applets(
    rt: &HostRuntime,
    plain: &Applet<'_>,
    woven: &Applet<'_>,
) -> anyhow::Result<bool> {
    let mut all = heads(rt, plain, woven)?;
    for m in 0..usize::from(plain.methods().max(woven.methods())) {
        let p = plain.code(m).unwrap_or(&[]);
        let w = woven.code(m).unwrap_or(&[]);
        all &= method(rt, m, p, w)?;
    }
    Ok(all)
}

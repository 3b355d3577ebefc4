// Rows of numbers as they are printed.
use std::fmt;

// Numbers, with a space before each.
#[derive(Drop)]
pub struct Numbers<'a>(pub &'a [i32]);

impl fmt::Display for Numbers<'_> {
    fn fmt<W: fmt::Write>(&self, f: &mut fmt::Formatter<W>) -> fmt::Result {
        for n in self.0 {
            write!(f, " {n}")?;
        }
        Ok(())
    }
}

// The cells of a policy, in square brackets.
#[derive(Drop)]
pub struct Cells<'a>(pub &'a [i32]);

impl fmt::Display for Cells<'_> {
    fn fmt<W: fmt::Write>(&self, f: &mut fmt::Formatter<W>) -> fmt::Result {
        match self.0 {
            [first, rest @ ..] => write!(f, "[{first}{}]", Numbers(rest)),
            [] => f.write_str("[]"),
        }
    }
}

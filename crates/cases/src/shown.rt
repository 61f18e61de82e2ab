// How numbers print.
use std::fmt;

// Numbers with a blank before each.
#[derive(Clone, Copy)]
pub struct Spaced<'a>(pub &'a [u64]);

impl fmt::Display for Spaced<'_> {
    fn fmt<W: fmt::Write>(&self, f: &mut fmt::Formatter<W>) -> fmt::Result {
        for n in self.0 {
            write!(f, " {n}")?;
        }
        Ok(())
    }
}

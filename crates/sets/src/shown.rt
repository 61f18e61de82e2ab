// How a set of tables prints in the programs; `fmt` can have no contract, and what `cases` and `rounds` print holds it.
use std::fmt;

// A set's tables, ascending, with commas; 0 for the empty set, which is a single table's outer part.
#[derive(Clone, Copy)]
pub struct Tables(pub u64);

impl fmt::Display for Tables {
    fn fmt<W: fmt::Write>(&self, f: &mut fmt::Formatter<W>) -> fmt::Result {
        if self.0 == 0 {
            return f.write_str("0");
        }
        let mut comma = "";
        for t in 1..=64u64 {
            if (self.0 >> (t - 1)) % 2 == 1 {
                write!(f, "{comma}{t}")?;
                comma = ",";
            }
        }
        Ok(())
    }
}

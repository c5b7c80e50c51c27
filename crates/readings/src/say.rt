// What is written to standard output. A write that fails is passed over.

use reader::error::Error;
use std::fmt;

// Bytes in hexadecimal, each with a space before it.
#[derive(Clone, Copy, Debug, PartialEq, Eq)]
pub struct Hex<'a>(pub &'a [u8]);

impl fmt::Display for Hex<'_> {
    fn fmt<W: fmt::Write>(&self, f: &mut fmt::Formatter<W>) -> fmt::Result {
        for byte in self.0 {
            write!(f, " {byte:02x}")?;
        }
        Ok(())
    }
}

// How many bytes lie before a place, or the refusal.
#[derive(Clone, Copy, Debug, PartialEq, Eq)]
pub struct Passed(pub Result<usize, Error>);

impl fmt::Display for Passed {
    fn fmt<W: fmt::Write>(&self, f: &mut fmt::Formatter<W>) -> fmt::Result {
        match self.0 {
            Ok(next) => write!(f, "passes {next}"),
            Err(e) => write!(f, "refused {}", e.number()),
        }
    }
}

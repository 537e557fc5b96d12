// What the program says in the place of an answer.

use crate::functions::Function;
use std::{fmt, io};

// Why there is no answer. A word that is at fault is shown as it was given.
#[derive(Clone, Copy, Debug, PartialEq, Eq)]
pub enum Complaint<'a> {
    NoFunction(&'a [u8]),
    NoPattern(&'a [u8]),
    OneTooMany(&'a [u8]),
    NoValue,
    LongLine,
}

impl<'a> Complaint<'a> {
    fn word(&self) -> Option<&'a [u8]> {
        match *self {
            Complaint::NoFunction(word)
            | Complaint::NoPattern(word)
            | Complaint::OneTooMany(word) => Some(word),
            Complaint::NoValue | Complaint::LongLine => None,
        }
    }

    // The complaint in a line of its own. Its word is printed as bytes, since a word need not be text.
    pub fn print(&self, rt: &impl Print) -> io::Result<()> {
        rt.print("earmath: ")?;
        if let Some(word) = self.word() {
            rt.write_all(word)?;
            rt.print(" ")?;
        }
        rt.println(self)
    }
}

impl fmt::Display for Complaint<'_> {
    fn fmt<W: fmt::Write>(&self, f: &mut fmt::Formatter<W>) -> fmt::Result {
        match self {
            Complaint::NoFunction(_) => write_names(f),
            Complaint::NoPattern(_) => {
                f.write_str("is no bit pattern of 1 to 8 hexadecimal digits")
            }
            Complaint::OneTooMany(_) => f.write_str("is one pattern too many"),
            Complaint::NoValue => f.write_str("loudness takes b m T C and then one or more values"),
            Complaint::LongLine => f.write_str("a line of 65536 bytes or more ends the work"),
        }
    }
}

fn write_names<W: fmt::Write>(f: &mut fmt::Formatter<W>) -> fmt::Result {
    f.write_str("is no function:")?;
    for function in Function::ALL {
        write!(f, " {function}")?;
    }
    Ok(())
}

// Standard output, and how a word and bytes of the display are printed.
use std::fmt::Display;
use std::{fmt, io};

// Prints what can be printed: what cannot be written is left out, and the program goes on.
#[derive(Drop)]
pub(crate) struct BestEffort<R>(pub R);

impl<R: Print> Print for BestEffort<R> {
    fn print<D: Display + Drop>(&self, value: D) -> io::Result<()> {
        let _ = self.0.print(value);
        Ok(())
    }

    fn println<D: Display + Drop>(&self, value: D) -> io::Result<()> {
        let _ = self.0.println(value);
        Ok(())
    }

    fn write_all(&self, bytes: &[u8]) -> io::Result<()> {
        let _ = self.0.write_all(bytes);
        Ok(())
    }
}

// A word as the book writes it: x and four hexadecimal digits.
#[derive(Clone, Copy)]
pub(crate) struct Word(pub u16);

impl fmt::Display for Word {
    fn fmt<W: fmt::Write>(&self, f: &mut fmt::Formatter<W>) -> fmt::Result {
        write!(f, "x{:04X}", self.0)
    }
}

// Bytes of the display between quotation marks, as they are but for the end of a line, which is made visible.
pub(crate) fn print_shown(rt: &impl Print, bytes: &[u8]) -> io::Result<()> {
    print!(rt; "\"")?;
    for &byte in bytes {
        match byte {
            b'\n' => rt.write_all(b"\\n")?,
            _ => rt.write_all(&[byte])?,
        }
    }
    print!(rt; "\"")
}

// Standard output.
use std::fmt::Display;
use std::io;

// Prints what can be printed: what cannot be written is left out, and the program goes on.
#[derive(Drop)]
pub(crate) struct BestEffort<R>(pub R);

impl<R: Print> Print for BestEffort<R> {
    fn print<D: Display + Drop>(&self, value: D) -> io::Result<()> {
        let _ = self.0.print(value);
        Ok(())
    }

    fn println<D: Display + Drop>(&self, value: D) -> io::Result<()> {
        let _ = self.0.println(value);
        Ok(())
    }

    fn write_all(&self, bytes: &[u8]) -> io::Result<()> {
        let _ = self.0.write_all(bytes);
        Ok(())
    }
}

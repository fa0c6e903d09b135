// Standard output.
use std::fmt;

// Writes at once. A disk that is full or a reader that went away changes nothing of what the program does.
#[derive(Clone, Copy)]
pub(crate) struct Out;

impl fmt::Write for Out {
    fn write_str(&mut self, s: &str) -> fmt::Result {
        io::write_all(1, s.as_bytes());
        Ok(())
    }
}

// Lines to standard output.
use std::fmt::{self, Display, Write};

// Standard output. Text that it doesn't take is lost, and the next is tried.
#[derive(Clone, Copy)]
struct Out;

impl Write for Out {
    fn write_str(&mut self, s: &str) -> fmt::Result {
        io::write_all(1, s.as_bytes());
        Ok(())
    }
}

pub(crate) fn print_line<D: Display + Drop>(line: D) {
    let _ = writeln!(Out, "{line}");
}

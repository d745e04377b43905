// Standard output as a writer.
use std::io::{Error, ErrorKind, Result, Write};

const STDOUT_FILENO: i32 = 1;

#[derive(Drop)]
pub struct StandardOutput;

impl Write for StandardOutput {
    fn write(&mut self, buf: &[u8]) -> Result<usize> {
        if io::write_all(STDOUT_FILENO, buf) {
            return Ok(buf.len());
        }
        Err(Error::from(ErrorKind::BrokenPipe))
    }

    fn flush(&mut self) -> Result<()> {
        Ok(())
    }
}

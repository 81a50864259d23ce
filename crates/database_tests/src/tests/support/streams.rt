//! Readers and writers that transfer a limited number of bytes at a time, and then fail.

use std::io::{self, Read, Write};

/// A reader that returns at most this number of bytes at a time, and none at the end. It fails once
/// its reads are used up.
#[derive(Drop)]
pub struct Pieces<'a> {
    pub left: &'a [u8],
    pub size: usize,
    pub reads: usize,
}

impl<'a> Read for Pieces<'a> {
    fn read(&mut self, buf: &mut [u8]) -> io::Result<usize> {
        if self.reads == 0 {
            return Err(io::Error::from(io::ErrorKind::BrokenPipe));
        }
        self.reads -= 1;
        let n = self.size.min(self.left.len()).min(buf.len());
        buf[..n].copy_from_slice(&self.left[..n]);
        self.left = &self.left[n..];
        Ok(n)
    }
}

/// A writer that takes a byte at a time, and fails or takes nothing once its writes are used up. An
/// empty write fails before that.
#[derive(Drop)]
pub struct Failing {
    pub taken: Vec<u8>,
    pub writes: usize,
    pub takes_nothing: bool,
}

impl Write for Failing {
    fn write(&mut self, buf: &[u8]) -> io::Result<usize> {
        if self.writes == 0 && self.takes_nothing {
            return Ok(0);
        }
        if self.writes == 0 || buf.is_empty() {
            return Err(io::Error::from(io::ErrorKind::BrokenPipe));
        }
        self.writes -= 1;
        self.taken.extend_from_slice(&buf[..1])?;
        Ok(1)
    }

    fn flush(&mut self) -> io::Result<()> {
        Ok(())
    }
}

//! Standard error, and whether part of its lines was lost.

ghost use Rattle.std.specs.Prelude.{◌≡◌, false};
ghost use Rattle.reg_jobs.specs.Errors.{Puts};

use reg_output::write_whole;
use std::io::Write;

/// A writer of lines, which remembers whether part of them was lost because a write failed.
#[derive(Drop)]
pub struct ErrorWriter<E: Write + Drop> {
    writer: E,
    has_lost: bool,
}

impl<E: Write + Drop> ErrorWriter<E> {
    /// Lines that go to a writer. Nothing is lost yet.
    pub fn to(writer: E) -> ErrorWriter<E>
        ensures { result ≡ record { writer = writer; has_lost = false } }
    {
        ErrorWriter {
            writer,
            has_lost: false,
        }
    }

    /// Writes bytes, or discards them if an earlier write failed. If this write fails, the rest of the
    /// bytes is lost.
    pub(crate) fn put(&mut self, bytes: &[u8])
        ensures { Puts E.contents self.old self.new bytes.now }
    {
        if !self.has_lost {
            self.has_lost = !write_whole(&mut self.writer, bytes);
        }
    }

    /// Whether something was lost.
    pub fn has_lost(&self) -> bool
        ensures { result ≡ self.now.has_lost }
    {
        self.has_lost
    }

    /// Returns the writer.
    pub fn into_writer(self) -> E
        ensures { result ≡ self.writer }
    {
        self.writer
    }
}

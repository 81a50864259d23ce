//! An output buffer.

ghost use Rattle.std.specs.Prelude.{◌≡◌, [], IfErr, OnOk};
ghost use Rattle.std.specs.Io.KnownBytes.{Appends};
ghost use Rattle.reg_output.specs.Prefixes.{AppendsPrefix};
ghost use Rattle.reg_report.specs.declared.error.ReportError.TheVariants.{Write as WriteFailed};
ghost use Rattle.reg_report.specs.Buffering.{Buffers, FlushesBuffer, output_of};

use crate::error::ReportError;
use reg_output::write_whole;
use std::alloc::Global;
use std::io::Write;

/// Bytes that wait to be written to a writer.
#[derive(Drop)]
pub(crate) struct OutputBuffer {
    bytes: Vec<u8>,
    /// The length in bytes above which the buffer is written.
    capacity: usize,
}

impl OutputBuffer {
    /// An empty buffer.
    pub fn new(alloc: Global, capacity: usize) -> OutputBuffer
        ensures { result.bytes.items ≡ [] }
    {
        OutputBuffer {
            bytes: Vec::new(alloc),
            capacity,
        }
    }

    /// Appends bytes. If the buffer is then longer than `capacity`, writes all of it and empties
    /// it. If the allocation fails, nothing changes. If the write fails, a beginning of the bytes was
    /// written, and the buffer is empty.
    pub fn put<W: Write>(&mut self, writer: &mut W, bytes: &[u8]) -> Result<(), ReportError>
        ensures { Buffers result (output_of W.contents writer.old self.old) (output_of W.contents writer.new self.new) bytes.now }
    {
        if self.bytes.extend_from_slice(bytes).is_err() {
            return Err(ReportError::OutOfMemory);
        }
        if self.bytes.len() > self.capacity {
            self.flush_to(writer)?;
        }
        Ok(())
    }

    /// Writes the whole buffer and empties it. If the write fails, a beginning was written.
    fn flush_to<W: Write>(&mut self, writer: &mut W) -> Result<(), ReportError>
        ensures none { self.new.bytes.items ≡ [] }
        ensures front { AppendsPrefix (W.contents writer.old) (W.contents writer.new) self.old.bytes.items }
        ensures text { OnOk result (Appends (W.contents writer.old) (W.contents writer.new) self.old.bytes.items) }
        ensures failed { IfErr result (λ failure. failure ≡ WriteFailed) }
    {
        let is_whole = write_whole(writer, self.bytes.as_slice());
        self.bytes.clear();
        if is_whole {
            Ok(())
        } else {
            Err(ReportError::Write)
        }
    }

    /// Writes the rest of the buffer, and returns `put`, the result so far, or `Write` if this write
    /// fails. After a failed write the buffer is empty, and nothing more is written.
    pub fn finish<W: Write>(
        mut self,
        writer: &mut W,
        put: Result<(), ReportError>,
    ) -> Result<(), ReportError>
        ensures { FlushesBuffer put (output_of W.contents writer.old self) (W.contents writer.new) result }
    {
        self.flush_to(writer)?;
        put
    }
}

//! A buffer of fixed size before a writer.

ghost use Rattle.implib_tool_driver.specs.Views.{Passes, buffered};
ghost use Rattle.implib_tool_driver.specs.declared.output.TheConstants.{ROOM};
ghost use Rattle.std.specs.Prelude.{◌≡◌, ◌≤◌, [], IfOk, List, vec_capacity, ℕ};

use crate::device::{Sink, write_all};
use std::alloc::{AllocError, Global};
use std::marker::Model;

// The room of a buffer, in bytes.
const ROOM: usize = 65536;

/// Bytes that wait for a writer, in memory of a fixed size.
///
/// A writer that has failed is given nothing more.
#[derive(Drop)]
pub struct Buffer {
    bytes: Vec<u8>,
}

impl Model for Buffer {
    ghost Value = { List ℕ };

    ghost view = { λ buffer. buffer.bytes.items };

    ghost invariant = { λ buffer. ROOM ≤ vec_capacity buffer.bytes };
}

impl Buffer {
    /// A buffer in which no byte waits: the only allocation.
    pub fn reserve(alloc: Global) -> Result<Buffer, AllocError>
        ensures { IfOk result (λ buffer. buffer ≡ []) }
    {
        let bytes = Vec::with_capacity(alloc, ROOM)?;
        Ok(Buffer { bytes })
    }

    /// Puts bytes after those that wait. Where there is no room for them, those that wait are
    /// written first.
    pub fn put<W: Sink>(&mut self, writer: &mut W, bytes: &[u8])
        ensures { Passes W.keeps (buffered (W.contents writer.old) (W.failed writer.old) self.old)
            (buffered (W.contents writer.new) (W.failed writer.new) self.new) bytes.now }
    {
        if self.bytes.capacity() - self.bytes.len() < bytes.len() {
            return self.put_after_flush(writer, bytes);
        }
        self.bytes.extend_from_slice(bytes).unwrap();
    }

    // Writes the bytes that wait, and puts these in their place, or writes these too where they are
    // longer than the buffer.
    #[cold]
    #[inline(never)]
    fn put_after_flush<W: Sink>(&mut self, writer: &mut W, bytes: &[u8])
        ensures { Passes W.keeps (buffered (W.contents writer.old) (W.failed writer.old) self.old)
            (buffered (W.contents writer.new) (W.failed writer.new) self.new) bytes.now }
    {
        self.flush(writer);
        if bytes.len() > ROOM {
            return write_unless_failed(writer, bytes);
        }
        self.bytes.extend_from_slice(bytes).unwrap();
    }

    /// Writes the bytes that wait.
    pub fn flush<W: Sink>(&mut self, writer: &mut W)
        ensures passes { Passes W.keeps
            (buffered (W.contents writer.old) (W.failed writer.old) self.old)
            (buffered (W.contents writer.new) (W.failed writer.new) self.new) [] }
        ensures empty { self.new ≡ [] }
    {
        write_unless_failed(writer, self.bytes.as_slice());
        self.bytes.clear();
    }
}

// Writes bytes, unless the writer has failed.
fn write_unless_failed<W: Sink>(writer: &mut W, bytes: &[u8])
    ensures { Passes W.keeps (buffered (W.contents writer.old) (W.failed writer.old) [])
        (buffered (W.contents writer.new) (W.failed writer.new) []) bytes.now }
{
    if writer.has_failed() {
        return;
    }
    let _ = write_all(writer, bytes);
}

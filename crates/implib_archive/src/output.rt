//! Writing bytes to a writer.

ghost use Rattle.implib_archive.specs.Parts.{padding};
ghost use Rattle.implib_archive.specs.Written.{Writes};
ghost use Rattle.std.specs.Prelude.{◌≡◌, ◌++◌, [], OnOk, length};

use crate::error::WriteError;
use std::io;
use std::io::ErrorKind;

// How many bytes of a table are made before they are written. A `BufWriter` with a buffer of less
// passes them on, and does not copy them.
pub(crate) const PIECE: usize = 131_072;

/// The memory for a piece and for what goes before it: padding, a header and a count.
pub const PIECE_MEMORY: u64 = 131_328;

/// Writes bytes. A call that fails is not repeated.
pub fn put<W: io::Write>(writer: &mut W, bytes: &[u8]) -> io::Result<()>
    ensures { Writes (W.contents writer.old) (W.contents writer.new) bytes.now result }
{
    let mut rest = bytes;
    while !rest.is_empty() {
        let count = writer.write(rest)?;
        if count == 0 {
            return Err(io::Error::from(ErrorKind::WriteZero));
        }
        rest = &rest[count..];
    }
    Ok(())
}

// Writes what a buffer has, and empties it.
pub(crate) fn put_piece<W: io::Write>(writer: &mut W, piece: &mut Vec<u8>) -> Result<(), WriteError>
    ensures written { Writes (W.contents writer.old) (W.contents writer.new) piece.old.items result }
    ensures empty { OnOk result (piece.new.items ≡ []) }
{
    put(writer, piece.as_slice())?;
    piece.clear();
    Ok(())
}

// Writes some bytes, and others after them.
fn put_both<W: io::Write>(writer: &mut W, first: &[u8], second: &[u8]) -> io::Result<()>
    ensures { Writes (W.contents writer.old) (W.contents writer.new) (first.now
        ++ second.now) result }
{
    put(writer, first)?;
    put(writer, second)
}

// Writes a header, data, and a line end after data of an odd size.
pub(crate) fn put_part<W: io::Write>(writer: &mut W, header: &[u8], bytes: &[u8]) -> io::Result<()>
    ensures { Writes (W.contents writer.old) (W.contents writer.new) (header.now ++ bytes.now
        ++ padding 10 (length bytes.now)) result }
{
    let end = [b'\n'; 1];
    put_both(writer, header, bytes)?;
    put(writer, &end[..bytes.len() % 2])
}

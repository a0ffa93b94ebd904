//! The index of the symbols that ARM64EC takes, as a part of an archive.

ghost use Rattle.implib_archive.specs.Archive.{strings_of};
ghost use Rattle.implib_archive.specs.Parts.{part_size};
ghost use Rattle.implib_archive.specs.Pushed.{label_view, shown};
ghost use Rattle.implib_archive.specs.Written.{Writes};
ghost use Rattle.implib_arm64ec.specs.Archive.{ec_index, ec_label, ec_part};
ghost use Rattle.std.specs.List.{All};
ghost use Rattle.std.specs.Prelude.{◌≡◌, ◌+◌, ◌*◌, ◌^◌, ◌<◌, [], length, min};

use implib_archive::WriteError;
use implib_archive::layout::{
    Label, Texts, push_header, push_padding, push_u32_le, put, strings_size, write_numbers,
    write_strings,
};
use std::io;

// The size of the part; exact below 2^32.
pub(crate) fn index_size(entries: &[(&str, usize)]) -> u64
    ensures { min result (2 ^ 32)
        ≡ min (part_size (length (ec_index (shown entries.now)))) (2 ^ 32) }
{
    let strings = strings_size(entries).min(1 << 32);
    let size = 4 + 2 * entries.len() as u64 + strings;
    60 + size + size % 2
}

// Writes the part, a piece at a time, through an empty buffer.
pub(crate) fn write_index<W: io::Write>(
    writer: &mut W,
    piece: &mut Vec<u8>,
    entries: &[(&str, usize)],
) -> Result<(), WriteError>
    requires empty { piece.old.items ≡ [] }
    requires numbers { All (λ e. e.1 < 2 ^ 16) (shown entries.now) }
    requires short { 4 + 2 * length entries.now + length (strings_of (shown entries.now)) < 2 ^ 32 }
    ensures { Writes (W.contents writer.old) (W.contents writer.new) (ec_part (shown entries.now))
        result }
{
    let size = 4 + 2 * entries.len() + strings_size(entries) as usize;
    push_header(piece, &index_label(), size + size % 2)?;
    push_u32_le(piece, entries.len() as u32)?;
    write_numbers(writer, piece, entries)?;
    write_strings(writer, piece, entries)?;
    push_padding(piece, 0, size)?;
    put(writer, piece.as_slice())?;
    Ok(())
}

// The texts in the header of the part.
#[tactic(auto, unfolding(crate::specs::Archive::ec_label))]
fn index_label() -> Label<'static>
    ensures { label_view result ≡ ec_label }
{
    Label {
        name: b"/<ECSYMBOLS>/",
        name_end: b"",
        texts: Texts::Linker,
    }
}

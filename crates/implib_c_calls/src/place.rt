//! Lines and columns of offsets in a text.

ghost use Rattle.implib.specs.Text.Position.{position_at};
ghost use Rattle.implib_c_calls.specs.LibraryWith.{mark_length};
ghost use Rattle.implib_rules.specs.Library.{without_mark};
ghost use Rattle.std.specs.Prelude.{◌≡◌, ◌-◌};

use crate::library_with::mark_length;
use implib::def::Position;
use implib_rules::text::without_mark;

/// The position of an offset in a text, without its byte order mark.
pub fn position_of(text: &[u8], offset: usize) -> Position
    ensures { result ≡ position_at (without_mark text.now) (offset - mark_length text.now) }
{
    Position::in_bytes(without_mark(text), offset.saturating_sub(mark_length(text)))
}

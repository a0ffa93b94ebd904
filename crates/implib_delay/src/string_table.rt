//! The size of the names of symbols in a string table, told before an object is written.

ghost use Rattle.implib.specs.Formats.Layout.{string_size};
ghost use Rattle.implib.specs.Formats.Writer.{long_names};
ghost use Rattle.implib.specs.Views.Table.{symbol_row};
ghost use Rattle.implib_delay.specs.Sizes.{added_size};
ghost use Rattle.std.specs.List.{list_any, sum_by};
ghost use Rattle.std.specs.Prelude.{bytes_eq, map, min, ◌≡◌};

use implib::coff::table::SymbolRow;

// The length in bytes of the longest name that a symbol's record has.
const LONGEST_IN_RECORD: usize = 8;

// Whether one of these symbols has the name.
fn is_among(name: &str, symbols: &[SymbolRow]) -> bool
    ensures { result ≡ list_any (λ row. bytes_eq name.now row.name.now) symbols.now }
{
    symbols.iter().any(|row| name == row.name)
}

// The size in bytes that a name adds to the string table after those of other symbols; 0 where its
// record has it, or another symbol's name is the same.
fn added_size(name: &str, others: &[SymbolRow]) -> usize
    ensures { result ≡ added_size name.now (map symbol_row others.now) }
{
    if name.len() <= LONGEST_IN_RECORD {
        return 0;
    }
    if is_among(name, others) {
        0
    } else {
        name.len() + 1
    }
}

/// The size in bytes of the names of symbols in their string table, each once and with its NUL;
/// 2^64 - 1 where it is more.
pub(crate) fn names_size(symbols: &[SymbolRow]) -> usize
    ensures { result ≡ min u64.MAX
        (sum_by string_size (long_names (map symbol_row symbols.now))) }
{
    let mut size = 0usize;
    for (index, row) in symbols.iter().enumerate() {
        size = size.saturating_add(added_size(row.name, &symbols[..index]));
    }
    size
}

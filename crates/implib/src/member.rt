//! A member of an import library.

ghost use Rattle.implib.specs.Library.{member_view};
ghost use Rattle.std.specs.Prelude.{[], string_bytes, ◌∷◌, ◌≡◌, IfOk};

use std::alloc::{AllocError, Global};

/// One member of an import library: an object or a short import (docs/FORMATS.md).
#[derive(Debug, Drop)]
pub struct Member {
    /// The name that an archive would give it.
    pub name: String,
    /// The file: at most 2^32 - 1 bytes.
    pub bytes: Vec<u8>,
    /// The symbols that an archive's symbol table would list for it, in order.
    pub symbols: Vec<String>,
}

impl Member {
    /// A member of one archive symbol.
    pub(crate) fn of_symbol(
        alloc: Global,
        name: String,
        bytes: Vec<u8>,
        symbol: String,
    ) -> Result<Member, AllocError>
        ensures { IfOk result (λ m. member_view m ≡ record {
          name = string_bytes name;
          bytes = bytes.items;
          symbols = string_bytes symbol ∷ [];
        }) }
    {
        let symbols = vec![in alloc; symbol]?;
        Ok(Member {
            name,
            bytes,
            symbols,
        })
    }
}

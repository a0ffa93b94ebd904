//! Short imports.

ghost use Rattle.std.specs.Prelude.{◌≡◌};
ghost use Rattle.std.specs.Option.{option_map};
ghost use Rattle.implib.specs.Formats.ShortImport.{is_short_import};
ghost use Rattle.implib_read.specs.ShortImports.{short_import_found, short_import_view};
ghost use Rattle.implib_read.specs.ShortImports.{exported_in};

use crate::fields::{text_in, u16_at, u32_at};

/// The size in bytes of the header before the texts.
const HEADER_SIZE: usize = 20;

/// `IMPORT_NAME_EXPORTAS`: a third text is the name that the DLL is asked for.
const EXPORT_AS: u16 = 4;

/// A short import (PE/COFF specification, "Import Library Format"): texts without their NUL.
#[derive(Clone, Copy)]
pub struct ShortImport<'a> {
    /// 0. Anonymous objects, which are no imports, have 1 and more.
    pub version: u16,
    pub machine: u16,
    pub time: u32,
    /// The ordinal by name type 0, or otherwise a hint.
    pub ordinal: u16,
    /// 0 is code, 1 data, 2 const.
    pub import_type: u16,
    /// 0 is by ordinal, 1 by the symbol, 2 and 3 by a part of it, 4 by [`ShortImport::exported`].
    pub name_type: u16,
    pub symbol: &'a [u8],
    pub dll: &'a [u8],
    /// The third text, of name type 4 alone.
    pub exported: Option<&'a [u8]>,
}

/// Whether the bytes begin with a header that gives the size of all that follows it.
fn is_short_import(bytes: &[u8]) -> bool
    ensures { result ≡ is_short_import bytes.now }
{
    bytes.len() >= HEADER_SIZE
        && u16_at(bytes, 0) == 0
        && u16_at(bytes, 2) == 0xFFFF
        && u32_at(bytes, 12) as usize == bytes.len() - HEADER_SIZE
}

/// What stands after the DLL's name, where that may stand there.
fn exported_in(name_type: u16, behind: &[u8]) -> Option<Option<&[u8]>>
    ensures { option_map (option_map (λ text. text.now)) result ≡ exported_in name_type behind.now }
{
    if name_type != EXPORT_AS {
        return if behind.is_empty() { Some(None) } else { None };
    }
    match text_in(behind) {
        Some((name, [])) => Some(Some(name)),
        _ => None,
    }
}

impl<'a> ShortImport<'a> {
    /// The short import that the bytes are, from the first to the last.
    #[tactic(auto, unfolding(crate::specs::ShortImports::short_import_found))]
    pub fn read(bytes: &'a [u8]) -> Option<ShortImport<'a>>
        ensures { option_map short_import_view result ≡ short_import_found bytes.now }
    {
        if !is_short_import(bytes) {
            return None;
        }
        let Some((symbol, behind)) = text_in(&bytes[HEADER_SIZE..]) else {
            return None;
        };
        let Some((dll, behind)) = text_in(behind) else {
            return None;
        };
        let types = u16_at(bytes, 18);
        let name_type = types / 4 % 8;
        let Some(exported) = exported_in(name_type, behind) else {
            return None;
        };
        Some(ShortImport {
            version: u16_at(bytes, 4),
            machine: u16_at(bytes, 6),
            time: u32_at(bytes, 8),
            ordinal: u16_at(bytes, 16),
            import_type: types % 4,
            name_type,
            symbol,
            dll,
            exported,
        })
    }
}

//! Weak externals: a symbol that another one replaces where nothing defines it, in both flavours
//! (docs/FORMATS.md, "Weak externals"; PE/COFF specification, "Auxiliary Format 3: Weak
//! Externals").

ghost use Rattle.implib.specs.Formats.File.{AnAlias, meaning_in};
ghost use Rattle.implib.specs.Import.{holds, is_alias};
ghost use Rattle.implib.specs.Views.Layout.{symbol_view};
ghost use Rattle.implib.specs.Members.WeakExternal.{weak_object, weak_section, weak_spec};
ghost use Rattle.implib.specs.Members.WeakExternal.{weak_symbols};
ghost use Rattle.implib.specs.Formats.Writer.{section_view};
ghost use Rattle.implib.specs.Views.Making.{EncodesObject, MakesMember};
ghost use Rattle.std.specs.Prelude.{Some, false, map, string_bytes, ◌<◌, ◌≡◌, IfOk};

use crate::coff::constants::{class, flags, section_number, weak};
use crate::coff::layout::{LayoutSymbol, ObjectLayout, SymbolName, encode};
use crate::coff::object::Section;
use crate::error::Error;
use crate::machine::MachineType;
use crate::member::Member;
use std::alloc::Global;

/// The number of members that make an alias: one for the symbol, one for its `__imp_` symbol.
pub(crate) const MEMBERS_OF_ALIAS: usize = 2;

// The characteristics of a weak external: 3, an alias.
const ALIAS: u8 = weak::SEARCH_ALIAS as u8;

// The auxiliary record of a weak external: the index of the symbol that replaces it, 2, and the
// characteristics.
const WEAK_AUXILIARY: [u8; 18] = [2, 0, 0, 0, ALIAS, 0, 0, 0, 0, 0, 0, 0, 0, 0, 0, 0, 0, 0];

/// Whether the alias target is non-empty and differs from the symbol.
pub fn is_alias(target: &str, symbol: &str) -> bool
    ensures { result ≡ is_alias target.now symbol.now }
{
    !target.is_empty() && target != symbol
}

// The section of a weak external, without data.
fn weak_section(alloc: Global) -> Section
    ensures { section_view result ≡ weak_section }
{
    Section {
        name: *b".drectve",
        flags: flags::LNK_INFO | flags::LNK_REMOVE,
        bytes: Vec::new(alloc),
        relocations: Vec::new(alloc),
    }
}

// The symbols of a weak external: the second name in the string table is weak for the first.
#[tactic(auto, unfolding(crate::specs::Formats::Bytes::u32_bytes))]
fn weak_symbols() -> [LayoutSymbol<'static>; 4]
    ensures { map symbol_view result ≡ weak_symbols }
{
    [
        LayoutSymbol::in_record("@comp.id", section_number::ABSOLUTE, class::STATIC),
        LayoutSymbol::in_record("@feat.00", section_number::ABSOLUTE, class::STATIC),
        LayoutSymbol::in_string_table(0, section_number::UNDEFINED, class::EXTERNAL),
        LayoutSymbol {
            name: SymbolName::InStringTable(1),
            value: 0,
            section: section_number::UNDEFINED,
            class: class::WEAK_EXTERNAL,
            aux: Some(WEAK_AUXILIARY),
        },
    ]
}

// The object that makes one symbol weak for another; it reads as that pair.
fn weak_external(
    alloc: Global,
    machine: MachineType,
    weak: &str,
    target: &str,
) -> Result<Vec<u8>, Error>
    requires weak_text { holds 0 weak.now ≡ false }
    requires target_text { holds 0 target.now ≡ false }
    ensures object { EncodesObject (weak_object machine weak.now target.now) result }
    ensures meaning { IfOk result (λ bytes. meaning_in bytes.items
        ≡ Some (AnAlias (record { weak = weak.now; target = target.now }))) }
{
    let sections = [weak_section(alloc)];
    let symbols = weak_symbols();
    encode(
        alloc,
        &ObjectLayout {
            machine: machine.number(),
            characteristics: 0,
            sections: &sections,
            symbols: &symbols,
            strings: &[target, weak],
        },
    )
}

/// The member of a weak external, under this name; its archive symbol is the weak one.
pub(crate) fn weak_member(
    alloc: Global,
    machine: MachineType,
    name: String,
    weak: &str,
    target: &str,
) -> Result<Member, Error>
    requires weak_text { holds 0 weak.now ≡ false }
    requires target_text { holds 0 target.now ≡ false }
    ensures { MakesMember (weak_spec machine (string_bytes name) weak.now target.now) result }
{
    let bytes = weak_external(alloc, machine, weak, target)?;
    let symbol = String::from_str(alloc, weak)?;
    Ok(Member::of_symbol(alloc, name, bytes, symbol)?)
}

//! Imports whose short import has the name that the DLL is asked for as a third text, of name type
//! 4 (PE/COFF specification, "Import Library Format"; docs/FORMATS.md, "Short imports").

ghost use Rattle.implib.specs.Definition.{definition_view, export_view};
ghost use Rattle.implib.specs.Fault.{IfInvalid, MemberTooLong};
ghost use Rattle.implib.specs.Library.{member_view};
ghost use Rattle.implib.specs.Members.MemberSpec.{member_of};
ghost use Rattle.implib.specs.Members.Members.{is_too_long};
ghost use Rattle.implib.specs.Members.Msvc.{import_type_of, short_import_bytes};
ghost use Rattle.implib.specs.Members.Msvc.{short_import_data_size, short_import_header};
ghost use Rattle.implib.specs.Members.Msvc.{short_import_size, short_import_symbols};
ghost use Rattle.implib.specs.Formats.Pass.{Puts};
ghost use Rattle.implib.specs.Views.Making.{MakesMember};
ghost use Rattle.implib.specs.Renaming.{renamed_export};
ghost use Rattle.implib.specs.Members.MemberLists.{is_weak};
ghost use Rattle.implib_rules.specs.ExportAs.{export_as_import, export_as_spec};
ghost use Rattle.implib_rules.specs.ExportAs.{export_as_unless_private};
ghost use Rattle.implib_rules.specs.ExportAs.{exported_name, kept, later_unless_private, placed};
ghost use Rattle.implib_rules.specs.ExportAs.{placed_one, symbol_made, weak_externals};
ghost use Rattle.implib_rules.specs.ExportAsViews.{later_view};
ghost use Rattle.std.specs.List.{flat_map, list_any};
ghost use Rattle.std.specs.Option.{option_to_list};
ghost use Rattle.std.specs.Prelude.{◌≡◌, ◌+◌, ◌*◌, ◌<◌, ◌++◌, ℕ, ◌≤◌, IfNone, IfOk, IfSome, List};
ghost use Rattle.std.specs.Prelude.{OnOk};
ghost use Rattle.std.specs.Prelude.{drop, false, length, map, option_map, take, true};
ghost use Rattle.std.specs.String.{string_bytes};
ghost use Rattle.std.specs.Vec.Iter.{into_iter_items};

use crate::linked::{makes, word_of};
use implib::def::ShortExport;
use implib::msvc::{ShortImport, import_symbols, import_type};
use implib::{Error, MachineType, Member};
use std::alloc::{AllocError, Global};
use std::vec::IntoIter;

// The name type.
const EXPORT_AS: u16 = 4;

// The symbol of an export's short import.
fn symbol_made(export: &ShortExport) -> &str
    ensures { result.now ≡ symbol_made (export_view export.now) }
{
    if export.symbol_name.is_empty() {
        return word_of(export);
    }
    export.symbol_name.as_str()
}

/// The name that an export, as it is linked, has as the third text of its short import, if it has
/// one: no other name type makes it of the symbol.
pub(crate) fn exported_name(machine: MachineType, export: &ShortExport) -> Option<&str>
    ensures { option_map (λ name. name.now) result ≡ exported_name machine
        (export_view export.now) }
{
    if export.private || export.no_name || !export.alias_target.is_empty() {
        return None;
    }
    let name = export.asked_name.as_ref()?.as_str();
    if name.is_empty() || makes(machine, symbol_made(export).as_bytes(), name.as_bytes()) {
        return None;
    }
    Some(name)
}

// Makes an export that has such a name an alias of the name.
fn keep(alloc: Global, machine: MachineType, export: &mut ShortExport) -> Result<(), AllocError>
    ensures { OnOk result (export_view export.new ≡ kept machine (export_view export.old)) }
{
    let Some(name) = exported_name(machine, export) else {
        return Ok(());
    };
    let target = String::from_str(alloc, name)?;
    let symbol = String::from_str(alloc, symbol_made(export))?;
    export.alias_target = target;
    export.asked_name = Some(symbol);
    Ok(())
}

/// Makes each export that has such a name an alias of the name, with weak externals where its short
/// import is to be.
///
/// # Errors
///
/// An allocation failed; then some exports may be as they were.
pub(crate) fn keep_exports(
    alloc: Global,
    machine: MachineType,
    exports: &mut Vec<ShortExport>,
) -> Result<(), AllocError>
    ensures { OnOk result (map export_view exports.new.items
        ≡ map (kept machine) (map export_view exports.old.items)) }
{
    for export in exports.iter_mut() {
        keep(alloc, machine, export)?;
    }
    Ok(())
}

// The short import of an export, with this name as its third text.
fn export_as_bytes<'a>(
    alloc: Global,
    machine: MachineType,
    dll: &'a str,
    export: &'a ShortExport,
    name: &'a str,
) -> Result<Vec<u8>, Error>
    ensures ok { IfOk result (λ bytes. bytes.items ≡ short_import_bytes
        (export_as_import machine dll.now (renamed_export (export_view export.now)) name.now)) }
    ensures fits { OnOk result (short_import_size
        (export_as_import machine dll.now (renamed_export (export_view export.now)) name.now)
        ≤ u32.MAX) }
    ensures too_long { IfInvalid result (λ cause. (cause ≡ MemberTooLong) × (u32.MAX
        < short_import_size
        (export_as_import machine dll.now (renamed_export (export_view export.now)) name.now))) }
{
    let import = ShortImport {
        machine,
        ordinal: export.ordinal,
        import_type: import_type(export),
        name_type: EXPORT_AS,
        symbol: symbol_made(export),
        dll,
        third: Some(name),
    };
    import.to_bytes(alloc)
}

// The short import of an export of a DLL, with this name as its third text, as a member under the
// library's name for the linker.
fn export_as_member(
    alloc: Global,
    machine: MachineType,
    linked: &str,
    dll: &str,
    export: &ShortExport,
    name: &str,
) -> Result<Member, Error>
    ensures { MakesMember (export_as_spec machine
        (record { linked = linked.now; text = dll.now })
        (renamed_export (export_view export.now)) name.now) result }
{
    let bytes = export_as_bytes(alloc, machine, dll, export, name)?;
    let symbols = import_symbols(alloc, export.is_data, symbol_made(export))?;
    let name = String::from_str(alloc, linked)?;
    Ok(Member {
        name,
        bytes,
        symbols,
    })
}

/// What an export has after all imports: one weak external, or two, or a short import in their
/// place.
#[derive(Drop)]
pub(crate) struct Later {
    // There is a weak external of the symbol beside that of its address.
    has_code: bool,
    instead: Option<Member>,
}

// Whether an export is an alias of another symbol.
fn is_weak(export: &ShortExport) -> bool
    ensures { result ≡ is_weak (renamed_export (export_view export.now)) }
{
    let target = export.alias_target.as_str();
    !target.is_empty() && target != symbol_made(export)
}

// What an export has after all imports, if it has something there.
fn later_of(
    alloc: Global,
    machine: MachineType,
    linked: &str,
    dll: &str,
    export: &ShortExport,
) -> Result<Option<Later>, Error>
    ensures ok { IfOk result (λ found. map later_view (option_to_list found)
        ≡ later_unless_private machine (record { linked = linked.now; text = dll.now })
        (export_view export.now)) }
    ensures fits { OnOk result (list_any is_too_long (export_as_unless_private machine
        (record { linked = linked.now; text = dll.now }) (export_view export.now)) ≡ false) }
    ensures too_long { IfInvalid result (λ cause. (cause ≡ MemberTooLong)
        × (list_any is_too_long (export_as_unless_private machine
        (record { linked = linked.now; text = dll.now }) (export_view export.now)) ≡ true)) }
{
    let has_code = !export.is_data && !export.constant;
    match exported_name(machine, export) {
        Some(name) => {
            let member = export_as_member(alloc, machine, linked, dll, export, name)?;
            Ok(Some(Later {
                has_code,
                instead: Some(member),
            }))
        }
        None if !export.private && is_weak(export) => Ok(Some(Later {
            has_code,
            instead: None,
        })),
        None => Ok(None),
    }
}

/// What the exports of a DLL have after all imports, in their order.
///
/// # Errors
///
/// A short import has 4 GiB or more; or an allocation failed.
pub(crate) fn laters_of(
    alloc: Global,
    machine: MachineType,
    linked: &str,
    dll: &str,
    exports: &[ShortExport],
) -> Result<Vec<Later>, Error>
    ensures ok { IfOk result (λ laters. map later_view laters.items
        ≡ flat_map (later_unless_private machine (record { linked = linked.now; text = dll.now }))
        (map export_view exports.now)) }
    ensures fits { OnOk result (list_any is_too_long (flat_map (export_as_unless_private machine
        (record { linked = linked.now; text = dll.now })) (map export_view exports.now)) ≡ false) }
    ensures too_long { IfInvalid result (λ cause. (cause ≡ MemberTooLong)
        × (list_any is_too_long (flat_map (export_as_unless_private machine
        (record { linked = linked.now; text = dll.now })) (map export_view exports.now)) ≡ true)) }
{
    let mut laters = Vec::new(alloc);
    for export in exports {
        if let Some(later) = later_of(alloc, machine, linked, dll, export)? {
            laters.push(later)?;
        }
    }
    Ok(laters)
}

// Moves the next of some members to the end of others, if there is one.
fn move_next(from: &mut IntoIter<Member>, to: &mut Vec<Member>) -> Result<(), AllocError>
    ensures to { OnOk result (map member_view to.new.items ≡ map member_view to.old.items
        ++ take 1 (map member_view (into_iter_items from.old))) }
    ensures from { OnOk result (map member_view (into_iter_items from.new)
        ≡ drop 1 (map member_view (into_iter_items from.old))) }
{
    match from.next() {
        Some(member) => Ok(to.push(member)?),
        None => Ok(()),
    }
}

// Passes over the next of some members, if there is one.
fn pass_next(from: &mut IntoIter<Member>)
    ensures { map member_view (into_iter_items from.new)
        ≡ drop 1 (map member_view (into_iter_items from.old)) }
{
    let _passed = from.next();
}

// Adds what an export has to the members: the next weak externals, or a short import in their
// place.
fn place_one(
    later: Later,
    aliases: &mut IntoIter<Member>,
    members: &mut Vec<Member>,
) -> Result<(), AllocError>
    ensures members { OnOk result (map member_view members.new.items
        ≡ map member_view members.old.items ++ placed_one (later_view later)
        (map member_view (into_iter_items aliases.old)) (later_view later).instead) }
    ensures aliases { OnOk result (map member_view (into_iter_items aliases.new)
        ≡ drop (weak_externals (later_view later))
        (map member_view (into_iter_items aliases.old))) }
{
    let Later { has_code, instead } = later;
    match instead {
        Some(member) => {
            members.push(member)?;
            pass_next(aliases);
            if has_code {
                pass_next(aliases);
            }
        }
        None => {
            move_next(aliases, members)?;
            if has_code {
                move_next(aliases, members)?;
            }
        }
    }
    Ok(())
}

/// Adds what exports have after all imports to the members, with their weak externals from these.
///
/// # Errors
///
/// An allocation failed.
pub(crate) fn place(
    laters: Vec<Later>,
    aliases: Vec<Member>,
    members: &mut Vec<Member>,
) -> Result<(), AllocError>
    ensures { OnOk result (map member_view members.new.items ≡ map member_view members.old.items
        ++ placed (map later_view laters.items) (map member_view aliases.items)) }
{
    members.reserve(aliases.len())?;
    let mut aliases = aliases.into_iter();
    for later in laters {
        place_one(later, &mut aliases, members)?;
    }
    Ok(())
}

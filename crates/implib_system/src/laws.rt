//! Laws of programs and the DLLs that are in memory with them. The functions do nothing: their
//! contracts are the laws.

ghost use Rattle.implib_system.specs.Laws.{BytesAreNumbers, CallsReachExports, EntriesHoldExports};
ghost use Rattle.implib_system.specs.Laws.{FieldsLeadToExports};
ghost use Rattle.implib_system.specs.Laws.{FollowedImportsAreReached, ForwardersAreFollowed};
ghost use Rattle.implib_system.specs.Laws.{FoundImportsAreReached, OneAddress};
ghost use Rattle.implib_system.specs.Worked.{WorkedReach, WorkedSystem};

use implib_link::laws::stubs::stubs_of_any_tables_jump;
use implib_link::laws::tables::{any_tables_load, fields_lead_to_any_tables};

/// However many forwarders are followed, an export leads to one address at most.
pub fn one_address()
    ensures { OneAddress }
{}

/// The bytes that are written for an address are its number, if they are enough.
pub fn bytes_are_numbers()
    ensures { BytesAreNumbers }
{}

/// In a loaded program, the entry of each import holds the address of the export that it reaches.
pub fn entries_hold_exports()
    ensures { EntriesHoldExports }
{
    any_tables_load();
}

/// Each field of code against the address of an import leads to an entry that holds the address of
/// the export that the import reaches, at whatever base the program is.
pub fn fields_lead_to_exports()
    ensures { FieldsLeadToExports }
{
    fields_lead_to_any_tables();
}

/// A direct call of a function, through the stub of its import, arrives at the address of the
/// export.
pub fn calls_reach_exports()
    ensures { CallsReachExports }
{
    stubs_of_any_tables_jump();
}

/// A forwarder that leads to an address by what is known of DLLs (`implib_compare`) leads to one
/// in memory, where these DLLs are, each under its name.
pub fn forwarders_are_followed()
    ensures { ForwardersAreFollowed }
{}

/// An import that is not lost in a DLL, nor forwarded to nothing or to what is not known, reaches
/// an address in memory.
pub fn followed_imports_are_reached()
    ensures { FollowedImportsAreReached }
{}

/// An import that is not lost in a DLL (`implib_compare`), which is in memory under its name, has
/// a target there; if that is no forwarder, it reaches the address of the export.
pub fn found_imports_are_reached()
    ensures { FoundImportsAreReached }
{}

/// DLLs in memory worked by hand: addresses, forwarders by name, by ordinal and through two DLLs, a
/// circle of forwarders, and what is not there.
pub fn worked_system()
    ensures { WorkedSystem }
{}

/// Entries of import tables worked by hand reach these addresses.
pub fn worked_reach()
    ensures { WorkedReach }
{}

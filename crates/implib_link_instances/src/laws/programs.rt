//! Programs that were linked by hand, what a loader makes of them, and images that are wrong.

ghost use Rattle.implib_link_instances.specs.Worked.Expansion.{WorkedExpansion};
ghost use Rattle.implib_link_instances.specs.Worked.Flavors.{WorkedFlavors, WorkedSources};
ghost use Rattle.implib_link_instances.specs.Worked.Files.{WorkedLoads};
ghost use Rattle.implib_link_instances.specs.Worked.Programs.{WorkedPrograms};

/// Programs that were linked by hand, on AMD64 and I386, meet what the laws ask for and have
/// these tables.
///
/// Short imports, by their bytes, and objects with section symbols are taken for these objects.
///
/// Programs of DLLs in both flavours that were linked by hand meet what the law asks for and have
/// these tables.
///
/// The programs that were linked by hand link as the laws say; loaded by hand, they hold what the
/// DLLs give, and their stubs jump through their entries.
///
/// Programs of texts, packed, link as the laws say.
pub fn worked_programs()
    ensures worked_programs { WorkedPrograms }
    ensures worked_expansion { WorkedExpansion }
    ensures worked_flavors { WorkedFlavors }
    ensures worked_loads { WorkedLoads }
    ensures worked_sources { WorkedSources }
{}

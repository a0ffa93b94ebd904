//! Files of command lines, and linked images.

ghost use Rattle.implib.specs.Import.{Ask};
ghost use Rattle.implib_link_instances.specs.Worked.Files.{WorkedFiles, WorkedHeaders};
ghost use Rattle.std.specs.Prelude.{List, ℕ};

/// Files that lld wrote for I386, AMD64 and ARM64, byte for byte, are those of programs of the laws
/// with their code; and a loader that begins with a file of GNU `ld` finds its import directory.
///
/// Those files with single bytes changed, and what these say instead.
pub fn worked_files()
    ensures worked_files { WorkedFiles }
    ensures worked_headers { (gives : List ℕ → Ask → List ℕ) → WorkedHeaders gives }
{}

//! The names of machines on a command line.

ghost use Rattle.implib_rules.specs.Machines.{machine_called};
ghost use Rattle.std.specs.Prelude.{◌≡◌};

use implib::MachineType;

/// The machine of a name, as `-m` has it, in small letters: GNU dlltool's names, and the field's
/// others (docs/DLLTOOL.md). Capitals are none.
pub fn machine_called(name: &str) -> Option<MachineType>
    ensures { result ≡ machine_called name.now }
{
    match name {
        "i386" | "x86" => Some(MachineType::I386),
        "i386:x86-64" | "amd64" | "x64" | "x86_64" => Some(MachineType::AMD64),
        "arm" | "armnt" => Some(MachineType::ARMNT),
        "arm64" | "aarch64" => Some(MachineType::ARM64),
        _ => None,
    }
}

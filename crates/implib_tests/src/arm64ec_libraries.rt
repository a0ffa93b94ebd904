//! Libraries of texts, held against those of llvm-dlltool 19 by their lengths and a sum of their
//! bytes.

use implib::{Flavor, MachineType};
use implib_libraries::arm64ec::{arm64ec_archive, arm64ec_library_for};
use implib_rules::additions::Additions;
use implib_rules::linked::Naming;
use implib_rules::options::LibraryOptions;
use std::test::Fail;

// Names of the DLL that have a symbol of their own and others beside it; marks that the text has
// already, and names that are asked for with them.
const NAMES: &[u8] = b"LIBRARY t.dll\nEXPORTS\np EXPORTAS v\nv\nq == v\nw @5 NONAME\n\
    #con CONSTANT\n#dat DATA\n#f == #f\ng == g DATA\n#h\n";

fn options() -> LibraryOptions<'static> {
    LibraryOptions {
        machine: MachineType::AMD64,
        flavor: Flavor::Gnu,
        dll: None,
        naming: Naming {
            is_plain: false,
            kills_at: false,
            exports_as: false,
            keeps_decorated: false,
        },
        additions: Additions::none(),
    }
}

// The sum that Fowler, Noll and Vo made (FNV-1a), of 64 bits.
fn sum(bytes: &[u8]) -> u64 {
    let mut sum: u64 = 0xcbf2_9ce4_8422_2325;
    for byte in bytes {
        sum = (sum ^ u64::from(*byte)).wrapping_mul(0x0100_0000_01b3);
    }
    sum
}

// The length and the sum of a library.
fn made(rt: &HostRuntime, text: &[u8], native: Option<&[u8]>) -> Result<(usize, u64), Fail> {
    let alloc = rt.alloc();
    let Ok(library) = arm64ec_library_for(alloc, text, native, &options()) else {
        return Ok((0, 0));
    };
    let Ok(archive) = arm64ec_archive(&library, alloc) else {
        return Ok((1, 0));
    };
    let bytes = archive.to_vec(alloc)?;
    Ok((bytes.len(), sum(&bytes)))
}

#[test]
fn libraries_are_those_of_llvm_dlltool(rt: HostRuntime) -> Result<(), Fail> {
    assert_eq!(rt; made(&rt, NAMES, None)?, (2378, 0x247e74210979fbd7));
    // The native definition names the DLL.
    let native = b"LIBRARY u.dll\nEXPORTS\ng\n";
    let made = made(&rt, b"LIBRARY t.dll\nEXPORTS\nf\n", Some(native))?;
    assert_eq!(rt; made, (1510, 0x79c41c308caa22c9));
    Ok(())
}

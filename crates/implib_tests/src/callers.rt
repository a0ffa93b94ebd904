//! Each caller of `uses` once, where memory is ample.

use crate::uses::{
    data_object, error_in, first_exports, gnu_members_of_text, members_of_export, members_of_text,
    members_to_link, msvc_members_of_text,
};
use implib::def::Position;
use implib::{Flavor, MachineType};
use std::test::Fail;

// A DLL that one export is imported from by name and one by number.
const TWO: &str = "LIBRARY foo.dll\nEXPORTS\nbar\nbaz @5 NONAME";

// The machines, with their numbers in a file header.
const MACHINES: [(MachineType, [u8; 2]); 4] = [
    (MachineType::I386, [0x4C, 0x01]),
    (MachineType::ARMNT, [0xC4, 0x01]),
    (MachineType::AMD64, [0x64, 0x86]),
    (MachineType::ARM64, [0x64, 0xAA]),
];

// For Microsoft's linker a DLL has three members and one for each export, for GNU's two and one for
// each.
#[test]
fn texts_have_members(rt: HostRuntime) -> Result<(), Fail> {
    let alloc = rt.alloc();
    for (machine, _) in MACHINES {
        let msvc = members_of_text(alloc, TWO, machine, Flavor::Msvc)?;
        assert_eq!(rt; msvc.len(), 5);
        let gnu = members_of_text(alloc, TWO, machine, Flavor::Gnu)?;
        assert_eq!(rt; gnu.len(), 4);
        assert_eq!(rt; msvc_members_of_text(alloc, TWO, machine)?.len(), 5);
        assert_eq!(rt; gnu_members_of_text(alloc, TWO, machine)?.len(), 4);
        assert_eq!(rt; members_to_link(alloc, TWO, machine)?.len(), 4);
    }
    Ok(())
}

#[test]
fn an_export_has_members(rt: HostRuntime) -> Result<(), Fail> {
    for (machine, _) in MACHINES {
        let members = members_of_export(rt.alloc(), "foo.dll", "bar", machine)?;
        assert_eq!(rt; members.len(), 4);
        let last = members.last().ok_or("there is no member")?;
        assert_eq!(rt; last.name.as_str(), "foo.dll");
        let symbol = last.symbols.first().ok_or("there is no symbol")?;
        assert_eq!(rt; symbol.as_str(), "__imp_bar");
    }
    Ok(())
}

// An object with one section begins with the machine's number and the count of sections.
#[test]
fn data_is_in_an_object(rt: HostRuntime) -> Result<(), Fail> {
    for (machine, [low, high]) in MACHINES {
        let object = data_object(rt.alloc(), machine, "foo", b"bar!")?;
        assert!(rt; object.starts_with(&[low, high, 1, 0]));
        assert!(rt;
            object
                .as_slice()
                .windows(4)
                .any(|bytes| bytes == b"bar!".as_slice())
        );
    }
    Ok(())
}

// Texts with the offset of their first `EXPORTS`.
const FIRST_EXPORTS: [(&str, Option<usize>); 7] = [
    ("", None),
    ("EXPORTS", Some(0)),
    (TWO, Some(16)),
    ("; EXPORTS\n  EXPORTS a EXPORTS b", Some(12)),
    ("LIBRARY \"EXPORTS\"\nexports", None),
    ("EXPORTS1 EXPORTS", Some(9)),
    ("\0EXPORTS", None),
];

#[test]
fn the_first_exports_of_a_text_is_found(rt: HostRuntime) {
    for (text, want) in FIRST_EXPORTS {
        assert_eq!(rt; first_exports(text), want, "{text}");
    }
}

#[test]
fn an_error_has_its_position(rt: HostRuntime) -> Result<(), Fail> {
    for (machine, _) in MACHINES {
        assert_eq!(rt; error_in(rt.alloc(), TWO, machine)?, None);
        let want = Position {
            offset: 18,
            line: 2,
            column: 3,
        };
        let got = error_in(rt.alloc(), "LIBRARY foo.dll\n  OTHER", machine)?;
        assert_eq!(rt; got, Some(want));
    }
    Ok(())
}

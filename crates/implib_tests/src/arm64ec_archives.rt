//! A library as llvm-dlltool 19 writes it.

use implib::def::ModuleDef;
use implib::{Flavor, ImportLibrary, MachineType, Member};
use implib_arm64ec::{Archive, Arm64ecImports, short_imports};
use std::alloc::Global;
use std::test::Fail;

// The file of `-m arm64ec -d DEF -N NATIVE`, DEF with `f` and `d DATA`, NATIVE with `f`, `g` and `h
// DATA`, whose DLL has a long name.
const LIBRARY: &[u8] =
    b"!<arch>\n/               0           0     0     0       154       `\n\0\0\0\x08\0\0\
    \x02\xe2\0\0\x04\xa2\0\0\x05^\0\0\x07\x10\0\0\x07\x10\0\0\x07t\0\0\x07t\0\0\x07\xd8_\
    _IMPORT_DESCRIPTOR_a_longer_name\0__NULL_IMPORT_DESCRIPTOR\0\x7fa_longer_name_NULL_T\
    HUNK_DATA\0__imp_f\0f\0__imp_g\0g\0__imp_h\0/               0           0     0     \
    0       174       `\n\x08\0\0\0\xe2\x02\0\0\xa2\x04\0\0^\x05\0\0D\x06\0\0\xac\x06\0\
    \0\x10\x07\0\0t\x07\0\0\xd8\x07\0\0\x08\0\0\0\x01\0\x02\0\x06\0\x07\0\x08\0\x06\0\
    \x07\0\x03\0__IMPORT_DESCRIPTOR_a_longer_name\0__NULL_IMPORT_DESCRIPTOR\0__imp_f\0__\
    imp_g\0__imp_h\0f\0g\0\x7fa_longer_name_NULL_THUNK_DATA\0//                         \
    \x20                    18        `\na_longer_name.dll\0/<ECSYMBOLS>/   0           \
    0     0     0       144       `\n\x08\0\0\0\x04\0\x01\0\x02\0\x04\0\x05\0\x04\0\x04\
    \0\x03\0#f\0__IMPORT_DESCRIPTOR_a_longer_name\0__NULL_IMPORT_DESCRIPTOR\0__imp_aux_f\
    \0__imp_d\0__imp_f\0f\0\x7fa_longer_name_NULL_THUNK_DATA\0\0/0              0       \
    \x20   0     0     644     388       `\nd\xaa\x02\0\0\0\0\0\xa8\0\0\0\x07\0\0\0\0\0\
    \0\0.idata$2\0\0\0\0\0\0\0\0\x14\0\0\0d\0\0\0x\0\0\0\0\0\0\0\x03\0\0\0@\00\xc0.idata\
    $6\0\0\0\0\0\0\0\0\x12\0\0\0\x96\0\0\0\0\0\0\0\0\0\0\0\0\0\0\0@\0 \xc0\0\0\0\0\0\0\0\
    \0\0\0\0\0\0\0\0\0\0\0\0\0\x0c\0\0\0\x02\0\0\0\x02\0\0\0\0\0\x03\0\0\0\x02\0\x10\0\0\
    \0\x04\0\0\0\x02\0a_longer_name.dll\0\0\0\0\0\x04\0\0\0\0\0\0\0\x01\0\0\0\x02\0.idat\
    a$2\0\0\0\0\x01\0\0\0h\0.idata$6\0\0\0\0\x02\0\0\0\x03\0.idata$4\0\0\0\0\0\0\0\0h\0.\
    idata$5\0\0\0\0\0\0\0\0h\0\0\0\0\0&\0\0\0\0\0\0\0\0\0\0\0\x02\0\0\0\0\0?\0\0\0\0\0\0\
    \0\0\0\0\0\x02\0^\0\0\0__IMPORT_DESCRIPTOR_a_longer_name\0__NULL_IMPORT_DESCRIPTOR\0\
    \x7fa_longer_name_NULL_THUNK_DATA\0/0              0           0     0     644     1\
    27       `\nd\xaa\x01\0\0\0\0\0P\0\0\0\x01\0\0\0\0\0\0\0.idata$3\0\0\0\0\0\0\0\0\x14\
    \0\0\0<\0\0\0\0\0\0\0\0\0\0\0\0\0\0\0@\00\xc0\0\0\0\0\0\0\0\0\0\0\0\0\0\0\0\0\0\0\0\
    \0\0\0\0\0\x04\0\0\0\0\0\0\0\x01\0\0\0\x02\0\x1d\0\0\0__NULL_IMPORT_DESCRIPTOR\0\n/0\
    \x20             0           0     0     644     169       `\nd\xaa\x02\0\0\0\0\0t\0\
    \0\0\x01\0\0\0\0\0\0\0.idata$5\0\0\0\0\0\0\0\0\x08\0\0\0d\0\0\0\0\0\0\0\0\0\0\0\0\0\
    \0\0@\0@\xc0.idata$4\0\0\0\0\0\0\0\0\x08\0\0\0l\0\0\0\0\0\0\0\0\0\0\0\0\0\0\0@\0@\
    \xc0\0\0\0\0\0\0\0\0\0\0\0\0\0\0\0\0\0\0\0\0\x04\0\0\0\0\0\0\0\x01\0\0\0\x02\0#\0\0\
    \0\x7fa_longer_name_NULL_THUNK_DATA\0\n/0              0           0     0     644  \
    \x20  43        `\n\0\0\xff\xff\0\0A\xa6\0\0\0\0\x17\0\0\0\0\0\x10\0#f\0a_longer_nam\
    e.dll\0f\0\n/0              0           0     0     644     40        `\n\0\0\xff\
    \xff\0\0A\xa6\0\0\0\0\x14\0\0\0\0\0\x05\0d\0a_longer_name.dll\0/0              0    \
    \x20      0     0     644     40        `\n\0\0\xff\xff\0\0d\xaa\0\0\0\0\x14\0\0\0\0\
    \0\x04\0f\0a_longer_name.dll\0/0              0           0     0     644     40    \
    \x20   `\n\0\0\xff\xff\0\0d\xaa\0\0\0\0\x14\0\0\0\0\0\x04\0g\0a_longer_name.dll\0/0 \
    \x20            0           0     0     644     40        `\n\0\0\xff\xff\0\0d\xaa\0\
    \0\0\0\x14\0\0\0\0\0\x05\0h\0a_longer_name.dll\0";

// Holds something, in these words.
fn expect(is_held: bool, what: &'static str) -> Result<(), Fail> {
    if is_held {
        Ok(())
    } else {
        Err(Fail::new(what))
    }
}

// Holds the bytes of the archive of these members.
fn expect_bytes(
    alloc: Global,
    members: &[Member],
    imports: &Arm64ecImports,
    bytes: &[u8],
) -> Result<(), Fail> {
    let headers = members.get(..3).ok_or("the headers are fewer")?;
    let natives = members.get(3..).ok_or("the headers are fewer")?;
    let archive = Archive::new(alloc, headers, imports, natives)?;
    expect(archive.len() == bytes.len() as u64, "an archive's length")?;
    expect(
        archive.to_vec(alloc)?.as_slice() == bytes,
        "an archive's bytes",
    )?;
    let mut writer = Vec::new(alloc);
    expect(
        archive.write_to(alloc, &mut writer).is_ok(),
        "an archive is written",
    )?;
    expect(writer.as_slice() == bytes, "what is written")
}

#[test]
fn a_library_has_these_bytes(rt: HostRuntime) -> Result<(), Fail> {
    let alloc = rt.alloc();
    let native = "LIBRARY a_longer_name.dll\nEXPORTS\nf\ng\nh DATA\n";
    let library = ImportLibrary::new(alloc, native, MachineType::ARM64, Flavor::Msvc)?;
    let members = library.members()?;
    let text = "LIBRARY a_longer_name.dll\nEXPORTS\nf\np PRIVATE\nd DATA\n";
    let def = ModuleDef::parse(alloc, text, MachineType::ARM64)?;
    let dll = def.import_name.as_str();
    let imports = short_imports(alloc, def.exports.as_slice(), dll, dll)?;
    expect_bytes(alloc, members.as_slice(), &imports, LIBRARY)
}

//! For which linker a library is.

ghost use Rattle.std.specs.Prelude.{◌≡◌, map};
ghost use Rattle.implib_compare.specs.Flavors.{flavor_of, is_for_msvc, tells_code};
ghost use Rattle.implib_read.specs.ClassViews.{class_view, member_read_view};

use implib::Flavor;
use implib_read::{ImportKind, MemberClass, MemberRead};

// Whether a kind tells code from a constant.
fn tells_code(kind: ImportKind) -> bool
    ensures { result ≡ tells_code kind }
{
    match kind {
        ImportKind::Code | ImportKind::Const => true,
        ImportKind::Data | ImportKind::CodeOrConst | ImportKind::Delayed => false,
    }
}

// Whether a member is one for Microsoft's linker.
fn is_for_msvc(class: &MemberClass) -> bool
    ensures { result ≡ is_for_msvc (class_view class.now) }
{
    match class {
        MemberClass::Descriptor | MemberClass::NullDescriptor | MemberClass::NullThunk => true,
        MemberClass::Import(import) => tells_code(import.kind),
        _ => false,
    }
}

/// The flavour of a library: Microsoft's where a member is for its linker, else GNU's.
pub fn flavor_of(members: &[MemberRead]) -> Flavor
    ensures { result ≡ flavor_of (map member_read_view members.now) }
{
    for member in members {
        if is_for_msvc(&member.class) {
            return Flavor::Msvc;
        }
    }
    Flavor::Gnu
}

//! The law of libraries by options of `implib_dlltool`.

ghost use Rattle.implib.specs.Definition.{ExportView};
ghost use Rattle.implib.specs.Members.MemberSpec.{MemberView};
ghost use Rattle.implib.specs.declared.flavor.Flavor.TheVariants.{Gnu};
ghost use Rattle.implib_rules.specs.Library.{MembersFor};
ghost use Rattle.implib_rules.specs.Older.{OlderMembersFor};
ghost use Rattle.implib_rules.specs.Options.{LibraryOptionsView};
ghost use Rattle.implib_tests.specs.Using.Options.{LinkAsOlderPart, LinkAsPart, LinkInPrograms};
ghost use Rattle.std.specs.Prelude.{◌≡◌, Bool, ℕ, List, false};

/// The members of a library for GNU's linker, whatever its options, are such as the laws of links
/// speak of: with any exports chosen, what is linked of them is a part. Without third texts those
/// for Microsoft's linker are among the members of a definition, of which programs are.
pub fn members_by_options_link()
    ensures part { (bytes : List ℕ) (options : LibraryOptionsView) (members : List MemberView)
        (chosen : List ℕ) →
        MembersFor bytes options members →
        options.flavor ≡ Gnu →
        LinkAsPart bytes options members chosen }
    ensures older { (bytes : List ℕ) (options : LibraryOptionsView) (members : List MemberView)
        (chosen : List ℕ) (older : ExportView → Bool) →
        OlderMembersFor bytes options members →
        LinkAsOlderPart bytes options members chosen older }
    ensures programs { (bytes : List ℕ) (options : LibraryOptionsView) (members : List MemberView)
        (chosen : List ℕ) →
        MembersFor bytes options members →
        options.naming.exports_as ≡ false →
        LinkInPrograms bytes options chosen }
{}

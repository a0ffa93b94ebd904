//! Laws of archive search in bytes. The functions do nothing: their contracts are the laws.

ghost use Rattle.implib.specs.Formats.Object.{Object};
ghost use Rattle.implib.specs.Link.Placement.{Bases};
ghost use Rattle.implib.specs.Members.MemberSpec.{MemberView};
ghost use Rattle.implib.specs.declared.machine.MachineType.{MachineType};
ghost use Rattle.implib_archive.specs.Archive.{archive_of as archive_bytes};
ghost use Rattle.implib_archive.specs.Refusal.{refusal_of};
ghost use Rattle.implib_archive.specs.declared.kind.Kind.TheVariants.{Coff, Gnu as GnuKind};
ghost use Rattle.implib_archive.specs.declared.kind.Kind.{Kind};
ghost use Rattle.implib_link.specs.Archives.Ways.{AreLinkedFor, CallsArrive, SearchesByLld};
ghost use Rattle.implib_link.specs.Archives.Ways.{AreCalledAlike, LldArrives, read_by_lld};
ghost use Rattle.implib_link.specs.Archives.Files.{ArchiveFile, HasMembers, HasMembersAs};
ghost use Rattle.implib_link.specs.Archives.Files.{members_in_files};
ghost use Rattle.implib_link.specs.Archives.InBytes.{LinkerMember, HaveArchive, IsSearchOf};
ghost use Rattle.implib_link.specs.Archives.InBytes.{LeadsToFirst, TakesJust};
ghost use Rattle.implib_link.specs.Flavors.Program.{Ending};
ghost use Rattle.implib_link.specs.Flavors.Expansion.{expanded_in};
ghost use Rattle.implib_link.specs.Search.Search.{Library, archive_of, TakesIntoAs, members_at};
ghost use Rattle.implib_link.specs.Search.Libraries.{AreGiven, FlavorLibrary, IsFlavorArchive};
ghost use Rattle.implib_link.specs.Search.Libraries.{archive_of_both, IsMsvcArchive};
ghost use Rattle.implib_link.specs.Search.CommandLines.{Input, SearchesFlavors, given_with};
ghost use Rattle.implib_link.specs.Search.CommandLines.{objects_given, others_of};
ghost use Rattle.std.specs.List.{IsDistinct, flat_map};
ghost use Rattle.std.specs.Prelude.{◌≡◌, ◌<◌, ℕ, Bool, List, Option, None, bytes_eq, length};

/// The bytes of the archive of members are an archive in the sense of searches: a name leads to the
/// first member that it is listed for, by either linker member; what a linker takes in the bytes
/// for given objects, however it reads members, are members that it takes of the list; and each
/// search of the list is one in the bytes.
pub fn archives_are_searched()
    ensures leads { (kind : Kind) (linker : LinkerMember) (members : List MemberView)
        (name : List ℕ) →
        HaveArchive kind linker members → LeadsToFirst kind linker members name }
    ensures takes { (reads : List ℕ → Option Object) (kind : Kind) (linker : LinkerMember)
        (members : List MemberView) (own : List Object) →
        HaveArchive kind linker members →
        TakesJust kind linker members reads own (TakesIntoAs reads members own) }
    ensures found { (reads : List ℕ → Option Object) (kind : Kind) (linker : LinkerMember)
        (members : List MemberView) (own : List Object) (found : List MemberView) →
        HaveArchive kind linker members →
        TakesIntoAs reads members own found →
        IsSearchOf kind linker members reads own found }
{}

/// The bytes of an archive of either kind have its members, with the symbols of each in the order
/// of the index: what a linker finds in the files of a command line are the members that the laws
/// of command lines speak of. Some member lists a symbol. An archive of the COFF kind, whose index
/// has of each symbol the first entry alone, has them where all symbols differ.
pub fn archives_have_their_members()
    ensures gnu { (members : List MemberView) → refusal_of GnuKind members ≡ None →
        0 < length (flat_map (λ m. m.symbols) members) →
        HasMembers (archive_bytes GnuKind members) members }
    ensures coff { (members : List MemberView) → refusal_of Coff members ≡ None →
        0 < length (flat_map (λ m. m.symbols) members) →
        IsDistinct bytes_eq (flat_map (λ m. m.symbols) members) →
        HasMembersAs Coff (archive_bytes Coff members) members }
{}

/// The whole way for lld: in the bytes of an archive of libraries for Microsoft's linker lld takes
/// the short import of exactly the exports that given objects, or aliases that are taken, leave
/// unresolved. Of a program of those that are live, in memory at any base, a loader that reads it
/// there loads exactly these imports; every field of code against the `__imp_` symbol of such an
/// export leads to its own entry, where is what the DLL gives for what it asks for; and a branch to
/// its bare name arrives there by its thunk.
///
/// The listed symbols are distinct, but for those that one library's or one export's members share.
/// No alias is among the exports that are spoken of.
pub fn bytes_lead_to_lld_calls()
    ensures { (kind : Kind) (linker : LinkerMember) (machine : MachineType)
        (libraries : List Library) (own : List Object) →
        HaveArchive kind linker (archive_of libraries) →
        IsMsvcArchive machine libraries →
        AreCalledAlike libraries →
        TakesJust kind linker (archive_of libraries) (read_by_lld machine) own
        (LldArrives machine libraries own) }
{}

/// The whole way for libraries of which some are for GNU's linker and others for Microsoft's, or
/// all for one: what a linker takes in their archive's bytes for objects that may be given closes
/// the program, wherever it is linked; and in the memory that a loader leaves, which reads the
/// image and knows nothing else, each field against an import's `__imp_` symbol, of either flavour,
/// in any object's linked code, as that of a call, leads to what its DLL gives.
pub fn bytes_lead_to_calls()
    ensures { (kind : Kind) (linker : LinkerMember) (machine : MachineType)
        (libraries : List FlavorLibrary) (own : List Object) →
        HaveArchive kind linker (archive_of_both libraries) →
        IsFlavorArchive machine libraries →
        AreGiven machine libraries own →
        TakesJust kind linker (archive_of_both libraries) (expanded_in machine) own
        (λ taken. (ending : Ending) (arranged : List FlavorLibrary) (bases : Bases)
        (objects : List Object) →
        AreLinkedFor machine ending libraries own taken arranged bases objects →
        CallsArrive machine ending libraries own taken arranged bases objects) }
{}

/// The whole way for a linker that expands short imports, as GNU `ld`, of the archives of a command
/// line: what it takes in their order of their members, which may be those that their files have
/// (`members_in_files`), of libraries for either linker and of anything else, for the given
/// objects, closes the program; and in the memory that a loader leaves each field against an
/// import's `__imp_` symbol, as that of a call, leads to what its DLL gives. No short import is a
/// constant, or asks GNU `ld` for another name than lld.
pub fn command_lines_lead_to_calls()
    ensures { (machine : MachineType) (ending : Ending) (libraries : List FlavorLibrary)
        (members : List MemberView) (inputs : List Input) (is_given : MemberView → Bool)
        (taken : List ℕ) (arranged : List FlavorLibrary) (bases : Bases) (objects : List Object) →
        SearchesFlavors machine libraries members inputs is_given taken →
        IsFlavorArchive machine libraries →
        AreGiven machine libraries
        (given_with (expanded_in machine) is_given (objects_given inputs)
        (members_at members taken)) →
        AreLinkedFor machine ending libraries
        (given_with (expanded_in machine) is_given (objects_given inputs)
        (members_at members taken))
        (others_of is_given (members_at members taken)) arranged bases objects →
        CallsArrive machine ending libraries
        (given_with (expanded_in machine) is_given (objects_given inputs)
        (members_at members taken))
        (others_of is_given (members_at members taken)) arranged bases objects }
{}

/// The whole way for lld, of the files of a command line: what it takes of archives of libraries
/// for Microsoft's linker and of anything else, in whatever order, has the short import of exactly
/// the exports that the given objects, with the members of the other archives that are taken, want;
/// and what it writes of them arrives as `bytes_lead_to_lld_calls` says.
pub fn files_lead_to_lld_calls()
    ensures { (machine : MachineType) (libraries : List Library) (files : List ArchiveFile)
        (own : List Object) (is_given : MemberView → Bool) (taken : List MemberView) →
        SearchesByLld machine libraries (members_in_files files) own is_given taken →
        IsMsvcArchive machine libraries → AreCalledAlike libraries →
        LldArrives machine libraries (given_with (read_by_lld machine) is_given own taken)
        (others_of is_given taken) }
{}

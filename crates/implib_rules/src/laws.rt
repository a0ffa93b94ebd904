//! Laws: what is proved of the definitions.

ghost use Rattle.implib.specs.Definition.{ExportView};
ghost use Rattle.implib.specs.Import.{holds, is_empty_text};
ghost use Rattle.implib.specs.Members.NameRules.{name_refusal};
ghost use Rattle.implib.specs.declared.flavor.Flavor.TheVariants.{Msvc};
ghost use Rattle.implib.specs.declared.machine.MachineType.{MachineType};
ghost use Rattle.implib_rules.specs.Linked.{AsksAsLinked, target_import};
ghost use Rattle.implib_rules.specs.BothFlavors.{AsksAlike};
ghost use Rattle.implib_rules.specs.LibraryLaws.{GnuLibrariesAreApart, LibrariesAreOfExports};
ghost use Rattle.implib_rules.specs.LibraryLaws.{MsvcLibrariesAreFound};
ghost use Rattle.implib_rules.specs.Places.{AreAtWords};
ghost use Rattle.implib_rules.specs.Repeats.{AreLeftOut, SymbolsAreOfWords};
ghost use Rattle.implib_rules.specs.Warnings.{AreInOrder, RepeatsStandBefore};
ghost use Rattle.implib_rules.specs.WorkedExports.{ExportsWorked};
ghost use Rattle.implib_rules.specs.WorkedLibraryNames.{LibrariesWorked};
ghost use Rattle.implib_rules.specs.WorkedAdditions.{AdditionsWorked};
ghost use Rattle.implib_rules.specs.WorkedExportAs.{ExportAsReads, ExportAsWorked};
ghost use Rattle.implib_rules.specs.WorkedNames.{AliasesLinked, DllsNamed, ExportsLinked};
ghost use Rattle.implib_rules.specs.WorkedNames.{MachinesNamed, MembersInOrder};
ghost use Rattle.implib_rules.specs.PlainLaws.{PlacesAreKept, PlainTextsStay};
ghost use Rattle.implib_rules.specs.Utf8.{TextsAreNotUtf8Once};
ghost use Rattle.implib_rules.specs.WorkedForms.{MalformedWorked};
ghost use Rattle.implib_rules.specs.WorkedPlain.{FormsWorked, PlainTextsWorked};
ghost use Rattle.implib_rules.specs.WorkedTextWarnings.{TextWarningsWorked};
ghost use Rattle.implib_rules.specs.WorkedUtf8.{BytesFound};
ghost use Rattle.implib_rules.specs.WorkedWarnings.{PlacesWorked, WarningsWorked, WordsJudged};
ghost use Rattle.std.specs.Prelude.{◌≡◌, ℕ, None, false};

/// Exports are linked by the symbols that were worked by hand, and ask for the names.
pub fn exports_linked()
    ensures { ExportsLinked }
{}

/// An export that is linked as an import asks for what its words say, whether it gives the name or
/// not.
pub fn asks_as_linked()
    ensures { AsksAsLinked }
{}

/// Each export that GNU's flavour imports by name is in Microsoft's flavour the same import, or is
/// weak for an import that asks the DLL for the same name.
pub fn flavors_ask_alike()
    ensures { AsksAlike }
{}

/// Two exports have one symbol only where they have one word.
pub fn symbols_are_of_words()
    ensures { SymbolsAreOfWords }
{}

/// Of the exports of one word the first that is not private stays, and later ones are left out.
pub fn repeats_are_left_out()
    ensures { AreLeftOut }
{}

/// The library of a text for Microsoft's linker is one that GNU `ld` finds, whatever the ending of
/// the DLL's name.
pub fn msvc_libraries_are_found()
    ensures { MsvcLibrariesAreFound }
{}

/// Two libraries of one DLL for GNU's linker are kept apart where they have different names: the
/// names of the members of neither begin with what those of the other do.
pub fn gnu_libraries_are_apart()
    ensures { GnuLibrariesAreApart }
{}

/// The library of a text is that of its exports, where these have one: for a DLL whose name is
/// given.
pub fn libraries_are_of_exports()
    ensures { LibrariesAreOfExports }
{}

/// Exports that are given without a text have the definitions that were worked by hand.
pub fn exports_worked()
    ensures { ExportsWorked }
{}

/// Libraries have the names that were worked by hand, and those exports are left out.
pub fn libraries_worked()
    ensures { LibrariesWorked }
{}

/// Exports with `==` are in Microsoft's flavour the aliases and imports that were worked by hand,
/// and add the targets; in GNU's they are imports.
pub fn aliases_linked()
    ensures { AliasesLinked }
{}

/// The import that an alias adds breaks no rule on names if its word is not empty and has no null
/// byte: with a null byte the alias itself is refused, before it. So a refused export of a name is
/// one of the text.
pub fn targets_accepted()
    ensures { (machine : MachineType) (index : ℕ) (e : ExportView)
        → is_empty_text e.alias_target ≡ false → holds 0 e.alias_target ≡ false
        → name_refusal Msvc machine index (target_import e) ≡ None }
{}

/// The members for Microsoft's linker are in the order that was worked by hand: weak externals
/// last, and no short import of an alias.
pub fn members_in_order()
    ensures { MembersInOrder }
{}

/// DLLs have the names that were worked by hand.
pub fn dlls_named()
    ensures { DllsNamed }
{}

/// Names are of the machines that were worked by hand.
pub fn machines_named()
    ensures { MachinesNamed }
{}

/// Words that may be meant for something else are known from others as was worked by hand.
pub fn words_judged()
    ensures { WordsJudged }
{}

/// The tokens of a text have the places that were worked by hand.
pub fn places_worked()
    ensures { PlacesWorked }
{}

/// Definitions have the warnings that were worked by hand, in this order, and none without `-v`.
pub fn warnings_worked()
    ensures { WarningsWorked }
{}

/// An export repeats a word or an ordinal exactly where one before it has that.
pub fn repeats_stand_before()
    ensures { RepeatsStandBefore }
{}

/// The warnings of a text are in the order of their offsets.
pub fn warnings_in_order()
    ensures { AreInOrder }
{}

/// The tokens that are taken for names of exports are the words of the definition's exports.
pub fn exports_at_words()
    ensures { AreAtWords }
{}

/// The text of a definition has each line and each column where the bytes have them.
pub fn places_are_kept()
    ensures { PlacesAreKept }
{}

/// The text of a definition that has none of the forms of other tools is the text as it is.
pub fn plain_texts_stay()
    ensures { PlainTextsStay }
{}

/// Texts have a form of other tools, or none, as was worked by hand.
pub fn forms_worked()
    ensures { FormsWorked }
{}

/// Definitions as other tools write them are read as was worked by hand.
pub fn plain_texts_worked()
    ensures { PlainTextsWorked }
{}

/// The forms of definitions have the warnings that were worked by hand.
pub fn text_warnings_worked()
    ensures { TextWarningsWorked }
{}

/// Quotes are not closed in their lines, and ordinals are wrong, where it was worked by hand.
pub fn malformed_worked()
    ensures { MalformedWorked }
{}

/// What options add to exports is as was worked by hand.
pub fn additions_worked()
    ensures { AdditionsWorked }
{}

/// Libraries with third texts have the symbols and bytes that were worked by hand.
pub fn export_as_worked()
    ensures { ExportAsWorked }
{}

/// A short import with a third text is read as the import of its export.
pub fn export_as_reads()
    ensures { ExportAsReads }
{}

/// A text that is not UTF-8 is so at one position, which is computed: after its longest beginning
/// that is.
pub fn texts_are_not_utf8_once()
    ensures { TextsAreNotUtf8Once }
{}

/// Definitions are not UTF-8 where it was worked by hand.
pub fn bytes_found()
    ensures { BytesFound }
{}

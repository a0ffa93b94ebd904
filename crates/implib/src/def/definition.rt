//! What a module definition says: its settings and its exports.

ghost use Rattle.implib.specs.Definition.{definition_view, empty_definition, empty_export};
ghost use Rattle.implib.specs.Definition.{export_view};
ghost use Rattle.implib.specs.Fault.{error_cause};
ghost use Rattle.implib.specs.Renaming.{renamed, renamed_export};
ghost use Rattle.std.specs.Prelude.{◌≡◌, IfErr, IfOk, None, map};

use crate::error::Error;
use std::alloc::Global;

/// One export of a module definition.
#[derive(Debug, Drop)]
pub struct ShortExport {
    /// The linker symbol; if `ext_name` is set, the DLL-internal name. On I386 parsing puts `_`
    /// before it, and before `ext_name`, unless it is decorated.
    pub name: String,
    /// The linker symbol, if `name` is the DLL-internal name. An import library moves it into
    /// `name`.
    pub ext_name: Option<String>,
    /// The symbol of the short import, where it differs from `name`; empty for none. Parsing leaves
    /// it empty. It has no effect for GNU's linker.
    pub symbol_name: String,
    /// The name that the DLL is asked for, if it is not what the symbol says: whole, without the
    /// `_` of I386. Parsing leaves it `None`. For Microsoft's linker it has to be the short
    /// import's symbol or, on I386, what a name type makes of that; on other machines linkers cut a
    /// symbol in two ways. `ImportLibrary::members` refuses any other with `NoNameType`. It has no
    /// effect beside `no_name`.
    pub asked_name: Option<String>,
    /// The alias target (`==`): what the linker symbol is a weak external for; empty for none.
    pub alias_target: String,
    /// The ordinal, or the hint of an import by name. It is 0 where none is given, and for `@0`.
    pub ordinal: u16,
    /// Whether the import is by ordinal (`NONAME`).
    pub no_name: bool,
    /// Whether it is data (`DATA`): then only its `__imp_` symbol is declared.
    pub is_data: bool,
    /// Whether it is left out of the import library (`PRIVATE`).
    pub private: bool,
    /// Whether it is a constant (`CONSTANT`). It has no effect for GNU's linker, nor beside
    /// `is_data`.
    pub constant: bool,
}

/// A module definition.
#[derive(Debug, Drop)]
pub struct ModuleDef {
    /// The exports, in the order of the text.
    pub exports: Vec<ShortExport>,
    /// The name of the DLL or program; empty where no statement gives it. An import library of an
    /// empty name has no members: `ImportLibrary::members` refuses it with `EmptyImportName`.
    pub import_name: String,
    /// The library's own name for the linker, where it is not the DLL's: it holds the library's
    /// members together. No statement gives it. The members for GNU's linker and their symbols are
    /// named after it; those for Microsoft's are named `B.dll`, and their symbols after `B`, for
    /// the name `B`. Two libraries of one DLL in one link need different names. It is not empty and
    /// has no NUL and no line feed: `ImportLibrary::members` refuses others with
    /// `EmptyLibraryName`, `NulInLibraryName` and `LineEndInLibraryName`.
    pub library_name: Option<String>,
    /// `BASE`: the preferred address of the image, in bytes; 0 where none is given. No alignment is
    /// required.
    pub image_base: u64,
    /// `STACKSIZE`: the size in bytes to reserve for the stack; 0 where none is given.
    pub stack_reserve: u64,
    /// `STACKSIZE`: the size in bytes to commit of it; 0 where none is given.
    pub stack_commit: u64,
    /// `HEAPSIZE`: the size in bytes to reserve for the heap; 0 where none is given.
    pub heap_reserve: u64,
    /// `HEAPSIZE`: the size in bytes to commit of it; 0 where none is given.
    pub heap_commit: u64,
    /// `VERSION`: the number before the full stop; 0 where none is given.
    pub major_image_version: u32,
    /// `VERSION`: the number after the full stop; 0 where none is given.
    pub minor_image_version: u32,
    /// The major number of the system's version; no statement sets it.
    pub major_os_version: u32,
    /// The minor number of the system's version; no statement sets it.
    pub minor_os_version: u32,
}

impl ShortExport {
    /// An export with empty texts, the number 0 and no flag.
    pub fn empty(alloc: Global) -> Self
        ensures { export_view result ≡ empty_export }
    {
        ShortExport {
            name: String::new(alloc),
            ext_name: None,
            symbol_name: String::new(alloc),
            asked_name: None,
            alias_target: String::new(alloc),
            ordinal: 0,
            no_name: false,
            is_data: false,
            private: false,
            constant: false,
        }
    }

    /// An export of this name, with the number 0 and no flag.
    ///
    /// # Errors
    ///
    /// `OutOfMemory` alone.
    pub fn named(alloc: Global, name: &str) -> Result<Self, Error>
        ensures ok { IfOk result
            (λ export. export_view export ≡ record empty_export { name = name.now }) }
        ensures memory { IfErr result (λ error. error_cause error ≡ None) }
    {
        let mut export = ShortExport::empty(alloc);
        export.name = String::from_str(alloc, name)?;
        Ok(export)
    }

    /// A copy of the export.
    ///
    /// # Errors
    ///
    /// `OutOfMemory` alone.
    pub fn clone(&self) -> Result<Self, Error>
        ensures ok { IfOk result (λ copy. export_view copy ≡ export_view self.now) }
        ensures memory { IfErr result (λ error. error_cause error ≡ None) }
    {
        let ext_name = match &self.ext_name {
            Some(name) => Some(name.clone()?),
            None => None,
        };
        let asked_name = match &self.asked_name {
            Some(name) => Some(name.clone()?),
            None => None,
        };
        Ok(ShortExport {
            name: self.name.clone()?,
            ext_name,
            symbol_name: self.symbol_name.clone()?,
            asked_name,
            alias_target: self.alias_target.clone()?,
            ordinal: self.ordinal,
            no_name: self.no_name,
            is_data: self.is_data,
            private: self.private,
            constant: self.constant,
        })
    }
}

impl ModuleDef {
    /// A definition with no exports, an empty name, no name of the library and all numbers 0.
    pub fn empty(alloc: Global) -> Self
        ensures { definition_view result ≡ empty_definition }
    {
        ModuleDef {
            exports: Vec::new(alloc),
            import_name: String::new(alloc),
            library_name: None,
            image_base: 0,
            stack_reserve: 0,
            stack_commit: 0,
            heap_reserve: 0,
            heap_commit: 0,
            major_image_version: 0,
            minor_image_version: 0,
            major_os_version: 0,
            minor_os_version: 0,
        }
    }

    /// A copy of the definition.
    ///
    /// # Errors
    ///
    /// `OutOfMemory` alone.
    pub fn clone(&self) -> Result<Self, Error>
        ensures ok { IfOk result (λ copy. definition_view copy ≡ definition_view self.now) }
        ensures memory { IfErr result (λ error. error_cause error ≡ None) }
    {
        let library_name = match &self.library_name {
            Some(name) => Some(name.clone()?),
            None => None,
        };
        Ok(ModuleDef {
            exports: clone_exports(&self.exports)?,
            import_name: self.import_name.clone()?,
            library_name,
            image_base: self.image_base,
            stack_reserve: self.stack_reserve,
            stack_commit: self.stack_commit,
            heap_reserve: self.heap_reserve,
            heap_commit: self.heap_commit,
            major_image_version: self.major_image_version,
            minor_image_version: self.minor_image_version,
            major_os_version: self.major_os_version,
            minor_os_version: self.minor_os_version,
        })
    }
}

// Copies of the exports, in order.
fn clone_exports(exports: &Vec<ShortExport>) -> Result<Vec<ShortExport>, Error>
    ensures ok { IfOk result
        (λ copies. map export_view copies.items ≡ map export_view exports.now.items) }
    ensures memory { IfErr result (λ error. error_cause error ≡ None) }
{
    let mut copies = Vec::with_capacity(*exports.allocator(), exports.len())?;
    for export in exports.iter() {
        copies.push(export.clone()?)?;
    }
    Ok(copies)
}

/// Replaces each export's name by its `ext_name`, where that is set.
pub(crate) fn rename(mut def: ModuleDef) -> ModuleDef
    ensures { definition_view result ≡ renamed (definition_view def) }
{
    for export in def.exports.iter_mut() {
        rename_export(export);
    }
    def
}

// Replaces the name by `ext_name`, where that is set.
fn rename_export(export: &mut ShortExport)
    ensures { export_view export.new ≡ renamed_export (export_view export.old) }
{
    if let Some(name) = export.ext_name.take() {
        export.name = name;
    }
}

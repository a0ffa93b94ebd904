//! Numbers of the PE/COFF specification, each with the specification's name for it.

/// "Machine Types".
pub mod machine {
    /// `IMAGE_FILE_MACHINE_I386`: x86, 32 bits.
    pub const I386: u16 = 0x14C;
    /// `IMAGE_FILE_MACHINE_ARMNT`: ARM Thumb-2, 32 bits.
    pub const ARMNT: u16 = 0x1C4;
    /// `IMAGE_FILE_MACHINE_AMD64`: x86-64.
    pub const AMD64: u16 = 0x8664;
    /// `IMAGE_FILE_MACHINE_ARM64`: ARM64.
    pub const ARM64: u16 = 0xAA64;
}

/// "Characteristics" of a file header.
pub mod characteristics {
    /// `IMAGE_FILE_32BIT_MACHINE`: the machine has words of 32 bits.
    pub const MACHINE_32BIT: u16 = 0x100;
}

/// "Section Flags".
pub mod flags {
    /// `IMAGE_SCN_CNT_CODE`: executable code.
    pub const CNT_CODE: u32 = 0x20;
    /// `IMAGE_SCN_CNT_INITIALIZED_DATA`: initialised data.
    pub const CNT_INITIALIZED_DATA: u32 = 0x40;
    /// `IMAGE_SCN_CNT_UNINITIALIZED_DATA`: uninitialised data.
    pub const CNT_UNINITIALIZED_DATA: u32 = 0x80;
    /// `IMAGE_SCN_LNK_INFO`: comments or other information.
    pub const LNK_INFO: u32 = 0x200;
    /// `IMAGE_SCN_LNK_REMOVE`: no part of the image.
    pub const LNK_REMOVE: u32 = 0x800;
    /// `IMAGE_SCN_ALIGN_2BYTES`: aligned to 2 bytes.
    pub const ALIGN_2BYTES: u32 = 0x0020_0000;
    /// `IMAGE_SCN_ALIGN_4BYTES`: aligned to 4 bytes.
    pub const ALIGN_4BYTES: u32 = 0x0030_0000;
    /// `IMAGE_SCN_ALIGN_8BYTES`: aligned to 8 bytes.
    pub const ALIGN_8BYTES: u32 = 0x0040_0000;
    /// `IMAGE_SCN_ALIGN_16BYTES`: aligned to 16 bytes.
    pub const ALIGN_16BYTES: u32 = 0x0050_0000;
    /// `IMAGE_SCN_MEM_EXECUTE`: may be executed.
    pub const MEM_EXECUTE: u32 = 0x2000_0000;
    /// `IMAGE_SCN_MEM_READ`: may be read.
    pub const MEM_READ: u32 = 0x4000_0000;
    /// `IMAGE_SCN_MEM_WRITE`: may be written.
    pub const MEM_WRITE: u32 = 0x8000_0000;
}

/// "Section Number Values".
pub mod section_number {
    /// `IMAGE_SYM_UNDEFINED`: the symbol is defined in another object.
    pub const UNDEFINED: u16 = 0;
    /// `IMAGE_SYM_ABSOLUTE`: the value of the symbol is no address.
    pub const ABSOLUTE: u16 = 0xFFFF;
    /// `IMAGE_SYM_DEBUG`: the symbol is for a debugger.
    pub const DEBUG: u16 = 0xFFFE;
}

/// "Storage Class".
pub mod class {
    /// `IMAGE_SYM_CLASS_EXTERNAL`: a name visible to other objects, defined here or undefined.
    pub const EXTERNAL: u8 = 2;
    /// `IMAGE_SYM_CLASS_STATIC`: a name of this object alone.
    pub const STATIC: u8 = 3;
    /// `IMAGE_SYM_CLASS_FILE`: the name of a source file.
    pub const FILE: u8 = 103;
    /// `IMAGE_SYM_CLASS_SECTION`: a section.
    pub const SECTION: u8 = 104;
    /// `IMAGE_SYM_CLASS_WEAK_EXTERNAL`: a name with a default, "Auxiliary Format 3: Weak
    /// Externals".
    pub const WEAK_EXTERNAL: u8 = 105;
}

/// "Auxiliary Format 3: Weak Externals".
pub mod weak {
    /// `IMAGE_WEAK_EXTERN_SEARCH_ALIAS`: the name is another name for its default.
    pub const SEARCH_ALIAS: u32 = 3;
}

/// "Type Indicators", by machine.
pub mod relocation {
    /// `IMAGE_REL_I386_DIR32`: the address of the symbol.
    pub const I386_DIR32: u16 = 6;
    /// `IMAGE_REL_I386_DIR32NB`: the address relative to the image.
    pub const I386_DIR32NB: u16 = 7;
    /// `IMAGE_REL_ARM_ADDR32NB`: the address relative to the image.
    pub const ARM_ADDR32NB: u16 = 2;
    /// `IMAGE_REL_ARM_REL32`: the address relative to the byte after the field.
    pub const ARM_REL32: u16 = 0x0A;
    /// `IMAGE_REL_AMD64_ADDR32NB`: the address relative to the image.
    pub const AMD64_ADDR32NB: u16 = 3;
    /// `IMAGE_REL_AMD64_REL32`: the address relative to the byte after the field.
    pub const AMD64_REL32: u16 = 4;
    /// `IMAGE_REL_ARM64_ADDR32NB`: the address relative to the image.
    pub const ARM64_ADDR32NB: u16 = 2;
    /// `IMAGE_REL_ARM64_PAGEBASE_REL21`: the page of the address, relative to the page of the
    /// instruction.
    pub const ARM64_PAGEBASE_REL21: u16 = 4;
    /// `IMAGE_REL_ARM64_PAGEOFFSET_12L`: the offset of the address in its page, for a load.
    pub const ARM64_PAGEOFFSET_12L: u16 = 7;
}

/// "Import Type" of a short import.
pub mod import_type {
    /// `IMPORT_CODE`: executable code.
    pub const IMPORT_CODE: u16 = 0;
    /// `IMPORT_DATA`: data.
    pub const IMPORT_DATA: u16 = 1;
    /// `IMPORT_CONST`: a constant.
    pub const IMPORT_CONST: u16 = 2;
}

/// "Import Name Type" of a short import: how its import name follows from its symbol.
pub mod import_name_type {
    /// `IMPORT_ORDINAL`: by ordinal.
    pub const IMPORT_ORDINAL: u16 = 0;
    /// `IMPORT_NAME`: the symbol.
    pub const IMPORT_NAME: u16 = 1;
    /// `IMPORT_NAME_NOPREFIX`: the symbol without a `?`, `@` or `_` in front.
    pub const IMPORT_NAME_NOPREFIX: u16 = 2;
    /// `IMPORT_NAME_UNDECORATE`: the same, up to the first `@`.
    pub const IMPORT_NAME_UNDECORATE: u16 = 3;
}

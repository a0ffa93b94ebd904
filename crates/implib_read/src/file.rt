//! What a member's bytes are.

ghost use Rattle.std.specs.Prelude.{◌≡◌, IfOk};
ghost use Rattle.implib_read.specs.FileViews.{file_view};
ghost use Rattle.implib_read.specs.Files.{file_found};

use crate::object::Object;
use crate::short_import::ShortImport;
use std::alloc::{AllocError, Global};

/// What a member's bytes are.
#[derive(Drop)]
pub enum FileFound<'a> {
    ShortImport(ShortImport<'a>),
    Object(Object<'a>),
    /// Neither, as an anonymous object, or an object of another format.
    NotRead,
}

impl<'a> FileFound<'a> {
    /// What the bytes are.
    pub fn read(alloc: Global, bytes: &'a [u8]) -> Result<FileFound<'a>, AllocError>
        ensures { IfOk result (λ found. file_view found ≡ file_found bytes.now) }
    {
        if let Some(import) = ShortImport::read(bytes) {
            return Ok(FileFound::ShortImport(import));
        }
        let object = Object::read(alloc, bytes)?;
        match object {
            Some(object) => Ok(FileFound::Object(object)),
            None => Ok(FileFound::NotRead),
        }
    }
}

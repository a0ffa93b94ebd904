//! Where libraries and definitions are read from.

ghost use Rattle.std.specs.Prelude.{◌≡◌, ℕ, Bool, IfErr, IfOk, IfSome, List, Option, map, true};
ghost use Rattle.std.specs.String.{string_bytes};

use std::alloc::Global;
use std::fs::Files;
use std::io::ErrorKind;
use std::{fs, io};

/// Files that are read.
pub trait Shelf {
    // The bytes of the file that a path leads to, where they are known.
    ghost seen: { Self → List ℕ → Option (List ℕ) };

    // The names of the files in the folder that a path leads to, where they are known.
    ghost listed: { Self → List ℕ → Option (List (List ℕ)) };

    // Whether the file or the folder that a path leads to may be one that cannot be read.
    ghost may_fail: { Self → List ℕ → Bool };

    /// The bytes of a file.
    fn read(&self, alloc: Global, path: &str) -> io::Result<Vec<u8>>
        ensures read { IfOk result
            (λ bytes. IfSome (seen self.now path.now) (λ file. bytes.items ≡ file)) }
        ensures failed { IfErr result (λ _. may_fail self.now path.now ≡ true) };

    /// The names of what is in a folder, in the order that the system has them in; without those
    /// that are not UTF-8.
    fn names(&self, alloc: Global, folder: &str) -> io::Result<Vec<String>>
        ensures listed { IfOk result (λ names. IfSome (listed self.now folder.now)
            (λ known. map string_bytes names.items ≡ known)) }
        ensures failed { IfErr result (λ _. may_fail self.now folder.now ≡ true) };
}

/// The files of the system, of whose bytes no contract can tell.
#[derive(Drop)]
pub struct SystemFiles<'r, R> {
    pub rt: &'r R,
}

impl<'r, R: Files + AllocGlobal + Clone + Drop> Shelf for SystemFiles<'r, R> {
    ghost use Rattle.std.specs.Prelude.{None, true};

    ghost seen = { λ _ _. None };

    ghost listed = { λ _ _. None };

    ghost may_fail = { λ _ _. true };

    fn read(&self, _alloc: Global, path: &str) -> io::Result<Vec<u8>> {
        fs::read(self.rt, path)
    }

    fn names(&self, alloc: Global, folder: &str) -> io::Result<Vec<String>> {
        let mut names = Vec::new(alloc);
        for entry in fs::read_dir(self.rt, folder)? {
            match entry {
                Ok(entry) => names.push(String::from_str(alloc, entry.file_name())?)?,
                // A name that is not UTF-8.
                Err(error) if error.kind() == ErrorKind::InvalidFilename => {}
                Err(error) => return Err(error),
            }
        }
        Ok(names)
    }
}

//! Where a definition is read from, and where its library goes.

ghost use Rattle.implib_driver.specs.Disk.{DiskView, Replaces, beginning, failing, removed, stuck};
ghost use Rattle.std.specs.Prelude.{◌≡◌, [], Bool, IfOk, IfSome, None, OnErr, OnOk, Some, map};
ghost use Rattle.std.specs.Prelude.{true};
ghost use Rattle.std.specs.String.{string_bytes};

use std::alloc::Global;
use std::io;

/// A disk with files, of which one at a time is replaced by a new one, whole or not at all.
pub trait Disk {
    /// A new file.
    type File: io::Write + Drop;

    // What is known of it.
    ghost view: { Self → DiskView };

    // Whether the bytes of its new files are known.
    ghost is_known: { Bool };

    /// The bytes of a file.
    fn read(&mut self, alloc: Global, path: &str) -> io::Result<Vec<u8>>
        ensures bytes { IfOk result (λ bytes. IfSome ((view self.old).seen path.now)
            (λ file. bytes.items ≡ file)) }
        ensures same { OnOk result (view self.new ≡ view self.old) }
        ensures fault { OnErr result (view self.new ≡ failing (view self.old)) };

    /// Whether two paths lead to one file, by whatever names and links; where there is no file yet,
    /// to one place for it.
    fn is_same(&mut self, alloc: Global, one: &str, other: &str) -> io::Result<bool>
        ensures told { IfOk result (λ is. IfSome ((view self.old).same one.now other.now)
            (λ known. is ≡ known)) }
        ensures same { OnOk result (view self.new ≡ view self.old) }
        ensures fault { OnErr result (view self.new ≡ failing (view self.old)) };

    /// The names of what is in a folder, in the order that the system has them in; without those
    /// that are not UTF-8.
    fn names(&mut self, alloc: Global, folder: &str) -> io::Result<Vec<String>>
        ensures names { IfOk result (λ names. IfSome ((view self.old).listed folder.now)
            (λ known. map string_bytes names.items ≡ known)) }
        ensures same { OnOk result (view self.new ≡ view self.old) }
        ensures fault { OnErr result (view self.new ≡ failing (view self.old)) };

    /// A new and empty file, which is to replace the one that a path leads to. There is no other.
    fn begin(&mut self, path: &str) -> io::Result<Self::File>
        requires { (view self.old).left ≡ None }
        ensures empty { IfOk result
            (λ file. is_known ≡ true → Self.File.contents file ≡ Some []) }
        ensures begun { OnOk result (view self.new ≡ beginning path.now (view self.old)) }
        ensures fault { OnErr result (view self.new ≡ failing (view self.old)) };

    /// Puts the new file, which is closed, into its place. At an error it is in none.
    fn replace(&mut self, file: Self::File) -> io::Result<()>
        ensures replaced { OnOk result (Replaces is_known (view self.old) (view self.new)
            (Self.File.contents file)) }
        ensures fault { OnErr result (view self.new ≡ failing (view self.old)) };

    /// Removes the new file.
    fn remove(&mut self) -> io::Result<()>
        ensures done { OnOk result (view self.new ≡ removed (view self.old)) }
        ensures fault { OnErr result (view self.new ≡ stuck (view self.old)) };
}

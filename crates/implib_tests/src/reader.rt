//! Libraries of further makers as worked instances of the reader [`implib_read`], its rules at
//! their bounds, and the law that it reads the short imports of `implib_arm64ec`.

ghost use Rattle.implib_tests.specs.Read.Arm64ecImports.{ImportsAreRead, ShortImportsAreRead};
ghost use Rattle.implib_tests.specs.Read.Bounds.{WorkedBounds};
ghost use Rattle.implib_tests.specs.Read.DelayedLibraries.{WorkedDlltool32, WorkedDlltool64};
ghost use Rattle.implib_tests.specs.Read.DelayedLibraries.{WorkedLater, WorkedOwn64};
ghost use Rattle.implib_tests.specs.Read.MoreLibraries.{WorkedDelayed, WorkedMicrosoft};
ghost use Rattle.implib_tests.specs.Read.MoreLibraries.{WorkedRustc, WorkedWinebuild};

/// What a library of Microsoft's linker means, worked by hand.
pub fn worked_microsoft()
    ensures { WorkedMicrosoft }
{}

/// What a library of winebuild means, worked by hand.
pub fn worked_winebuild()
    ensures { WorkedWinebuild }
{}

/// What a library of winebuild for a delayed DLL means, worked by hand.
pub fn worked_delayed()
    ensures { WorkedDelayed }
{}

/// What the import library in a crate of rustc means, worked by hand.
pub fn worked_rustc()
    ensures { WorkedRustc }
{}

/// What sections, thunks and types mean at the bounds of the reader's rules, worked by hand.
pub fn worked_bounds()
    ensures { WorkedBounds }
{}

/// What a library of GNU dlltool 2.40 for a delayed DLL means on AMD64, worked by hand.
pub fn worked_dlltool64()
    ensures { WorkedDlltool64 }
{}

/// What a library of GNU dlltool 2.40 for a delayed DLL means on I386, worked by hand.
pub fn worked_dlltool32()
    ensures { WorkedDlltool32 }
{}

/// What a library in the form of later dlltools for a delayed DLL means, worked by hand.
pub fn worked_later()
    ensures { WorkedLater }
{}

/// What a library of `implib_dlltool -y` means on AMD64, worked by hand.
pub fn worked_own64()
    ensures { WorkedOwn64 }
{}

/// The short import for ARM64EC of an export is read as the import that the export means.
pub fn short_imports_are_read()
    ensures { ShortImportsAreRead }
{}

/// The short imports for ARM64EC of a library are read as the imports of its exports, in order.
pub fn imports_are_read()
    ensures { ImportsAreRead }
{}

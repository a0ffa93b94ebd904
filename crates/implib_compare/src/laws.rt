//! Laws of the definitions. The functions do nothing: their contracts are the laws.

ghost use Rattle.implib_compare.specs.Facts.{KeysTellFacts};
ghost use Rattle.implib_compare.specs.Meant.{Arm64ecMembersFound};
ghost use Rattle.implib_compare.specs.Worked.{WorkedComparisons, WorkedFlavors};
ghost use Rattle.implib_compare.specs.WorkedWorking.{WorkedWorking};

use implib_arm64ec::laws::archives_read_back;
use implib_read::laws::same_parts;

/// Two imports or aliases with one key are the same.
pub fn keys_tell_facts()
    ensures { KeysTellFacts }
{}

/// Which libraries are the same, and which differ in what, worked by hand.
pub fn worked_comparisons()
    ensures { WorkedComparisons }
{}

/// For which linker libraries are, worked by hand.
pub fn worked_flavors()
    ensures { WorkedFlavors }
{}

/// Where indexes mislead, and which libraries work, worked by hand.
pub fn worked_working()
    ensures { WorkedWorking }
{}

/// In the archive of a library for ARM64EC its members are found, in order, and nothing else.
pub fn arm64ec_members_found()
    ensures { Arm64ecMembersFound }
{
    same_parts();
    archives_read_back();
}

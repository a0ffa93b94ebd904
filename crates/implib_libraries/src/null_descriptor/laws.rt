//! Laws of null descriptors that are named after their library, each as the contract of a function
//! that does nothing.

ghost use Rattle.implib_libraries.specs.NullDescriptor.Worked.{WorkedHeaders};

/// The two objects have the tables that were worked by hand, on three machines and for three names.
pub fn worked_headers()
    ensures { WorkedHeaders }
{}

//! Laws: what a caller may conclude from the definitions, each as the contract of an empty
//! function.

pub mod archives;
pub mod both_flavors;
pub mod command_lines;
pub mod image;
pub mod lld;
pub mod other_names;
pub mod parts;
pub mod program;
pub mod search;
pub mod stored;
pub mod stubs;
pub mod tables;
pub mod texts;

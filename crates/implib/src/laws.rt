//! Laws: what a caller may conclude from the definitions, each as the contract of a function that
//! does nothing; and in `kinds` what `==` and `default` give.

pub mod asked;
pub mod definition;
pub mod grammar;
pub mod heard;
pub mod kinds;
pub mod library_name;
pub mod link;
pub mod members;
pub mod objects;
pub mod renaming;
pub mod rules;
pub mod tokens;

pub use asked::{asked_is_word, given_name_is_asked};
pub use definition::parsed_lacks_symbol_names;
pub use grammar::grammar_or_broken;
pub use link::{gnu_links, gnu_links_many};
pub use renaming::rename_twice;

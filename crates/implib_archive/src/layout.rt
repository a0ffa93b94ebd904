//! The pieces of which archives are made, for makers of further kinds.

pub use crate::bytes::{Label, Texts, push_header, push_padding, push_u32_le};
pub use crate::entries::{Entries, entries_of};
pub use crate::front::{write_front, write_numbers, write_strings};
pub use crate::long_names::LongNames;
pub use crate::offsets::{Places, place_members, strings_size};
pub use crate::output::{PIECE_MEMORY, put};
pub use crate::refusal::source_refusal;
pub use crate::writer::{first_place, has_too_many, write_members};

//! Headers, numbers and padding, appended.

ghost use Rattle.implib_archive.specs.Parts.{field, header_bytes, padding, u16_le, u32_be, u32_le};
ghost use Rattle.implib_archive.specs.Pushed.{Pushes, label_view, middle_of};
ghost use Rattle.std.specs.Prelude.{◌≡◌, ◌≤◌, ◌++◌, OnOk, length};

use itoa::Buffer;
use std::alloc::{AllocError, Global};

/// What the header of a part says beside its name and its size.
#[derive(Clone, Copy)]
pub enum Texts {
    Linker,
    LongNames,
    Member,
}

/// The texts of a header; the name is in two pieces.
#[derive(Clone, Copy)]
pub struct Label<'a> {
    pub name: &'a [u8],
    pub name_end: &'a [u8],
    pub texts: Texts,
}

// The fields of date, user, group and mode, one after another.
#[tactic(auto, unfolding(crate::specs::Parts::field))]
fn middle(texts: Texts) -> &'static [u8]
    ensures { result.now ≡ middle_of texts }
{
    match texts {
        Texts::Linker => b"0           0     0     0       ",
        Texts::LongNames => b"                                ",
        Texts::Member => b"0           0     0     644     ",
    }
}

// The width of the widest field.
const WIDEST: usize = 16;

// Appends a text in two pieces, filled up with spaces to a width.
fn push_field(out: &mut Vec<u8>, width: usize, text: &[u8], end: &[u8]) -> Result<(), AllocError>
    requires { width ≤ 16 }
    ensures { OnOk result (Pushes out.old.items out.new.items (field width (text.now ++ end.now))) }
{
    out.extend_from_slice(text)?;
    out.extend_from_slice(end)?;
    let spaces = [b' '; WIDEST];
    let left = width.saturating_sub(text.len() + end.len());
    out.extend_from_slice(&spaces[..left])
}

/// Appends a header whose data has this size.
pub fn push_header(out: &mut Vec<u8>, label: &Label, size: usize) -> Result<(), AllocError>
    ensures { OnOk result
        (Pushes out.old.items out.new.items (header_bytes (label_view label.now) size)) }
{
    let mut digits = Buffer::new();
    push_field(out, 16, label.name, label.name_end)?;
    out.extend_from_slice(middle(label.texts))?;
    push_field(out, 10, digits.format(size).as_bytes(), b"")?;
    out.extend_from_slice(b"`\n")
}

/// Appends the padding byte after data of an odd size.
pub fn push_padding(out: &mut Vec<u8>, byte: u8, size: usize) -> Result<(), AllocError>
    ensures { OnOk result (Pushes out.old.items out.new.items (padding byte size)) }
{
    let bytes = [byte; 1];
    out.extend_from_slice(&bytes[..size % 2])
}

// Appends a number in 4 bytes, the high one first.
#[tactic(auto, unfolding(crate::specs::Parts::u32_be))]
pub(crate) fn push_u32_be(out: &mut Vec<u8>, value: u32) -> Result<(), AllocError>
    ensures { OnOk result (Pushes out.old.items out.new.items (u32_be value)) }
{
    out.extend_from_slice(&value.to_be_bytes())
}

/// Appends a number in 4 bytes, the low one first.
#[tactic(auto, unfolding(crate::specs::Parts::u32_le))]
pub fn push_u32_le(out: &mut Vec<u8>, value: u32) -> Result<(), AllocError>
    ensures { OnOk result (Pushes out.old.items out.new.items (u32_le value)) }
{
    out.extend_from_slice(&value.to_le_bytes())
}

// Appends a number in 2 bytes, the low one first.
#[tactic(auto, unfolding(crate::specs::Parts::u16_le))]
pub(crate) fn push_u16_le(out: &mut Vec<u8>, value: u16) -> Result<(), AllocError>
    ensures { OnOk result (Pushes out.old.items out.new.items (u16_le value)) }
{
    out.extend_from_slice(&value.to_le_bytes())
}

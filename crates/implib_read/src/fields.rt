//! Numbers and texts in bytes.

ghost use Rattle.std.specs.Prelude.{◌≡◌, ℕ, ◌+◌, ◌<◌, ◌≤◌, ◌==◌, length, drop, take, position};
ghost use Rattle.std.specs.Prelude.{IsSome, IfSome};
ghost use Rattle.std.specs.List.{position_or_len};
ghost use Rattle.std.specs.Option.{option_map};
ghost use Rattle.implib.specs.Formats.Object.{bytes_at, u16_at, u32_at, before_nul, up_to_nul};
ghost use Rattle.implib.specs.Formats.ShortImport.{text_in};

use memchr::memchr;

/// `count` bytes from an offset on, if they are there.
#[tactic(auto, unfolding(implib::specs::Formats::Object::bytes_at))]
pub(crate) fn bytes_at(bytes: &[u8], offset: usize, count: usize) -> Option<&[u8]>
    ensures found { option_map (λ found. found.now) result ≡ bytes_at bytes.now offset count }
    ensures within { IsSome result → offset + count ≤ length bytes.now }
    ensures size { IfSome result (λ found. length found.now ≡ count) }
{
    if offset <= bytes.len() && count <= bytes.len() - offset {
        Some(&bytes[offset..offset + count])
    } else {
        None
    }
}

/// The number in two bytes.
#[tactic(auto, unfolding(implib::specs::Formats::Object::u16_at))]
pub(crate) fn u16_at(bytes: &[u8], offset: usize) -> u16
    requires { offset + 2 ≤ length bytes.now }
    ensures { result ≡ u16_at bytes.now offset }
{
    u16::from_le_bytes([bytes[offset], bytes[offset + 1]])
}

/// The number in four bytes.
#[tactic(auto, unfolding(implib::specs::Formats::Object::u32_at))]
pub(crate) fn u32_at(bytes: &[u8], offset: usize) -> u32
    requires { offset + 4 ≤ length bytes.now }
    ensures { result ≡ u32_at bytes.now offset }
{
    u32::from_le_bytes([
        bytes[offset],
        bytes[offset + 1],
        bytes[offset + 2],
        bytes[offset + 3],
    ])
}

/// Where the first NUL is.
#[tactic(auto, using(crate::proofs::Texts::first_nul))]
fn nul_at(bytes: &[u8]) -> Option<usize>
    ensures { result ≡ position (λ byte. byte == 0) bytes.now }
{
    memchr(0, bytes)
}

/// Where the first NUL is, or the length where there is none.
#[tactic(auto, using(crate::proofs::Texts::texts))]
fn nul_or_len(bytes: &[u8]) -> usize
    ensures { result ≡ position_or_len (λ byte. byte == 0) bytes.now }
{
    match nul_at(bytes) {
        Some(place) => place,
        None => bytes.len(),
    }
}

/// The text before the first NUL, and what is after that.
#[tactic(auto, using(crate::proofs::Texts::texts))]
pub(crate) fn text_in(bytes: &[u8]) -> Option<(&[u8], &[u8])>
    ensures { option_map (λ found. (found.0.now, found.1.now)) result ≡ text_in bytes.now }
{
    let end = nul_or_len(bytes);
    if end < bytes.len() {
        Some((&bytes[..end], &bytes[end + 1..]))
    } else {
        None
    }
}

/// The bytes before the first NUL, if there is one.
#[tactic(auto, using(crate::proofs::Texts::texts))]
pub(crate) fn before_nul(bytes: &[u8]) -> Option<&[u8]>
    ensures { option_map (λ found. found.now) result ≡ before_nul bytes.now }
{
    let end = nul_or_len(bytes);
    if end < bytes.len() {
        Some(&bytes[..end])
    } else {
        None
    }
}

/// The bytes before the first NUL, or all.
#[tactic(auto, using(crate::proofs::Texts::texts))]
pub(crate) fn up_to_nul(bytes: &[u8]) -> &[u8]
    ensures { result.now ≡ up_to_nul bytes.now }
{
    &bytes[..nul_or_len(bytes)]
}

/// The bytes after the first `count`, or none where there are fewer.
pub(crate) fn behind(bytes: &[u8], count: usize) -> &[u8]
    ensures { result.now ≡ drop count bytes.now }
{
    &bytes[count.min(bytes.len())..]
}

//! Numbers and texts in bytes.

ghost use Rattle.std.specs.Prelude.{◌≡◌, ℕ, ◌+◌, ◌<◌, ◌≤◌, ◌==◌, length, position, IsSome, IfSome};
ghost use Rattle.std.specs.Option.{option_map};
ghost use Rattle.implib_dll.specs.Bytes.{bytes_at, text_in, u16_at, u32_at};

/// `count` bytes from an offset on, if they are there.
#[tactic(auto, unfolding(crate::specs::Bytes::bytes_at))]
pub(crate) fn bytes_at(bytes: &[u8], offset: usize, count: usize) -> Option<&[u8]>
    ensures found { option_map (λ found. found.now) result ≡ bytes_at bytes.now offset count }
    ensures size { IfSome result (λ found. length found.now ≡ count) }
{
    if offset <= bytes.len() && count <= bytes.len() - offset {
        Some(&bytes[offset..offset + count])
    } else {
        None
    }
}

/// The number in two bytes.
#[tactic(auto, unfolding(crate::specs::Bytes::u16_at))]
pub(crate) fn u16_at(bytes: &[u8], offset: usize) -> u16
    requires { offset + 2 ≤ length bytes.now }
    ensures { result ≡ u16_at bytes.now offset }
{
    u16::from_le_bytes([bytes[offset], bytes[offset + 1]])
}

/// The number in four bytes.
#[tactic(auto, unfolding(crate::specs::Bytes::u32_at))]
pub(crate) fn u32_at(bytes: &[u8], offset: usize) -> u32
    requires { offset + 4 ≤ length bytes.now }
    ensures { result ≡ u32_at bytes.now offset }
{
    u32::from_le_bytes([
        bytes[offset],
        bytes[offset + 1],
        bytes[offset + 2],
        bytes[offset + 3],
    ])
}

/// Where the first NUL is.
fn nul_at(bytes: &[u8]) -> Option<usize>
    ensures found { result ≡ position (λ byte. byte == 0) bytes.now }
    ensures within { IfSome result (λ place. place < length bytes.now) }
{
    bytes.iter().position(|byte| *byte == 0)
}

/// The text before the first NUL.
#[tactic(auto, unfolding(crate::specs::Bytes::text_in))]
pub(crate) fn text_in(bytes: &[u8]) -> Option<&[u8]>
    ensures { option_map (λ found. found.now) result ≡ text_in bytes.now }
{
    match nul_at(bytes) {
        Some(size) => Some(&bytes[..size]),
        None => None,
    }
}

//! Bytes of ASCII in texts.

ghost use Rattle.implib.specs.Ascii.{begins};
ghost use Rattle.std.specs.Prelude.{◌==◌, ◌≡◌};

/// Whether this is the first byte of the text.
pub(crate) fn begins_with(text: &str, byte: u8) -> bool
    ensures { result ≡ begins (λ b. b == byte) text.now }
{
    let bytes = text.as_bytes();
    !bytes.is_empty() && bytes[0] == byte
}

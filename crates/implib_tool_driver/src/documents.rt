//! The documents of a text.

ghost use Rattle.implib_tool_driver.specs.Documents.{Divides, IsSeparator, IsUndivided};
ghost use Rattle.implib_tool_driver.specs.Views.{IsLineAt};
ghost use Rattle.std.specs.Prelude.{◌≡◌, ◌≤◌, ◌↔◌, IsTrue, MatchOption, length};

// Whether a line separates.
fn is_separator(line: &[u8]) -> bool
    ensures { IsTrue result ↔ IsSeparator line.now }
{
    line == b"---".as_slice() || line == b"---\r".as_slice()
}

// The end of the line that begins at `start`, and the begin of the next line, or the text's end.
fn line_at(text: &[u8], start: usize) -> (usize, usize)
    requires { start ≤ length text.now }
    ensures { IsLineAt text.now start result.0 result.1 }
{
    for i in start..text.len() {
        if text[i] == b'\n' {
            return (i, i + 1);
        }
    }
    (text.len(), text.len())
}

/// The text up to its first separating line, and what follows that line, if there is one.
pub fn divide(text: &str) -> (&str, Option<&str>)
    ensures { MatchOption result.1 ((result.0.now ≡ text.now) × IsUndivided text.now)
        (λ rest. Divides text.now result.0.now rest.now) }
{
    let bytes = text.as_bytes();
    let mut start = 0;
    while start < bytes.len() {
        let (end, next) = line_at(bytes, start);
        if is_separator(&bytes[start..end]) {
            return (&text[..start], Some(&text[next..]));
        }
        start = next;
    }
    (text, None)
}

//! The text that shows members.

ghost use Rattle.implib.specs.Library.{member_view};
ghost use Rattle.implib_tool_driver.specs.Listing.{bytes_listing, byte_listing, escaped};
ghost use Rattle.implib_tool_driver.specs.Listing.{escaped_byte, hex_digit, is_plain, listing_of};
ghost use Rattle.implib_tool_driver.specs.Listing.{member_listing, symbol_listing};
ghost use Rattle.implib_tool_driver.specs.Views.{Passes, buffered};
ghost use Rattle.std.specs.List.{enumerate_from, list_all};
ghost use Rattle.std.specs.Prelude.{◌≡◌, ◌%◌, ◌+◌, ◌<◌, ◌≤◌, [], ◌∷◌, ◌++◌, codes, decimal};
ghost use Rattle.std.specs.Prelude.{flat_map, length, map, min, slice_range};
ghost use Rattle.std.specs.String.{string_bytes};

use crate::device::Sink;
use crate::listing::line::line_of;
use crate::output::Buffer;
use implib::Member;

mod line;

// A hexadecimal digit, in lower case.
fn hex_digit_of(value: u8) -> u8
    requires { value < 16 }
    ensures { result ≡ hex_digit value }
{
    if value < 10 {
        b'0' + value
    } else {
        b'a' + (value - 10)
    }
}

// Whether a byte of a name is shown as it is.
fn is_plain(byte: u8) -> bool
    ensures { result ≡ is_plain byte }
{
    byte >= 0x21 && byte <= 0x7E && byte != b'\\'
}

// Whether each byte of a name is shown as it is. It looks at all of them, many at a time.
fn are_plain(name: &[u8]) -> bool
    ensures { result ≡ list_all is_plain name.now }
{
    let mut plain = true;
    for byte in name {
        plain = plain & is_plain(*byte);
    }
    plain
}

// Lists a byte of a name.
fn list_name_byte<W: Sink>(buffer: &mut Buffer, writer: &mut W, byte: u8)
    ensures { Passes W.keeps
        (buffered (W.contents writer.old) (W.failed writer.old) buffer.old)
        (buffered (W.contents writer.new) (W.failed writer.new) buffer.new)
        (escaped_byte byte) }
{
    if is_plain(byte) {
        return buffer.put(writer, &[byte]);
    }
    let escape = [
        b'\\',
        b'x',
        hex_digit_of(byte / 16),
        hex_digit_of(byte % 16),
    ];
    buffer.put(writer, &escape);
}

// Lists a name.
fn list_name<W: Sink>(buffer: &mut Buffer, writer: &mut W, name: &str)
    ensures { Passes W.keeps
        (buffered (W.contents writer.old) (W.failed writer.old) buffer.old)
        (buffered (W.contents writer.new) (W.failed writer.new) buffer.new)
        (escaped name.now) }
{
    if are_plain(name.as_bytes()) {
        return buffer.put(writer, name.as_bytes());
    }
    for byte in name.as_bytes() {
        list_name_byte(buffer, writer, *byte);
    }
}

// Lists the line of a listed symbol.
fn list_symbol<W: Sink>(buffer: &mut Buffer, writer: &mut W, symbol: &str)
    ensures { Passes W.keeps
        (buffered (W.contents writer.old) (W.failed writer.old) buffer.old)
        (buffered (W.contents writer.new) (W.failed writer.new) buffer.new)
        (symbol_listing symbol.now) }
{
    buffer.put(writer, b"symbol ");
    list_name(buffer, writer, symbol);
    buffer.put(writer, b"\n");
}

// Lists the lines of listed symbols.
fn list_symbols<W: Sink>(buffer: &mut Buffer, writer: &mut W, symbols: &[String])
    ensures { Passes W.keeps
        (buffered (W.contents writer.old) (W.failed writer.old) buffer.old)
        (buffered (W.contents writer.new) (W.failed writer.new) buffer.new)
        (flat_map symbol_listing (map string_bytes symbols.now)) }
{
    for symbol in symbols {
        list_symbol(buffer, writer, symbol.as_str());
    }
}

// Lists the bytes from `start` to `end`, which make a line.
fn list_line<W: Sink>(buffer: &mut Buffer, writer: &mut W, bytes: &[u8], start: usize, end: usize)
    requires some { start < end }
    requires whole { end ≡ min (start + 16) (length bytes.now) }
    requires first { start % 16 ≡ 0 }
    ensures { Passes W.keeps
        (buffered (W.contents writer.old) (W.failed writer.old) buffer.old)
        (buffered (W.contents writer.new) (W.failed writer.new) buffer.new)
        (flat_map (byte_listing (length bytes.now))
        (enumerate_from start (slice_range bytes.now start end))) }
{
    let mut line = [b' '; 48];
    for index in start..end {
        let at = 3 * (index - start);
        line[at] = hex_digit_of(bytes[index] / 16);
        line[at + 1] = hex_digit_of(bytes[index] % 16);
        line[at + 2] = b' ';
    }
    line[3 * (end - start) - 1] = b'\n';
    buffer.put(writer, &line[..3 * (end - start)]);
}

// Lists 16 bytes, which make a line.
fn list_whole_line<W: Sink>(buffer: &mut Buffer, writer: &mut W, bytes: &[u8])
    requires { length bytes.now ≡ 16 }
    ensures { Passes W.keeps
        (buffered (W.contents writer.old) (W.failed writer.old) buffer.old)
        (buffered (W.contents writer.new) (W.failed writer.new) buffer.new)
        (bytes_listing bytes.now) }
{
    let (first, middle, last) = line_of(bytes);
    buffer.put(writer, &first);
    buffer.put(writer, &middle);
    buffer.put(writer, &last);
}

// Lists bytes, a line for each 16 and one for those left over.
fn list_bytes<W: Sink>(buffer: &mut Buffer, writer: &mut W, bytes: &[u8])
    ensures { Passes W.keeps
        (buffered (W.contents writer.old) (W.failed writer.old) buffer.old)
        (buffered (W.contents writer.new) (W.failed writer.new) buffer.new)
        (bytes_listing bytes.now) }
{
    let mut start = 0;
    while bytes.len() - start >= 16 {
        list_whole_line(buffer, writer, &bytes[start..start + 16]);
        start += 16;
    }
    if start < bytes.len() {
        list_line(buffer, writer, bytes, start, bytes.len());
    }
}

// Lists the first line of a member: its name, and its length in bytes.
fn list_head<W: Sink>(buffer: &mut Buffer, writer: &mut W, name: &str, length: usize)
    ensures { Passes W.keeps
        (buffered (W.contents writer.old) (W.failed writer.old) buffer.old)
        (buffered (W.contents writer.new) (W.failed writer.new) buffer.new)
        (codes "member " ++ (escaped name.now ++ (32 ∷ (decimal length ++ 10 ∷ [])))) }
{
    let mut number = itoa::Buffer::new();
    buffer.put(writer, b"member ");
    list_name(buffer, writer, name);
    buffer.put(writer, b" ");
    buffer.put(writer, number.format(length).as_bytes());
    buffer.put(writer, b"\n");
}

// Lists a member.
fn list_member<W: Sink>(buffer: &mut Buffer, writer: &mut W, member: &Member)
    ensures { Passes W.keeps
        (buffered (W.contents writer.old) (W.failed writer.old) buffer.old)
        (buffered (W.contents writer.new) (W.failed writer.new) buffer.new)
        (member_listing (member_view member.now)) }
{
    list_head(buffer, writer, member.name.as_str(), member.bytes.len());
    list_symbols(buffer, writer, member.symbols.as_slice());
    list_bytes(buffer, writer, member.bytes.as_slice());
}

/// Lists members, in order. It ends with the member at which the writer fails.
pub fn list_members<W: Sink>(buffer: &mut Buffer, writer: &mut W, members: &[Member])
    ensures { Passes W.keeps
        (buffered (W.contents writer.old) (W.failed writer.old) buffer.old)
        (buffered (W.contents writer.new) (W.failed writer.new) buffer.new)
        (listing_of (map member_view members.now)) }
{
    for member in members {
        list_member(buffer, writer, member);
        if writer.has_failed() {
            return;
        }
    }
}

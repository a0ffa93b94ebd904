//! Members as bytes: how many these are, and putting them into a buffer.

ghost use Rattle.implib.specs.Library.{member_view};
ghost use Rattle.implib_c_calls.specs.Encoding.{encoded_list, encoded_member, encoded_members};
ghost use Rattle.implib_c_calls.specs.Encoding.{encoded_number, encoded_text};
ghost use Rattle.implib_c_calls.specs.Fill.{Fills};
ghost use Rattle.std.specs.Prelude.{◌+◌, ◌≡◌, ◌≤◌, IfSome, length, map};
ghost use Rattle.std.specs.String.{string_bytes};

use implib::Member;

// The bytes that a number takes.
const NUMBER_LENGTH: usize = 8;

// The length of a text's encoding, if it fits.
fn text_length(text: &[u8]) -> Option<usize>
    ensures { IfSome result (λ n. n ≡ length (encoded_text text.now)) }
{
    text.len().checked_add(NUMBER_LENGTH)
}

// The length of the encoding of a list of symbols, if it fits.
fn symbols_length(symbols: &[String]) -> Option<usize>
    ensures { IfSome result (λ n. n ≡ length
        (encoded_list encoded_text (map string_bytes symbols.now))) }
{
    let mut sum = NUMBER_LENGTH;
    for symbol in symbols {
        sum = sum.checked_add(text_length(symbol.as_bytes())?)?;
    }
    Some(sum)
}

// The length of a member's encoding, if it fits.
fn member_length(member: &Member) -> Option<usize>
    ensures { IfSome result (λ n. n ≡ length (encoded_member (member_view member.now))) }
{
    let name = text_length(member.name.as_bytes())?;
    let symbols = symbols_length(member.symbols.as_slice())?;
    let file = text_length(member.bytes.as_slice())?;
    name.checked_add(symbols)?.checked_add(file)
}

/// The length of the members' encoding, if it fits.
pub fn members_length(members: &[Member]) -> Option<usize>
    ensures { IfSome result (λ n. n ≡ length (encoded_members (map member_view members.now))) }
{
    let mut sum = NUMBER_LENGTH;
    for member in members {
        sum = sum.checked_add(member_length(member)?)?;
    }
    Some(sum)
}

/// Puts bytes into the buffer from an offset on, where there is room. Gives the offset after them.
pub fn put_bytes(buffer: &mut [u8], start: usize, bytes: &[u8]) -> usize
    requires { start + length bytes.now ≤ length buffer.old }
    ensures { Fills buffer.old buffer.new start result bytes.now }
{
    let end = start + bytes.len();
    buffer[start..end].copy_from_slice(bytes);
    end
}

// Puts a number into the buffer.
#[tactic(auto, unfolding(crate::specs::Encoding::encoded_number))]
fn put_number(buffer: &mut [u8], start: usize, number: usize) -> usize
    requires { start + 8 ≤ length buffer.old }
    ensures { Fills buffer.old buffer.new start result (encoded_number number) }
{
    put_bytes(buffer, start, &number.to_le_bytes())
}

// Puts a text into the buffer.
fn put_text(buffer: &mut [u8], start: usize, text: &[u8]) -> usize
    requires { start + length (encoded_text text.now) ≤ length buffer.old }
    ensures { Fills buffer.old buffer.new start result (encoded_text text.now) }
{
    let at = put_number(buffer, start, text.len());
    put_bytes(buffer, at, text)
}

// Puts a list of symbols into the buffer.
fn put_symbols(buffer: &mut [u8], start: usize, symbols: &[String]) -> usize
    requires { start + length (encoded_list encoded_text
        (map string_bytes symbols.now)) ≤ length buffer.old }
    ensures { Fills buffer.old buffer.new start result
        (encoded_list encoded_text (map string_bytes symbols.now)) }
{
    let mut at = put_number(buffer, start, symbols.len());
    for symbol in symbols {
        at = put_text(buffer, at, symbol.as_bytes());
    }
    at
}

// Puts a member into the buffer.
fn put_member(buffer: &mut [u8], start: usize, member: &Member) -> usize
    requires { start + length (encoded_member (member_view member.now)) ≤ length buffer.old }
    ensures { Fills buffer.old buffer.new start result (encoded_member (member_view member.now)) }
{
    let at = put_text(buffer, start, member.name.as_bytes());
    let at = put_symbols(buffer, at, member.symbols.as_slice());
    put_text(buffer, at, member.bytes.as_slice())
}

/// Puts the members into the buffer, from its beginning on. There is room for their encoding. Gives
/// its length.
pub fn put_members(buffer: &mut [u8], members: &[Member]) -> usize
    requires { length (encoded_members (map member_view members.now)) ≤ length buffer.old }
    ensures { Fills buffer.old buffer.new 0 result (encoded_members (map member_view members.now)) }
{
    let mut at = put_number(buffer, 0, members.len());
    for member in members {
        at = put_member(buffer, at, member);
    }
    at
}

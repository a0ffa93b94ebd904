//! The line of 16 bytes, made with many lanes at a time.

ghost use Rattle.implib_tool_driver.specs.Listing.{bytes_listing, hex_digit};
ghost use Rattle.std.specs.Prelude.{◌≡◌, ◌%◌, ◌++◌, ◌/◌, ◌<◌, length, map};
ghost use Rattle.std.specs.Simd.Lanes.{Each1};

use std::simd::prelude::*;

// The hexadecimal digits, in lower case.
const DIGITS: [u8; 16] = *b"0123456789abcdef";

// The digit of each value.
fn digits_of(values: u8x16) -> u8x16
    requires { Each1 (λ n. n < 16) values }
    ensures { result ≡ map hex_digit values }
{
    u8x16::from_array(DIGITS).swizzle_dyn(values)
}

// The high half of each byte.
fn high_of(bytes: u8x16) -> u8x16
    ensures { result ≡ map (λ b. b / 16) bytes }
{
    bytes / u8x16::splat(16)
}

// The low half of each byte.
fn low_of(bytes: u8x16) -> u8x16
    ensures { result ≡ map (λ b. b % 16) bytes }
{
    bytes % u8x16::splat(16)
}

/// The line of 16 bytes, in three pieces of 16.
pub(super) fn line_of(bytes: &[u8]) -> ([u8; 16], [u8; 16], [u8; 16])
    requires { length bytes.now ≡ 16 }
    ensures { result.0 ++ (result.1 ++ result.2) ≡ bytes_listing bytes.now }
{
    let bytes = u8x16::from_slice(bytes);
    let high = digits_of(high_of(bytes));
    let low = digits_of(low_of(bytes));
    let front = high.shuffle::<16>(
        low,
        [0, 16, 1, 17, 2, 18, 3, 19, 4, 20, 5, 21, 6, 22, 7, 23],
    );
    let back = high.shuffle::<16>(
        low,
        [8, 24, 9, 25, 10, 26, 11, 27, 12, 28, 13, 29, 14, 30, 15, 31],
    );
    let across = front.shuffle::<16>(
        back,
        [11, 12, 13, 14, 15, 16, 17, 18, 19, 20, 21, 0, 0, 0, 0, 0],
    );
    let spaces = u8x16::splat(b' ');
    let first = front.shuffle::<16>(
        spaces,
        [0, 1, 16, 2, 3, 16, 4, 5, 16, 6, 7, 16, 8, 9, 16, 10],
    );
    let middle = across.shuffle::<16>(
        spaces,
        [0, 16, 1, 2, 16, 3, 4, 16, 5, 6, 16, 7, 8, 16, 9, 10],
    );
    let ended = back.shuffle::<16>(
        u8x16::splat(b'\n'),
        [0, 6, 7, 0, 8, 9, 0, 10, 11, 0, 12, 13, 0, 14, 15, 16],
    );
    let last = ended.shuffle::<16>(
        spaces,
        [16, 1, 2, 16, 4, 5, 16, 7, 8, 16, 10, 11, 16, 13, 14, 15],
    );
    (first.to_array(), middle.to_array(), last.to_array())
}

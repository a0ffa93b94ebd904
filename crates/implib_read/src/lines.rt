//! The lines of a text, found by their ends: a line is found in the time of a search, however long
//! it is, so that many offsets in one long line take no time that is a product.

ghost use Rattle.std.specs.Prelude.{◌≡◌, ◌≤◌, length, drop, IfOk};
ghost use Rattle.std.specs.List.{prefix_len};
ghost use Rattle.implib_read.specs.MemberNames.{ends_from, goes_on};

use std::alloc::{AllocError, Global};

/// Whether a line goes on with a byte.
fn goes_on(byte: u8) -> bool
    ensures { result ≡ goes_on byte }
{
    byte != 0 && byte != 10
}

/// The places at which the lines of a text end.
pub(crate) fn line_ends(alloc: Global, text: &[u8]) -> Result<Vec<usize>, AllocError>
    ensures { IfOk result (λ ends. ends.items ≡ ends_from 0 text.now) }
{
    let mut ends = Vec::new(alloc);
    for place in 0..text.len() {
        if !goes_on(text[place]) {
            ends.push(place)?;
        }
    }
    Ok(ends)
}

/// How many bytes are before the end of the line at an offset.
fn line_len(text: &[u8], ends: &[usize], offset: usize) -> usize
    requires ends { ends.now ≡ ends_from 0 text.now }
    requires within { offset ≤ length text.now }
    ensures { result ≡ prefix_len goes_on (drop offset text.now) }
{
    let next = ends.partition_point(|end| *end < offset);
    let end = if next < ends.len() {
        ends[next]
    } else {
        text.len()
    };
    end - offset
}

/// The same at any offset: none are behind the text.
#[tactic(auto, using(crate::proofs::LineEnds::none_behind))]
pub(crate) fn line_len_at(text: &[u8], ends: &[usize], offset: usize) -> usize
    requires { ends.now ≡ ends_from 0 text.now }
    ensures { result ≡ prefix_len goes_on (drop offset text.now) }
{
    if offset <= text.len() {
        line_len(text, ends, offset)
    } else {
        0
    }
}

//! From a text and options to the library that the program makes of them, but with a null
//! descriptor that is named after the library; or to what is wrong.

ghost use Rattle.implib_c_calls.specs.Given.{length_given, place_given, status_given};
ghost use Rattle.implib_c_calls.specs.LibraryWith.{NamedLibraryAnswers, given_options};
ghost use Rattle.implib_c_calls.specs.Status.{status_number};

use crate::library_with::{OptionsArguments, failure_in, options_with};
use crate::outcome::{Failure, pack_into};
use implib_libraries::null_descriptor::named_members_for;
use implib_rules::library::kind_for;
use std::alloc::Global;

/// Puts the library of a text with these options at the beginning of the buffer. Gives its length.
/// An error leaves the buffer as it was.
///
/// # Errors
///
/// Those of `library_with_into`, in its order.
pub fn named_library_into(
    alloc: Global,
    text: &[u8],
    arguments: OptionsArguments<'_>,
    buffer: &mut [u8],
) -> Result<usize, Failure>
    ensures { NamedLibraryAnswers text.now (given_options arguments.entry) buffer.old buffer.new
        (length_given result) (place_given result) (status_number (status_given result)) }
{
    match options_with(arguments) {
        Ok(options) => match named_members_for(alloc, text, &options) {
            Ok(members) => {
                let kind = kind_for(options.flavor, members.len());
                pack_into(alloc, buffer, &members, kind)
            }
            Err(refusal) => Err(failure_in(text, refusal)),
        },
        Err(failure) => Err(failure),
    }
}

//! From a text and options to the library of delayed imports that the program makes of them, or to
//! what is wrong.

ghost use Rattle.implib_c_calls.specs.Delayed.{DelayedAnswers, IsDelayedWithin, failure_delayed};
ghost use Rattle.implib_c_calls.specs.Given.{length_given, place_given, status_given};
ghost use Rattle.implib_c_calls.specs.LibraryWith.{given_options};
ghost use Rattle.implib_c_calls.specs.Status.{status_number};
ghost use Rattle.std.specs.Prelude.{◌≡◌};

use crate::library_with::{OptionsArguments, failure_in, options_with, place_in};
use crate::outcome::{Failure, NoDelay, pack_into};
use implib::Flavor;
use implib_archive::Kind;
use implib_libraries::delayed::{DelayRefusal, Undelayed, delayed_members_for};
use std::alloc::Global;

// What a refusal of a text becomes: its offset is in the text with its byte order mark.
fn failure_delayed(text: &[u8], refusal: DelayRefusal) -> Failure
    requires { IsDelayedWithin text.now refusal }
    ensures { result ≡ failure_delayed text.now refusal }
{
    match refusal {
        DelayRefusal::Refused(refusal) => failure_in(text, refusal),
        DelayRefusal::Undelayed(Undelayed::Data(position)) => {
            Failure::NotDelayed(NoDelay::Data, place_in(text, position.offset))
        }
        DelayRefusal::Undelayed(Undelayed::Alias(position)) => {
            Failure::NotDelayed(NoDelay::Alias, place_in(text, position.offset))
        }
        DelayRefusal::Undelayed(Undelayed::Machine) => Failure::NotDelayed(NoDelay::Machine, 0),
    }
}

/// Puts the library of delayed imports that the program makes of a text with these options at the
/// beginning of the buffer. Gives its length. An error leaves the buffer as it was.
///
/// # Errors
///
/// The first that applies: `UnknownMachine`, `UnknownFlavor`, `UnknownFlags`, `DllNotUtf8`,
/// `NotDelayed` for Microsoft's linkers; then `NotUtf8`, `SyntaxError`, `NoDllName`, `RefusedAt`,
/// `NotDelayed`, `NoArchive`, `BufferTooSmall`. `OutOfMemory` can precede the last seven, and come
/// where none applies.
pub fn delayed_into(
    alloc: Global,
    text: &[u8],
    arguments: OptionsArguments<'_>,
    buffer: &mut [u8],
) -> Result<usize, Failure>
    ensures { DelayedAnswers text.now (given_options arguments.entry) buffer.old buffer.new
        (length_given result) (place_given result) (status_number (status_given result)) }
{
    match options_with(arguments) {
        Ok(options) => match options.flavor {
            Flavor::Msvc => Err(Failure::NotDelayed(NoDelay::Flavor, 0)),
            Flavor::Gnu => match delayed_members_for(alloc, text, &options) {
                Ok(delayed) => pack_into(alloc, buffer, &delayed.members, Kind::Gnu),
                Err(refusal) => Err(failure_delayed(text, refusal)),
            },
        },
        Err(failure) => Err(failure),
    }
}

//! The devices of the system.

use crate::device::{DeviceFault, Sink, Source};
use std::io;

/// A reader or a writer of std's, with a flag that says whether a call has failed.
///
/// Its bytes are those of the reader or the writer in it. It repeats no call.
#[derive(Drop)]
pub struct Host<T> {
    inner: T,
    has_failed: bool,
}

impl<T> Host<T> {
    ghost use Rattle.implib_tool_driver.specs.Device.{host_failed, host_inner};
    ghost use Rattle.std.specs.Prelude.{◌≡◌, false};

    /// A device that has not failed.
    pub fn new(inner: T) -> Self
        ensures sound { host_failed result ≡ false }
        ensures inner { host_inner result ≡ inner }
    {
        Host {
            inner,
            has_failed: false,
        }
    }
}

impl<T: io::Read> Source for Host<T> {
    ghost use Rattle.implib_tool_driver.specs.Device.{host_failed, host_inner};

    ghost remaining = { λ host. T.remaining (host_inner host) };

    ghost failed = { host_failed };

    fn has_failed(&self) -> bool {
        self.has_failed
    }

    fn read(&mut self, buf: &mut [u8]) -> Result<usize, DeviceFault> {
        match self.inner.read(buf) {
            Ok(count) => Ok(count),
            Err(_) => {
                self.has_failed = true;
                Err(DeviceFault)
            }
        }
    }
}

impl<T: io::Write> Sink for Host<T> {
    ghost use Rattle.implib_tool_driver.specs.Device.{host_failed, host_inner};
    ghost use Rattle.std.specs.Prelude.{true};

    ghost contents = { λ host. T.contents (host_inner host) };

    ghost failed = { host_failed };

    ghost keeps = { true };

    fn has_failed(&self) -> bool {
        self.has_failed
    }

    fn write(&mut self, buf: &[u8]) -> Result<usize, DeviceFault> {
        let written = self.inner.write(buf);
        let is_taken = match written {
            Ok(count) => count > 0 || buf.is_empty(),
            Err(_) => false,
        };
        self.has_failed = self.has_failed || !is_taken;
        written.map_err(|_| DeviceFault)
    }
}

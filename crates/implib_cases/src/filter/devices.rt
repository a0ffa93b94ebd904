//! Devices over memory, which fail where a case says so.

ghost use Rattle.std.specs.Prelude.{◌≡◌, IfOk, Some, false};

use implib_tool_driver::device::{DeviceFault, Sink, Source};
use std::alloc::{AllocError, Global};

/// How many bytes a device moves in a call, and how many calls succeed.
#[derive(Clone, Copy)]
pub struct Pace {
    pub step: usize,
    pub calls: usize,
}

/// The pace of a device that moves all bytes at once, always.
pub const AMPLE: Pace = Pace {
    step: usize::MAX,
    calls: usize::MAX,
};

/// The pace of a device that moves a byte a call.
pub const SINGLE: Pace = Pace {
    step: 1,
    calls: usize::MAX,
};

/// A reader of bytes that lie in memory.
#[derive(Drop)]
pub struct MemorySource<'a> {
    rest: &'a [u8],
    pace: Pace,
    has_failed: bool,
    late_calls: usize,
}

impl<'a> MemorySource<'a> {
    /// It gives at least one byte that is left.
    pub fn new(bytes: &'a [u8], pace: Pace) -> Self
        ensures sound { result.has_failed ≡ false }
    {
        MemorySource {
            rest: bytes,
            pace,
            has_failed: false,
            late_calls: 0,
        }
    }

    /// How many calls came after one that failed.
    pub fn late_calls(&self) -> usize {
        self.late_calls
    }
}

impl<'a> Source for MemorySource<'a> {
    ghost remaining = { λ source. Some source.rest.now };

    ghost failed = { λ source. source.has_failed };

    fn has_failed(&self) -> bool {
        self.has_failed
    }

    fn read(&mut self, buf: &mut [u8]) -> Result<usize, DeviceFault> {
        if self.has_failed {
            self.late_calls = self.late_calls.saturating_add(1);
        }
        if self.pace.calls == 0 {
            self.has_failed = true;
            return Err(DeviceFault);
        }
        self.pace.calls -= 1;
        let count = self.pace.step.max(1).min(buf.len()).min(self.rest.len());
        let (front, rest) = self.rest.split_at(count);
        buf[..count].copy_from_slice(front);
        self.rest = rest;
        Ok(count)
    }
}

/// A writer to memory.
#[derive(Drop)]
pub struct MemorySink {
    bytes: Vec<u8>,
    pace: Pace,
    tears: bool,
    has_failed: bool,
    late_calls: usize,
}

impl MemorySink {
    /// The first 16,384 bytes need no more memory. A call that fails takes half of its bytes if the
    /// writer `tears`, and else none.
    pub fn new(alloc: Global, pace: Pace, tears: bool) -> Result<Self, AllocError>
        ensures sound { IfOk result (λ sink. sink.has_failed ≡ false) }
    {
        Ok(MemorySink {
            bytes: Vec::with_capacity(alloc, 16_384)?,
            pace,
            tears,
            has_failed: false,
            late_calls: 0,
        })
    }

    /// What it took.
    pub fn into_bytes(self) -> Vec<u8> {
        self.bytes
    }

    /// How many calls came after one that failed.
    pub fn late_calls(&self) -> usize {
        self.late_calls
    }
}

impl Sink for MemorySink {
    ghost contents = { λ sink. Some sink.bytes.items };

    ghost failed = { λ sink. sink.has_failed };

    ghost keeps = { false };

    fn has_failed(&self) -> bool {
        self.has_failed
    }

    fn write(&mut self, buf: &[u8]) -> Result<usize, DeviceFault> {
        if self.has_failed {
            self.late_calls = self.late_calls.saturating_add(1);
        }
        if self.pace.calls == 0 {
            self.has_failed = true;
            if self.tears {
                let _ = self.bytes.extend_from_slice(&buf[..buf.len() / 2]);
            }
            return Err(DeviceFault);
        }
        self.pace.calls -= 1;
        let count = self.pace.step.min(buf.len());
        if self.bytes.extend_from_slice(&buf[..count]).is_err() {
            self.has_failed = true;
            return Err(DeviceFault);
        }
        if count == 0 && !buf.is_empty() {
            self.has_failed = true;
        }
        Ok(count)
    }
}

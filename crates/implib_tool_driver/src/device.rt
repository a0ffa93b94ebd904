//! What `run` reads from and writes to.

ghost use Rattle.implib.specs.Beginning.{AppendsBeginning};
ghost use Rattle.std.specs.Io.KnownBytes.{Appends, Consumes, IsAtEnd, Keeps};
ghost use Rattle.std.specs.Prelude.{◌≡◌, ◌<◌, ◌≤◌, ◌⊎◌, Bool, IfOk, List, Ok, OnErr, OnOk, Option};
ghost use Rattle.std.specs.Prelude.{length, take, true, ℕ};

/// A device did not do what was asked.
#[derive(Clone, Copy, Debug, PartialEq, Eq)]
pub struct DeviceFault;

/// A device that bytes come from.
pub trait Source {
    // The bytes that it has left, if they are known.
    ghost remaining: { Self → Option (List ℕ) };

    // Whether a read has failed.
    ghost failed: { Self → Bool };

    /// Whether a read has failed.
    fn has_failed(&self) -> bool
        ensures { result ≡ failed self.now };

    /// Moves bytes to the front of `buf` and answers how many.
    ///
    /// No bytes for a `buf` that is not empty mean the end. If it fails, the bytes in `buf` are
    /// unspecified.
    fn read(&mut self, buf: &mut [u8]) -> Result<usize, DeviceFault>
        ensures bound { IfOk result (λ n. n ≤ length buf.new) }
        ensures moved { IfOk result
            (λ n. Consumes (remaining self.old) (remaining self.new) (take n buf.new)) }
        ensures end { result ≡ Ok 0 → 0 < length buf.new → IsAtEnd (remaining self.new) }
        ensures sound { OnOk result (failed self.new ≡ failed self.old) }
        ensures fault { OnErr result (failed self.new ≡ true) };
}

/// A device that bytes go to.
pub trait Sink {
    // The bytes that were written so far, if they are known.
    ghost contents: { Self → Option (List ℕ) };

    // Whether a write has failed.
    ghost failed: { Self → Bool };

    // Whether a write that answers `Err` takes no byte: then the device keeps what it has.
    ghost keeps: { Bool };

    /// Whether a write has failed.
    fn has_failed(&self) -> bool
        ensures { result ≡ failed self.now };

    /// Takes bytes from the front of `buf` and answers how many.
    ///
    /// To take none of a `buf` that is not empty is a failure too. A write that answers `Err` may
    /// have taken some, unless the device keeps what it has.
    fn write(&mut self, buf: &[u8]) -> Result<usize, DeviceFault>
        ensures bound { IfOk result (λ n. n ≤ length buf.now) }
        ensures moved { IfOk result
            (λ n. Appends (contents self.old) (contents self.new) (take n buf.now)) }
        ensures sound { IfOk result
            (λ n. (0 < n) ⊎ (length buf.now ≡ 0) → failed self.new ≡ failed self.old) }
        ensures none { result ≡ Ok 0 → 0 < length buf.now → failed self.new ≡ true }
        ensures kept { keeps ≡ true → OnErr result (Keeps (contents self.old) (contents self.new)) }
        ensures fault { OnErr result (failed self.new ≡ true) };
}

/// Writes all bytes. If it fails, a device that keeps what it has at an `Err` has a beginning of
/// them.
pub fn write_all<W: Sink>(writer: &mut W, bytes: &[u8]) -> Result<(), DeviceFault>
    ensures moved { OnOk result
        (Appends (W.contents writer.old) (W.contents writer.new) bytes.now) }
    ensures sound { OnOk result (W.failed writer.new ≡ W.failed writer.old) }
    ensures beginning { W.keeps ≡ true → OnErr result
        (AppendsBeginning (W.contents writer.old) (W.contents writer.new) bytes.now) }
    ensures fault { OnErr result (W.failed writer.new ≡ true) }
{
    let mut rest = bytes;
    while !rest.is_empty() {
        let count = writer.write(rest)?;
        if count == 0 {
            return Err(DeviceFault);
        }
        rest = &rest[count..];
    }
    Ok(())
}

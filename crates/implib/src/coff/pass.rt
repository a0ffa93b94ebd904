//! A writer of a known number of bytes.

ghost use Rattle.implib.specs.Formats.Bytes.{u16_bytes, u32_bytes};
ghost use Rattle.implib.specs.Formats.Pass.{Puts};
ghost use Rattle.std.specs.Prelude.{◌+◌, ◌≡◌, ◌≤◌, [], IfErr, IfOk, alloc_error, length};

use crate::error::Error;
use std::alloc::Global;
use std::marker::Model;

/// A writer of bytes, front to back, into one reservation.
#[derive(Debug, Drop)]
pub struct Pass {
    bytes: Vec<u8>,
    left: u32,
}

impl Model for Pass {
    ghost use Rattle.implib.specs.Formats.Pass.{Written};
    ghost use Rattle.std.specs.Prelude.{◌+◌, ◌≤◌, vec_capacity, vec_len};

    ghost Value = { Written };

    ghost view = { λ p. record { put = p.bytes.items; left = p.left } };

    ghost invariant = { λ p. vec_len p.bytes + p.left ≤ vec_capacity p.bytes };
}

impl Pass {
    /// Reserves room for `length` bytes: the only allocation.
    ///
    /// # Errors
    ///
    /// `OutOfMemory` where it fails.
    pub fn reserve(alloc: Global, length: u32) -> Result<Pass, Error>
        ensures ok { IfOk result (λ pass. pass ≡ record { put = []; left = length }) }
        ensures memory { IfErr result (λ e. e ≡ Error.OutOfMemory alloc_error) }
    {
        let bytes = Vec::with_capacity(alloc, length as usize)?;
        Ok(Pass {
            bytes,
            left: length,
        })
    }

    /// Appends a number as 2 bytes, little-endian. There must be room for them.
    #[tactic(auto, unfolding(crate::specs::Formats::Bytes::u16_bytes))]
    pub fn put_u16(&mut self, value: u16)
        requires { 2 ≤ self.old.left }
        ensures puts { Puts self.old self.new (u16_bytes value) }
        ensures left { self.new.left + 2 ≡ self.old.left }
    {
        self.bytes.extend_from_slice(&value.to_le_bytes()).unwrap();
        self.left -= 2;
    }

    /// Appends a number as 4 bytes, little-endian. There must be room for them.
    #[tactic(auto, unfolding(crate::specs::Formats::Bytes::u32_bytes))]
    pub fn put_u32(&mut self, value: u32)
        requires { 4 ≤ self.old.left }
        ensures puts { Puts self.old self.new (u32_bytes value) }
        ensures left { self.new.left + 4 ≡ self.old.left }
    {
        self.bytes.extend_from_slice(&value.to_le_bytes()).unwrap();
        self.left -= 4;
    }

    /// Appends the bytes. There must be room for them.
    pub fn put_bytes(&mut self, bytes: &[u8])
        requires { length bytes.now ≤ self.old.left }
        ensures puts { Puts self.old self.new bytes.now }
        ensures left { self.new.left + length bytes.now ≡ self.old.left }
    {
        self.bytes.extend_from_slice(bytes).unwrap();
        self.left -= bytes.len() as u32;
    }

    /// The size in bytes of the room that is left: the length reserved, less that of what was put.
    pub fn left(&self) -> u32
        ensures { result ≡ self.now.left }
    {
        self.left
    }

    /// All that was put, in order, once no room is left.
    pub fn finish(self) -> Vec<u8>
        requires { self.left ≡ 0 }
        ensures { result.items ≡ self.put }
    {
        self.bytes
    }
}

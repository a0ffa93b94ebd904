//! Relocation by the PE/COFF specification, "Type Indicators", and what a jump reads by the rules
//! of the processors.

use super::object::{Flaw, u32_at};

/// The base in memory that images are linked for.
pub const IMAGE_BASE: u32 = 0x40_0000;

pub const I386: u16 = 0x14C;

pub const ARMNT: u16 = 0x1C4;

pub const AMD64: u16 = 0x8664;

pub const ARM64: u16 = 0xAA64;

/// What a relocation makes of a word at an address, for a target.
pub fn relocated(
    machine: u16,
    kind: u16,
    word: u32,
    address: u32,
    target: u32,
) -> Result<u32, Flaw> {
    match (machine, kind) {
        // The address in the image.
        (I386, 7) | (ARMNT, 2) | (AMD64, 3) | (ARM64, 2) => Ok(word.wrapping_add(target)),
        // The address relative to the byte after the field.
        (I386, 0x14) | (AMD64, 4) | (ARMNT, 0x0A) => Ok(
            word.wrapping_add(target)
                .wrapping_sub(address)
                .wrapping_sub(4),
        ),
        (ARM64, 3) => with_distance(word, address, target),
        (ARM64, 4) => with_page(word, address, target),
        (ARM64, 7) => with_page_offset(word, target),
        _ => Err("a relocation has another type"),
    }
}

/// The size of the field where a relocation stores the address in memory, whole, if it does. Such
/// fields have base relocations.
pub fn whole_size(machine: u16, kind: u16) -> Option<usize> {
    match (machine, kind) {
        (I386, 6) | (AMD64, 2) | (ARM64, 1) => Some(4),
        (AMD64, 1) | (ARM64, 14) => Some(8),
        _ => None,
    }
}

/// A branch by the distance to the target: 26 bits, which count words.
fn with_distance(word: u32, address: u32, target: u32) -> Result<u32, Flaw> {
    if word & 0x03FF_FFFF != 0 {
        return Err("a branch is relocated twice");
    }
    let distance = target.wrapping_sub(address);
    if distance % 4 != 0 {
        return Err("a branch is misaligned");
    }
    if (0x0800_0000..0xF800_0000).contains(&distance) {
        return Err("a branch is out of reach");
    }
    Ok(word | distance / 4 & 0x03FF_FFFF)
}

/// An `adrp` of the target's page: 21 bits, the low two from bit 29 on and the others from bit 5
/// on.
fn with_page(word: u32, address: u32, target: u32) -> Result<u32, Flaw> {
    if word & 0x60FF_FFE0 != 0 {
        return Err("a page is relocated twice");
    }
    let pages = (target / 0x1000).wrapping_sub(address / 0x1000) & 0x1F_FFFF;
    Ok(word | (pages % 4) << 29 | (pages / 4) << 5)
}

/// An `ldr` from the target's offset in its page: 12 bits from bit 10 on, which count in what it
/// loads, by its top two bits.
fn with_page_offset(word: u32, target: u32) -> Result<u32, Flaw> {
    if word & 0x003F_FC00 != 0 {
        return Err("an offset is relocated twice");
    }
    let size = 1u32 << (word >> 30);
    let offset = target % 0x1000;
    if offset % size != 0 {
        return Err("a load is misaligned");
    }
    Ok(word | (offset / size) << 10)
}

/// The address from which the code at an address reads where it jumps.
pub fn jump_reads(machine: u16, address: u32, code: &[u8]) -> Result<u32, Flaw> {
    match machine {
        I386 => Ok(indirect(code)?.wrapping_sub(IMAGE_BASE)),
        AMD64 => Ok(indirect(code)?.wrapping_add(address).wrapping_add(6)),
        ARM64 => loaded(address, code),
        _ => Err("a machine has no jump that is known"),
    }
}

/// The operand of `jmp [..]`.
fn indirect(code: &[u8]) -> Result<u32, Flaw> {
    if !code.starts_with(&[0xFF, 0x25]) {
        return Err("code is no jump");
    }
    u32_at(code, 2)
}

/// The operand of `adrp x16, ..`, `ldr x16, [x16, ..]`, `br x16`.
fn loaded(address: u32, code: &[u8]) -> Result<u32, Flaw> {
    let page = u32_at(code, 0)?;
    let load = u32_at(code, 4)?;
    let is_jump = page & 0x9F00_001F == 0x9000_0010
        && load & 0xFFC0_03FF == 0xF940_0210
        && u32_at(code, 8)? == 0xD61F_0200;
    if !is_jump {
        return Err("code is no jump");
    }
    let pages = (page >> 5 & 0x7_FFFF) << 2 | (page >> 29 & 3);
    let offset = (load >> 10 & 0xFFF) * 8;
    let first = (address / 0x1000).wrapping_add(signed(pages)) & 0xF_FFFF;
    Ok(first.wrapping_mul(0x1000).wrapping_add(offset))
}

/// A number of 21 bits as a signed one, in 32 bits.
fn signed(pages: u32) -> u32 {
    if pages & 0x10_0000 == 0 {
        pages
    } else {
        pages | 0xFFE0_0000
    }
}

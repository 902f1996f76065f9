// Which bytes of a block are marks, as bits of one number.
ghost use Rattle.std.specs.Prelude.{◌≡◌, ◌==◌, ◌+◌, ◌-◌, ◌≤◌, ◌<◌, ℕ, length, map, take, drop};
ghost use Rattle.std.specs.List.{position_or_len};
ghost use Rattle.std.specs.Int.Bits.{bit_and};
ghost use Rattle.std.specs.Simd.Lanes.{mask_l};
ghost use Rattle.awk_fields.specs.Marks.{is_mark};

use std::simd::prelude::*;

/// How many bytes a block has. The last block of a text may have fewer.
pub const BLOCK: usize = 64;

/// The bytes that are looked for, of which some may be the same.
#[derive(Clone, Copy, Drop)]
pub struct Marks {
    pub first: u8,
    pub second: u8,
    pub third: u8,
}

/// The bits without the lowest that is set.
#[inline(always)]
pub fn without_lowest(bits: u64) -> u64
    requires { 0 < bits }
    ensures { result ≡ bit_and bits (bits - 1) }
{
    bits & (bits - 1)
}

impl Marks {
    /// This byte alone.
    #[inline(always)]
    pub fn one(byte: u8) -> Marks
        ensures { (b : ℕ) → is_mark result b ≡ (b == byte) }
    {
        Marks {
            first: byte,
            second: byte,
            third: byte,
        }
    }

    #[inline(always)]
    fn has(self, b: u8) -> bool
        ensures { result ≡ is_mark self b }
    {
        b == self.first || b == self.second || b == self.third
    }

    /// A bit for each lane that is a mark.
    #[inline(always)]
    fn in_lanes<const N: usize>(self, bytes: Simd<u8, N>) -> u64
        requires { N ≤ 64 }
        ensures { result ≡ mask_l (map (is_mark self) bytes.entry) }
    {
        (bytes.simd_eq(Simd::splat(self.first))
            | bytes.simd_eq(Simd::splat(self.second))
            | bytes.simd_eq(Simd::splat(self.third))).to_bitmask()
    }

    /// The same for a few bytes, one by one.
    fn in_few(self, bytes: &[u8]) -> u64
        requires { length bytes.now ≤ 64 }
        ensures { result ≡ mask_l (map (is_mark self) bytes.now) }
    {
        let mut found = 0;
        for (i, b) in bytes.iter().enumerate() {
            if self.has(*b) {
                found |= 1u64 << i;
            }
        }
        found
    }

    /// The same for at least so many bytes and at most twice as many: two vectors have them, and where
    /// they overlap both set the same bits.
    #[inline(always)]
    fn in_both_ends<const N: usize>(self, bytes: &[u8]) -> u64
        requires lanes { N ≤ 32 }
        requires enough { N ≤ length bytes.now }
        requires few { length bytes.now ≤ N + N }
        ensures { result ≡ mask_l (map (is_mark self) bytes.now) }
    {
        let behind = bytes.len() - N;
        self.in_lanes(Simd::<u8, N>::from_slice(bytes))
            | self.in_lanes(Simd::<u8, N>::from_slice(&bytes[behind..])) << behind
    }

    /// The same for fewer bytes than a block has.
    #[inline(always)]
    fn in_short(self, bytes: &[u8]) -> u64
        requires { length bytes.now < 64 }
        ensures { result ≡ mask_l (map (is_mark self) bytes.now) }
    {
        match bytes.len() {
            32.. => self.in_both_ends::<32>(bytes),
            16.. => self.in_both_ends::<16>(bytes),
            8.. => self.in_both_ends::<8>(bytes),
            4.. => self.in_both_ends::<4>(bytes),
            _ => self.in_few(bytes),
        }
    }

    /// A bit for each byte of the block from a place on that is a mark.
    #[inline(always)]
    pub fn in_block(self, text: &[u8], from: usize) -> u64
        requires { from ≤ length text.now }
        ensures { result ≡ mask_l (map (is_mark self) (take 64 (drop from text.now))) }
    {
        let rest = &text[from..];
        if rest.len() >= BLOCK {
            self.in_lanes(u8x64::from_slice(rest))
        } else {
            self.in_short(rest)
        }
    }

    /// How many bytes stand before the first mark.
    #[inline(always)]
    pub fn len_before(self, text: &[u8]) -> usize
        ensures place { result ≡ position_or_len (is_mark self) text.now }
        ensures inside { result ≤ length text.now }
    {
        let mut passed = 0;
        while passed < text.len() {
            let found = self.in_block(text, passed);
            if found != 0 {
                return passed + found.trailing_zeros() as usize;
            }
            passed += (text.len() - passed).min(BLOCK);
        }
        text.len()
    }
}

// The search for the first line feed.
ghost use Rattle.std.specs.Prelude.{◌≡◌, ◌+◌, ◌≤◌, length};
ghost use Rattle.std.specs.Int.{trailing_zeros, w64};
ghost use Rattle.memchr.specs.Find.{IsFirst, IsFirstByte, Nowhere, Passes, is_byte};

use std::simd::prelude::*;

pub(crate) const LINE_FEED: u8 = b'\n';

/// The number of bytes that are compared at once.
const LANES: usize = 32;

/// Returns the index of the lowest set bit in `bits`, or 64 if no bit is set.
#[inline(always)]
fn lowest(bits: u64) -> usize
    ensures { result ≡ trailing_zeros w64 bits }
{
    bits.trailing_zeros() as usize
}

/// Returns the offset of the first line feed among the 32 bytes that begin at `from`.
#[inline(always)]
fn near_feed(bytes: &[u8], from: usize) -> Option<usize>
    requires { from + 32 ≤ length bytes.now }
    ensures { IsFirst (Passes (is_byte 10) bytes.now) from (from + 32) result }
{
    let block = u8x32::from_slice(&bytes[from..]);
    let before = lowest(block.simd_eq(u8x32::splat(LINE_FEED)).to_bitmask());
    if before < LANES {
        Some(from + before)
    } else {
        None
    }
}

/// Returns the offset of the first line feed at or after `from`. There must be none before
/// `from`.
fn far_feed(bytes: &[u8], from: usize) -> Option<usize>
    requires { Nowhere (Passes (is_byte 10) bytes.now) 0 from }
    ensures { IsFirstByte (is_byte 10) bytes.now result }
{
    for place in from..bytes.len() {
        if bytes[place] == LINE_FEED {
            return Some(place);
        }
    }
    None
}

/// Returns the offset of the first line feed. For most lines this is faster than the byte search of
/// std, which starts by comparing more bytes at once than most lines contain.
pub(crate) fn first_feed(bytes: &[u8]) -> Option<usize>
    ensures { IsFirstByte (is_byte 10) bytes.now result }
{
    let mut at = 0;
    while bytes.len() - at >= LANES {
        match near_feed(bytes, at) {
            Some(place) => return Some(place),
            None => at += LANES,
        }
    }
    far_feed(bytes, at)
}

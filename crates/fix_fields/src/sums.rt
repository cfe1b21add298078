//! Sums of bytes.
ghost use Rattle.std.specs.Prelude.{◌≡◌, ◌≤◌, ◌%◌, take, length, sum};

use crate::limits::BLOCK;
use std::simd::prelude::*;

/// The sum of bytes, modulo 256.
pub(crate) fn checksum(bytes: &[u8]) -> u8
    ensures { result ≡ sum bytes.now % 256 }
{
    let (blocks, done) = sum_of_blocks(bytes);
    let rest = sum_one_by_one(&bytes[done..]);
    blocks.wrapping_add(rest)
}

/// The same of as many whole blocks as there are in front, and how many bytes they have.
fn sum_of_blocks(bytes: &[u8]) -> (u8, usize)
    ensures inside { result.1 ≤ length bytes.now }
    ensures value { result.0 ≡ sum (take result.1 bytes.now) % 256 }
{
    let mut lanes = u8x16::splat(0);
    let mut done = 0;
    while bytes.len() - done >= BLOCK {
        lanes = lanes + u8x16::from_slice(&bytes[done..]);
        done += BLOCK;
    }
    (lanes.reduce_sum(), done)
}

/// The same, byte by byte.
fn sum_one_by_one(bytes: &[u8]) -> u8
    ensures { result ≡ sum bytes.now % 256 }
{
    let mut sum: u8 = 0;
    for byte in bytes {
        sum = sum.wrapping_add(*byte);
    }
    sum
}

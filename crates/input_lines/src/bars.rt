//! Vertical bars in the place of SOH.
ghost use Rattle.std.specs.Prelude.{◌≡◌, ◌≤◌, ◌++◌, map, take, drop, length, OnOk};
ghost use Rattle.input_lines.specs.SayLine as spec;

use fix_fields::Memory;
use std::simd::prelude::*;

/// How many bytes are looked at together.
const BLOCK: usize = 16;

/// Puts the bytes of a message behind a text, with a vertical bar for each SOH: they are copied at
/// once, and the bars put into the copy. It fails for memory alone.
pub fn push_barred(text: &mut Vec<u8>, message: &[u8]) -> Result<(), Memory>
    ensures { OnOk result (text.new.items ≡ text.old.items ++ map spec.with_bar message.now) }
{
    let start = text.len();
    text.extend_from_slice(message)?;
    put_bars(&mut text.as_mut_slice()[start..]);
    Ok(())
}

/// Puts a vertical bar into the place of each SOH.
fn put_bars(text: &mut [u8])
    ensures { text.new ≡ map spec.with_bar text.old }
{
    let done = put_in_blocks(text);
    put_one_by_one(&mut text[done..]);
}

/// The same of as many whole blocks as there are, and how many bytes they have.
fn put_in_blocks(text: &mut [u8]) -> usize
    ensures inside { result ≤ length text.old }
    ensures front { take result text.new ≡ map spec.with_bar (take result text.old) }
    ensures behind { drop result text.new ≡ drop result text.old }
{
    let mut done = 0;
    while text.len() - done >= BLOCK {
        let block = u8x16::from_slice(&text[done..]);
        barred_block(block).copy_to_slice(&mut text[done..]);
        done += BLOCK;
    }
    done
}

/// The same of one block.
#[inline(always)]
fn barred_block(block: u8x16) -> u8x16
    requires { length block ≡ 16 }
    ensures { result ≡ map spec.with_bar block }
{
    block
        .simd_eq(u8x16::splat(1))
        .select(u8x16::splat(b'|'), block)
}

/// The same, byte by byte.
fn put_one_by_one(text: &mut [u8])
    ensures { text.new ≡ map spec.with_bar text.old }
{
    for byte in text.iter_mut() {
        *byte = with_bar(*byte);
    }
}

/// A vertical bar for SOH, and every other byte as it is.
fn with_bar(c: u8) -> u8
    ensures { result ≡ spec.with_bar c }
{
    if c == 1 {
        return b'|';
    }
    c
}

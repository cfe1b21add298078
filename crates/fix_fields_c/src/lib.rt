//! `fix_fields` for C and C++: a frame is read, and a field of it is found; a stream is cut.
#![tactic(auto)]

ghost use Rattle.std.specs.Prelude.{◌≡◌, ◌⊎◌, length, MatchOption, option_map, drop};
ghost use Rattle.fix_fields.specs.Frame.{frame_of};
ghost use Rattle.fix_fields.specs.Envelope.{cut_behind, envelopes_of};
ghost use Rattle.fix_fields_c.specs.Found.{found_len, is_frame_code, count_code, field_at};
ghost use Rattle.fix_fields_c.specs.Found.{tag_code, placed_len, place_code, StandsAt};

use fix_fields::{
    Fields, Splitter, StreamFault, pieces_make_no_difference, read_frame,
    stream_faults_are_for_ever,
};
use std::alloc::Global;

/// 1 where bytes are a frame, and 0 where they are none.
#[unsafe(no_mangle)]
pub extern "C" fn fix_fields_is_frame(bytes: &[u8]) -> u32
    ensures { result ≡ is_frame_code (frame_of bytes.now) }
{
    match read_frame(bytes) {
        Ok(_) => 1,
        Err(_) => 0,
    }
}

/// One more than the length of the first value of a tag, and 0 where bytes are no frame or no field
/// has the tag.
#[unsafe(no_mangle)]
pub extern "C" fn fix_fields_find(bytes: &[u8], tag: u32) -> usize
    ensures { result ≡ found_len tag (frame_of bytes.now) }
{
    let Ok(frame) = read_frame(bytes) else {
        return 0;
    };
    match frame.get(tag) {
        Some(value) => value.len() + 1,
        None => 0,
    }
}

/// The tag of the `n`th field of a frame's body, the first of which is number 0. It is 0 where bytes
/// are no frame or its body has no such field.
#[unsafe(no_mangle)]
pub extern "C" fn fix_fields_tag_at(bytes: &[u8], n: usize) -> u32
    ensures { result ≡ tag_code (field_at n (frame_of bytes.now)) }
{
    let Some(mut fields) = fields_from(bytes, n) else {
        return 0;
    };
    match fields.next() {
        Some((tag, _)) => tag,
        None => 0,
    }
}

/// One more than the length of that field's value, and 0 where there is no such field.
#[unsafe(no_mangle)]
pub extern "C" fn fix_fields_len_at(bytes: &[u8], n: usize) -> usize
    ensures { result ≡ placed_len (field_at n (frame_of bytes.now)) }
{
    let Some(mut fields) = fields_from(bytes, n) else {
        return 0;
    };
    match fields.next() {
        Some((_, value)) => value.len() + 1,
        None => 0,
    }
}

/// One more than the place of that value's first byte among the bytes, and 0 where there is no such
/// field.
#[unsafe(no_mangle)]
pub extern "C" fn fix_fields_value_at(bytes: &[u8], n: usize) -> usize
    ensures exact { result ≡ place_code bytes.now (field_at n (frame_of bytes.now)) }
    ensures there { MatchOption (field_at n (frame_of bytes.now)) (result ≡ 0)
        (λ placed. StandsAt bytes.now placed.field.1 result) }
{
    let Some(mut fields) = fields_from(bytes, n) else {
        return 0;
    };
    match fields.next() {
        Some((_, value)) => {
            let behind = fields.as_bytes();
            bytes
                .len()
                .saturating_sub(value.len())
                .saturating_sub(behind.len())
                .saturating_sub(7)
        }
        None => 0,
    }
}

/// How many messages a stream is cut into that comes in pieces of `size` bytes, and the greatest
/// number where memory is refused.
#[unsafe(no_mangle)]
pub extern "C" fn fix_fields_cut(alloc: Global, stream: &[u8], size: usize) -> usize
    ensures { (result ≡ usize.MAX) ⊎ (result ≡ count_code (envelopes_of stream.now)) }
{
    pieces_make_no_difference();
    let mut splitter = Splitter::new(alloc);
    let mut count: usize = 0;
    let mut rest = stream;
    while !rest.is_empty() {
        let (piece, behind) = rest.split_at(size.max(1).min(rest.len()));
        let Some(more) = feeds(&mut splitter, piece) else {
            return usize::MAX;
        };
        count = count.wrapping_add(more);
        rest = behind;
    }
    count
}

/// How many messages a piece ends, or none where memory is refused.
fn feeds(splitter: &mut Splitter, piece: &[u8]) -> Option<usize>
    ensures { MatchOption result (Unit {0}) (λ count. let now = cut_behind splitter.old piece.now in
        (count ≡ length now.messages) × (splitter.new ≡ now.rest)) }
{
    stream_faults_are_for_ever();
    match splitter.feed(piece) {
        Ok(messages) => Some(messages.len()),
        Err(StreamFault::Memory) => None,
        Err(_) => Some(0),
    }
}

/// The fields of a frame from the `n`th on, or none where bytes are no frame.
fn fields_from(bytes: &[u8], n: usize) -> Option<Fields<'_>>
    ensures { result ≡ option_map (drop n) (frame_of bytes.now) }
{
    let mut fields = read_frame(bytes).ok()?.fields();
    for _ in 0..n {
        let Some(_) = fields.next() else {
            break;
        };
    }
    Some(fields)
}

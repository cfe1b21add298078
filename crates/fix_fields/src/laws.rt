//! Laws of frames and moments: each function does nothing, and its clauses hold of every list.
ghost use Rattle.std.specs.Prelude.{◌≡◌, ◌↔◌, ◌<◌, ◌≤◌, ◌^◌, ℕ, List, Some, Ok, length, decimal};
ghost use Rattle.fix_fields.specs.Frame.{Field, AreBody, IsFrame, decimal_len, fields_len};
ghost use Rattle.fix_fields.specs.Frame.{frame_of, frame_text};
ghost use Rattle.fix_fields.specs.UtcTimestamp.{UtcTimestamp, IsDate, moment_of, timestamp_text};

use crate::limits::{A_DAY, MOST_BODY};

/// No bytes are a frame of two lists of fields.
pub fn frames_have_one_reading()
    ensures { (bytes : List ℕ) (fields others : List Field) →
        IsFrame bytes fields → IsFrame bytes others → fields ≡ others }
{}

/// `frame_of` gives the fields of a frame, and only of a frame; the frame that is written is one.
pub fn frame_of_is_the_reading()
    ensures reads { (bytes : List ℕ) (fields : List Field) →
        (frame_of bytes ≡ Some fields) ↔ IsFrame bytes fields }
    ensures written { (fields : List Field) → AreBody fields → fields_len fields ≤ MOST_BODY →
        frame_of (frame_text fields) ≡ Some fields }
{}

/// No text spells two moments, and `moment_of` gives the one that it spells of a date.
pub fn moment_of_is_the_reading()
    ensures one { (text day other : List ℕ) (n m : ℕ) → UtcTimestamp day n text →
        UtcTimestamp other m text → (day ≡ other) × (n ≡ m) }
    ensures reads { (date text : List ℕ) (n : ℕ) →
        (moment_of date text ≡ Ok n) ↔ UtcTimestamp date n text }
    ensures written { (date : List ℕ) (n : ℕ) → IsDate date → n < A_DAY →
        moment_of date (timestamp_text date n) ≡ Ok n }
{}

/// How many digits `decimal_len` says that a number has, it has; and at most k below 10 ^ k.
pub fn decimal_len_is_the_length()
    ensures length { (n : ℕ) → n < 2 ^ 64 → length (decimal n) ≡ decimal_len n }
    ensures digits { (k n : ℕ) → 1 ≤ k → n < 10 ^ k → n < 2 ^ 64 → decimal_len n ≤ k }
{}

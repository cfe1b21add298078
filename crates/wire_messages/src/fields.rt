//! The fields of a message of any length. (Those of a frame are read by `fix_fields`.)
ghost use Rattle.std.specs.Prelude.{◌≡◌, ◌++◌, ◌==◌, ◌≤◌, take, drop, length, MatchOption};
ghost use Rattle.std.specs.List.{prefix_len, position, position_or_len, after_first};
ghost use Rattle.std.specs.Char.{is_ascii_digit};
ghost use Rattle.std.specs.Str.Parse.{digits_value};
ghost use Rattle.fix_fields.specs.Frame.{IsField, field_text, body_of};
ghost use Rattle.fix_fields.specs.Scan.{BeginsWithField};

/// SOH, the byte that ends each field.
const SOH: u8 = 1;

/// How many bytes BeginString (8) has with the tag of BodyLength (9).
const START_LEN: usize = 13;

/// How many bytes CheckSum (10) has.
const END_LEN: usize = 7;

/// The tag and the value of the field at the front of a text, and what stands behind it.
pub(crate) fn split_field(text: &[u8]) -> Option<(u32, &[u8], &[u8])>
    ensures { MatchOption result (¬ BeginsWithField text.now)
        (λ field. IsField (field.0, field.1.now)
        × (text.now ≡ field_text (field.0, field.1.now) ++ field.2.now)) }
{
    let (tag, digits) = leading_number(text);
    if digits == 0 || digits == text.len() {
        return None;
    }
    if text[0] == b'0' || text[digits] != b'=' {
        return None;
    }
    if tag == 8 || tag == 9 || tag == 10 {
        return None;
    }
    let behind = &text[digits + 1..];
    let len = value_len(behind);
    if len == behind.len() {
        return None;
    }
    Some((tag, &behind[..len], &behind[len + 1..]))
}

/// The number that the first nine digits at the front of a text write, and how many digits they are.
fn leading_number(text: &[u8]) -> (u32, usize)
    ensures few { result.1 ≤ 9 }
    ensures fits { result.1 ≤ length text.now }
    ensures count { result.1 ≡ prefix_len is_ascii_digit (take 9 text.now) }
    ensures value { result.0 ≡ digits_value 10 (take result.1 text.now) }
{
    let mut value = 0;
    let mut count = 0;
    while count < 9 && count < text.len() && text[count].is_ascii_digit() {
        value = value * 10 + (text[count] - b'0') as u32;
        count += 1;
    }
    (value, count)
}

/// How many bytes stand before the first SOH, or all where there is none.
#[tactic(auto, using(crate::proofs::PlaceLemmas::place_there, crate::proofs::PlaceLemmas::place_nowhere, crate::proofs::PlaceLemmas::place_within))]
fn value_len(text: &[u8]) -> usize
    ensures fits { result ≤ length text.now }
    ensures place { result ≡ position_or_len (λ byte. byte == 1) text.now }
{
    let Some(place) = place_of_soh(text) else {
        return text.len();
    };
    place
}

/// Where the first SOH stands.
fn place_of_soh(text: &[u8]) -> Option<usize>
    ensures { result ≡ position (λ byte. byte == 1) text.now }
{
    text.iter().position(|byte| *byte == SOH)
}

/// The body of a message: what stands behind BodyLength (9), up to the last seven bytes.
#[tactic(auto, unfolding(fix_fields::specs::Frame::body_of))]
pub(crate) fn body_of(bytes: &[u8]) -> &[u8]
    ensures { result.now ≡ body_of bytes.now }
{
    let behind = behind_soh(past(bytes, START_LEN));
    near(behind, behind.len().saturating_sub(END_LEN))
}

/// What stands behind the first SOH.
#[tactic(auto, using(crate::proofs::PlaceLemmas::behind_there, crate::proofs::PlaceLemmas::behind_nowhere))]
fn behind_soh(text: &[u8]) -> &[u8]
    ensures { result.now ≡ after_first (λ byte. byte == 1) text.now }
{
    let Some(place) = place_of_soh(text) else {
        return &[];
    };
    &text[place + 1..]
}

/// The first of some bytes.
pub(crate) fn near(bytes: &[u8], most: usize) -> &[u8]
    ensures { result.now ≡ take most bytes.now }
{
    &bytes[..bytes.len().min(most)]
}

/// What stands behind the first of some bytes.
fn past(bytes: &[u8], count: usize) -> &[u8]
    ensures { result.now ≡ drop count bytes.now }
{
    &bytes[bytes.len().min(count)..]
}

//! Whether a replay sends what a record says.
ghost use Rattle.std.specs.Prelude.{◌≡◌, ℕ, ◌<◌, true, false, IfSome, IfNone};
ghost use Rattle.day_weaving.specs.Weaving as spec;

use quote_messages::SentMessage;
use recorded_days::DayRecord;
use step_replay::World;

/// The first of so many firms that was sent other messages in a replay than a record says.
pub(crate) fn sent_elsewise(firms: u16, day: &DayRecord, world: &World) -> Option<u16>
    ensures same { IfNone result ((firm : ℕ) → firm < firms
        → spec.sent_in world.now firm ≡ spec.sent_by_record day.now firm) }
    ensures other { IfSome result (λ firm.
        spec.sent_in world.now firm ≡ spec.sent_by_record day.now firm → ⊥) }
    ensures first { IfSome result (λ firm. (earlier : ℕ) → earlier < firm
        → spec.sent_in world.now earlier ≡ spec.sent_by_record day.now earlier) }
{
    for firm in 0..firms {
        if !is_sent_alike(day, world, firm) {
            return Some(firm);
        }
    }
    None
}

/// Whether a firm was sent in a replay what a record says.
fn is_sent_alike(day: &DayRecord, world: &World, firm: u16) -> bool
    ensures same { result ≡ true
        → spec.sent_in world.now firm ≡ spec.sent_by_record day.now firm }
    ensures other { result ≡ false
        → spec.sent_in world.now firm ≡ spec.sent_by_record day.now firm → ⊥ }
{
    let Some(recorded) = day.sent(firm) else {
        return world.sent(firm).is_none();
    };
    let Some(replayed) = world.sent(firm) else {
        return false;
    };
    let same = are_same(recorded, replayed);
    same
}

/// Whether two lists are of the same messages.
fn are_same(some: &[SentMessage], others: &[SentMessage]) -> bool
    ensures same { result ≡ true → some.now ≡ others.now }
    ensures other { result ≡ false → some.now ≡ others.now → ⊥ }
{
    if some.len() != others.len() {
        return false;
    }
    for (index, one) in some.iter().enumerate() {
        let Some(other) = others.get(index) else {
            return false;
        };
        if !is_same(one, other) {
            return false;
        }
    }
    true
}

/// Whether two messages are one, byte by byte.
fn is_same(one: &SentMessage, other: &SentMessage) -> bool
    ensures same { result ≡ true → one.now ≡ other.now }
    ensures other { result ≡ false → one.now ≡ other.now → ⊥ }
{
    one.as_bytes() == other.as_bytes()
}

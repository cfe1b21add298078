//! What a record says of an action.
ghost use Rattle.std.specs.Prelude.{◌≡◌, ℕ, true, false, List, option_and_then, slice_get};
ghost use Rattle.std.specs.Option.{option_copied};
ghost use Rattle.day_weaving.specs.DayOrder as spec;
ghost use Rattle.day_weaving.specs.OrderSearch as sought;
ghost use Rattle.recorded_days.specs.Records as recorded;
ghost use Rattle.recorded_days.specs.Records.{ActionRef};

use crate::sites::Site;
use quote_word::Settled;
use recorded_days::{Action, DayRecord, Kind};
use step_replay::Actor;

/// An action, where the day has it.
pub(crate) fn action_in(day: &DayRecord, action: (Actor, u64)) -> Option<&Action>
    ensures { option_copied result ≡ recorded.action_in day.now action }
{
    let actions = day.actions(action.0)?;
    if action.1 == 0 {
        return None;
    }
    actions.get((action.1 - 1) as usize)
}

/// The order of the actions at a desk or in a room.
pub(crate) fn order_at(day: &DayRecord, site: Site) -> Option<&[(Actor, u64)]>
    ensures { option_copied result ≡ spec.order_at day.now site }
{
    match site {
        Site::Desk(firm) => day.desk_order(firm),
        Site::Room(room) => day.room_order(room),
    }
}

/// The action that stands at one place of that order.
pub(crate) fn action_at(day: &DayRecord, site: Site, spot: usize) -> Option<&(Actor, u64)>
    ensures { option_copied result ≡ option_and_then
        (λ (order : List ActionRef). slice_get order spot) (spec.order_at day.now site) }
{
    let order = order_at(day, site)?;
    order.get(spot)
}

/// Whether an action of a kind is settled as it wishes: a message and a drop wish to withdraw a
/// quote, and a hit to lift it.
pub(crate) fn is_as_wished(kind: Kind, settlement: Settled) -> bool
    ensures { result ≡ spec.is_as_wished kind settlement }
{
    match kind {
        Kind::Hit => settlement.is_lifted(),
        _ => settlement.is_withdrawn(),
    }
}

/// The word that an action was granted.
pub(crate) fn granted_word(action: &Action) -> Option<u64>
    ensures { (word : ℕ) → spec.grants word action.now ≡ sought.is_word result word }
{
    let (word, settlement) = action.word?;
    if !is_as_wished(action.kind, settlement) {
        return None;
    }
    Some(u64::from(word))
}

/// The word that an action was refused.
pub(crate) fn refused_word(action: &Action) -> Option<u64>
    ensures { (word : ℕ) → spec.refuses word action.now ≡ sought.is_word result word }
{
    let (word, settlement) = action.word?;
    if is_as_wished(action.kind, settlement) {
        return None;
    }
    Some(u64::from(word))
}

/// Whether two places are one.
pub(crate) fn is_same_site(one: Site, other: Site) -> bool
    ensures yes { result ≡ true → one ≡ other }
    ensures no { result ≡ false → one ≡ other → ⊥ }
{
    match one {
        Site::Desk(firm) => match other {
            Site::Desk(another) => firm == another,
            Site::Room(_) => false,
        },
        Site::Room(room) => match other {
            Site::Desk(_) => false,
            Site::Room(another) => room.investor == another.investor && room.n == another.n,
        },
    }
}

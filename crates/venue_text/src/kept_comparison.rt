//! What `compare --live` prints.
ghost use Rattle.std.specs.Prelude.{◌≡◌, ℕ, [], List, Some, IfOk, IsSome};
ghost use Rattle.step_replay.specs.LiveStanding.{IsAt};
ghost use Rattle.step_replay.specs.declared.steps.Step.{Step};
ghost use Rattle.venue_rows.specs.Rows.{Configuration, dealer_numbered};
ghost use Rattle.venue_text.specs.CompareText.{IsFirstDifference};
ghost use Rattle.venue_text.specs.KeptComparison as spec;
ghost use Rattle.venue_text.specs.KeptDays.{Keeps, dues};
ghost use Rattle.venue_text.specs.LiveLines.{Taken};

use crate::compare_command::{
    due_difference, has_same_row, message_difference, sent_in, three_lines,
};
use crate::kept_days::{Asked, KeptDay};
use crate::live_lines::LiveDay;
use fix_fields::Memory;
use std::alloc::Global;

/// How two days differ for the dealer whose due text was asked for of both, in three lines, as
/// [`compare_text`](crate::compare_text) has them. It fails for memory alone.
pub fn compared_text(alloc: Global, one: KeptDay, other: KeptDay) -> Result<Vec<u8>, Memory>
    ensures { IfOk result (λ text. (name : List ℕ) (config other_config : Configuration)
        (taken other_taken : Taken) → Keeps (dues (Some name)) config taken one
        → Keeps (dues (Some name)) other_config other_taken other
        → spec.IsKeptComparison name config taken.steps other_config other_taken.steps
        text.items) }
{
    let dealer = dealer_of(one.asked);
    let other_dealer = dealer_of(other.asked);
    let row = has_same_row(&one.day.config, dealer, &other.day.config, other_dealer);
    let due = dues_differ(alloc, &one.day, dealer, &other.day, other_dealer)?;
    let messages = messages_differ(one.day, dealer, other.day, other_dealer);
    let text = three_lines(alloc, row, due, messages)?;
    Ok(text)
}

/// The number of the dealer whose due text is asked for.
fn dealer_of(asked: Asked) -> u16
    ensures { (dealer : ℕ) → asked ≡ Asked.Due (Some dealer) → result ≡ dealer }
{
    match asked {
        Asked::Due(dealer) => dealer.unwrap_or(0),
        Asked::Messages(_, _) => 0,
        Asked::Noted(_, _) => 0,
        Asked::Blotter(_) => 0,
    }
}

/// The first position at which what was due to a dealer differs in two days.
fn dues_differ(
    alloc: Global,
    one: &LiveDay,
    dealer: u16,
    other: &LiveDay,
    other_dealer: u16,
) -> Result<Option<usize>, Memory>
    ensures { IfOk result (λ position. (config other_config : Configuration)
        (steps other_steps : List Step) → IsAt config steps one.now.venue
        → IsAt other_config other_steps other.now.venue → IsSome (dealer_numbered config dealer)
        → IsSome (dealer_numbered other_config other_dealer)
        → IsFirstDifference (spec.live_due (spec.run_of config dealer steps))
        (spec.live_due (spec.run_of other_config other_dealer other_steps)) position) }
{
    let first = one.venue.due(alloc, dealer)?;
    let second = other.venue.due(alloc, other_dealer)?;
    Ok(due_difference(first.as_slice(), second.as_slice()))
}

/// The first position at which the messages that a dealer was sent differ in two days.
fn messages_differ(one: LiveDay, dealer: u16, other: LiveDay, other_dealer: u16) -> Option<usize>
    ensures { (config other_config : Configuration) (steps other_steps : List Step)
        → IsAt config steps one.venue → IsAt other_config other_steps other.venue
        → IsFirstDifference (spec.live_sent (spec.run_of config dealer steps))
        (spec.live_sent (spec.run_of other_config other_dealer other_steps)) result }
{
    let first = one.venue.into_world();
    let second = other.venue.into_world();
    message_difference(sent_in(&first, dealer), sent_in(&second, other_dealer))
}

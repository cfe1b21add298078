//! Two worked days that are one but for the price of another dealer.
ghost use Rattle.std.specs.Prelude.{◌≡◌};
ghost use Rattle.laws_days.specs.PriceAlike.{IsPriceAlike};
ghost use Rattle.laws_days.specs.PricedDays as days;
ghost use Rattle.laws_days.specs.WorkedVenue.{venue};

use fix_fields::frame_of_is_the_reading;
use market_terms::Close;

/// Two days that differ in the price of DLR2 alone are price-alike for DLR1 (`alike`). What is due
/// to it on each, by the definitions, is what was written down beforehand: the one is told Cover
/// where the other is told Done Away (`dear`, `cheap`).
///
/// The proof computes each day.
pub fn definitions_give_the_priced_days()
    ensures alike { IsPriceAlike venue 0 (days.day_with days.dear) (days.day_with days.cheap) }
    ensures dear { days.due_with days.dear ≡ days.wanted_with Close.Cover }
    ensures cheap { days.due_with days.cheap ≡ days.wanted_with Close.DoneAway }
{
    frame_of_is_the_reading();
}

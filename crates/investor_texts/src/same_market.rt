//! Whether an investor sees the same market in two venues.
ghost use Rattle.std.specs.Prelude.{◌≡◌, ◌↔◌, slice_get, IsTrue};
ghost use Rattle.investor_texts.specs.CompareCommand.{IsSameSeen};
ghost use Rattle.investor_texts.specs.DealerNames.{name_at, names_of};
ghost use Rattle.investor_views.specs.InvestorView.{seen_by};

use venue_rows::{BondRow, DealerRow, InvestorRow, Traders, VenueConfig};

/// Whether an investor sees the same in two venues, in each by its number there. Where one of the
/// numbers is no investor's it does not.
pub(crate) fn is_same_seen(
    one: &VenueConfig,
    investor: u16,
    other: &VenueConfig,
    other_investor: u16,
) -> bool
    ensures { IsSameSeen one.now investor other.now other_investor result }
{
    let Some(row) = one.investor(investor) else {
        return false;
    };
    let Some(there) = other.investor(other_investor) else {
        return false;
    };
    is_same_market(one, row, other, there)
}

/// The same of investors with these rows.
fn is_same_market(
    one: &VenueConfig,
    row: &InvestorRow,
    other: &VenueConfig,
    there: &InvestorRow,
) -> bool
    ensures { IsTrue result ↔ (seen_by one.now row.now ≡ seen_by other.now there.now) }
{
    if one.date().digits().as_slice() != other.date().digits().as_slice() {
        return false;
    }
    if !is_same_row(row, there) {
        return false;
    }
    if !are_same_bonds(one.bonds(), other.bonds()) {
        return false;
    }
    are_same_names(one.dealers(), other.dealers())
}

/// Whether two rows have the same values: whether they are one row.
fn is_same_row(one: &InvestorRow, other: &InvestorRow) -> bool
    ensures { IsTrue result ↔ (one.now ≡ other.now) }
{
    if one.name.as_bytes() != other.name.as_bytes() {
        return false;
    }
    if !are_same_traders(&one.traders, &other.traders) {
        return false;
    }
    if one.requests != other.requests {
        return false;
    }
    if one.open_limit != other.open_limit {
        return false;
    }
    one.quantity == other.quantity
}

/// Whether these are the same traders in the same order.
fn are_same_traders(one: &Traders, other: &Traders) -> bool
    ensures { IsTrue result ↔ (one.now ≡ other.now) }
{
    let longest = one.len().max(other.len());
    for place in 0..longest {
        if !is_same_trader_at(one, other, place) {
            return false;
        }
    }
    true
}

/// Whether the same trader stands at a place, or both have ended.
#[tactic(auto, using(venue_text::proofs::CompareLemmas::same_found))]
fn is_same_trader_at(one: &Traders, other: &Traders, place: usize) -> bool
    ensures { IsTrue result ↔ (slice_get one.now place ≡ slice_get other.now place) }
{
    let Some(name) = one.get(place) else {
        return other.get(place).is_none();
    };
    let Some(there) = other.get(place) else {
        return false;
    };
    name == there
}

/// Whether these are the same bonds, each on the same grid and in the same band, in the same order.
fn are_same_bonds(one: &[BondRow], other: &[BondRow]) -> bool
    ensures { IsTrue result ↔ (one.now ≡ other.now) }
{
    let longest = one.len().max(other.len());
    for place in 0..longest {
        if !is_same_bond_at(one, other, place) {
            return false;
        }
    }
    true
}

/// Whether the same bond stands at a place, or both have ended.
#[tactic(auto, using(venue_text::proofs::CompareLemmas::same_found))]
fn is_same_bond_at(one: &[BondRow], other: &[BondRow], place: usize) -> bool
    ensures { IsTrue result ↔ (slice_get one.now place ≡ slice_get other.now place) }
{
    let Some(bond) = one.get(place) else {
        return other.get(place).is_none();
    };
    let Some(there) = other.get(place) else {
        return false;
    };
    is_same_bond(bond, there)
}

/// Whether two bonds are one, on one grid and in one band.
fn is_same_bond(one: &BondRow, other: &BondRow) -> bool
    ensures { IsTrue result ↔ (one.now ≡ other.now) }
{
    if one.id.as_bytes() != other.id.as_bytes() {
        return false;
    }
    if one.grid.get() != other.grid.get() {
        return false;
    }
    one.band.is_same(other.band)
}

/// Whether these dealers have the same names in the same order.
fn are_same_names(one: &[DealerRow], other: &[DealerRow]) -> bool
    ensures { IsTrue result ↔ (names_of one.now ≡ names_of other.now) }
{
    let longest = one.len().max(other.len());
    for place in 0..longest {
        if !is_same_name_at(one, other, place) {
            return false;
        }
    }
    true
}

/// Whether a dealer of the same name stands at a place, or both have ended.
#[tactic(auto, using(crate::proofs::MarketLemmas::name_found))]
fn is_same_name_at(one: &[DealerRow], other: &[DealerRow], place: usize) -> bool
    ensures { IsTrue result ↔ (name_at one.now place ≡ name_at other.now place) }
{
    let Some(dealer) = one.get(place) else {
        return other.get(place).is_none();
    };
    let Some(there) = other.get(place) else {
        return false;
    };
    is_same_name(dealer, there)
}

/// Whether two dealers have the same name.
fn is_same_name(one: &DealerRow, other: &DealerRow) -> bool
    ensures { IsTrue result ↔ (one.now.name ≡ other.now.name) }
{
    one.name.as_bytes() == other.name.as_bytes()
}

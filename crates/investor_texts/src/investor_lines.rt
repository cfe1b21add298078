//! The lines of an investor's due text that tell what it sees.
ghost use Rattle.std.specs.Prelude.{◌≡◌, ◌≤◌, IfSome};
ghost use Rattle.std.specs.List.{list_any};
ghost use Rattle.std.specs.Option.{option_map};
ghost use Rattle.investor_texts.specs.InvestorLines as spec;
ghost use Rattle.venue_rows.specs.Rows.{bond_ids, investor_values};
ghost use Rattle.venue_rows.specs.Texts.{is_among, same_text};

use bond_prices::Grid;
use input_lines::{cut_part, read_band, read_traders, same_text};
use quote_messages::{read_long_number, read_number};
use venue_rows::{BondId, BondRow, InvestorRow, Name, VenueConfig};

/// The investor that an investor line gives: `investor NAME REQUESTS OPEN QUANTITY TRADER ..`.
#[tactic(auto, unfolding(crate::specs::InvestorLines::row_values))]
pub(crate) fn read_row(line: &[u8]) -> Option<InvestorRow>
    ensures { option_map investor_values result ≡ spec.row_of line.now }
{
    let (keyword, rest) = cut_part(line);
    if !same_text(keyword, b"investor") {
        return None;
    }
    let (name, rest) = cut_part(rest);
    let (requests, rest) = cut_part(rest);
    let (open_limit, rest) = cut_part(rest);
    let (quantity, traders) = cut_part(rest);
    let name = Name::of_firm(name)?;
    let requests = read_limit(requests)?;
    let open_limit = read_limit(open_limit)?;
    let quantity = read_greatest(quantity)?;
    let traders = read_traders(traders)?;
    Some(InvestorRow {
        name,
        traders,
        requests,
        open_limit,
        quantity,
    })
}

/// How many requests an investor may have, in a day or at one time.
fn read_limit(text: &[u8]) -> Option<u32>
    ensures value { result ≡ spec.limit_of text.now }
    ensures limits { IfSome result (λ limit. (1 ≤ limit) × (limit ≤ 1024)) }
{
    let limit = read_number(text)?;
    if limit < 1 || limit > InvestorRow::MOST_REQUESTS as u64 {
        return None;
    }
    Some(limit as u32)
}

/// The greatest quantity of one request.
fn read_greatest(text: &[u8]) -> Option<u64>
    ensures value { result ≡ spec.greatest_of text.now }
    ensures limits { IfSome result (λ quantity. (1 ≤ quantity) × (quantity ≤ 1000000000000)) }
{
    let quantity = read_long_number(text)?;
    if quantity < 1 || quantity > InvestorRow::MOST_QUANTITY {
        return None;
    }
    Some(quantity)
}

/// The bond behind `bond`: `BOND GRID`, and `LOW HIGH` where they are given.
#[tactic(auto, unfolding(crate::specs::InvestorLines::bond_of))]
pub(crate) fn read_bond(text: &[u8]) -> Option<BondRow>
    ensures { result ≡ spec.bond_of text.now }
{
    let (id, rest) = cut_part(text);
    let (grid, _) = cut_part(rest);
    let id = BondId::new(id)?;
    let steps = read_number(grid)?;
    let grid = Grid::new(steps as u32)?;
    let band = read_band(rest)?;
    Some(BondRow { id, grid, band })
}

/// Whether there is room for a bond behind these, none of which it is.
pub(crate) fn may_join(bonds: &[BondRow], bond: &BondRow) -> bool
    ensures { result ≡ spec.may_join bonds.now bond.now }
{
    if bonds.len() >= VenueConfig::MOST_BONDS {
        return false;
    }
    !is_among_bonds(bonds, &bond.id)
}

/// Whether an identifier is among those of these bonds.
fn is_among_bonds(bonds: &[BondRow], id: &BondId) -> bool
    ensures { result ≡ is_among (bond_ids bonds.now) id.now }
{
    has_bond(bonds, id)
}

/// Whether one of these bonds has this identifier.
fn has_bond(bonds: &[BondRow], id: &BondId) -> bool
    ensures { result ≡ list_any (λ row. same_text row.id id.now) bonds.now }
{
    bonds.iter().any(|row| row.id.as_bytes() == id.as_bytes())
}

/// Whether there is room for a dealer behind these: no firm has its name, nor has the investor.
pub(crate) fn may_deal(own: &Name, dealers: &[Name], name: &Name) -> bool
    ensures { result ≡ spec.may_deal own.now dealers.now name.now }
{
    if dealers.len() >= VenueConfig::MOST_DEALERS {
        return false;
    }
    if own.as_bytes() == name.as_bytes() {
        return false;
    }
    !is_among_names(dealers, name)
}

/// Whether one of these names is this one.
fn is_among_names(names: &[Name], name: &Name) -> bool
    ensures { result ≡ is_among names.now name.now }
{
    names.iter().any(|own| own.as_bytes() == name.as_bytes())
}

//! The rows of a configuration, array by array.
ghost use Rattle.std.specs.Prelude.{◌≡◌, ◌≢◌, ◌≤◌, ◌++◌, Ok, Err, IfOk, IfErr, map, length};
ghost use Rattle.std.specs.List.{list_any};
ghost use Rattle.std.specs.Result.{result_map_both};
ghost use Rattle.toml.specs.View.{view};
ghost use Rattle.venue_rows.specs.Texts.{is_among, same_text};
ghost use Rattle.venue_config.specs.Keys.{name_key};
ghost use Rattle.venue_config.specs.Values.{text_at};
ghost use Rattle.venue_rows.specs.Rows.{bond_ids, dealer_values, investor_values};
ghost use Rattle.venue_config.specs.Config.{bond_of, bond_id_of, firm_name_of, dealer_of};
ghost use Rattle.venue_config.specs.Config.{investor_of, bonds_in, dealers_in, investors_in};
ghost use Rattle.venue_config.specs.Config.{dealer_names, investor_names};

use crate::faults::ConfigFault;
use crate::values::{number_at, read_band, read_grid, read_id, read_traders, rows_at, text_at};
use std::alloc::Global;
use toml::Value;
use venue_rows::{BondId, BondRow, DealerRow, InvestorRow, Name, VenueConfig};

/// The bonds of a configuration.
#[tactic(auto, using(crate::proofs::ValueLemmas::read_all_ok, crate::proofs::ValueLemmas::read_all_err, crate::proofs::ValueLemmas::read_all_end), unfolding(crate::specs::Config::bonds_in))]
pub(crate) fn read_bonds(
    alloc: Global,
    version: u64,
    document: &Value,
) -> Result<Vec<BondRow>, ConfigFault>
    ensures ok { IfOk result (λ bonds. bonds_in version (view document.now) ≡ Ok bonds.items) }
    ensures most { IfOk result (λ bonds. length bonds.items ≤ VenueConfig.MOST_BONDS) }
    ensures err { IfErr result (λ fault. fault ≢ ConfigFault.Memory
        → bonds_in version (view document.now) ≡ Err fault) }
{
    let rows = rows_at(document, "bond", VenueConfig::MOST_BONDS)?;
    let mut bonds = Vec::new(alloc);
    for row in rows {
        let bond = read_bond(version, bonds.as_slice(), row)?;
        bonds.push(bond)?;
    }
    Ok(bonds)
}

/// A bond, behind those before it.
#[tactic(auto, unfolding(crate::specs::Config::bond_of))]
fn read_bond(version: u64, bonds: &[BondRow], row: &Value) -> Result<BondRow, ConfigFault>
    ensures { result ≡ bond_of version bonds.now (view row.now) }
{
    let id = read_bond_id(bonds, row)?;
    let grid = read_grid(version, row)?;
    let band = read_band(version, grid, row)?;
    Ok(BondRow { id, grid, band })
}

/// The identifier of a bond, which none of the bonds before it has.
#[tactic(auto, unfolding(crate::specs::Config::bond_id_of))]
fn read_bond_id(bonds: &[BondRow], row: &Value) -> Result<BondId, ConfigFault>
    ensures { result ≡ bond_id_of (bond_ids bonds.now) (view row.now) }
{
    let id = read_id(row)?;
    if has_bond(bonds, &id) {
        return Err(ConfigFault::Twice);
    }
    Ok(id)
}

/// Whether one of the bonds has this identifier.
fn has_bond(bonds: &[BondRow], id: &BondId) -> bool
    ensures { result ≡ list_any (λ row. same_text row.id id.now) bonds.now }
{
    bonds.iter().any(|row| row.id.as_bytes() == id.as_bytes())
}

/// The name of a firm, which may be another firm's too.
#[tactic(auto, unfolding(crate::specs::Values::text_at))]
fn read_name(row: &Value) -> Result<Name, ConfigFault>
    ensures { result ≡ text_at name_key (view row.now) }
{
    let Some(text) = text_at(row, "name") else {
        return Err(ConfigFault::Missing);
    };
    let Some(name) = Name::of_firm(text.as_bytes()) else {
        return Err(ConfigFault::Name);
    };
    Ok(name)
}

/// The dealers of a configuration.
#[tactic(auto, using(crate::proofs::ValueLemmas::read_all_ok, crate::proofs::ValueLemmas::read_all_err, crate::proofs::ValueLemmas::read_all_end), unfolding(crate::specs::Config::dealers_in))]
pub(crate) fn read_dealers(alloc: Global, document: &Value) -> Result<Vec<DealerRow>, ConfigFault>
    ensures ok { IfOk result (λ dealers.
        dealers_in (view document.now) ≡ Ok (map dealer_values dealers.items)) }
    ensures most { IfOk result (λ dealers. length dealers.items ≤ VenueConfig.MOST_DEALERS) }
    ensures err { IfErr result (λ fault. fault ≢ ConfigFault.Memory
        → dealers_in (view document.now) ≡ Err fault) }
{
    let rows = rows_at(document, "dealer", VenueConfig::MOST_DEALERS)?;
    let mut dealers = Vec::new(alloc);
    for row in rows {
        let dealer = read_dealer(dealers.as_slice(), row)?;
        dealers.push(dealer)?;
    }
    Ok(dealers)
}

/// A dealer, behind those before it.
#[tactic(auto, unfolding(crate::specs::Config::dealer_of))]
fn read_dealer(dealers: &[DealerRow], row: &Value) -> Result<DealerRow, ConfigFault>
    ensures { result_map_both dealer_values (λ fault. fault) result
        ≡ dealer_of (map dealer_values dealers.now) (view row.now) }
{
    let name = read_dealer_name(dealers, row)?;
    let traders = read_traders(row)?;
    let quotes = number_at(row, "quotes", DealerRow::MOST_QUOTES as u64)?;
    let exposure = number_at(row, "exposure", DealerRow::MOST_EXPOSURE)?;
    Ok(DealerRow {
        name,
        traders,
        quotes: quotes as u32,
        exposure,
    })
}

/// The name of a dealer, which none of the dealers before it has.
#[tactic(auto, unfolding(crate::specs::Config::firm_name_of))]
fn read_dealer_name(dealers: &[DealerRow], row: &Value) -> Result<Name, ConfigFault>
    ensures { result ≡ firm_name_of (dealer_names (map dealer_values dealers.now)) (view row.now) }
{
    let name = read_name(row)?;
    if has_dealer(dealers, &name) {
        return Err(ConfigFault::Twice);
    }
    Ok(name)
}

/// Whether one of the dealers has this name.
fn has_dealer(dealers: &[DealerRow], name: &Name) -> bool
    ensures { result ≡ list_any (λ row. same_text row.name name.now) dealers.now }
{
    dealers
        .iter()
        .any(|row| row.name.as_bytes() == name.as_bytes())
}

/// The investors of a configuration.
#[tactic(auto, using(crate::proofs::ValueLemmas::read_all_ok, crate::proofs::ValueLemmas::read_all_err, crate::proofs::ValueLemmas::read_all_end), unfolding(crate::specs::Config::investors_in))]
pub(crate) fn read_investors(
    alloc: Global,
    dealers: &[DealerRow],
    document: &Value,
) -> Result<Vec<InvestorRow>, ConfigFault>
    ensures ok { IfOk result (λ investors.
        investors_in (map dealer_values dealers.now) (view document.now)
        ≡ Ok (map investor_values investors.items)) }
    ensures most { IfOk result (λ investors. length investors.items ≤ VenueConfig.MOST_INVESTORS) }
    ensures err { IfErr result (λ fault. fault ≢ ConfigFault.Memory
        → investors_in (map dealer_values dealers.now) (view document.now) ≡ Err fault) }
{
    let rows = rows_at(document, "investor", VenueConfig::MOST_INVESTORS)?;
    let mut investors = Vec::new(alloc);
    for row in rows {
        let investor = read_investor(dealers, investors.as_slice(), row)?;
        investors.push(investor)?;
    }
    Ok(investors)
}

/// An investor, behind all dealers and the investors before it.
#[tactic(auto, unfolding(crate::specs::Config::investor_of))]
fn read_investor(
    dealers: &[DealerRow],
    investors: &[InvestorRow],
    row: &Value,
) -> Result<InvestorRow, ConfigFault>
    ensures { result_map_both investor_values (λ fault. fault) result
        ≡ investor_of (map dealer_values dealers.now) (map investor_values investors.now)
        (view row.now) }
{
    let name = read_investor_name(dealers, investors, row)?;
    let traders = read_traders(row)?;
    let requests = number_at(row, "requests", InvestorRow::MOST_REQUESTS as u64)?;
    let open_limit = number_at(row, "open", InvestorRow::MOST_OPEN as u64)?;
    let quantity = number_at(row, "quantity", InvestorRow::MOST_QUANTITY)?;
    Ok(InvestorRow {
        name,
        traders,
        requests: requests as u32,
        open_limit: open_limit as u32,
        quantity,
    })
}

/// The name of an investor, which no dealer and none of the investors before it has.
#[tactic(auto, unfolding(crate::specs::Config::firm_name_of))]
fn read_investor_name(
    dealers: &[DealerRow],
    investors: &[InvestorRow],
    row: &Value,
) -> Result<Name, ConfigFault>
    ensures { result ≡ firm_name_of
        (dealer_names (map dealer_values dealers.now)
        ++ investor_names (map investor_values investors.now))
        (view row.now) }
{
    let name = read_name(row)?;
    if has_firm(dealers, investors, &name) {
        return Err(ConfigFault::Twice);
    }
    Ok(name)
}

/// Whether one of the dealers or of the investors has this name.
fn has_firm(dealers: &[DealerRow], investors: &[InvestorRow], name: &Name) -> bool
    ensures { result ≡ is_among
        (dealer_names (map dealer_values dealers.now)
        ++ investor_names (map investor_values investors.now))
        name.now }
{
    has_dealer(dealers, name) || has_investor(investors, name)
}

/// Whether one of the investors has this name.
fn has_investor(investors: &[InvestorRow], name: &Name) -> bool
    ensures { result ≡ list_any (λ row. same_text row.name name.now) investors.now }
{
    investors
        .iter()
        .any(|row| row.name.as_bytes() == name.as_bytes())
}

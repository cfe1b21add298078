//! The reading of a configuration from a text of TOML.
ghost use Rattle.std.specs.Prelude.{◌≡◌, ◌≢◌, ◌≤◌, Ok, Err, IfOk, IfErr, map, length, sum_by};
ghost use Rattle.toml.specs.Parse.{parse_document};
ghost use Rattle.toml.specs.View.{view};
ghost use Rattle.venue_config.specs.Config as spec;
ghost use Rattle.venue_rows.specs.Rows as rows;

use crate::faults::ConfigFault;
use crate::rows::{read_bonds, read_dealers, read_investors};
use crate::values::{number_at, read_date};
use std::alloc::Global;
use toml::Value;
use venue_rows::{DealerRow, InvestorRow, VenueConfig};

/// Whether the quotes of all dealers and the requests of all investors are within their limits.
#[tactic(auto, using(crate::proofs::ConfigLemmas::quotes_of_values, crate::proofs::ConfigLemmas::requests_of_values))]
fn sums_fit(dealers: &[DealerRow], investors: &[InvestorRow]) -> bool
    requires dealers_most { length dealers.now ≤ VenueConfig.MOST_DEALERS }
    requires investors_most { length investors.now ≤ VenueConfig.MOST_INVESTORS }
    ensures { result
        ≡ spec.sums_fit (map rows.dealer_values dealers.now)
        (map rows.investor_values investors.now) }
{
    quotes_in_all(dealers) <= VenueConfig::MOST_QUOTES_IN_ALL
        && requests_in_all(investors) <= VenueConfig::MOST_REQUESTS_IN_ALL
}

/// The quotes of all dealers together.
fn quotes_in_all(dealers: &[DealerRow]) -> u64
    requires { length dealers.now ≤ VenueConfig.MOST_DEALERS }
    ensures { result ≡ sum_by (λ row. row.quotes) dealers.now }
{
    let mut total = 0;
    for row in dealers {
        total += row.quotes as u64;
    }
    total
}

/// The requests of all investors together.
fn requests_in_all(investors: &[InvestorRow]) -> u64
    requires { length investors.now ≤ VenueConfig.MOST_INVESTORS }
    ensures { result ≡ sum_by (λ row. row.requests) investors.now }
{
    let mut total = 0;
    for row in investors {
        total += row.requests as u64;
    }
    total
}

/// Reads the configuration that a text spells: TOML with the keys of `specs/Keys.antt`. Other keys
/// are ignored, and arrays of tables that are absent are empty.
///
/// `Toml` is returned exactly where `toml` refuses the text for another cause than memory. Then the
/// values are looked at in the order of their keys, row by row, and the two sums last; the first
/// fault is the result. Of one value the faults come in this order: `Missing` where it is absent or
/// of another kind, `Name` where it is not of its form, `Limit` where it is out of its limits,
/// `Twice` where it was named before. An array with too many elements is `Limit` before its
/// elements are looked at. `Memory` may be returned at any point, and only then is the fault not
/// the first one.
#[tactic(auto, unfolding(crate::specs::Config::config_of))]
pub fn read_config(alloc: Global, text: &str) -> Result<VenueConfig, ConfigFault>
    ensures ok { IfOk result (λ config. spec.config_of text.now ≡ Ok (rows.values_of config)) }
    ensures err { IfErr result (λ fault. fault ≢ ConfigFault.Memory
        → spec.config_of text.now ≡ Err fault) }
    ensures toml { IfErr result (λ fault. fault ≡ ConfigFault.Toml
        → parse_document text.now ≡ None) }
    ensures limits { IfOk result (λ config. rows.KeepsLimits config) }
{
    let document = read_toml(alloc, text)?;
    let config = read_document(alloc, &document)?;
    Ok(config)
}

/// Reads a text of TOML.
#[tactic(auto, unfolding(crate::specs::Config::document_of))]
fn read_toml(alloc: Global, text: &str) -> Result<Value, ConfigFault>
    ensures ok { IfOk result (λ document. spec.document_of text.now ≡ Ok (view document)) }
    ensures err { IfErr result (λ fault. fault ≢ ConfigFault.Memory
        → spec.document_of text.now ≡ Err fault) }
    ensures toml { IfErr result (λ fault. fault ≡ ConfigFault.Toml
        → parse_document text.now ≡ None) }
{
    let error = match toml::table_from_str(alloc, text) {
        Ok(table) => return Ok(Value::Table(table)),
        Err(error) => error,
    };
    if error.is_memory() {
        return Err(ConfigFault::Memory);
    }
    Err(ConfigFault::Toml)
}

/// Reads the configuration of a document.
#[tactic(auto, unfolding(crate::specs::Config::config_in))]
fn read_document(alloc: Global, document: &Value) -> Result<VenueConfig, ConfigFault>
    ensures ok { IfOk result (λ config.
        spec.config_in (view document.now) ≡ Ok (rows.values_of config)) }
    ensures err { IfErr result (λ fault. fault ≢ ConfigFault.Memory
        → spec.config_in (view document.now) ≡ Err fault) }
    ensures limits { IfOk result (λ config. rows.KeepsLimits config) }
{
    let version = number_at(document, "version", VenueConfig::LAST_VERSION)?;
    let date = read_date(document)?;
    let bonds = read_bonds(alloc, version, document)?;
    let dealers = read_dealers(alloc, document)?;
    let investors = read_investors(alloc, dealers.as_slice(), document)?;
    if !sums_fit(dealers.as_slice(), investors.as_slice()) {
        return Err(ConfigFault::Limit);
    }
    Ok(VenueConfig::new(date, bonds, dealers, investors))
}

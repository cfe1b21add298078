//! What stands at the keys of a table.
ghost use Rattle.std.specs.Prelude.{◌≡◌, ◌≤◌, IfOk, Ok, Some, length};
ghost use Rattle.std.specs.Option.{option_map, option_and_then};
ghost use Rattle.std.specs.Result.{result_map_both};
ghost use Rattle.toml.specs.Data.{get, as_str, as_array};
ghost use Rattle.toml.specs.View.{view, items_view};
ghost use Rattle.venue_config.specs.Keys.{date_key, id_key};
ghost use Rattle.bond_prices.specs.Grid.{is_grid};
ghost use Rattle.venue_config.specs.Config.{band_between, band_in, band_of, fault_without_grid, grid_of};
ghost use Rattle.venue_config.specs.Values as spec;

use crate::faults::ConfigFault;
use bond_prices::{Band, Grid, PriceFault, Ticks, on_grid, read_price};
use fix_fields::Date;
use toml::Value;
use venue_rows::{BondId, Name, Traders, VenueConfig};

/// The integer at a key, from 1 to `most`.
#[tactic(auto, unfolding(crate::specs::Values::number_at))]
pub(crate) fn number_at(table: &Value, key: &str, most: u64) -> Result<u64, ConfigFault>
    ensures value { result
        ≡ spec.number_at (record { key = key.now; most = most }) (view table.now) }
    ensures limits { IfOk result (λ number. (1 ≤ number) × (number ≤ most)) }
{
    let Some(value) = table.get(key) else {
        return Err(ConfigFault::Missing);
    };
    let Some(number) = value.as_integer() else {
        return Err(ConfigFault::Missing);
    };
    number_within(number, most)
}

/// An integer from 1 to `most`.
fn number_within(number: i64, most: u64) -> Result<u64, ConfigFault>
    ensures value { result ≡ spec.number_within most number }
    ensures limits { IfOk result (λ number. (1 ≤ number) × (number ≤ most)) }
{
    let Ok(number) = u64::try_from(number) else {
        return Err(ConfigFault::Limit);
    };
    if number < 1 || number > most {
        return Err(ConfigFault::Limit);
    }
    Ok(number)
}

/// The text at a key, or none where it is absent or of another kind.
pub(crate) fn text_at<'a>(table: &'a Value, key: &str) -> Option<&'a str>
    ensures { option_map (λ text. text.now) result
        ≡ option_and_then as_str (get key.now (view table.now)) }
{
    match table.get(key) {
        Some(value) => value.as_str(),
        None => None,
    }
}

/// The date of a configuration.
#[tactic(auto, unfolding(crate::specs::Values::text_at))]
pub(crate) fn read_date(document: &Value) -> Result<Date, ConfigFault>
    ensures { result ≡ spec.text_at date_key (view document.now) }
{
    let Some(text) = text_at(document, "date") else {
        return Err(ConfigFault::Missing);
    };
    let Some(date) = Date::new(text.as_bytes()) else {
        return Err(ConfigFault::Name);
    };
    Ok(date)
}

/// The identifier of a bond.
#[tactic(auto, unfolding(crate::specs::Values::text_at))]
pub(crate) fn read_id(row: &Value) -> Result<BondId, ConfigFault>
    ensures { result ≡ spec.text_at id_key (view row.now) }
{
    let Some(text) = text_at(row, "id") else {
        return Err(ConfigFault::Missing);
    };
    let Some(id) = BondId::new(text.as_bytes()) else {
        return Err(ConfigFault::Name);
    };
    Ok(id)
}

/// The grid of a bond, in a document of this version.
#[tactic(auto, unfolding(crate::specs::Config::grid_of))]
pub(crate) fn read_grid(version: u64, row: &Value) -> Result<Grid, ConfigFault>
    ensures { result ≡ grid_of version (view row.now) }
{
    if version < VenueConfig::GRIDS_SINCE {
        return Ok(Grid::FINEST);
    }
    let Some(value) = row.get("grid") else {
        return Err(fault_without_grid(version));
    };
    let Some(steps) = value.as_integer() else {
        return Err(ConfigFault::Missing);
    };
    grid_within(steps)
}

/// The fault of a bond that has no grid: where bonds may have bands, the document is of no version.
fn fault_without_grid(version: u64) -> ConfigFault
    ensures { result ≡ fault_without_grid version }
{
    if version >= VenueConfig::BANDS_SINCE {
        return ConfigFault::Limit;
    }
    ConfigFault::Missing
}

/// An integer that is a grid.
fn grid_within(steps: i64) -> Result<Grid, ConfigFault>
    ensures { result ≡ spec.choice_within is_grid steps }
{
    let Ok(steps) = u32::try_from(steps) else {
        return Err(ConfigFault::Limit);
    };
    let Some(grid) = Grid::new(steps) else {
        return Err(ConfigFault::Limit);
    };
    Ok(grid)
}

/// The band of a bond on this grid, in a document of this version.
#[tactic(auto, unfolding(crate::specs::Config::band_of))]
pub(crate) fn read_band(version: u64, grid: Grid, row: &Value) -> Result<Band, ConfigFault>
    ensures { result ≡ band_of version grid (view row.now) }
{
    if version < VenueConfig::BANDS_SINCE {
        return Ok(Band::WHOLE);
    }
    band_at(grid, row)
}

/// The band at the keys of a bond.
#[tactic(auto, unfolding(crate::specs::Config::band_in))]
fn band_at(grid: Grid, row: &Value) -> Result<Band, ConfigFault>
    ensures { result ≡ band_in grid (view row.now) }
{
    let low = price_at(row, "low", grid)?;
    let high = price_at(row, "high", grid)?;
    band_between(low, high)
}

/// The band between two ends, both of which stand or neither.
fn band_between(low: Option<Ticks>, high: Option<Ticks>) -> Result<Band, ConfigFault>
    ensures { result ≡ band_between low high }
{
    match (low, high) {
        (None, None) => Ok(Band::WHOLE),
        (Some(low), Some(high)) => ordered(low, high),
        _ => Err(ConfigFault::Limit),
    }
}

/// The band between two ends, of which the lowest is not above the highest.
fn ordered(low: Ticks, high: Ticks) -> Result<Band, ConfigFault>
    ensures { result ≡ band_between (Some low) (Some high) }
{
    if low.get() > high.get() {
        return Err(ConfigFault::Limit);
    }
    Ok(Band { low, high })
}

/// The price at a key, on a grid, where one stands.
#[tactic(auto, unfolding(crate::specs::Values::price_at))]
fn price_at(row: &Value, key: &str, grid: Grid) -> Result<Option<Ticks>, ConfigFault>
    ensures { result ≡ spec.price_at key.now grid (view row.now) }
{
    let Some(value) = row.get(key) else {
        return Ok(None);
    };
    let Some(text) = value.as_str() else {
        return Err(ConfigFault::Missing);
    };
    let price = price_on(read_price(text.as_bytes()), grid)?;
    Ok(Some(price))
}

/// A price that was read, where it is on the grid.
fn price_on(read: Result<Ticks, PriceFault>, grid: Grid) -> Result<Ticks, ConfigFault>
    ensures { result ≡ spec.price_on grid read }
{
    match read {
        Ok(price) => price_if_on(price, grid),
        Err(PriceFault::Form) => Err(ConfigFault::Name),
        Err(_) => Err(ConfigFault::Limit),
    }
}

/// A price on the grid.
fn price_if_on(price: Ticks, grid: Grid) -> Result<Ticks, ConfigFault>
    ensures { result ≡ spec.price_on grid (Ok price) }
{
    if !on_grid(price, grid) {
        return Err(ConfigFault::Limit);
    }
    Ok(price)
}

/// The elements of an array that has at least `least` and at most `most`.
#[tactic(auto, using(crate::proofs::ValueLemmas::item_count_view))]
pub(crate) fn elements_of(array: &Value, least: usize, most: usize) -> Result<&[Value], ConfigFault>
    ensures value { result_map_both (λ elements. items_view elements.now) (λ fault. fault) result
        ≡ spec.elements_in least most (as_array (view array.now)) }
    ensures limits { IfOk result (λ elements.
        (least ≤ length elements.now) × (length elements.now ≤ most)) }
{
    let Some(elements) = array.as_array() else {
        return Err(ConfigFault::Missing);
    };
    if elements.len() < least || elements.len() > most {
        return Err(ConfigFault::Limit);
    }
    Ok(elements.as_slice())
}

/// The rows of an array of tables with at most `most`: none where it is absent.
#[tactic(auto, unfolding(crate::specs::Values::rows_at))]
pub(crate) fn rows_at<'a>(
    document: &'a Value,
    key: &str,
    most: usize,
) -> Result<&'a [Value], ConfigFault>
    ensures value { result_map_both (λ rows. items_view rows.now) (λ fault. fault) result
        ≡ spec.rows_at (record { key = key.now; least = 0; most = most }) (view document.now) }
    ensures limits { IfOk result (λ rows. length rows.now ≤ most) }
{
    let Some(rows) = document.get(key) else {
        return Ok(&[]);
    };
    elements_of(rows, 0, most)
}

/// The traders of a firm.
#[tactic(auto, using(crate::proofs::ValueLemmas::read_all_ok, crate::proofs::ValueLemmas::read_all_err, crate::proofs::ValueLemmas::read_all_end), unfolding(crate::specs::Values::traders_at, crate::specs::Values::elements_at))]
pub(crate) fn read_traders(row: &Value) -> Result<Traders, ConfigFault>
    ensures value { result ≡ spec.traders_at (view row.now) }
    ensures some { IfOk result (λ traders. 1 ≤ length traders) }
{
    let Some(array) = row.get("traders") else {
        return Err(ConfigFault::Missing);
    };
    let elements = elements_of(array, 1, Traders::MOST)?;
    let mut traders = Traders::new();
    for element in elements {
        let trader = read_trader(&traders, element)?;
        traders.push(&trader);
    }
    Ok(traders)
}

/// A trader of a firm, behind those before it.
#[tactic(auto, unfolding(crate::specs::Values::trader_of))]
fn read_trader(before: &Traders, element: &Value) -> Result<Name, ConfigFault>
    ensures { result ≡ spec.trader_of before.now (view element.now) }
{
    let Some(text) = element.as_str() else {
        return Err(ConfigFault::Missing);
    };
    let Some(trader) = Name::new(text.as_bytes()) else {
        return Err(ConfigFault::Name);
    };
    if before.contains(text.as_bytes()) {
        return Err(ConfigFault::Twice);
    }
    Ok(trader)
}

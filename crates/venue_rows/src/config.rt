//! The configuration of a venue, as a whole.
ghost use Rattle.std.specs.Prelude.{◌≡◌, ◌≤◌, ◌++◌, IfOk, map, length};
ghost use Rattle.std.specs.Prelude.{position};
ghost use Rattle.venue_rows.specs.Texts.{same_text};
ghost use Rattle.std.specs.List.{find};
ghost use Rattle.std.specs.Option.{option_copied};
ghost use Rattle.venue_rows.specs.Rows as rows;

use crate::copies::{copy_bonds, copy_dealers, copy_investors};
use crate::{BondRow, DealerRow, InvestorRow};
use fix_fields::{Date, Memory};
use std::alloc::Global;
use std::marker::Model;

/// What a venue is configured with for one day: its date, its bonds, its dealers and its investors.
///
/// No two bonds are the same, no two firms have one name, be they dealers or investors, and no firm
/// names a trader twice. There are at most 1,024 bonds, 64 dealers and 64 investors; all dealers
/// together have at most 65,536 quotes in a day, and all investors at most 4,096 requests.
#[derive(Drop)]
pub struct VenueConfig {
    date: Date,
    bonds: Vec<BondRow>,
    dealers: Vec<DealerRow>,
    investors: Vec<InvestorRow>,
}

impl Model for VenueConfig {
    ghost use Rattle.venue_rows.specs.Rows.{Configuration, KeepsLimits};

    ghost Value = { Configuration };

    ghost view = { λ c. record {
      date = c.date;
      bonds = c.bonds.items;
      dealers = c.dealers.items;
      investors = c.investors.items;
    } };

    ghost invariant = { λ c. KeepsLimits (record {
      date = c.date;
      bonds = c.bonds.items;
      dealers = c.dealers.items;
      investors = c.investors.items;
    }) };
}

impl VenueConfig {
    /// The last version of the form of a configuration.
    pub const LAST_VERSION: u64 = 3;

    /// The first version in which each bond has its grid.
    pub const GRIDS_SINCE: u64 = 2;

    /// The first version in which a bond may have its band.
    pub const BANDS_SINCE: u64 = 3;

    /// The greatest number of bonds.
    pub const MOST_BONDS: usize = 1_024;

    /// The greatest number of dealers.
    pub const MOST_DEALERS: usize = 64;

    /// The greatest number of investors.
    pub const MOST_INVESTORS: usize = 64;

    /// The greatest number of quotes that all dealers together may have in a day.
    pub const MOST_QUOTES_IN_ALL: u64 = 65_536;

    /// The greatest number of requests that all investors together may have in a day.
    pub const MOST_REQUESTS_IN_ALL: u64 = 4_096;

    /// The configuration of these rows, which have to keep its limits: `read_config` of
    /// `venue_config` looks at each.
    pub fn new(
        date: Date,
        bonds: Vec<BondRow>,
        dealers: Vec<DealerRow>,
        investors: Vec<InvestorRow>,
    ) -> Self
        requires { rows.KeepsLimits (record {
          date = date;
          bonds = bonds.items;
          dealers = dealers.items;
          investors = investors.items;
        }) }
        ensures { result ≡ record {
          date = date;
          bonds = bonds.items;
          dealers = dealers.items;
          investors = investors.items;
        } }
    {
        VenueConfig {
            date,
            bonds,
            dealers,
            investors,
        }
    }

    /// The same configuration once more, in memory of its own.
    pub fn copy(&self, alloc: Global) -> Result<Self, Memory>
        ensures { IfOk result (λ own. own ≡ self.now) }
    {
        let bonds = copy_bonds(alloc, self.bonds.as_slice())?;
        let dealers = copy_dealers(alloc, self.dealers.as_slice())?;
        let investors = copy_investors(alloc, self.investors.as_slice())?;
        Ok(VenueConfig {
            date: self.date,
            bonds,
            dealers,
            investors,
        })
    }

    /// The day, which the moments of its messages bear.
    pub fn date(&self) -> &Date
        ensures { result.now ≡ self.now.date }
    {
        &self.date
    }

    /// The bonds that may be asked for, in the order of their rows.
    pub fn bonds(&self) -> &[BondRow]
        ensures value { result.now ≡ self.now.bonds }
        ensures limits { rows.KeepsLimits self.now }
    {
        self.bonds.as_slice()
    }

    /// The dealers, in the order of their rows: each is the firm with the number of its place, from
    /// 0.
    pub fn dealers(&self) -> &[DealerRow]
        ensures value { result.now ≡ self.now.dealers }
        ensures limits { rows.KeepsLimits self.now }
    {
        self.dealers.as_slice()
    }

    /// The investors, in the order of their rows: their numbers as firms go on behind the dealers'.
    pub fn investors(&self) -> &[InvestorRow]
        ensures value { result.now ≡ self.now.investors }
        ensures limits { rows.KeepsLimits self.now }
    {
        self.investors.as_slice()
    }

    /// The bond with this identifier (SecurityID 48), or none where no bond has it.
    pub fn bond(&self, id: &[u8]) -> Option<BondRow>
        ensures { result ≡ rows.bond_with_id self.now id.now }
    {
        bond_with_id(self.bonds(), id)
    }

    /// How many dealers there are: they are the firms with the numbers below it.
    pub fn dealer_count(&self) -> u16
        ensures value { result ≡ length self.now.dealers }
        ensures most { result ≤ VenueConfig.MOST_DEALERS }
    {
        self.dealers().len() as u16
    }

    /// The row of the dealer with this number as a firm, or none where it is no dealer's.
    pub fn dealer(&self, firm: u16) -> Option<&DealerRow>
        ensures { option_copied result ≡ rows.dealer_numbered self.now firm }
    {
        self.dealers.get(usize::from(firm))
    }

    /// The row of the investor with this number as a firm, or none where it is no investor's.
    pub fn investor(&self, firm: u16) -> Option<&InvestorRow>
        ensures { option_copied result ≡ rows.investor_numbered self.now firm }
    {
        let firm = usize::from(firm);
        if firm < self.dealers.len() {
            return None;
        }
        self.investors.get(firm - self.dealers.len())
    }

    /// The number as a firm of the dealer with this name, or none where no dealer has it.
    pub fn dealer_named(&self, name: &[u8]) -> Option<u16>
        ensures { result ≡ rows.dealer_named self.now name.now }
    {
        let place = place_of_dealer(self.dealers(), name)?;
        Some(place as u16)
    }

    /// The number of the firm with this name, or none where no firm has it: the dealers are
    /// numbered from 0 in their order, and the investors behind them.
    pub fn firm(&self, name: &str) -> Option<u16>
        ensures { result ≡ rows.firm_number self.now name.now }
    {
        firm_number(self.dealers(), self.investors(), name.as_bytes())
    }

    /// Whether there is a room for the request with this number of the firm with that number:
    /// whether the firm is an investor, and the number is one of its requests of the day, 1 to
    /// `requests`.
    pub fn has_room(&self, firm: u16, number: u32) -> bool
        ensures { result ≡ rows.has_room self.now firm number }
    {
        let Some(row) = self.investor(firm) else {
            return false;
        };
        number >= 1 && number <= row.requests
    }
}

/// The number of the firm with this name.
fn firm_number(dealers: &[DealerRow], investors: &[InvestorRow], name: &[u8]) -> Option<u16>
    requires dealers_most { length dealers.now ≤ VenueConfig.MOST_DEALERS }
    requires investors_most { length investors.now ≤ VenueConfig.MOST_INVESTORS }
    ensures { result ≡ position (λ own. same_text own name.now)
        (map (λ row. row.name) dealers.now ++ map (λ row. row.name) investors.now) }
{
    if let Some(place) = place_of_dealer(dealers, name) {
        return Some(place as u16);
    }
    let place = place_of_investor(investors, name)?;
    Some((dealers.len() + place) as u16)
}

/// The bond with this identifier.
fn bond_with_id(bonds: &[BondRow], id: &[u8]) -> Option<BondRow>
    ensures { result ≡ find (λ row. same_text row.id id.now) bonds.now }
{
    bonds.iter().copied().find(|row| row.id.as_bytes() == id)
}

/// The place of the dealer with this name.
fn place_of_dealer(dealers: &[DealerRow], name: &[u8]) -> Option<usize>
    ensures { result ≡ position (λ row. same_text row.name name.now) dealers.now }
{
    dealers.iter().position(|row| row.name.as_bytes() == name)
}

/// The place of the investor with this name.
fn place_of_investor(investors: &[InvestorRow], name: &[u8]) -> Option<usize>
    ensures { result ≡ position (λ row. same_text row.name name.now) investors.now }
{
    investors.iter().position(|row| row.name.as_bytes() == name)
}

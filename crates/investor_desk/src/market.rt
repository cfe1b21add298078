//! What a desk looks at of the configuration of its venue.
ghost use Rattle.std.specs.Prelude.{◌≡◌, ◌≤◌, length, map, position, IfOk};
ghost use Rattle.venue_rows.specs.Texts.{same_text};
ghost use Rattle.venue_rows.specs.declared.dealer_rows.DealerRow.{DealerRow};
ghost use Rattle.investor_desk.specs.InvestorRules as spec;
ghost use Rattle.investor_desk.specs.InvestorDesk.{market_of};

use fix_fields::{Date, Memory};
use std::alloc::Global;
use std::marker::Model;
use venue_rows::{BondRow, DealerRow, InvestorRow, Name, VenueConfig};

/// The day, the bonds of a venue, the names of its dealers in the order of their numbers, and an
/// investor's own number and row.
#[derive(Drop)]
pub(crate) struct Market {
    pub(crate) date: Date,
    bonds: Vec<BondRow>,
    dealers: Vec<Name>,
    pub(crate) firm: u16,
    pub(crate) row: InvestorRow,
}

impl Model for Market {
    ghost use Rattle.std.specs.Prelude.{◌≤◌, length};
    ghost use Rattle.venue_rows.specs.declared.config.TheConstants.VenueConfig.{MOST_DEALERS};
    ghost use Rattle.investor_desk.specs.InvestorRules.{InvestorMarket};

    ghost Value = { InvestorMarket };

    ghost view = { λ market. record {
      date = market.date;
      bonds = market.bonds.items;
      dealers = market.dealers.items;
      firm = market.firm;
      row = market.row;
    } };

    ghost invariant = { λ market. length market.dealers.items ≤ MOST_DEALERS };
}

impl Market {
    /// The market of the investor with this row, whose number as a firm is this.
    pub(crate) fn of(
        alloc: Global,
        config: &VenueConfig,
        firm: u16,
        row: &InvestorRow,
    ) -> Result<Self, Memory>
        ensures { IfOk result (λ market. market ≡ market_of config.now firm row.now) }
    {
        let bonds = config.bonds().to_vec(alloc)?;
        let dealers = names_of(alloc, config.dealers())?;
        Ok(Market {
            date: *config.date(),
            bonds,
            dealers,
            firm,
            row: row.copy(),
        })
    }

    /// The market of an investor that sees these bonds and the dealers with these names. Its number
    /// as a firm is 0.
    pub(crate) fn seen(
        date: Date,
        row: InvestorRow,
        bonds: Vec<BondRow>,
        dealers: Vec<Name>,
    ) -> Self
        requires { length dealers.items ≤ VenueConfig.MOST_DEALERS }
        ensures { result ≡ record {
          date = date;
          bonds = bonds.items;
          dealers = dealers.items;
          firm = 0;
          row = row;
        } }
    {
        Market {
            date,
            bonds,
            dealers,
            firm: 0,
            row,
        }
    }

    /// The bond with this identifier (SecurityID 48).
    #[tactic(auto, unfolding(crate::specs::InvestorRules::bond_with_id))]
    pub(crate) fn bond_with_id(&self, id: &[u8]) -> Option<BondRow>
        ensures { result ≡ spec.bond_with_id self.now id.now }
    {
        self.bonds
            .iter()
            .copied()
            .find(|bond| bond.id.as_bytes() == id)
    }

    /// The number of the dealer with this name.
    #[tactic(auto, unfolding(crate::specs::InvestorRules::dealer_named))]
    pub(crate) fn dealer_named(&self, name: &[u8]) -> Option<u16>
        ensures { result ≡ spec.dealer_named self.now name.now }
    {
        let place = place_of(&self.dealers, name)?;
        Some(place as u16)
    }
}

/// The names of dealers.
fn names_of(alloc: Global, dealers: &[DealerRow]) -> Result<Vec<Name>, Memory>
    ensures { IfOk result (λ names. names.items
        ≡ map (λ (dealer : DealerRow). dealer.name) dealers.now) }
{
    dealers
        .iter()
        .map(|dealer| dealer.name.copy())
        .collect(alloc)
}

/// The place of a name among these.
fn place_of(names: &[Name], name: &[u8]) -> Option<usize>
    ensures { result ≡ position (λ own. same_text own name.now) names.now }
{
    names.iter().position(|own| own.as_bytes() == name)
}

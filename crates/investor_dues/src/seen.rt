//! What an investor sees of a venue.
ghost use Rattle.std.specs.Prelude.{◌≡◌, ◌≤◌, length, map, IfOk};
ghost use Rattle.investor_views.specs.InvestorView.{seen_by};
ghost use Rattle.venue_rows.specs.declared.dealer_rows.DealerRow.{DealerRow};

use fix_fields::{Date, Memory};
use std::alloc::Global;
use std::marker::Model;
use venue_rows::{BondRow, DealerRow, InvestorRow, Name, VenueConfig};

/// The market as an investor sees it: the day, its own row, the bonds with their grids, and the
/// names of the dealers in their order, at most [`VenueConfig::MOST_DEALERS`].
#[derive(Drop)]
pub struct InvestorSeen {
    date: Date,
    row: InvestorRow,
    bonds: Vec<BondRow>,
    dealers: Vec<Name>,
}

impl Model for InvestorSeen {
    ghost use Rattle.std.specs.Prelude.{◌≤◌, length};
    ghost use Rattle.venue_rows.specs.declared.config.TheConstants.VenueConfig.{MOST_DEALERS};
    ghost use Rattle.investor_views.specs.InvestorView.{SeenMarket};

    ghost Value = { SeenMarket };

    ghost view = { λ seen. record {
      date = seen.date;
      row = seen.row;
      bonds = seen.bonds.items;
      dealers = seen.dealers.items;
    } };

    ghost invariant = { λ seen. length seen.dealers.items ≤ MOST_DEALERS };
}

impl InvestorSeen {
    /// What is seen of a day, by its parts.
    pub fn new(date: Date, row: InvestorRow, bonds: Vec<BondRow>, dealers: Vec<Name>) -> Self
        requires { length dealers.items ≤ VenueConfig.MOST_DEALERS }
        ensures { result ≡ record {
          date = date;
          row = row;
          bonds = bonds.items;
          dealers = dealers.items;
        } }
    {
        InvestorSeen {
            date,
            row,
            bonds,
            dealers,
        }
    }

    /// What the investor with this row sees of a venue.
    pub fn of(alloc: Global, config: &VenueConfig, row: &InvestorRow) -> Result<Self, Memory>
        ensures { IfOk result (λ seen. seen ≡ seen_by config.now row.now) }
    {
        let bonds = config.bonds().to_vec(alloc)?;
        let dealers = names_of(alloc, config.dealers())?;
        Ok(InvestorSeen {
            date: *config.date(),
            row: row.copy(),
            bonds,
            dealers,
        })
    }

    /// The day.
    pub fn date(&self) -> &Date
        ensures { result.now ≡ self.now.date }
    {
        &self.date
    }

    /// The investor's own row.
    pub fn row(&self) -> &InvestorRow
        ensures { result.now ≡ self.now.row }
    {
        &self.row
    }

    /// The bonds with their grids.
    pub fn bonds(&self) -> &[BondRow]
        ensures { result.now ≡ self.now.bonds }
    {
        self.bonds.as_slice()
    }

    /// The names of the dealers.
    pub fn dealers(&self) -> &[Name]
        ensures names { result.now ≡ self.now.dealers }
        ensures most { length result.now ≤ VenueConfig.MOST_DEALERS }
    {
        self.dealers.as_slice()
    }
}

/// The names of dealers.
fn names_of(alloc: Global, dealers: &[DealerRow]) -> Result<Vec<Name>, Memory>
    ensures { IfOk result (λ names. names.items
        ≡ map (λ (dealer : DealerRow). dealer.name) dealers.now) }
{
    dealers
        .iter()
        .map(|dealer| dealer.name.copy())
        .collect(alloc)
}

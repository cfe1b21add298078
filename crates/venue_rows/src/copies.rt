//! Rows once more, in memory of their own.
ghost use Rattle.std.specs.Prelude.{◌≡◌, IfOk};

use crate::{BondRow, DealerRow, InvestorRow};
use fix_fields::Memory;
use std::alloc::Global;

/// The same bonds once more.
pub(crate) fn copy_bonds(alloc: Global, rows: &[BondRow]) -> Result<Vec<BondRow>, Memory>
    ensures { IfOk result (λ own. own.items ≡ rows.now) }
{
    rows.to_vec(alloc)
}

/// The same dealers once more.
pub(crate) fn copy_dealers(alloc: Global, rows: &[DealerRow]) -> Result<Vec<DealerRow>, Memory>
    ensures { IfOk result (λ own. own.items ≡ rows.now) }
{
    rows.iter().map(|row| row.copy()).collect(alloc)
}

/// The same investors once more.
pub(crate) fn copy_investors(
    alloc: Global,
    rows: &[InvestorRow],
) -> Result<Vec<InvestorRow>, Memory>
    ensures { IfOk result (λ own. own.items ≡ rows.now) }
{
    rows.iter().map(|row| row.copy()).collect(alloc)
}

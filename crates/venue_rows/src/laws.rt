//! A law over the definitions of rows, the contract of a function that does nothing.
ghost use Rattle.std.specs.Prelude.{◌≡◌};
ghost use Rattle.venue_rows.specs.Rows.{dealer_values};
ghost use Rattle.venue_rows.specs.declared.dealer_rows.DealerRow.{DealerRow};

/// Two rows of dealers with equal values are the same row: a row holds nothing besides its values.
pub fn rows_are_their_values()
    ensures { (a b : DealerRow) → dealer_values a ≡ dealer_values b → a ≡ b }
{}

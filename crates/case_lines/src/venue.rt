//! The venue of the cases.

/// The configuration of a venue with one bond: the dealers DLR1 and DLR2, firms 0 and 1, each with 4
/// quotes a day, and INV1, firm 2.
pub const VENUE: &str = "version = 1
date = \"20250314\"
bond = [{ id = \"BONDA0000001\" }]
dealer = [
  { name = \"DLR1\", traders = [\"T1\"], quotes = 4, exposure = 10000000 },
  { name = \"DLR2\", traders = [\"T2\"], quotes = 4, exposure = 10000000 },
]
investor = [{ name = \"INV1\", traders = [\"T8\"], requests = 3, open = 2, quantity = 5000000 }]
";

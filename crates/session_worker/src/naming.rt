//! Which board and which configuration the locks of a venue agree on.
use std::marker::Brand;

/// Which board has the words of a venue, and what its configuration is. What lies under each lock
/// bears it in its type, so that whoever takes the lock knows that its token is of the venue's
/// board. Each venue picks it.
pub trait Naming {
    ghost use Rattle.quote_word.specs.Board.{BoardName};
    ghost use Rattle.venue_rows.specs.Rows.{Configuration};

    /// The board.
    ghost board: { BoardName };

    /// The configuration.
    ghost config: { Configuration };
}

impl Naming for Brand {
    ghost use Rattle.std.specs.Prelude.{[]};

    ghost board = { record {
      book = record { number = 0; log_name = 0; cells_name = 0 };
      words = 0;
    } };

    ghost config = { record { date = []; bonds = []; dealers = []; investors = [] } };
}

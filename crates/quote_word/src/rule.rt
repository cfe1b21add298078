//! The rule of the words of a board, and what its steps tell.
use crate::Settlement;
use logbook::{Gain, Opening, Plain, Play, Rule};

/// The rule: each word of the board is what its entry in a legal log says.
pub(crate) struct Law;

impl Rule<Settlement, u64> for Law {
    ghost use Rattle.std.specs.Prelude.{[]};
    ghost use base.Fml.{ftrue};
    ghost use Rattle.quote_word.specs.Rule.{IsKept};

    ghost holds = { λ cells log. IsKept cells log };

    ghost first = { [] };

    ghost hinted = { λ n log. Unit {0} };

    ghost shows = { λ log. [] };

    ghost keeps = { λ names log. ftrue };

    ghost moves = { λ ask before after settlement. Unit {0} };
}

/// A board's book begins with the number of its words.
impl Opening<u32, Settlement> for Law {
    ghost use Rattle.quote_word.specs.Rule.{opening_log};

    ghost log = { λ count words. opening_log count };
}

/// Callers hand nothing over.
pub(crate) struct Nothing;

impl Gain<Settlement, u64> for Nothing {
    ghost use base.Fml.{ftrue};

    ghost after = { λ names about settlement. ftrue };
}

/// The step that asks for a settlement: one exchange.
pub(crate) struct Exchange;

impl Play<Settlement, u64> for Exchange {
    ghost use Rattle.quote_word.specs.Rule.{Exchanged};

    ghost then = { Exchanged };
}

/// What a step asks for: a settlement.
impl Plain<Settlement, Settlement, u64> for Exchange {
    ghost use Rattle.std.specs.Prelude.{None};

    ghost ask = { λ settlement. settlement };

    ghost state = { λ settlement. None };
}

/// The step that looks at a word.
pub(crate) struct Look;

impl Play<Settlement, u64> for Look {
    ghost use Rattle.quote_word.specs.Rule.{Looked};

    ghost then = { Looked };
}

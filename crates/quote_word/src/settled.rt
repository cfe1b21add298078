//! What a word is once it is settled, and what every row of words promises.
ghost use Rattle.std.specs.Prelude.{◌≡◌, ℕ, ◌<◌, Option, Some};
ghost use Rattle.quote_word.specs.Settlements as spec;

/// What a quote's word is from its settlement on, for good.
#[derive(Clone, Copy, Debug, PartialEq, Eq)]
pub enum Settled {
    /// The dealer withdrew the quote, by a cancel or by replacing it.
    Withdrawn,
    /// An investor's hit lifted the quote.
    Lifted,
}

impl Settled {
    /// Whether the quote was withdrawn.
    pub fn is_withdrawn(self) -> bool
        ensures { result ≡ spec.is_withdrawn self }
    {
        match self {
            Settled::Withdrawn => true,
            Settled::Lifted => false,
        }
    }

    /// Whether the quote was lifted.
    pub fn is_lifted(self) -> bool
        ensures { result ≡ spec.is_lifted self }
    {
        match self {
            Settled::Withdrawn => false,
            Settled::Lifted => true,
        }
    }
}

/// An entry of a settle log: which word was settled, and how.
#[derive(Clone, Copy)]
pub struct Settlement {
    /// The word, by its number from 0.
    pub word: u32,
    /// What it was settled as.
    pub settled: Settled,
}

/// A row of words, numbered from 0.
pub trait Words {
    ghost use Rattle.quote_word.specs.declared.settled.Settled.{Settled};

    /// How many words there are.
    ghost count: { Self → ℕ };

    /// What a word is, where it is settled.
    ghost entry: { Self → ℕ → Option Settled };

    /// One exchange: the words before it, which word is asked, what is wished, its settlement, the
    /// words after it.
    ghost settles: { Self → ℕ → Settled → Settled → Self → Type 0 };

    /// How many words there are.
    fn len(&self) -> u32
        ensures { result ≡ count self.now };

    /// Withdraws a word that is open, and returns what the word is from then on.
    fn withdraw(&mut self, w: u32) -> Settled
        requires { w < count self.old }
        ensures { settles self.old w Settled.Withdrawn result self.new };

    /// Lifts a word that is open, and returns what the word is from then on.
    fn lift(&mut self, w: u32) -> Settled
        requires { w < count self.old }
        ensures { settles self.old w Settled.Lifted result self.new };

    /// No word comes or goes.
    ghost count_stays: { (before after : Self) (w : ℕ) (wish settlement : Settled)
        → settles before w wish settlement after → count after ≡ count before };

    /// The settlement is what the word is from then on.
    ghost answer_is_entry: { (before after : Self) (w : ℕ) (wish settlement : Settled)
        → w < count before → settles before w wish settlement after → entry after w
        ≡ Some settlement };

    /// A word that was settled stays as it was.
    ghost entry_stays: { (before after : Self) (w v : ℕ) (wish settlement was : Settled)
        → settles before w wish settlement after → entry before v ≡ Some was
        → entry after v ≡ Some was };
}

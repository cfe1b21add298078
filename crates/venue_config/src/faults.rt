//! Why a text is no configuration.
ghost use Rattle.std.specs.Prelude.{◌≡◌};
ghost use Rattle.venue_config.specs.declared.faults.ConfigFault.TheVariants.{Memory};

use std::alloc::AllocFailed;
use thiserror::Error;

/// The first fault of a configuration.
///
/// `Toml` comes before all others. Then the values are looked at in their order, and each may be
/// `Missing`, then `Name`, then `Limit`, then `Twice`; the sums come last. `Memory` may come at any
/// point. [`ConfigFault::name`] is what a fault is called.
#[derive(Clone, Copy, Debug, PartialEq, Eq, Error)]
pub enum ConfigFault {
    /// The text is no TOML (a key given twice, a number past 64 bits): this comes before all else.
    #[error("Toml")]
    Toml,
    /// A required value is absent, or of another kind.
    #[error("Missing")]
    Missing,
    /// A date, an identifier of a bond, a name or a price is not of its form, or a firm is named
    /// `VENUE` or `CLOCK`.
    #[error("Name")]
    Name,
    /// A bond, a firm or a trader of one firm was named before.
    #[error("Twice")]
    Twice,
    /// A number, a price or a sum is out of its limits, a bond of version 3 has no grid, a band has one
    /// end alone or its low above its high, or an array has too many elements, or no trader.
    #[error("Limit")]
    Limit,
    /// Memory was refused.
    #[error("Memory")]
    Memory,
}

impl ConfigFault {
    ghost use Rattle.std.specs.Prelude.{◌≡◌};
    ghost use Rattle.venue_config.specs.Faults.{fault_name};

    /// The name of the fault.
    pub fn name(&self) -> &'static str
        ensures { result.now ≡ fault_name self.now }
    {
        match self {
            ConfigFault::Toml => "Toml",
            ConfigFault::Missing => "Missing",
            ConfigFault::Name => "Name",
            ConfigFault::Twice => "Twice",
            ConfigFault::Limit => "Limit",
            ConfigFault::Memory => "Memory",
        }
    }
}

impl<T: Drop> From<AllocFailed<T>> for ConfigFault {
    ghost from_gives = { λ _ fault. fault ≡ Memory };

    fn from(_error: AllocFailed<T>) -> ConfigFault {
        ConfigFault::Memory
    }
}

//! Whether each word of a day was settled by whoever says so: an action of the record asked for the
//! settlement that it has.
use quote_word::Settled;
use recorded_days::{Action, DayRecord, Kind};
use std::process::Abort;
use std::test::Fail;
use step_replay::Actor;
use venue_rows::VenueConfig;

/// What an action wishes a word to be: a message and a drop withdraw it, a hit lifts it.
fn wish_of(kind: Kind) -> Option<Settled> {
    match kind {
        Kind::In => Some(Settled::Withdrawn),
        Kind::Drop => Some(Settled::Withdrawn),
        Kind::Hit => Some(Settled::Lifted),
        _ => None,
    }
}

/// How often a word was asked, by what it was settled as, and how often somebody wished that.
#[derive(Clone, Copy)]
struct Asked {
    withdrawn: u32,
    lifted: u32,
    wished: u32,
}

impl Asked {
    /// After one more action that asked it.
    fn and(self, wish: Option<Settled>, settled: Settled) -> Asked {
        let Asked {
            withdrawn,
            lifted,
            wished,
        } = self;
        let granted = match wish {
            Some(own) => own == settled,
            None => false,
        };
        Asked {
            withdrawn: withdrawn.wrapping_add(u32::from(settled == Settled::Withdrawn)),
            lifted: lifted.wrapping_add(u32::from(settled == Settled::Lifted)),
            wished: wished.wrapping_add(u32::from(granted)),
        }
    }

    /// Whether nobody asked it, or all were told one settlement, which somebody wished.
    fn is_right(self) -> bool {
        if self.withdrawn == 0 && self.lifted == 0 {
            return true;
        }
        (self.withdrawn == 0 || self.lifted == 0) && self.wished > 0
    }
}

/// Counts the words that these actions asked.
fn count(actions: &[Action], words: &mut Vec<Asked>) -> Result<(), Fail> {
    for action in actions {
        let Some((word, settled)) = action.word else {
            continue;
        };
        let asked = words.get_mut(word as usize).ok_or("a word of the venue")?;
        *asked = asked.and(wish_of(action.kind), settled);
    }
    Ok(())
}

/// Looks whether each word that was asked on a day was settled as an action wished that asked it, and
/// whether all were told the same. A body that settles a word beside the one that it names is found
/// so as soon as anybody asks that word.
pub(crate) fn each_was_wished<T: Abort + AllocGlobal>(
    rt: &T,
    config: &VenueConfig,
    record: &DayRecord,
) -> Result<(), Fail> {
    let mut words = Vec::new(rt.alloc());
    for row in config.dealers() {
        for _ in 0..row.quotes {
            words.push(Asked {
                withdrawn: 0,
                lifted: 0,
                wished: 0,
            })?;
        }
    }
    let firms = (config.dealers().len() + config.investors().len()) as u16;
    for firm in 0..firms {
        let actions = record.actions(Actor::Firm(firm)).ok_or("what a firm did")?;
        count(actions, &mut words)?;
    }
    let clock = record.actions(Actor::Clock).ok_or("what the clock did")?;
    count(clock, &mut words)?;
    for asked in words {
        assert!(rt; asked.is_right(), "a word is settled as somebody wished");
    }
    Ok(())
}

//! Days that a script forces whole: what each firm is sent, and what the record says that each
//! actor did, in which order at each place.
use super::fixtures::{VENUE, are_views, day_text, is_woven, name_of, runs};
use super::forced_days::{
    ForcedDay, GONE_BEFORE_A_HIT, HIT_BEFORE_A_CANCEL, WITHDRAWN_BEFORE_A_HIT,
};
use super::forced_ends::{
    AWARDED_AND_SWEPT, BOTH_DROPPED, DECLINED_AND_TOO_LATE, DROPPED_OR_LIFTED,
};
use super::scripts::{Script, kind_name};
use super::settlements::each_was_wished;
use fix_fields::time_text;
use market_terms::RoomRef;
use quote_word::Settled;
use recorded_days::{Action, DayRecord};
use std::alloc::Global;
use std::process::Abort;
use std::sync::Wait;
use std::test::Fail;
use std::thread::Threads;
use step_replay::Actor;
use venue_rows::{Name, VenueConfig};

/// These lines as a text.
fn text_of(alloc: Global, lines: &[&str]) -> Result<String, Fail> {
    let mut text = String::new(alloc);
    for line in lines {
        text.push_str(*line)?;
        text.push_str("\n")?;
    }
    Ok(text)
}

/// The name of an actor.
fn actor_name(config: &VenueConfig, actor: Actor) -> Option<Name> {
    match actor {
        Actor::Firm(firm) => name_of(config, firm),
        Actor::Clock => Name::new(b"CLOCK"),
    }
}

/// What a word is from an action on.
fn settled_name(settled: Settled) -> &'static str {
    match settled {
        Settled::Withdrawn => "withdrawn",
        Settled::Lifted => "lifted",
    }
}

/// What a record says, as far as it was told.
#[derive(Drop)]
struct Telling<'a> {
    config: &'a VenueConfig,
    record: &'a DayRecord,
    text: String,
}

impl<'a> Telling<'a> {
    /// An action, its number among those of its actor, its moment, and the word that it asked with
    /// its settlement.
    fn push_action(&mut self, by: &str, number: u64, action: &Action) -> Result<(), Fail> {
        let kind = kind_name(action.kind);
        let time = time_text(action.moment);
        write!(self.text, "{by} {number} {kind} {}", time.as_str())?;
        if let Some((word, settled)) = action.word {
            write!(self.text, " {word} {}", settled_name(settled))?;
        }
        self.text.push_str("\n")?;
        Ok(())
    }

    /// What an actor did.
    fn push_actions(&mut self, by: &str, actions: &[Action]) -> Result<(), Fail> {
        let mut number = 0u64;
        for action in actions {
            number = number.wrapping_add(1);
            self.push_action(by, number, action)?;
        }
        Ok(())
    }

    /// What each firm did, and then the clock.
    fn push_all_actions(&mut self, firms: u16) -> Result<(), Fail> {
        let record = self.record;
        for firm in 0..firms {
            let name = name_of(self.config, firm).ok_or("a firm")?;
            let actions = record.actions(Actor::Firm(firm)).ok_or("what a firm did")?;
            self.push_actions(name.as_str(), actions)?;
        }
        let clock = record.actions(Actor::Clock).ok_or("what the clock did")?;
        self.push_actions("CLOCK", clock)
    }

    /// The order of the actions at a place, where there are any.
    fn push_order(&mut self, place: &str, order: &[(Actor, u64)]) -> Result<(), Fail> {
        if order.is_empty() {
            return Ok(());
        }
        self.text.push_str(place)?;
        let mut mark = ":";
        for (actor, number) in order {
            let by = actor_name(self.config, *actor).ok_or("an actor")?;
            write!(self.text, "{mark} {} {number}", by.as_str())?;
            mark = ",";
        }
        self.text.push_str("\n")?;
        Ok(())
    }

    /// The orders at the desks of the firms.
    fn push_desks(&mut self, alloc: Global, firms: u16) -> Result<(), Fail> {
        let record = self.record;
        for firm in 0..firms {
            let name = name_of(self.config, firm).ok_or("a firm")?;
            let place = format!(in alloc; "desk {}", name.as_str())?;
            let order = record.desk_order(firm).ok_or("the order at a desk")?;
            self.push_order(place.as_str(), order)?;
        }
        Ok(())
    }

    /// The orders in the rooms of an investor.
    fn push_rooms(&mut self, alloc: Global, investor: u16) -> Result<(), Fail> {
        let (config, record) = (self.config, self.record);
        let name = name_of(config, investor).ok_or("an investor")?;
        let row = config.investor(investor).ok_or("its row")?;
        for index in 0..row.requests {
            let n = index + 1;
            let place = format!(in alloc; "room {} {n}", name.as_str())?;
            let order = record
                .room_order(RoomRef { investor, n })
                .ok_or("the order in a room")?;
            self.push_order(place.as_str(), order)?;
        }
        Ok(())
    }
}

/// What a record says that each actor did, and in which order at each desk and in each room.
fn done_text(alloc: Global, config: &VenueConfig, record: &DayRecord) -> Result<String, Fail> {
    let mut telling = Telling {
        config,
        record,
        text: String::new(alloc),
    };
    let dealers = config.dealer_count();
    let firms = (config.dealers().len() + config.investors().len()) as u16;
    telling.push_all_actions(firms)?;
    telling.push_desks(alloc, firms)?;
    for investor in dealers..firms {
        telling.push_rooms(alloc, investor)?;
    }
    let Telling { text, .. } = telling;
    Ok(text)
}

/// Runs a day, and compares what is sent and done.
fn goes_so<T: Threads + Wait + Sync + Abort + AllocGlobal>(
    rt: &T,
    day: &ForcedDay,
) -> Result<(), Fail> {
    let alloc = rt.alloc();
    let name = day.name;
    let gate = Script::new(day.marks);
    let lines = text_of(alloc, day.lines)?;
    let input = format!(in alloc; "{VENUE}{lines}")?;
    let (config, record) = runs(rt, input.as_str(), &gate)?;
    assert!(rt; gate.is_done(), "{name}: each point passes");
    let sent = day_text(rt, &config, &record)?;
    let wanted = text_of(alloc, day.sent)?;
    assert_eq!(rt; sent.as_str(), wanted.as_str(), "{name}");
    let done = done_text(alloc, &config, &record)?;
    let wanted = text_of(alloc, day.done)?;
    assert_eq!(rt; done.as_str(), wanted.as_str(), "{name}");
    is_woven(rt, &config, &record)?;
    each_was_wished(rt, &config, &record)?;
    are_views(rt, &config, &record)
}

#[test]
fn each_forced_day_goes_so(rt: HostRuntime) -> Result<(), Fail> {
    for day in [
        &WITHDRAWN_BEFORE_A_HIT,
        &GONE_BEFORE_A_HIT,
        &HIT_BEFORE_A_CANCEL,
        &DECLINED_AND_TOO_LATE,
        &DROPPED_OR_LIFTED,
        &BOTH_DROPPED,
        &AWARDED_AND_SWEPT,
    ] {
        goes_so(&rt, day)?;
    }
    Ok(())
}

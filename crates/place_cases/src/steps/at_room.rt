//! The steps in the room that ask no word.
use super::at_investor::does_at_investor;
use super::done;
use crate::floor::{Floor, ROOM};
use crate::terms::{dealers, id, offer, request};
use case_lines::{CaseFault, Words};
use market_terms::ResponseRef;
use request_room::Room;
use std::alloc::Global;
use venue_steps::{Duties, do_decline, do_expire, do_open, do_pass, do_post, do_ready, do_unpost};

/// Does a step in the room that asks no word; or another one.
pub(super) fn does_in_room(
    alloc: Global,
    floor: &mut Floor,
    name: &str,
    words: &mut Words,
) -> Result<Duties, CaseFault> {
    match name {
        "open" => opens(alloc, &mut floor.room, words),
        "ready" => readies(&mut floor.room),
        "post" => posts(&mut floor.room, words),
        "unpost" => unposts(&mut floor.room, words),
        "decline" => declines(&mut floor.room, words),
        "pass" => passes(&mut floor.room, words),
        "expire" => expires(&mut floor.room, words),
        other => does_at_investor(&mut floor.investor, other, words),
    }
}

fn opens(alloc: Global, room: &mut Room, words: &mut Words) -> Result<Duties, CaseFault> {
    let moment = words.moment()?;
    let dealers = dealers(alloc, words)?;
    done(do_open(room, ROOM, request()?, dealers, moment))
}

fn readies(room: &mut Room) -> Result<Duties, CaseFault> {
    done(do_ready(room))
}

fn posts(room: &mut Room, words: &mut Words) -> Result<Duties, CaseFault> {
    let moment = words.moment()?;
    let dealer = words.firm()?;
    let offer = offer(words)?;
    done(do_post(room, ROOM, dealer, offer, moment))
}

fn unposts(room: &mut Room, words: &mut Words) -> Result<Duties, CaseFault> {
    let moment = words.moment()?;
    let dealer = words.firm()?;
    let word = words.short_number()?;
    done(do_unpost(room, ROOM, dealer, word, moment))
}

fn declines(room: &mut Room, words: &mut Words) -> Result<Duties, CaseFault> {
    let moment = words.moment()?;
    let dealer = words.firm()?;
    done(do_decline(room, ROOM, dealer, moment))
}

fn passes(room: &mut Room, words: &mut Words) -> Result<Duties, CaseFault> {
    let moment = words.moment()?;
    let id = id(words)?;
    done(do_pass(room, ROOM, ResponseRef { id, k: None }, moment))
}

fn expires(room: &mut Room, words: &mut Words) -> Result<Duties, CaseFault> {
    let moment = words.moment()?;
    done(do_expire(room, ROOM, moment))
}

//! The steps at the desk of INV1, but for its messages.
use super::done;
use crate::terms::{offer, reply, response};
use case_lines::{CaseFault, Words, name_of};
use fix_fields::Moment;
use investor_desk::InvestorDesk;
use venue_steps::{Duties, do_answer, do_close, do_declined, do_gone, do_relay};

/// Does a step at the desk of INV1.
pub(super) fn does_at_investor(
    desk: &mut InvestorDesk,
    name: &str,
    words: &mut Words,
) -> Result<Duties, CaseFault> {
    let moment = words.moment()?;
    let n = words.short_number()?;
    match name {
        "relay" => done(do_relay(desk, n, &offer(words)?, moment)),
        "gone" => done(do_gone(desk, n, words.short_number()?, moment)),
        "declined" => done(do_declined(desk, n, name_of(words)?, moment)),
        "answer" => answers(desk, n, words, moment),
        "close" => done(do_close(desk, n, moment)),
        _ => Err(CaseFault::Form),
    }
}

/// `ID QUOTE REPLY`: a response is answered.
fn answers(
    desk: &mut InvestorDesk,
    n: u32,
    words: &mut Words,
    moment: Moment,
) -> Result<Duties, CaseFault> {
    let response = response(words)?;
    let reply = reply(words)?;
    done(do_answer(desk, n, &response, reply, moment))
}

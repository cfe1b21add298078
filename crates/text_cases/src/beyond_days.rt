//! Values past those of any day of the program.

use crate::longest_messages::{message_to_dealer, message_to_investor, push_message};
use crate::widest_lines::push_blotter;
use case_lines::{Call, CaseFault, day, frame_of, piped_bytes_of, push_line};
use quote_messages::{Arrival, DealerMessage, receive_dealer};
use std::alloc::Global;
use venue_rows::{DealerRow, Name, Traders};

/// Makes a call of the place `beyond_days`: values that no day of the program comes to.
///
/// - `to_dealer NAME`, `to_investor NAME`: the message with this name, each value the longest.
/// - `arrives EXPECTED BODY`: what becomes of the frame of a dealer's message where this number is
///   expected; with no body, of no bytes.
/// - `blotter dealer`, `blotter investor`: a line with the widest numbers.
pub(crate) fn call_beyond_days(call: &mut Call<'_>) -> Result<(), CaseFault> {
    match call.name {
        "to_dealer" => {
            let message = message_to_dealer(call.words.word()?)?;
            push_message(call, "DEALER12", &message)
        }
        "to_investor" => {
            let message = message_to_investor(call.words.word()?)?;
            push_message(call, "INVEST12", &message)
        }
        "arrives" => push_arrival(call),
        "blotter" => push_blotter(call),
        _ => Err(CaseFault::Form),
    }
}

/// `arrives EXPECTED BODY`: what becomes of the frame of the body, or of no bytes.
fn push_arrival(call: &mut Call<'_>) -> Result<(), CaseFault> {
    let expected = call.words.number()?;
    let bytes = frame_or_nothing(call.alloc, call.words.rest())?;
    let date = day().ok_or(CaseFault::Form)?;
    let row = dealer_row()?;
    let arrival = receive_dealer(&date, &row, expected, bytes.as_slice());
    push_line(&mut call.answer, arrival_word(&arrival))
}

/// The frame of a body, or no bytes where none stands.
fn frame_or_nothing(alloc: Global, text: &str) -> Result<Vec<u8>, CaseFault> {
    let body = piped_bytes_of(alloc, text)?;
    if body.is_empty() {
        return Ok(body);
    }
    frame_of(alloc, body.as_slice())
}

/// What became of bytes, as a word.
fn arrival_word(arrival: &Arrival<'_, DealerMessage<'_>>) -> &'static str {
    match arrival {
        Arrival::Dropped => "dropped",
        Arrival::OutOfSequence(_) => "out_of_sequence",
        Arrival::Rejected(_) => "rejected",
        Arrival::Taken(_) => "taken",
    }
}

/// The row of DLR1 with the trader T1, 4 quotes a day and an exposure of 10,000,000.
fn dealer_row() -> Result<DealerRow, CaseFault> {
    let mut traders = Traders::new();
    let trader = Name::new(b"T1").ok_or(CaseFault::Form)?;
    if !traders.push(&trader) {
        return Err(CaseFault::Form);
    }
    if traders.len() < 1 {
        return Err(CaseFault::Form);
    }
    let name = Name::new(b"DLR1").ok_or(CaseFault::Form)?;
    Ok(DealerRow {
        name,
        traders,
        quotes: 4,
        exposure: 10_000_000,
    })
}

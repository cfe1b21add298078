//! Texts that are written and read: a message, a blotter, the lines of a day.
use super::values::{ask, at, name};
use blotter::blotter_text;
use bond_prices::Ticks;
use case_lines::VENUE;
use fix_fields::Date;
use input_lines::{MOST_INPUT, ProgramFault, day_parts, read_steps, read_venue};
use market_terms::{
    FirmLines, Id, IdBuf, Quantity, QuoteLine, QuoteState, RequestLine, RequestState, Side,
};
use quote_messages::{
    Close, ClosingNotice, Head, Message, OutMessage, QuotedPrice, Request, SentMessage, write_out,
};
use std::alloc::Global;
use std::process::Abort;
use std::test::Fail;
use step_replay::Step;
use venue_rows::BondId;

/// A frame of 166 bytes: DLR1 is told that its quote a1 was hit.
const NOTICE: &[u8] = b"8=FIXT.1.1\x019=142\x0135=AJ\x0149=VENUE\x0156=DLR1\x0134=3\x01\
    52=20250314-09:01:00.000\x01693=N1\x01131=R1\x01117=a1\x01694=1\x0155=[N/A]\x01\
    48=BONDA0000001\x0122=4\x0154=1\x0138=2000000\x01133=99.50390625\x0110=152\x01";

/// The notice, and its header.
fn notice(rt: &impl Abort) -> (Head, OutMessage<'static>) {
    let head = Head {
        date: Date::new(b"20250314").expect(rt, "a date"),
        firm: name(rt, "DLR1"),
        number: 3,
        moment: at(rt, 32_460_000),
    };
    let id = Id::new(b"a1").expect(rt, "an identifier");
    let quote = QuotedPrice {
        id: IdBuf::of(&id),
        price: Ticks::new(25_473).expect(rt, "a price"),
    };
    let request = Request {
        number: 1,
        ask: ask(rt),
    };
    let notice = OutMessage::ClosingNotice(ClosingNotice {
        number: 1,
        request,
        close: Close::Hit,
        quote: Some(quote),
    });
    (head, notice)
}

/// The frame of a message; where memory was refused, the same call made again.
fn written_at_last(alloc: Global, head: &Head, message: &OutMessage) -> Result<SentMessage, Fail> {
    if let Ok(bytes) = write_out(alloc, head, message) {
        return Ok(bytes);
    }
    let bytes = write_out(alloc, head, message)?;
    Ok(bytes)
}

#[test]
fn a_refused_message_is_written_again(rt: HostRuntime) -> Result<(), Fail> {
    let (head, notice) = notice(&rt);
    let bytes = written_at_last(rt.alloc(), &head, &notice)?;
    assert!(rt; bytes.as_bytes() == NOTICE);
    assert_eq!(rt; bytes.frame().times(693), 1);
    if let Ok(copy) = Message::copy_of(rt.alloc(), NOTICE) {
        assert!(rt; copy.as_bytes() == NOTICE);
    }
    Ok(())
}

/// The first quote of a day, 2,000,000 at 99.50390625.
fn first_quote(rt: &impl Abort, state: QuoteState) -> QuoteLine {
    QuoteLine {
        q: 1,
        moment: at(rt, 32_410_000),
        trader: name(rt, "T1"),
        request: 1,
        bond: BondId::new(b"BONDA0000001").expect(rt, "a bond"),
        side: Side::Buy,
        quantity: Quantity::new(2_000_000).expect(rt, "a quantity"),
        price: Ticks::new(25_473).expect(rt, "a price"),
        state,
    }
}

/// The first request of a day, for 2,000,000.
fn first_request(rt: &impl Abort) -> RequestLine {
    RequestLine {
        n: 1,
        moment: at(rt, 32_400_000),
        trader: name(rt, "T8"),
        bond: BondId::new(b"BONDA0000001").expect(rt, "a bond"),
        side: Side::Buy,
        quantity: Quantity::new(2_000_000).expect(rt, "a quantity"),
        state: RequestState::Passed,
    }
}

/// A blotter; where memory was refused, the same call made again.
fn blotter_at_last(alloc: Global, lines: &FirmLines<'_>) -> Result<String, Fail> {
    if let Ok(text) = blotter_text(alloc, lines) {
        return Ok(text);
    }
    let text = blotter_text(alloc, lines)?;
    Ok(text)
}

#[test]
fn a_refused_blotter_is_written_again(rt: HostRuntime) -> Result<(), Fail> {
    let quotes = [
        first_quote(&rt, QuoteState::Lifted),
        first_quote(&rt, QuoteState::Live),
    ];
    let wanted = "   1 09:00:10.000 T1       R1    BONDA0000001 B       2000000  99-161 lifted
   1 09:00:10.000 T1       R1    BONDA0000001 B       2000000  99-161 live
";
    let text = blotter_at_last(rt.alloc(), &FirmLines::Dealer(&quotes))?;
    assert_eq!(rt; text.as_str(), wanted);
    let requests = [first_request(&rt)];
    let wanted = "   1 09:00:00.000 T8       BONDA0000001 B       2000000 passed\n";
    let text = blotter_at_last(rt.alloc(), &FirmLines::Investor(&requests))?;
    assert_eq!(rt; text.as_str(), wanted);
    Ok(())
}

/// A line of each kind.
const EACH: &str = "%%
say DLR1 T1 09:00:10 S 117=a1|131=R1
in INV1 09:00:11 x
turn CLOCK 40
expire INV1 1 09:05:00
piece DLR1 09:06:00 8=FIXT.1.1|9=5|35=S|10=000|8=FIXT.1.1|9=5|35=S|10=00
piece DLR1 09:06:01 0|8=FIX
";

/// Reads the steps of a day.
fn steps_of(alloc: Global, input: &[u8]) -> Result<Vec<Step>, ProgramFault> {
    if input.len() > MOST_INPUT {
        return Err(ProgramFault::Input);
    }
    let day = day_parts(input)?;
    let config = read_venue(alloc, day.config)?;
    read_steps(alloc, &config, day.steps)
}

#[test]
fn refused_steps_are_read_again(rt: HostRuntime) {
    let Ok(input) = format!(in rt.alloc(); "{VENUE}{EACH}") else {
        return;
    };
    let mut was_read = false;
    for _ in 0..2 {
        match steps_of(rt.alloc(), input.as_bytes()) {
            Ok(steps) => {
                assert_eq!(&rt; steps.len(), 45);
                was_read = true;
            }
            Err(fault) => assert_eq!(&rt; fault, ProgramFault::Memory),
        }
    }
    // One allocation alone is refused.
    assert!(&rt; was_read);
}

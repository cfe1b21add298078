//! Frames, moments, streams, prices, configurations, messages and blotters.
use super::values::{ACCEPTED, QUOTE, REQUEST, behind_nine, day};
use blotter::blotter_text;
use bond_prices::{PriceFault, Ticks, price_text, read_price, thirty_seconds};
use case_lines::VENUE;
use fix_fields::{
    Date, Frame, FrameWriter, Garbled, Memory, Moment, MomentFault, Splitter, StreamFault,
    moment_text, read_frame, read_moment,
};
use market_terms::{FirmLines, QuoteLine, RequestLine};
use quote_messages::{
    DealerMessage, Head, Id, InvestorMessage, OutMessage, SentMessage, SessionFault, read_dealer,
    read_investor, write_out,
};
use std::alloc::Global;
use std::test::Fail;
use venue_config::{ConfigFault, VenueConfig, read_config};
use venue_rows::Name;

/// Which check of a frame a fault is of.
fn frame_check(fault: Garbled) -> u32 {
    match fault {
        Garbled::TooLong => 1,
        Garbled::Start => 2,
        Garbled::Length => 3,
        Garbled::Field => 4,
        Garbled::End => 5,
        Garbled::Sum => 6,
    }
}

#[test]
fn a_frame_is_read(rt: HostRuntime) {
    let read: Result<Frame<'_>, Garbled> = read_frame(QUOTE);
    let Ok(frame) = read else {
        assert!(&rt; false, "a frame");
        return;
    };
    assert!(&rt; frame.get(117).is_some_and(|id| id == b"a1".as_slice()));
    assert_eq!(&rt; frame.times(131), 1);
    let mut fields = 0u32;
    for (tag, _) in frame.fields() {
        assert!(&rt; tag != 8 && tag != 9 && tag != 10);
        fields = fields.wrapping_add(1);
    }
    assert_eq!(&rt; fields, 11);
    let cut = match read_frame(b"8=FIXT.1.1\x019=5\x0135=S\x01") {
        Ok(_) => 0,
        Err(fault) => frame_check(fault),
    };
    assert_eq!(&rt; cut, 3);
}

/// The two first fields of an acceptance.
fn two_fields(alloc: Global) -> Result<Vec<u8>, Memory> {
    let mut writer: FrameWriter = FrameWriter::new(alloc, b"AI")?;
    writer.text(49, b"VENUE")?;
    writer.number(34, 2)?;
    writer.finish()
}

#[test]
fn a_frame_is_written(rt: HostRuntime) -> Result<(), Fail> {
    let writer = FrameWriter::new(rt.alloc(), b"AI")?;
    // 4,071 bytes of a body, less `35=AI` and the byte that ends it.
    assert_eq!(rt; writer.left(), 4_065);
    let bytes = two_fields(rt.alloc())?;
    assert!(rt;
        bytes.as_slice()
            == b"8=FIXT.1.1\x019=20\x0135=AI\x0149=VENUE\x0134=2\x0110=125\x01".as_slice()
    );
    Ok(())
}

/// Whether a moment's fault is of its form, or of another day.
fn is_of_form(fault: MomentFault) -> bool {
    match fault {
        MomentFault::Form => true,
        MomentFault::OtherDay => false,
    }
}

#[test]
fn moments_are_read_and_written(rt: HostRuntime) {
    let date: Date = day(&rt);
    let moment: Result<Moment, MomentFault> = read_moment(&date, b"20250314-09:05:00");
    assert!(&rt; moment.is_ok_and(|moment| moment.get() == 32_700_000));
    let text = moment_text(&date, behind_nine(&rt, 10));
    assert_eq!(&rt; text.as_str(), "20250314-09:00:10.000");
    assert!(&rt; read_moment(&date, b"20250314-23:59:60").is_err_and(is_of_form));
    assert!(&rt; read_moment(&date, b"20250315-00:00:00").is_err_and(|fault| !is_of_form(fault)));
    assert!(&rt; Moment::new(86_400_000).is_none());
}

/// Which check of a stream a fault is of.
fn stream_check(fault: StreamFault) -> u32 {
    match fault {
        StreamFault::Start => 1,
        StreamFault::Length => 2,
        StreamFault::TooLong => 3,
        StreamFault::End => 4,
        StreamFault::Memory => 5,
    }
}

// "A condition that a type can keep is the type's": what a stream gives are `Messages`.
#[test]
fn a_stream_is_cut(rt: HostRuntime) -> Result<(), Fail> {
    let mut splitter: Splitter = Splitter::new(rt.alloc());
    let messages: Vec<Vec<u8>> = splitter.feed(QUOTE)?.into_vec();
    assert_eq!(rt; messages.len(), 1);
    let none = splitter.feed(b"8=FIX.4.4\x01")?;
    assert!(rt; none.is_empty());
    let fault = match splitter.feed(QUOTE) {
        Ok(_) => 0,
        Err(fault) => stream_check(fault),
    };
    assert_eq!(rt; fault, 1);
    Ok(())
}

/// Which check of a price a fault is of.
fn price_check(fault: PriceFault) -> u32 {
    match fault {
        PriceFault::Form => 1,
        PriceFault::Range => 2,
        PriceFault::Grid => 3,
    }
}

/// The ticks of a price; or which check it does not pass.
fn ticks_of(text: &[u8]) -> Result<u32, u32> {
    let read: Result<Ticks, PriceFault> = read_price(text);
    match read {
        Ok(ticks) => Ok(ticks.get()),
        Err(fault) => Err(price_check(fault)),
    }
}

#[test]
fn prices_are_read_and_written(rt: HostRuntime) {
    assert!(&rt; ticks_of(b"99.50390625") == Ok(25_473));
    assert!(&rt; ticks_of(b"9e1") == Err(1));
    assert!(&rt; ticks_of(b"1000") == Err(2));
    assert!(&rt; ticks_of(b"99.501") == Err(3));
    let ticks = Ticks::new(25_476).expect(&rt, "a price");
    let text = price_text(ticks);
    assert_eq!(&rt; text.as_str(), "99.515625");
    let text = thirty_seconds(ticks);
    assert_eq!(&rt; text.as_str(), "99-16+");
    assert!(&rt; Ticks::new(256_000).is_none());
}

/// Which check of a configuration a fault is of.
fn config_check(fault: ConfigFault) -> u32 {
    match fault {
        ConfigFault::Toml => 1,
        ConfigFault::Missing => 2,
        ConfigFault::Name => 3,
        ConfigFault::Twice => 4,
        ConfigFault::Limit => 5,
        ConfigFault::Memory => 6,
    }
}

// "A law or a command stands in the lowest crate that can prove it": the rows are those of
// `venue_rows`, which `venue_config` hands on.
#[test]
fn a_configuration_is_read(rt: HostRuntime) -> Result<(), Fail> {
    let config: VenueConfig = read_config(rt.alloc(), VENUE)?;
    assert_eq!(rt; config.dealers().len(), 2);
    assert_eq!(rt; config.investors().len(), 1);
    assert_eq!(rt; config.bonds().len(), 1);
    assert!(rt; config.date().digits().as_slice() == b"20250314".as_slice());
    let firm: Option<u16> = config.firm("INV1");
    assert!(rt; firm == Some(2));
    assert!(rt; config.has_room(2, 3) && !config.has_room(2, 4));
    for row in config.dealers() {
        assert!(rt; (row.quotes, row.exposure) == (4, 10_000_000));
    }
    for row in config.investors() {
        assert!(rt; (row.requests, row.open_limit, row.quantity) == (3, 2, 5_000_000));
    }
    let fault = match read_config(rt.alloc(), "date = ") {
        Ok(_) => 0,
        Err(fault) => config_check(fault),
    };
    assert_eq!(rt; fault, 1);
    // No input brings this one about.
    assert_eq!(rt; ConfigFault::Memory.name(), "Memory");
    let told = format!(in rt.alloc(); "{}", ConfigFault::Memory)?;
    assert_eq!(rt; told.as_str(), "Memory");
    Ok(())
}

/// What a dealer's message is, or the field of its fault.
fn dealer_tag(read: Result<DealerMessage<'_>, SessionFault>) -> u32 {
    match read {
        Ok(_) => 0,
        Err(SessionFault { tag, .. }) => tag,
    }
}

/// The same of an investor's.
fn investor_tag(read: Result<InvestorMessage<'_>, SessionFault>) -> u32 {
    match read {
        Ok(_) => 0,
        Err(SessionFault { tag, .. }) => tag,
    }
}

#[test]
fn messages_are_read(rt: HostRuntime) -> Result<(), Fail> {
    let config = read_config(rt.alloc(), VENUE)?;
    let dealer = config.dealer(0).ok_or("a dealer")?;
    let investor = config.investor(2).ok_or("an investor")?;
    let Ok(quote) = read_frame(QUOTE) else {
        return Err(Fail::from("a frame"));
    };
    let Ok(request) = read_frame(REQUEST) else {
        return Err(Fail::from("a frame"));
    };
    assert_eq!(rt; dealer_tag(read_dealer(config.date(), dealer, &quote)), 0);
    assert_eq!(rt;
        investor_tag(read_investor(config.date(), investor, &request)),
        0
    );
    // A message of another firm: SenderCompID (49).
    assert_eq!(rt;
        dealer_tag(read_dealer(config.date(), dealer, &request)),
        49
    );
    Ok(())
}

// "A condition that a type can keep is the type's": what is written is a `SentMessage`.
#[test]
fn a_message_is_written(rt: HostRuntime) -> Result<(), Fail> {
    let head = Head {
        date: day(&rt),
        firm: Name::new(b"DLR1").ok_or("a name")?,
        number: 2,
        moment: behind_nine(&rt, 10),
    };
    let report = OutMessage::QuoteReport {
        request: Id::new(b"R1").ok_or("an identifier")?,
        id: Id::new(b"a1").ok_or("an identifier")?,
        refusal: None,
    };
    let sent: SentMessage = write_out(rt.alloc(), &head, &report)?;
    assert!(rt; sent.as_bytes() == ACCEPTED);
    Ok(())
}

#[test]
fn a_blotter_is_written(rt: HostRuntime) -> Result<(), Fail> {
    let quotes: [QuoteLine; 0] = [];
    let requests: [RequestLine; 0] = [];
    let text: String = blotter_text(rt.alloc(), &FirmLines::Dealer(&quotes))?;
    assert_eq!(rt; text.as_str(), "");
    let text = blotter_text(rt.alloc(), &FirmLines::Investor(&requests))?;
    assert_eq!(rt; text.as_str(), "");
    Ok(())
}

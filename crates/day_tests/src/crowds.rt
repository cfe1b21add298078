//! Days of many firms, again and again.
use super::fixtures::{Open, are_views, is_woven, runs};
use super::settlements::each_was_wished;
use recorded_days::DayRecord;
use std::process::Abort;
use std::test::Fail;

const RUNS: u32 = 10;

/// How many firms a day has, and what each of them does.
#[derive(Clone, Copy)]
struct Crowd {
    /// As many dealers as investors; each investor asks the dealer of its own number.
    pairs: u16,
    /// Requests of each investor.
    requests: u32,
    /// Quotes of each dealer, on its requests from the first on.
    quotes: u32,
    /// Cancels of each dealer of quotes that it never made,
    cancels: u32,
    /// and one more of so many dealers.
    one_more: u16,
    /// Whether each of the other dealers cancels all its quotes, behind all else that it sends.
    drops: bool,
    /// Hits of each investor, on the quotes that it was shown from the first on.
    hits: u32,
}

impl Crowd {
    /// How many cancels a dealer sends.
    fn cancels_of(&self, dealer: u16) -> u32 {
        if dealer < self.one_more {
            return self.cancels.wrapping_add(1);
        }
        self.cancels
    }

    /// Whether a dealer cancels all its quotes.
    fn drops_of(&self, dealer: u16) -> bool {
        self.drops && dealer >= self.one_more
    }
}

/// The rows of a configuration.
fn venue<T: AllocGlobal>(rt: &T, crowd: Crowd) -> Result<String, Fail> {
    let mut text = String::new(rt.alloc());
    text.push_str("version = 1\ndate = \"20250314\"\n[[bond]]\nid = \"BONDA0000001\"\n")?;
    let Crowd {
        pairs,
        requests,
        ..
    } = crowd;
    for dealer in 0..pairs {
        writeln!(
            text,
            "[[dealer]]\nname = \"DLR{dealer}\"\ntraders = [\"T1\"]\nquotes = 64\nexposure = 10000000"
        )?;
    }
    for investor in 0..pairs {
        writeln!(
            text,
            "[[investor]]\nname = \"INV{investor}\"\ntraders = [\"T8\"]\nrequests = {requests}\nopen = {requests}\nquantity = 5000000"
        )?;
    }
    text.push_str("%%\n")?;
    Ok(text)
}

/// Puts the messages of an investor behind a text, and answers how many there are.
fn investor_says(crowd: Crowd, investor: u16, text: &mut String) -> Result<u32, Fail> {
    for request in 0..crowd.requests {
        writeln!(
            text,
            "say INV{investor} T8 09:00:00 R 131=q{request}|146=1|48=BONDA0000001|22=4|54=1|38=1000|126=20250314-09:05:00|453=1|448=DLR{investor}|447=D|452=35"
        )?;
    }
    for hit in 0..crowd.hits {
        writeln!(
            text,
            "say INV{investor} T8 09:01:00 AJ 693=h{hit}|694=1|117=Q{}",
            hit.wrapping_add(1)
        )?;
    }
    Ok(crowd.requests.wrapping_add(crowd.hits))
}

/// The same of a dealer.
fn dealer_says(crowd: Crowd, dealer: u16, text: &mut String) -> Result<u32, Fail> {
    for quote in 0..crowd.quotes {
        let request = quote.wrapping_add(1);
        writeln!(
            text,
            "say DLR{dealer} T1 09:00:10 S 117=a{quote}|131=R{request}|55=[N/A]|48=BONDA0000001|22=4|133=99.5"
        )?;
    }
    let cancels = crowd.cancels_of(dealer);
    for _ in 0..cancels {
        writeln!(text, "say DLR{dealer} T1 09:00:20 Z 298=5|117=x")?;
    }
    let mut said = crowd.quotes.wrapping_add(cancels);
    if crowd.drops_of(dealer) {
        writeln!(text, "say DLR{dealer} T1 09:00:30 Z 298=4")?;
        said = said.wrapping_add(1);
    }
    Ok(said)
}

/// The day as a text, in which 2,000 messages come.
fn day_of<T: Abort + AllocGlobal>(rt: &T, crowd: Crowd) -> Result<String, Fail> {
    let mut text = venue(rt, crowd)?;
    let mut said = 0u32;
    for firm in 0..crowd.pairs {
        let by_investor = investor_says(crowd, firm, &mut text)?;
        let by_dealer = dealer_says(crowd, firm, &mut text)?;
        said = said.wrapping_add(by_investor).wrapping_add(by_dealer);
    }
    assert_eq!(rt; said, 2_000);
    Ok(text)
}

// 32 dealers and 32 investors, 30 requests each; and 1,040 cancels, 33 of the first sixteen dealers
// and 32 of the others.
const WIDE: Crowd = Crowd {
    pairs: 32,
    requests: 30,
    quotes: 0,
    cancels: 32,
    one_more: 16,
    drops: false,
    hits: 0,
};

/// Each dealer is shown its requests and answered each cancel; each investor is answered each
/// request.
fn counts<T: Abort>(rt: &T, crowd: Crowd, record: &DayRecord) -> Result<(), Fail> {
    for dealer in 0..crowd.pairs {
        let sent = record.sent(dealer).ok_or("a dealer")?;
        let wanted = crowd.requests.wrapping_add(crowd.cancels_of(dealer));
        assert_eq!(rt; sent.len(), wanted as usize);
    }
    for investor in crowd.pairs..crowd.pairs.wrapping_mul(2) {
        let sent = record.sent(investor).ok_or("an investor")?;
        assert_eq!(rt; sent.len(), crowd.requests as usize);
    }
    Ok(())
}

#[test]
fn a_crowd_is_sent_as_much_each_time(rt: HostRuntime) -> Result<(), Fail> {
    let text = day_of(&rt, WIDE)?;
    for _ in 0..RUNS {
        let (_config, record) = runs(&rt, text.as_str(), &Open)?;
        counts(&rt, WIDE, &record)?;
    }
    Ok(())
}

// 16 dealers and 16 investors with 125 messages for each two: what becomes of the quotes, the hits
// and the drops is another thing each time.
const BUSY: Crowd = Crowd {
    pairs: 16,
    requests: 40,
    quotes: 40,
    cancels: 24,
    one_more: 12,
    drops: true,
    hits: 20,
};

#[test]
fn a_busy_day_is_woven_each_time(rt: HostRuntime) -> Result<(), Fail> {
    let text = day_of(&rt, BUSY)?;
    for _ in 0..RUNS {
        let (config, record) = runs(&rt, text.as_str(), &Open)?;
        is_woven(&rt, &config, &record)?;
        are_views(&rt, &config, &record)?;
        each_was_wished(&rt, &config, &record)?;
    }
    Ok(())
}

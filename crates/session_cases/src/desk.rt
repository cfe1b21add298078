//! A session that is driven by lines. Its firm is DLR1, its venue VENUE, its day 14 March 2025.
//!
//! | call | what comes |
//! |---|---|
//! | `at TIME` | it is this time of day |
//! | `desk NAME` | of several venues the Logon has to name this one (57) |
//! | `open`, `close`, `suspend`, `resume`, `release`, `reset` | an operator's order |
//! | `deny REASON NAME TEXT` | from then on the gateway takes no message, for this reason (380), of this name (379; `-`: none) and in this text (58) |
//! | `take` | it takes them again |
//! | `logout TEXT` | the gateway logs the firm out |
//! | `came C FIELDS` | a message on connection C: MsgType (35), 49, 56 and 52 but for those that FIELDS has, and the others of FIELDS |
//! | `wrong C FIELDS` | the same, with wrong credentials |
//! | `bare C FIELDS` | a message of these fields alone |
//! | `long C N FIELDS` | the same as `came`, with a field 5000 of N bytes behind them; at most 65,536 bytes come |
//! | `late C N FIELDS` | the same of a 35=S, with the fields behind the field 5000 |
//! | `foreign C FIELDS` | the same as `came`, in a frame of FIX.4.4 |
//! | `bytes C BYTES` | bytes |
//! | `give FIELDS` | a message of the venue |
//! | `gone C` | the connection is gone |
//! | `tick` | time passes |
//! | `flow` | what the session asks for, until it asks for nothing; not a Logon |
//! | `wants` | what it asks for |
//! | `cut BYTES` | how many bytes of a stream are garbled, and what stands behind them |
//! | `numbers` | the expected number, and the next |
//!
//! A turn is answered so: `keeps N FIELDS` for what is kept, `C N FIELDS` for what leaves on
//! connection C, without 49, 56, 34 and 52; `takes N`, `drops rejects`, `ends C`, `parts C`, and
//! `tells ..` for an operator.
use crate::printing::{push_ending, push_fields, push_found, push_notice, push_want};
use crate::store::{Entry, Store};
use case_lines::{Call, CaseFault, Place, check_sum_of, day, frame_of, piped_bytes_of, push_line};
use fix_fields::{Date, Moment, read_frame};
use fix_sessions::{
    Body, Clock, Denial, Names, Order, Said, Session, Text, Turn, Want, Way, Word, came, given,
    gone, hands, keep, log_out, new_session, next_message, ordered, tick, wants, write,
};
use std::alloc::Global;

/// How often a session is asked at most what it wants.
const MOST_WANTS: u32 = 40;

/// A session, its clock, and what is kept.
#[derive(Drop)]
pub struct Desk {
    alloc: Global,
    date: Date,
    moment: Moment,
    session: Session,
    store: Store,
    desk: String,
    reason: u64,
    name: String,
    text: String,
}

impl Desk {
    /// A session of a day that begins, at nine o'clock.
    pub fn new(alloc: Global) -> Result<Desk, CaseFault> {
        let date = day().ok_or(CaseFault::Condition)?;
        let moment = Moment::new(32_400_000).ok_or(CaseFault::Condition)?;
        Ok(Desk {
            alloc,
            date,
            moment,
            session: new_session(),
            store: Store::new(alloc),
            desk: String::new(alloc),
            reason: 0,
            name: String::new(alloc),
            text: String::new(alloc),
        })
    }

    /// Its clock.
    fn clock(&self) -> Clock {
        Clock::new(&self.date, self.moment)
    }

    /// Bytes come on a connection.
    fn come(
        &mut self,
        call: &mut Call<'_>,
        connection: u64,
        bytes: &[u8],
        is_known: bool,
    ) -> Result<(), CaseFault> {
        let clock = self.clock();
        let session = self.session;
        let desk = self.desk.clone()?;
        let names = names_of(desk.as_bytes())?;
        let name = self.name.clone()?;
        let text = self.text.clone()?;
        let denial = denial_of(self.reason, name.as_bytes(), text.as_bytes());
        let turn = came(
            &names, &session, connection, &clock, bytes, is_known, denial,
        );
        self.take(call, &turn)
    }

    /// From then on the gateway takes no message.
    fn deny(&mut self, call: &mut Call<'_>) -> Result<(), CaseFault> {
        self.take_all();
        self.reason = call.words.number()?;
        let name = call.words.word()?;
        if name != "-" {
            self.name.push_str(name)?;
        }
        self.text.push_str(call.words.rest())?;
        Ok(())
    }

    /// It takes all messages.
    fn take_all(&mut self) {
        self.name.clear();
        self.text.clear();
    }

    /// The gateway logs the firm out.
    fn log_out(&mut self, call: &mut Call<'_>) -> Result<(), CaseFault> {
        let text = Text::new(call.words.rest().as_bytes()).ok_or(CaseFault::Condition)?;
        let session = self.session;
        let turn = log_out(&session, &self.clock(), text);
        self.take(call, &turn)
    }

    /// The venue gives a message.
    fn give(&mut self, call: &mut Call<'_>) -> Result<(), CaseFault> {
        let fields = piped_bytes_of(self.alloc, call.words.rest())?;
        let bytes = frame_of(self.alloc, &with_end(fields)?)?;
        let body = body_of(&bytes)?;
        let turn = given(&self.session, &self.clock(), body);
        self.take(call, &turn)
    }

    /// An operator orders something.
    fn order(&mut self, call: &mut Call<'_>, order: Order) -> Result<(), CaseFault> {
        let turn = ordered(&self.session, &self.clock(), order);
        self.take(call, &turn)
    }

    /// What the session asks for is done, until it asks for nothing.
    fn flow(&mut self, call: &mut Call<'_>) -> Result<(), CaseFault> {
        for _ in 0..MOST_WANTS {
            match wants(&self.session) {
                Want::Again { number } | Want::Fresh { number } => self.hand(call, number)?,
                Want::Tick => self.tick(call)?,
                Want::Nothing | Want::Logon { .. } => return Ok(()),
            }
        }
        push_line(&mut call.answer, "..")
    }

    /// What is kept under a number is handed in.
    fn hand(&mut self, call: &mut Call<'_>, number: u64) -> Result<(), CaseFault> {
        let next_kept = self.store.behind(number);
        let clock = self.clock();
        let session = self.session;
        let mut bytes = Vec::new(self.alloc);
        let stored = match self.store.at(number) {
            None => None,
            Some(stored) => {
                bytes.extend_from_slice(&self.store.bytes_at(number)?)?;
                let body = body_of(&bytes)?;
                Some(fix_sessions::Stored {
                    body,
                    first: stored.first,
                    is_copy: stored.is_copy,
                })
            }
        };
        let turn = hands(&session, &clock, next_kept, stored);
        self.take(call, &turn)
    }

    /// Time passes.
    fn tick(&mut self, call: &mut Call<'_>) -> Result<(), CaseFault> {
        let turn = tick(&self.session, &self.clock());
        self.take(call, &turn)
    }

    /// A turn is done, and answered.
    fn take(&mut self, call: &mut Call<'_>, turn: &Turn<'_>) -> Result<(), CaseFault> {
        self.session = turn.session;
        if turn.drops_rejects {
            push_line(&mut call.answer, "drops rejects")?;
            self.store.drop_rejects()?;
        }
        self.take_said(call, turn.connection, &turn.first)?;
        self.take_said(call, turn.connection, &turn.second)?;
        if let Some(number) = turn.takes {
            let line = format!(in self.alloc; "takes {number}")?;
            push_line(&mut call.answer, line.as_str())?;
        }
        push_ending(self.alloc, &mut call.answer, turn.connection, turn.ending)?;
        if let Some(notice) = turn.notice {
            push_notice(&mut call.answer, notice)?;
        }
        Ok(())
    }

    /// A message of a turn is kept, and leaves.
    fn take_said(
        &mut self,
        call: &mut Call<'_>,
        connection: u64,
        said: &Option<Said<'_>>,
    ) -> Result<(), CaseFault> {
        let Some(said) = said else {
            return Ok(());
        };
        if said.way != Way::Leaves {
            let bytes = keep(self.alloc, &said.word)?;
            let front = format!(in self.alloc; "keeps {}", said.number)?;
            push_fields(self.alloc, &mut call.answer, front.as_str(), &bytes)?;
            self.store.push(Entry {
                number: said.number,
                bytes,
                first: self.moment,
                is_copy: false,
                is_own: is_own_answer(&said.word),
            })?;
        }
        if said.way == Way::Kept {
            return Ok(());
        }
        let names = names_of(b"")?;
        let bytes = write(self.alloc, &names, &self.date, self.moment, said)?;
        let front = format!(in self.alloc; "{connection} {}", said.number)?;
        push_fields(self.alloc, &mut call.answer, front.as_str(), &bytes)
    }

    /// The fields of a message, with those of the header that they lack.
    fn with_header(&self, fields: &str) -> Result<Vec<u8>, CaseFault> {
        let (first, rest) = fields.split_once('|').unwrap_or((fields, ""));
        let mut text = format!(in self.alloc; "{first}|")?;
        if !fields.contains("|49=") {
            text.push_str("49=DLR1|")?;
        }
        if !fields.contains("|56=") {
            text.push_str("56=VENUE|")?;
        }
        if !fields.contains("|52=") {
            let stamp = fix_fields::moment_text(&self.date, self.moment);
            text.push_str("52=")?;
            text.push_str(stamp.as_str())?;
            text.push_str("|")?;
        }
        text.push_str(rest)?;
        let bytes = piped_bytes_of(self.alloc, text.as_str())?;
        with_end(bytes)
    }
}

/// Names of the session.
fn names_of(desk: &[u8]) -> Result<Names<'_>, CaseFault> {
    let firm = Text::new(b"DLR1").ok_or(CaseFault::Condition)?;
    let venue = Text::new(b"VENUE").ok_or(CaseFault::Condition)?;
    Names::new(firm, venue, Text::new(desk)).ok_or(CaseFault::Condition)
}

/// Whether a message that is kept is a Reject or a BusinessMessageReject of the session.
fn is_own_answer(word: &Word<'_>) -> bool {
    matches!(word, Word::Reject { .. } | Word::Denied { .. })
}

/// What the gateway says of a message: nothing where it has no text.
fn denial_of<'a>(reason: u64, name: &'a [u8], text: &'a [u8]) -> Option<Denial<'a>> {
    let text = Text::new(text)?;
    let id = Text::new(name);
    Some(Denial { reason, id, text })
}

/// A message as it is kept.
fn body_of(bytes: &[u8]) -> Result<Body<'_>, CaseFault> {
    let Ok(frame) = read_frame(bytes) else {
        return Err(CaseFault::Condition);
    };
    Body::new(frame).ok_or(CaseFault::Condition)
}

/// Fields, the last of which ends with SOH.
fn with_end(mut fields: Vec<u8>) -> Result<Vec<u8>, CaseFault> {
    if fields.last() != Some(&1) {
        fields.push(1)?;
    }
    Ok(fields)
}

impl Place for Desk {
    fn call(&mut self, call: &mut Call<'_>) -> Result<(), CaseFault> {
        match call.name {
            "at" => self.moment = call.words.moment()?,
            "desk" => self.desk.push_str(call.words.word()?)?,
            "open" => self.order(call, Order::Open)?,
            "close" => self.order(call, Order::Close)?,
            "suspend" => self.order(call, Order::Suspend)?,
            "resume" => self.order(call, Order::Resume)?,
            "release" => self.order(call, Order::Release)?,
            "reset" => {
                let copies = self.store.renumber(self.session.day.had)?;
                self.order(call, Order::Reset { copies })?;
            }
            "came" | "wrong" => {
                let connection = call.words.number()?;
                let body = self.with_header(call.words.rest())?;
                let bytes = frame_of(self.alloc, &body)?;
                let is_known = call.name == "came";
                self.come(call, connection, &bytes, is_known)?;
            }
            "bare" => {
                let connection = call.words.number()?;
                let body = piped_bytes_of(self.alloc, call.words.rest())?;
                let bytes = frame_of(self.alloc, &body)?;
                self.come(call, connection, &bytes, true)?;
            }
            "long" | "late" => self.come_long(call)?,
            "foreign" => self.come_foreign(call)?,
            "bytes" => {
                let connection = call.words.number()?;
                let bytes = piped_bytes_of(self.alloc, call.words.rest())?;
                self.come(call, connection, &bytes, true)?;
            }
            "cut" => {
                let bytes = piped_bytes_of(self.alloc, call.words.rest())?;
                push_found(self.alloc, &mut call.answer, next_message(&bytes))?;
            }
            "give" => self.give(call)?,
            "gone" => {
                let connection = call.words.number()?;
                let turn = gone(&self.session, connection);
                self.take(call, &turn)?;
            }
            "deny" => self.deny(call)?,
            "take" => self.take_all(),
            "logout" => self.log_out(call)?,
            "tick" => self.tick(call)?,
            "flow" => self.flow(call)?,
            "wants" => push_want(self.alloc, &mut call.answer, wants(&self.session))?,
            "numbers" => {
                let day = self.session.day;
                let line = format!(in self.alloc; "{} {}", day.expected, day.next)?;
                push_line(&mut call.answer, line.as_str())?;
            }
            _ => return Err(CaseFault::Form),
        }
        Ok(())
    }
}

impl Desk {
    /// A message comes in a frame of FIX.4.4.
    fn come_foreign(&mut self, call: &mut Call<'_>) -> Result<(), CaseFault> {
        let connection = call.words.number()?;
        let body = self.with_header(call.words.rest())?;
        let front = format!(in self.alloc; "8=FIX.4.4\u{1}9={}\u{1}", body.len())?;
        let mut bytes = front.into_bytes();
        bytes.extend_from_slice(&body)?;
        let end = check_sum_of(self.alloc, &bytes)?;
        bytes.extend_from_slice(end.as_bytes())?;
        self.come(call, connection, &bytes, true)
    }

    /// A message comes with a long field behind the others, or before them.
    fn come_long(&mut self, call: &mut Call<'_>) -> Result<(), CaseFault> {
        let connection = call.words.number()?;
        let len = call.words.number()?;
        let fields = call.words.rest();
        let (front, behind) = if call.name == "late" {
            ("35=S", with_end(piped_bytes_of(self.alloc, fields)?)?)
        } else {
            (fields, Vec::new(self.alloc))
        };
        let mut body = self.with_header(front)?;
        body.extend_from_slice(b"5000=")?;
        for _ in 0..len {
            body.push(b'x')?;
        }
        body.push(1)?;
        body.extend_from_slice(&behind)?;
        let bytes = frame_of(self.alloc, &body)?;
        let most = bytes.len().min(65_536);
        self.come(call, connection, &bytes[..most], true)
    }
}

//! Messages that cross between the wire and the venue, driven by lines.
//!
//! | call | what crosses |
//! |---|---|
//! | `told TAG TEXT` | from then on the firm is told this beside each message: a reason (58) or a trade's name (1003); `told 0`: nothing |
//! | `refers N` | from then on the session's number of the message that a Reject refuses is N; 0 leaves 45 as it is |
//! | `out N FIELDS` | the venue's frame of FIELDS, to a firm; N is the number that is due |
//! | `out_long N LEN FIELDS` | the same, with a field 5000 of LEN bytes behind FIELDS |
//! | `out_bytes N BYTES` | bytes, to a firm |
//! | `in N FIELDS` | a firm's message of FIELDS, to the venue; N is the venue's count |
//! | `in_long N LEN FIELDS` | the same, with a field 5000 of LEN bytes behind FIELDS |
//! | `in_bytes N BYTES` | bytes, to the venue |
//!
//! Each answers the fields of the frame that it gives, and `out_bytes` and `in_bytes` all of its
//! bytes; `out_long` and `in_long` the length of its body. What does not cross is `refused` and the
//! reason: a text that may not be told is `refused Told`.
use case_lines::{
    Call, CaseFault, Place, Words, frame_of, piped_bytes_of, push_bytes_line, push_line,
};
use fix_fields::read_frame;
use std::alloc::Global;
use wire_messages::{Told, Untranslated, to_firm, to_venue};

/// What is told beside the messages to a firm, and what its Rejects refer to.
#[derive(Drop)]
pub struct Crossing {
    alloc: Global,
    tag: u32,
    text: Vec<u8>,
    reference: u64,
}

/// How a message that crosses is answered.
#[derive(Clone, Copy, Debug, PartialEq, Eq)]
enum Form {
    Fields,
    Length,
    Bytes,
}

impl Place for Crossing {
    fn call(&mut self, call: &mut Call<'_>) -> Result<(), CaseFault> {
        match call.name {
            "told" => self.tell(&mut call.words),
            "refers" => self.refer(&mut call.words),
            "out" => self.go_out(call, Form::Fields),
            "out_long" => self.go_out(call, Form::Length),
            "out_bytes" => self.go_out(call, Form::Bytes),
            "in" => come_in(call, Form::Fields),
            "in_long" => come_in(call, Form::Length),
            "in_bytes" => come_in(call, Form::Bytes),
            _ => Err(CaseFault::Form),
        }
    }
}

impl Crossing {
    /// Nothing is told, and no Reject is referred.
    pub fn new(alloc: Global) -> Result<Crossing, CaseFault> {
        Ok(Crossing {
            alloc,
            tag: 0,
            text: Vec::new(alloc),
            reference: 0,
        })
    }

    /// `told TAG TEXT`.
    fn tell(&mut self, words: &mut Words) -> Result<(), CaseFault> {
        self.tag = words.short_number()?;
        self.text = piped_bytes_of(self.alloc, words.rest())?;
        Ok(())
    }

    /// `refers N`.
    fn refer(&mut self, words: &mut Words) -> Result<(), CaseFault> {
        self.reference = words.number()?;
        Ok(())
    }

    /// A message of the venue goes to a firm.
    fn go_out(&self, call: &mut Call<'_>, form: Form) -> Result<(), CaseFault> {
        let number = call.words.number()?;
        let bytes = message_of(call, form)?;
        let Some(told) = told_of(self.tag, &self.text) else {
            return push_line(&mut call.answer, "refused Told");
        };
        match to_firm(call.alloc, &bytes, number, self.reference, &told) {
            Ok(wire) => push_frame(call, form, &wire),
            Err(why) => push_refusal(&mut call.answer, why),
        }
    }
}

/// A message of a firm comes to the venue.
fn come_in(call: &mut Call<'_>, form: Form) -> Result<(), CaseFault> {
    let number = call.words.number()?;
    let bytes = message_of(call, form)?;
    match to_venue(call.alloc, &bytes, number) {
        Ok(given) => push_frame(call, form, &given),
        Err(why) => push_refusal(&mut call.answer, why),
    }
}

/// What is told: none where the tag is not one, or where the text may not be told.
fn told_of(tag: u32, text: &[u8]) -> Option<Option<Told<'_>>> {
    match tag {
        0 => Some(None),
        58 => Some(Some(Told::reason(text)?)),
        1003 => Some(Some(Told::trade(text)?)),
        _ => None,
    }
}

/// The message that a call names.
fn message_of(call: &mut Call<'_>, form: Form) -> Result<Vec<u8>, CaseFault> {
    match form {
        Form::Bytes => piped_bytes_of(call.alloc, call.words.rest()),
        Form::Fields => {
            let body = piped_bytes_of(call.alloc, call.words.rest())?;
            frame_of(call.alloc, &body)
        }
        Form::Length => {
            let len = call.words.number()?;
            let mut body = piped_bytes_of(call.alloc, call.words.rest())?;
            push_long_field(&mut body, len)?;
            frame_of(call.alloc, &body)
        }
    }
}

/// A field 5000 of this length behind a body.
fn push_long_field(body: &mut Vec<u8>, len: u64) -> Result<(), CaseFault> {
    body.extend_from_slice(b"5000=")?;
    for _ in 0..len {
        body.push(b'x')?;
    }
    body.push(1)?;
    Ok(())
}

/// A frame that has crossed.
fn push_frame(call: &mut Call<'_>, form: Form, bytes: &[u8]) -> Result<(), CaseFault> {
    match form {
        Form::Fields => push_fields(call, bytes),
        Form::Length => push_body_len(call, bytes),
        Form::Bytes => push_bytes_line(&mut call.answer, bytes),
    }
}

/// The fields of a frame.
fn push_fields(call: &mut Call<'_>, bytes: &[u8]) -> Result<(), CaseFault> {
    let Ok(frame) = read_frame(bytes) else {
        return push_line(&mut call.answer, "no frame");
    };
    push_bytes_line(&mut call.answer, frame.fields().as_bytes())
}

/// How many bytes the body of a frame has.
fn push_body_len(call: &mut Call<'_>, bytes: &[u8]) -> Result<(), CaseFault> {
    let Ok(frame) = read_frame(bytes) else {
        return push_line(&mut call.answer, "no frame");
    };
    let len = frame.fields().as_bytes().len();
    let line = format!(in call.alloc; "{len} bytes")?;
    push_line(&mut call.answer, line.as_str())
}

/// Why a message does not cross.
fn push_refusal(answer: &mut String, why: Untranslated) -> Result<(), CaseFault> {
    let line = match why {
        Untranslated::Form => "refused Form",
        Untranslated::Number => "refused Number",
        Untranslated::Added => "refused Added",
        Untranslated::TooLong => "refused TooLong",
        Untranslated::Memory => return Err(CaseFault::Memory),
    };
    push_line(answer, line)
}

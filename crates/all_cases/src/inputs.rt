//! What a case gives to its runs: the input, and how the streams behave.
use crate::runs::Paces;
use crate::streams::Pace;
use case_lines::{Call, CaseFault, Words, bytes_of, frame_of, piped_bytes_of};
use std::alloc::Global;

/// How many times at most a text is put into an input by one call.
const MOST_TIMES: u64 = 20_000_000;

/// How many of them are put at once.
const AT_ONCE: u64 = 4_096;

/// The input and the streams of the runs to come.
#[derive(Drop)]
pub(crate) struct Inputs {
    pub(crate) bytes: Vec<u8>,
    pub(crate) paces: Paces,
}

impl Inputs {
    /// An empty input, and streams that do not fail.
    pub(crate) fn new(alloc: Global) -> Inputs {
        Inputs {
            bytes: Vec::new(alloc),
            paces: Paces::whole(),
        }
    }

    /// Makes a call on the input or the streams.
    pub(crate) fn take(&mut self, call: &mut Call<'_>) -> Result<(), CaseFault> {
        match call.name {
            "<" => self.put(call.alloc, call.words.rest(), "\n"),
            "<+" => self.put(call.alloc, call.words.rest(), ""),
            "<*" => self.put_often(call, "\n"),
            "<+*" => self.put_often(call, ""),
            "framed" | "fronts" | "forged" => self.put_frames(call),
            "empty" => self.empty(),
            "reader" => set(&mut self.paces.input, &mut call.words),
            "writer" => set(&mut self.paces.out, &mut call.words),
            "error" => set(&mut self.paces.err, &mut call.words),
            _ => Err(CaseFault::Form),
        }
    }

    /// The input is empty again.
    fn empty(&mut self) -> Result<(), CaseFault> {
        self.bytes.clear();
        Ok(())
    }

    /// Puts a text and its end behind the input.
    pub(crate) fn put(&mut self, alloc: Global, text: &str, end: &str) -> Result<(), CaseFault> {
        let bytes = bytes_of(alloc, text)?;
        self.bytes.extend_from_slice(bytes.as_slice())?;
        self.bytes.extend_from_slice(end.as_bytes())?;
        Ok(())
    }

    /// `framed LINE BODY`: a line that ends in the frame of BODY, which begins `35=`; `fronts`: such a
    /// line with each front of the frame in turn, the whole last; `forged`: one with each bit of the
    /// frame changed in turn.
    fn put_frames(&mut self, call: &mut Call<'_>) -> Result<(), CaseFault> {
        let alloc = call.alloc;
        let Some((line, fields)) = call.words.rest().split_once(" 35=") else {
            return Err(CaseFault::Form);
        };
        let body = format!(in alloc; "35={fields}")?;
        let body = piped_bytes_of(alloc, body.as_str())?;
        let frame = frame_of(alloc, body.as_slice())?;
        match call.name {
            "fronts" => self.put_fronts(alloc, line, frame.as_slice()),
            "forged" => self.put_forged(alloc, line, frame.as_slice()),
            _ => self.put_behind(alloc, line, frame.as_slice()),
        }
    }

    /// A line for each front of a frame.
    fn put_fronts(&mut self, alloc: Global, line: &str, frame: &[u8]) -> Result<(), CaseFault> {
        let mut front = Vec::new(alloc);
        for byte in frame {
            front.push(*byte)?;
            self.put_behind(alloc, line, front.as_slice())?;
        }
        Ok(())
    }

    /// A line for each bit of a frame, with that bit changed.
    fn put_forged(&mut self, alloc: Global, line: &str, frame: &[u8]) -> Result<(), CaseFault> {
        for n in 0..frame.len() {
            self.put_forged_byte(alloc, line, frame, n)?;
        }
        Ok(())
    }

    /// A line for each bit of a frame's n-th byte, with that bit changed.
    fn put_forged_byte(
        &mut self,
        alloc: Global,
        line: &str,
        frame: &[u8],
        n: usize,
    ) -> Result<(), CaseFault> {
        for bit in [1, 2, 4, 8, 16, 32, 64, 128] {
            let forged = with_bit(alloc, frame, n, bit)?;
            self.put_behind(alloc, line, forged.as_slice())?;
        }
        Ok(())
    }

    /// Puts a line, a space and bytes behind the input.
    fn put_behind(&mut self, alloc: Global, line: &str, bytes: &[u8]) -> Result<(), CaseFault> {
        self.put(alloc, line, " ")?;
        self.bytes.extend_from_slice(bytes)?;
        self.bytes.push(b'\n')?;
        Ok(())
    }

    /// `<* TIMES TEXT`.
    fn put_often(&mut self, call: &mut Call<'_>, end: &str) -> Result<(), CaseFault> {
        let times = call.words.number()?;
        if times > MOST_TIMES {
            return Err(CaseFault::Condition);
        }
        let mut text = bytes_of(call.alloc, call.words.rest())?;
        text.extend_from_slice(end.as_bytes())?;
        let many = repeated(call.alloc, text.as_slice(), AT_ONCE)?;
        put_repeated(&mut self.bytes, many.as_slice(), times / AT_ONCE)?;
        put_repeated(&mut self.bytes, text.as_slice(), times % AT_ONCE)
    }
}

/// A frame with a bit of its n-th byte changed.
fn with_bit(alloc: Global, frame: &[u8], n: usize, bit: u8) -> Result<Vec<u8>, CaseFault> {
    let mut bytes = Vec::from_slice(alloc, frame)?;
    if let Some(byte) = bytes.get_mut(n) {
        *byte ^= bit;
    }
    Ok(bytes)
}

/// A text so many times.
fn repeated(alloc: Global, text: &[u8], times: u64) -> Result<Vec<u8>, CaseFault> {
    let mut all = Vec::new(alloc);
    put_repeated(&mut all, text, times)?;
    Ok(all)
}

/// Puts a text so many times behind another.
fn put_repeated(all: &mut Vec<u8>, text: &[u8], times: u64) -> Result<(), CaseFault> {
    for _ in 0..times {
        all.extend_from_slice(text)?;
    }
    Ok(())
}

/// `most N`, `fails N`, `stops N` or `unflushed`: how a stream behaves from now on.
fn set(pace: &mut Pace, words: &mut Words<'_>) -> Result<(), CaseFault> {
    let word = words.word()?;
    if word == "unflushed" {
        pace.unflushed = true;
        return Ok(());
    }
    let number = words.number()?;
    let count = usize::try_from(number).map_err(|_| CaseFault::Condition)?;
    match word {
        "most" => pace.most = count,
        "fails" => pace.left = count,
        "stops" => {
            pace.left = count;
            pace.stops = true;
        }
        _ => return Err(CaseFault::Form),
    }
    Ok(())
}

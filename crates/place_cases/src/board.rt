//! A board of words, with its tokens and receipts under names.
ghost use Rattle.std.specs.Prelude.{◌≡◌, ◌<◌, IfOk, All};
ghost use Rattle.place_cases.specs.declared.board.NamedToken.{NamedToken};
ghost use Rattle.place_cases.specs.declared.board.NamedReceipt.{NamedReceipt};

use crate::replies::{entry_name, push_word, settled_name};
use crate::row::push_length;
use case_lines::{Call, CaseFault, Place, Words, push_line};
use quote_word::{Board, BoardPass, BoardSeen, Met, Receipt, Settled, Words as _};
use std::alloc::Global;

/// How many words one pass asks at most.
const MOST_ASKED: u32 = 16;

/// A board of words, of which there are none before the first call. Each call that gives a token keeps it under a
/// name: a receipt's is kept with it, and that of the opening is `opening`.
///
/// | call | answer |
/// |---|---|
/// | `open N` | nothing |
/// | `length`, `pass_length TOKEN` | how many words there are, and of a pass |
/// | `withdraw TOKEN WORD NAME`, `lift TOKEN WORD NAME` | the word of the receipt, and what it is from then on |
/// | `look TOKEN WORD NAME` | what the word is |
/// | `looks TOKEN` | what each word is, looked at one behind the other |
/// | `again TOKEN NAME` | nothing |
/// | `both TOKEN TOKEN NAME` | nothing |
/// | `meet RECEIPT RECEIPT NAME` | both answers; the receipts are gone |
/// | `pass TOKEN NAME ASK WORD ..`, where ASK is `withdraw` or `lift` | what each word is, asked one behind the other through one pass |
#[derive(Drop)]
pub(crate) struct BoardPlace {
    board: KnownBoard,
}

impl Place for BoardPlace {
    fn call(&mut self, call: &mut Call<'_>) -> Result<(), CaseFault> {
        if call.name != "open" {
            return self.board.call(call);
        }
        let count = call.words.short_number()?;
        self.board = opened(call.alloc, count)?;
        Ok(())
    }
}

impl BoardPlace {
    /// Before the first call.
    pub(crate) fn new(alloc: Global) -> Result<Self, CaseFault> {
        let board = opened(alloc, 0)?;
        Ok(BoardPlace { board })
    }
}

/// A token under its name.
#[derive(Drop)]
struct NamedToken {
    name: String,
    seen: BoardSeen,
}

/// A receipt under its name.
#[derive(Drop)]
struct NamedReceipt {
    name: String,
    receipt: Receipt,
}

/// A board with its tokens and receipts.
#[derive(Drop)]
struct KnownBoard {
    board: Board,
    tokens: Vec<NamedToken>,
    receipts: Vec<NamedReceipt>,
    ghost tokens_are_ours: { All (λ (one : NamedToken). one.seen.board ≡ board) tokens.items },
    ghost receipts_are_ours: { All (λ (one : NamedReceipt). one.receipt.seen.board ≡ board) receipts.items },
}

/// A board of open words, with the token of its opening.
fn opened(alloc: Global, count: u32) -> Result<KnownBoard, CaseFault> {
    let (board, seen) = Board::open(alloc, count)?;
    let name = String::from_str(alloc, "opening")?;
    let mut tokens = Vec::new(alloc);
    tokens.push(NamedToken { name, seen })?;
    let receipts = Vec::new(alloc);
    Ok(KnownBoard {
        board,
        tokens,
        receipts,
    })
}

impl KnownBoard {
    /// A call on an open board.
    fn call(&mut self, call: &mut Call<'_>) -> Result<(), CaseFault> {
        match call.name {
            "length" => push_length(&mut call.answer, self.board.len()),
            "pass_length" => self.pass_length(&mut call.words, &mut call.answer),
            "withdraw" => self.settle(Settled::Withdrawn, call),
            "lift" => self.settle(Settled::Lifted, call),
            "look" => self.look(call),
            "looks" => self.looks(&mut call.words, &mut call.answer),
            "again" => self.again(call.alloc, &mut call.words),
            "both" => self.both(call.alloc, &mut call.words),
            "meet" => self.meet(call),
            "pass" => self.pass(call),
            _ => Err(CaseFault::Form),
        }
    }

    /// A copy of the token with this name.
    fn token(&self, name: &str) -> Result<BoardSeen, CaseFault>
        ensures { IfOk result (λ seen. seen.board ≡ self.now.board) }
    {
        for one in &self.tokens {
            if one.name.as_str() == name {
                return Ok(one.seen.again());
            }
        }
        Err(CaseFault::Form)
    }

    /// Keeps a token under a name.
    fn keep(&mut self, alloc: Global, name: &str, seen: BoardSeen) -> Result<(), CaseFault>
        requires { seen.board ≡ self.old.board }
        ensures { self.new.board ≡ self.old.board }
    {
        let name = String::from_str(alloc, name)?;
        self.tokens.push(NamedToken { name, seen })?;
        Ok(())
    }

    /// Keeps a receipt under a name, and its token too.
    fn keep_receipt(&mut self, alloc: Global, name: &str, receipt: Receipt) -> Result<(), CaseFault>
        requires { receipt.seen.board ≡ self.old.board }
    {
        self.keep(alloc, name, receipt.seen())?;
        let name = String::from_str(alloc, name)?;
        self.receipts.push(NamedReceipt { name, receipt })?;
        Ok(())
    }

    /// The receipt with this name, which is kept no longer.
    fn take_receipt(&mut self, name: &str) -> Result<Receipt, CaseFault>
        ensures board { self.new.board ≡ self.old.board }
        ensures ours { IfOk result (λ receipt. receipt.seen.board ≡ self.old.board) }
    {
        let kept = self.receipts.as_slice();
        let Some(at) = kept.iter().position(|one| one.name.as_str() == name) else {
            return Err(CaseFault::Form);
        };
        let NamedReceipt { receipt, .. } = self.receipts.remove(at);
        Ok(receipt)
    }

    /// A word that the board has.
    fn word(&self, words: &mut Words) -> Result<u32, CaseFault>
        ensures { IfOk result (λ word. word < self.now.board.words) }
    {
        let word = words.short_number()?;
        if word >= self.board.len() {
            return Err(CaseFault::Condition);
        }
        Ok(word)
    }

    fn settle(&mut self, wish: Settled, call: &mut Call<'_>) -> Result<(), CaseFault> {
        let seen = self.token(call.words.word()?)?;
        let word = self.word(&mut call.words)?;
        let receipt = match wish {
            Settled::Withdrawn => self.board.withdraw(seen, word),
            Settled::Lifted => self.board.lift(seen, word),
        };
        push_receipt(&mut call.answer, &receipt)?;
        self.keep_receipt(call.alloc, call.words.word()?, receipt)
    }

    fn look(&mut self, call: &mut Call<'_>) -> Result<(), CaseFault> {
        let seen = self.token(call.words.word()?)?;
        let word = self.word(&mut call.words)?;
        let (entry, seen) = self.board.look(seen, word);
        push_line(&mut call.answer, entry_name(entry))?;
        self.keep(call.alloc, call.words.word()?, seen)
    }

    fn looks(&self, words: &mut Words, answer: &mut String) -> Result<(), CaseFault> {
        let seen = self.token(words.word()?)?;
        answer.push_str("words")?;
        for word in 0..self.board.len() {
            let (entry, _) = self.board.look(seen.again(), word);
            push_word(answer, entry_name(entry))?;
        }
        push_line(answer, "")
    }

    fn again(&mut self, alloc: Global, words: &mut Words) -> Result<(), CaseFault> {
        let seen = self.token(words.word()?)?;
        self.keep(alloc, words.word()?, seen)
    }

    fn both(&mut self, alloc: Global, words: &mut Words) -> Result<(), CaseFault> {
        let first = self.token(words.word()?)?;
        let second = self.token(words.word()?)?;
        let seen = self.board.both(first, second);
        self.keep(alloc, words.word()?, seen)
    }

    fn meet(&mut self, call: &mut Call<'_>) -> Result<(), CaseFault> {
        let first = self.take_receipt(call.words.word()?)?;
        let second = self.take_receipt(call.words.word()?)?;
        let met = self.board.meet(first, second);
        push_met(&mut call.answer, &met)?;
        self.keep(call.alloc, call.words.word()?, met.front())
    }

    fn pass_length(&self, words: &mut Words, answer: &mut String) -> Result<(), CaseFault> {
        let seen = self.token(words.word()?)?;
        push_length(answer, BoardPass::new(&self.board, seen).len())
    }

    fn pass(&mut self, call: &mut Call<'_>) -> Result<(), CaseFault> {
        let seen = self.token(call.words.word()?)?;
        let name = call.words.word()?;
        let seen = passed(&self.board, seen, &mut call.words, &mut call.answer)?;
        self.keep(call.alloc, name, seen)
    }
}

/// A receipt: its word, and what that is.
fn push_receipt(answer: &mut String, receipt: &Receipt) -> Result<(), CaseFault> {
    let (word, settled) = (receipt.word(), settled_name(receipt.settled()));
    writeln!(answer, "word {word} {settled}")?;
    Ok(())
}

/// What two receipts were answered.
fn push_met(answer: &mut String, met: &Met) -> Result<(), CaseFault> {
    let (first, second) = (settled_name(met.first()), settled_name(met.second()));
    writeln!(answer, "met {first} {second}")?;
    Ok(())
}

/// Asks words of a board, one behind the other, through one pass. It gives the token of the last.
fn passed(
    board: &Board,
    seen: BoardSeen,
    words: &mut Words,
    answer: &mut String,
) -> Result<BoardSeen, CaseFault>
    requires { seen.board ≡ board.now }
    ensures { IfOk result (λ seen. seen.board ≡ board.now) }
{
    let mut pass = BoardPass::new(board, seen);
    answer.push_str("words")?;
    for _ in 0..MOST_ASKED {
        if words.is_at_end() {
            break;
        }
        let settled = pass_one(&mut pass, words)?;
        push_word(answer, settled_name(settled))?;
    }
    push_line(answer, "")?;
    Ok(pass.into_seen())
}

/// Asks one word.
fn pass_one(pass: &mut BoardPass<'_>, words: &mut Words) -> Result<Settled, CaseFault>
    ensures { pass.new.board ≡ pass.old.board }
{
    let wish = wish(words)?;
    let word = words.short_number()?;
    if word >= pass.len() {
        return Err(CaseFault::Condition);
    }
    match wish {
        Settled::Withdrawn => Ok(pass.withdraw(word)),
        Settled::Lifted => Ok(pass.lift(word)),
    }
}

/// What is wished: `withdraw` or `lift`.
fn wish(words: &mut Words) -> Result<Settled, CaseFault> {
    match words.word()? {
        "withdraw" => Ok(Settled::Withdrawn),
        "lift" => Ok(Settled::Lifted),
        _ => Err(CaseFault::Form),
    }
}

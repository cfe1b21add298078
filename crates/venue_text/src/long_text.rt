//! A text that may be long.
ghost use Rattle.std.specs.Prelude.{◌≡◌, ◌++◌, [], OnOk, OnErr};
ghost use Rattle.std.specs.List.{flat_map};

use fix_fields::Memory;
use std::alloc::Global;
use std::marker::Model;

/// A text that may be long: it is kept in blocks, each of which fits into memory that was given
/// back before. A contract sees the whole text.
#[derive(Drop)]
pub struct LongText {
    blocks: Vec<Vec<u8>>,
}

impl Model for LongText {
    ghost use Rattle.std.specs.Prelude.{ℕ, List};
    ghost use Rattle.std.specs.List.{flat_map};

    ghost Value = { List ℕ };

    ghost view = { λ text. flat_map (λ block. block.items) text.blocks.items };
}

impl LongText {
    /// A text of nothing. It takes no memory.
    pub fn new(alloc: Global) -> Self
        ensures { result ≡ [] }
    {
        LongText {
            blocks: Vec::new(alloc),
        }
    }

    /// Puts a block behind the others. After an error the text is as before.
    pub fn push(&mut self, block: Vec<u8>) -> Result<(), Memory>
        ensures ok { OnOk result (self.new ≡ self.old ++ block.items) }
        ensures err { OnErr result (self.new ≡ self.old) }
    {
        self.blocks.push(block)?;
        Ok(())
    }

    /// The blocks, the first one first.
    pub fn blocks(&self) -> &[Vec<u8>]
        ensures { flat_map (λ block. block.items) result.now ≡ self.now }
    {
        self.blocks.as_slice()
    }
}

ghost use Rattle.std.specs.Bool.{OnFalse, OnTrue};
ghost use Rattle.std.specs.Prelude.{◌≡◌, ◌↔◌, ◌/◌, IfOk, IsSome, IsTrue, replicate};
ghost use Rattle.xs_instr.specs.Memory.{word_at, word_put};
ghost use Rattle.xs_state.specs.Ram.{IsWordAddress};

use std::alloc::Global;
use std::marker::Model;
use xw_words::{List, Memory};

const BYTES_IN_WORD: u32 = 4;

/// A core's memory. Contracts see it as the list of its words; word n stands at address 4n.
#[derive(Drop)]
pub struct Ram {
    words: List<u32>,
}

impl Model for Ram {
    ghost use Rattle.std.specs.Prelude.{ℕ, List};

    ghost Value = { List ℕ };

    ghost view = { λ ram. ram.words };
}

impl Ram {
    /// A memory of so many words, all 0. `Memory` only where they could not be allocated. No other
    /// call takes memory.
    pub fn new(alloc: Global, words: u32) -> Result<Ram, Memory>
        ensures { IfOk result (λ ram. ram ≡ replicate words 0) }
    {
        let zeros = vec![in alloc; 0; words as usize]?;
        Ok(Ram {
            words: List::from_vec(zeros),
        })
    }

    /// The word at an address. `None` exactly where no word stands there: the address is not a
    /// multiple of 4, or not below four times the words.
    pub fn read(&self, address: u32) -> Option<u32>
        ensures word { result ≡ word_at self.now address }
        ensures stands { IsSome result ↔ IsWordAddress self.now address }
    {
        if address % BYTES_IN_WORD != 0 {
            return None;
        }
        self.words.get(word_index(address)).copied()
    }

    /// Puts a word at an address, and says whether one stands there: `false` exactly where the
    /// address is not a multiple of 4, or not below four times the words. Then nothing changes.
    pub fn write(&mut self, address: u32, v: u32) -> bool
        ensures stands { IsTrue result ↔ IsWordAddress self.old address }
        ensures written { OnTrue result (self.new ≡ word_put self.old address v) }
        ensures refused { OnFalse result (self.new ≡ self.old) }
    {
        if address % BYTES_IN_WORD != 0 || word_index(address) >= self.words.len() {
            return false;
        }
        self.words.set(word_index(address), v);
        true
    }
}

fn word_index(address: u32) -> usize
    ensures { result ≡ address / 4 }
{
    (address / BYTES_IN_WORD) as usize
}

ghost use Rattle.std.specs.Prelude.{◌≡◌, ℕ, ◌<◌, ◌≤◌, IfOk, List, Option, Some, None};
ghost use Rattle.std.specs.BTreeMap.{btree_map_len};
ghost use Rattle.std.specs.Ordering.{is_eq};
ghost use Rattle.ir_type_numbers.specs.declared.letter.Letter.{Letter};
ghost use Rattle.ir_type_numbers.specs.Shapes.{IsNumbering, Keeps};
ghost use Rattle.ir_type_numbers.specs.WordMap.{IsWordMap, longer_in, same_key};

use crate::letter::Letter;
use hw_base::OutOfMemory;
use std::alloc::Global;
use std::collections::BTreeMap;
use std::marker::Model;

/// Numbers for words of letters. Equal words have one number, and no two have the same; the empty word has 0.
#[derive(Drop)]
pub struct WordNumbers {
    /// The number of the word that is a letter longer, by the number of a word and the letter.
    longer: BTreeMap<(u64, Letter), u64>,
}

impl Model for WordNumbers {
    ghost Value = { List ((ℕ × Letter) × ℕ) };

    ghost view = { λ w. w.longer.entries };

    ghost invariant = { λ w. IsWordMap w.longer.entries (btree_map_len w.longer) };
}

impl WordNumbers {
    /// Only the empty word has a number.
    pub fn new(alloc: Global) -> Self
        ensures { IsNumbering (longer_in result) }
    {
        WordNumbers {
            longer: BTreeMap::new(alloc),
        }
    }

    /// The number of the word that is this letter longer than the word with this number: a new one, if it has none yet.
    pub fn longer(&mut self, word: u64, letter: Letter) -> Result<u64, OutOfMemory>
        ensures found { IfOk result (λ number. longer_in self.new word letter ≡ Some number) }
        ensures kept { IfOk result (λ _. Keeps (longer_in self.old) (longer_in self.new)) }
        ensures numbering { IfOk result (λ _. IsNumbering (longer_in self.new)) }
    {
        match self.known(word, letter) {
            Some(number) => Ok(number),
            None => self.add(word, letter),
        }
    }

    /// The number of the word that is this letter longer, if it has one.
    fn known(&self, word: u64, letter: Letter) -> Option<u64>
        ensures value { result ≡ longer_in self.now word letter }
        ensures numbering { IsNumbering (longer_in self.now) }
    {
        exact_order();
        let key = (word, letter);
        self.longer.get(&key).copied()
    }

    /// Gives the word that is this letter longer a number.
    fn add(&mut self, word: u64, letter: Letter) -> Result<u64, OutOfMemory>
        requires absent { longer_in self.old word letter ≡ None }
        ensures found { IfOk result (λ number. longer_in self.new word letter ≡ Some number) }
        ensures kept { IfOk result (λ _. Keeps (longer_in self.old) (longer_in self.new)) }
        ensures numbering { IfOk result (λ _. IsNumbering (longer_in self.new)) }
    {
        exact_order();
        let key = (word, letter);
        let number = self.longer.len() as u64 + 1;
        self.longer.insert(key, number)?;
        Ok(number)
    }
}

/// Exactly the same keys compare as equal.
fn exact_order()
    ensures { (x y : ℕ × Letter) → is_eq (⟦<(u64, Letter) as Ord>⟧.cmp x y) ≡ same_key x y }
{}

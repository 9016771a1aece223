ghost use Rattle.std.specs.Prelude.{◌≡◌, ◌+◌, ◌<◌, ◌≤◌, ◌↔◌, ◌++◌, ◌∷◌, [], Some, IsTrue, IfOk, IfSome, IfNone, length, take, drop, replicate, slice_get, slice_set};
ghost use Rattle.tag_word.specs.Tagged.{Tagged};

use aq_term::memory::Memory;
use std::alloc::Global;
use std::marker::Model;
use tag_word::word::Word;

/// One of the machine's areas: words in order, up to a number that is set when its memory is taken. Beside that memory
/// stands how many words there are: a word that is taken away stays in it, and is not read again.
#[derive(Drop)]
pub struct Area {
    places: word_area::area::Area,
    count: usize,
}

impl Model for Area {
    ghost use Rattle.std.specs.Prelude.{◌≡◌, ◌≤◌, length};
    ghost use Rattle.machine_store.specs.Front.{front};
    ghost use Rattle.machine_store.specs.Held.{Held};

    ghost Value = { Held };

    ghost view = { λ a. record { words = front a.count a.places; limit = length a.places } };

    ghost invariant = { λ a. (length (front a.count a.places) ≡ a.count) × (length a.places ≤ 67108864) };
}

impl Area {
    /// An empty area with the memory of `limit` words.
    pub fn open(alloc: Global, limit: usize) -> Result<Area, Memory>
        requires { limit ≤ 67108864 }
        ensures { IfOk result (λ area. area ≡ record { words = []; limit = limit }) }
    {
        let places = word_area::area::Area::open(alloc, limit as u64)?;
        Ok(Area { places, count: 0 })
    }

    /// How many words there are.
    #[tactic(auto, using(crate::proofs::FrontLemmas::front_within))]
    pub fn len(&self) -> usize
        ensures len { result ≡ length self.now.words }
        ensures within { length self.now.words ≤ self.now.limit }
        ensures small { self.now.limit ≤ 67108864 }
    {
        self.count
    }

    /// How many words can be added.
    #[tactic(auto, using(crate::proofs::FrontLemmas::front_within))]
    pub fn room(&self) -> usize
        ensures room { result + length self.now.words ≡ self.now.limit }
        ensures small { self.now.limit ≤ 67108864 }
    {
        self.places.cap() as usize - self.count
    }

    /// The word at an index.
    #[tactic(auto, using(crate::proofs::FrontLemmas::front_get))]
    pub fn get(&self, index: usize) -> Word
        requires { index < length self.now.words }
        ensures { slice_get self.now.words index ≡ Some result }
    {
        self.places.get(index as u64)
    }

    /// The value of the word at an index.
    pub fn value_at(&self, at: usize) -> usize
        requires { at < length self.now.words }
        ensures { (word : Tagged) → slice_get self.now.words at ≡ Some word → result ≡ word.value }
    {
        self.get(at).value() as usize
    }

    /// Copies `count` words from an index on to the front of `out`.
    pub fn copy_out(&self, from: usize, count: usize, out: &mut [Word])
        requires within { from + count ≤ length self.now.words }
        requires room { count ≤ length out.old }
        ensures { out.new ≡ take count (drop from self.now.words) ++ drop count out.old }
    {
        let _words = self.len();
        for i in 0..count {
            out[i] = self.get(from + i);
        }
    }

    /// Puts another word at an index.
    #[tactic(auto, using(crate::proofs::FrontLemmas::front_within))]
    pub fn set(&mut self, index: usize, word: Word)
        requires { index < length self.old.words }
        ensures { self.new ≡ record self.old { words = slice_set self.old.words index word } }
    {
        self.places.set(index as u64, word);
    }

    /// Puts a word at the end.
    pub fn push(&mut self, word: Word)
        requires { length self.old.words < self.old.limit }
        ensures { self.new ≡ record self.old { words = self.old.words ++ word ∷ [] } }
    {
        self.places.set(self.count as u64, word);
        self.count += 1;
    }

    /// Puts these words at the end.
    pub fn push_all(&mut self, words: &[Word])
        requires { length self.old.words + length words.now ≤ self.old.limit }
        ensures { self.new ≡ record self.old { words = self.old.words ++ words.now } }
    {
        for word in words {
            self.push(*word);
        }
    }

    /// Puts `count` times the same word at the end.
    pub fn push_copies(&mut self, count: usize, word: Word)
        requires { length self.old.words + count ≤ self.old.limit }
        ensures { self.new ≡ record self.old { words = self.old.words ++ replicate count word } }
    {
        for _ in 0..count {
            self.push(word);
        }
    }

    /// Takes the last word away, where there is one.
    pub fn pop(&mut self) -> Option<Word>
        ensures some { IfSome result (λ word. self.old.words ≡ self.new.words ++ word ∷ []) }
        ensures none { IfNone result ((self.old.words ≡ []) × (self.new.words ≡ [])) }
        ensures limit { self.new.limit ≡ self.old.limit }
    {
        if self.count == 0 {
            return None;
        }
        self.count -= 1;
        Some(self.places.get(self.count as u64))
    }

    /// Removes the words from an index on.
    pub fn cut(&mut self, index: usize)
        ensures { self.new ≡ record self.old { words = take index self.old.words } }
    {
        if index < self.count {
            self.count = index;
        }
    }
}

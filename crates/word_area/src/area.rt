ghost use Rattle.std.specs.Prelude.{◌≡◌, ◌+◌, ◌<◌, ◌≤◌, Some, None, IfOk, length, replicate, get_or, slice_set};
ghost use Rattle.word_area.specs.Words.{IsSetAt, AreSetFrom, copied};

use crate::block::{Deed, Places, Start, allocate, deallocate};
use aq_term::memory::Memory;
use std::alloc::Global;
use std::marker::Model;
use std_alloc::room::may_hold;
use tag_word::word::Word;

/// Memory of words, by their index. Its capacity is set when it is taken, and it is freed at its end. A word that was
/// not set yet is not there: the memory is not written when it is taken, so that a large area costs nothing at a start.
/// Contracts see the words, each a `Some`, or `None` where it was not set. No call tests an index at run time.
pub struct Area {
    start: Start<Word>,
    cap: usize,
    places: Places<Word>,
    deed: Deed<Word, Global>,
    alloc: Global,
}

impl Model for Area {
    ghost use Rattle.std.specs.Prelude.{◌≡◌, ◌≤◌, List, Option, length};
    ghost use Rattle.tag_word.specs.Tagged.{Tagged};

    ghost Value = { List (Option Tagged) };

    ghost view = { λ a. a.places.slots };

    ghost invariant = { λ a. (a.places.at ≡ a.start.ptr)
        × (a.deed.at ≡ a.start.ptr)
        × (a.deed.len ≡ a.cap)
        × (a.deed.alloc ≡ a.alloc)
        × (length a.places.slots ≡ a.cap)
        × (a.cap ≤ 67108864) };
}

impl Area {
    /// Takes memory for `cap` words, of which none is set yet.
    pub fn open(alloc: Global, cap: u64) -> Result<Area, Memory>
        requires { cap ≤ 67108864 }
        ensures { IfOk result (λ area. area ≡ replicate cap None) }
    {
        let cap = cap as usize;
        if !may_hold::<Word>(cap) {
            return Err(Memory);
        }
        let (start, places, deed) = allocate(&alloc, cap)?;
        Ok(Area {
            start,
            cap,
            places,
            deed,
            alloc,
        })
    }

    /// How many words there may be.
    pub fn cap(&self) -> u64
        ensures cap { result ≡ length self.now }
        ensures small { length self.now ≤ 67108864 }
    {
        self.cap as u64
    }

    /// The word at an index where one was set.
    pub fn get(&self, i: u64) -> Word
        requires { IsSetAt self.now i }
        ensures { get_or self.now i None ≡ Some result }
    {
        *self.places.get(self.start, i as usize)
    }

    /// Sets the word at an index.
    pub fn set(&mut self, i: u64, word: Word)
        requires { i < length self.old }
        ensures { self.new ≡ slice_set self.old i (Some word) }
    {
        self.places.set(self.start, i as usize, word);
    }

    /// Copies `count` words from an index on to another index. The two ranges may share words: what is read is what
    /// stood there before the call.
    pub fn copy(&mut self, from: u64, to: u64, count: u64)
        requires source { from + count ≤ length self.old }
        requires target { to + count ≤ length self.old }
        requires set { AreSetFrom self.old from count }
        ensures { self.new ≡ copied from to count self.old }
    {
        let _places = self.cap();
        if to <= from {
            self.copy_upwards(from, to, count);
        } else {
            self.copy_downwards(from, to, count);
        }
    }

    /// The copy to a lower index, from the first word on.
    fn copy_upwards(&mut self, from: u64, to: u64, count: u64)
        requires below { to ≤ from }
        requires source { from + count ≤ length self.old }
        requires small { length self.old ≤ 67108864 }
        requires set { AreSetFrom self.old from count }
        ensures { self.new ≡ copied from to count self.old }
    {
        for i in 0..count {
            let word = self.get(from + i);
            self.set(to + i, word);
        }
    }

    /// The copy to a higher index, from the last word on.
    fn copy_downwards(&mut self, from: u64, to: u64, count: u64)
        requires above { from ≤ to }
        requires target { to + count ≤ length self.old }
        requires small { length self.old ≤ 67108864 }
        requires set { AreSetFrom self.old from count }
        ensures { self.new ≡ copied from to count self.old }
    {
        let mut left = count;
        while left > 0 {
            left -= 1;
            let word = self.get(from + left);
            self.set(to + left, word);
        }
    }
}

impl Drop for Area {
    fn drop(self) {
        let Area {
            start,
            cap,
            places,
            deed,
            alloc,
        } = self;
        deallocate(&alloc, start, cap, places, deed);
    }
}

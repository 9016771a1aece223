use crate::numbers::Numbers;
use aq_term::memory::Memory;
use itoa::Buffer;
use std::alloc::Global;

/// A text that grows, and the numbers that it follows from.
#[derive(Drop)]
pub struct Draft {
    numbers: Numbers,
    text: String,
}

impl Draft {
    /// An empty text.
    pub fn new(alloc: Global, numbers: Numbers) -> Draft {
        Draft {
            numbers,
            text: String::new(alloc),
        }
    }

    /// The text and the numbers behind it.
    pub fn into_parts(self) -> (String, Numbers) {
        (self.text, self.numbers)
    }

    /// Puts a text at the end.
    pub fn put(&mut self, text: &str) -> Result<(), Memory> {
        Ok(self.text.push_str(text)?)
    }

    /// Puts a number at the end, in decimal.
    pub fn put_number(&mut self, number: u32) -> Result<(), Memory> {
        let mut buffer = Buffer::new();
        Ok(self.text.push_str(buffer.format(number))?)
    }

    /// Puts one of some texts at the end.
    pub fn put_one_of(&mut self, texts: &[&'static str]) -> Result<(), Memory> {
        let number = self.numbers.below(texts.len().min(1_000) as u32);
        self.put(texts.get(number as usize).copied().unwrap_or(""))
    }

    /// The next number, below the bound, or 0 where that is 0.
    pub fn below(&mut self, bound: u32) -> u32 {
        self.numbers.below(bound)
    }

    /// Whether one of so many throws is the first.
    pub fn one_in(&mut self, count: u32) -> bool {
        self.numbers.one_in(count)
    }
}

ghost use Rattle.std.specs.Prelude.{◌≡◌, ◌+◌, ◌<◌, ◌≤◌, ◌∷◌, OnOk, OnSome, IfOk, length};
ghost use Rattle.std.specs.Bool.{OnFalse, OnTrue};

use crate::fault::LineFault;
use std::marker::Model;

/// What is left of a line. Contracts see its bytes.
#[derive(Debug, Drop)]
pub struct Fields<'a> {
    rest: &'a [u8],
}

impl<'a> Model for Fields<'a> {
    ghost use Rattle.std.specs.Prelude.{List, ℕ};

    ghost Value = { List ℕ };

    ghost view = { λ f. f.rest.now };
}

impl<'a> Fields<'a> {
    /// A whole line, without its new line.
    pub fn new(line: &'a [u8]) -> Fields<'a>
        ensures { result ≡ line.now }
    {
        Fields { rest: line }
    }

    pub fn is_at_end(&self) -> bool {
        self.rest.is_empty()
    }

    /// Nothing is left.
    pub fn end(&self) -> Result<(), LineFault> {
        if self.is_at_end() {
            Ok(())
        } else {
            Err(LineFault::Form)
        }
    }

    /// The next byte, which stays.
    pub fn peek(&self) -> Option<u8> {
        self.rest.first().copied()
    }

    /// Takes the next byte.
    pub fn next_byte(&mut self) -> Result<u8, LineFault>
        ensures taken { IfOk result (λ byte. self.old ≡ byte ∷ self.new) }
        ensures shorter { OnOk result (length self.new < length self.old) }
        ensures within { length self.new ≤ length self.old }
    {
        let [first, rest @ ..] = self.rest else {
            return Err(LineFault::Form);
        };
        let byte = *first;
        self.rest = rest;
        Ok(byte)
    }

    /// Takes this byte where it comes next, and says whether it did.
    pub fn takes(&mut self, byte: u8) -> bool
        ensures taken { OnTrue result (self.old ≡ byte ∷ self.new) }
        ensures left { OnFalse result (self.new ≡ self.old) }
        ensures shorter { OnTrue result (length self.new < length self.old) }
        ensures within { length self.new ≤ length self.old }
    {
        let [first, rest @ ..] = self.rest else {
            return false;
        };
        if *first != byte {
            return false;
        }
        self.rest = rest;
        true
    }

    /// This byte comes next.
    pub fn byte(&mut self, byte: u8) -> Result<(), LineFault>
        ensures taken { OnOk result (self.old ≡ byte ∷ self.new) }
        ensures shorter { OnOk result (length self.new < length self.old) }
        ensures within { length self.new ≤ length self.old }
    {
        if self.takes(byte) {
            Ok(())
        } else {
            Err(LineFault::Form)
        }
    }

    /// One space comes next.
    pub fn space(&mut self) -> Result<(), LineFault>
        ensures taken { OnOk result (self.old ≡ 32 ∷ self.new) }
        ensures shorter { OnOk result (length self.new < length self.old) }
        ensures within { length self.new ≤ length self.old }
    {
        self.byte(b' ')
    }

    /// Takes the longest run of lower-case letters and `_`, which may be empty.
    pub fn word(&mut self) -> &'a [u8]
        ensures { length self.new ≤ length self.old }
    {
        let end = self
            .rest
            .iter()
            .position(|byte| !is_word_byte(*byte))
            .unwrap_or(self.rest.len());
        self.run(end)
    }

    /// Takes the longest run of digits, which may be empty.
    fn digits(&mut self) -> &'a [u8]
        ensures { length result.now + length self.new ≡ length self.old }
    {
        let end = self
            .rest
            .iter()
            .position(|byte| !byte.is_ascii_digit())
            .unwrap_or(self.rest.len());
        self.run(end)
    }

    fn run(&mut self, end: usize) -> &'a [u8]
        requires { end ≤ length self.old }
        ensures { length result.now + length self.new ≡ length self.old }
    {
        let (run, rest) = self.rest.split_at(end);
        self.rest = rest;
        run
    }

    /// A number without leading zeros, up to a greatest one.
    pub fn number(&mut self, most: u64) -> Result<u64, LineFault>
        ensures most { IfOk result (λ number. number ≤ most) }
        ensures shorter { OnOk result (length self.new < length self.old) }
        ensures within { length self.new ≤ length self.old }
    {
        match number_of(self.digits()) {
            Some(number) if number <= most => Ok(number),
            _ => Err(LineFault::Form),
        }
    }

    /// An integer of 64 bits without leading zeros, and not `-0`.
    pub fn integer(&mut self) -> Result<i64, LineFault>
        ensures shorter { OnOk result (length self.new < length self.old) }
        ensures within { length self.new ≤ length self.old }
    {
        if self.takes(b'-') {
            return self.negative();
        }
        let number = self.number(i64::MAX as u64)?;
        Ok(number as i64)
    }

    /// The integer whose digits follow a `-`.
    fn negative(&mut self) -> Result<i64, LineFault>
        ensures shorter { OnOk result (length self.new < length self.old) }
        ensures within { length self.new ≤ length self.old }
    {
        let number = self.number(LEAST)?;
        match number {
            0 => Err(LineFault::Form),
            LEAST => Ok(i64::MIN),
            _ => Ok(-(number as i64)),
        }
    }
}

/// The least integer of 64 bits, without its sign.
const LEAST: u64 = 9_223_372_036_854_775_808;

fn is_word_byte(byte: u8) -> bool {
    byte.is_ascii_lowercase() || byte == b'_'
}

/// The number of digits that are not empty and have no leading zero, where it fits.
fn number_of(digits: &[u8]) -> Option<u64>
    ensures { OnSome result (0 < length digits.now) }
{
    match digits {
        [] => None,
        [b'0'] => Some(0),
        [b'0', ..] => None,
        _ => value_of(digits),
    }
}

fn value_of(digits: &[u8]) -> Option<u64> {
    let mut value: u64 = 0;
    for byte in digits {
        let digit = char::from(*byte).to_digit(10)?;
        value = value.checked_mul(10)?.checked_add(u64::from(digit))?;
    }
    Some(value)
}

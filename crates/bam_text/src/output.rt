ghost use Rattle.std.specs.Prelude.{◌≡◌, ◌<◌, ◌++◌, ◌∷◌, [], OnOk, codes, slice_get, unwrap_or};
ghost use Rattle.std.specs.Fmt.{decimal, signed_decimal};
ghost use Rattle.term_text.specs.Spelling.{in_quotes, escaped, digit, hexadecimal};

use aq_term::atom::Atom;
use aq_term::atoms::Atoms;
use aq_term::memory::Memory;
use itoa::Buffer;
use std::alloc::Global;
use std::marker::Model;

/// The bytes printed so far.
#[derive(Debug, Drop)]
pub struct Output {
    bytes: Vec<u8>,
}

impl Model for Output {
    ghost use Rattle.std.specs.Prelude.{List, ℕ};

    ghost Value = { List ℕ };

    ghost view = { λ o. o.bytes.items };
}

impl Output {
    pub fn new(alloc: Global) -> Output
        ensures { result ≡ [] }
    {
        Output {
            bytes: Vec::new(alloc),
        }
    }

    pub fn into_bytes(self) -> Vec<u8>
        ensures { result.items ≡ self }
    {
        let Output { bytes } = self;
        bytes
    }

    pub fn byte(&mut self, byte: u8) -> Result<(), Memory>
        ensures { OnOk result (self.new ≡ self.old ++ byte ∷ []) }
    {
        self.bytes.push(byte)?;
        Ok(())
    }

    pub fn text(&mut self, text: &str) -> Result<(), Memory>
        ensures { OnOk result (self.new ≡ self.old ++ text.now) }
    {
        self.bytes.extend_from_slice(text.as_bytes())?;
        Ok(())
    }

    /// A space, and then the text.
    pub fn field(&mut self, text: &str) -> Result<(), Memory>
        ensures { OnOk result (self.new ≡ self.old ++ 32 ∷ text.now) }
    {
        self.byte(b' ')?;
        self.text(text)
    }

    pub fn number(&mut self, number: u64) -> Result<(), Memory>
        ensures { OnOk result (self.new ≡ self.old ++ decimal number) }
    {
        let mut buffer = Buffer::new();
        self.text(buffer.format(number))
    }

    pub fn integer(&mut self, value: i64) -> Result<(), Memory>
        ensures { OnOk result (self.new ≡ self.old ++ signed_decimal value) }
    {
        let mut buffer = Buffer::new();
        self.text(buffer.format(value))
    }

    /// An atom in single quotes.
    pub fn atom(&mut self, atoms: &Atoms, atom: Atom) -> Result<(), Memory>
        ensures { OnOk result (self.new ≡ self.old ++ in_quotes (unwrap_or (slice_get atoms.now atom.number) [])) }
    {
        self.quoted(atoms.text_or_empty(atom).as_bytes())
    }

    fn quoted(&mut self, text: &[u8]) -> Result<(), Memory>
        ensures { OnOk result (self.new ≡ self.old ++ in_quotes text.now) }
    {
        self.byte(b'\'')?;
        for byte in text {
            self.quoted_byte(*byte)?;
        }
        self.byte(b'\'')
    }

    /// A byte within single quotes.
    fn quoted_byte(&mut self, byte: u8) -> Result<(), Memory>
        ensures { OnOk result (self.new ≡ self.old ++ escaped byte) }
    {
        match byte {
            b'\\' => self.text("\\\\"),
            b'\'' => self.text("\\'"),
            b'\n' => self.text("\\n"),
            0..=31 | 127 => self.code(byte),
            _ => self.byte(byte),
        }
    }

    /// A control code as a hexadecimal escape, without leading zeros.
    fn code(&mut self, code: u8) -> Result<(), Memory>
        ensures { OnOk result (self.new ≡ self.old ++ codes "\\x" ++ hexadecimal code ++ codes "\\") }
    {
        self.text("\\x")?;
        if code >= 16 {
            self.byte(hexadecimal_digit(code / 16))?;
        }
        self.byte(hexadecimal_digit(code % 16))?;
        self.byte(b'\\')
    }
}

/// The lower-case digit of base 16.
fn hexadecimal_digit(value: u8) -> u8
    requires { value < 16 }
    ensures { result ≡ digit value }
{
    if value < 10 {
        b'0' + value
    } else {
        b'a' + (value - 10)
    }
}

ghost use Rattle.std.specs.Prelude.{◌≡◌, ◌++◌, ◌∷◌, [], OnOk};
ghost use Rattle.std.specs.Fmt.{decimal};

use aq_term::memory::Memory;
use itoa::Buffer;
use std::alloc::Global;
use std::marker::Model;

/// The bytes written so far. Contracts see the list of them.
#[derive(Debug, Drop)]
pub struct Output {
    bytes: Vec<u8>,
}

impl Model for Output {
    ghost use Rattle.std.specs.Prelude.{List, ℕ};

    ghost Value = { List ℕ };

    ghost view = { λ o. o.bytes.items };
}

impl Output {
    pub fn new(alloc: Global) -> Output
        ensures { result ≡ [] }
    {
        Output {
            bytes: Vec::new(alloc),
        }
    }

    pub fn into_bytes(self) -> Vec<u8>
        ensures { result.items ≡ self }
    {
        let Output { bytes } = self;
        bytes
    }

    pub fn byte(&mut self, byte: u8) -> Result<(), Memory>
        ensures { OnOk result (self.new ≡ self.old ++ byte ∷ []) }
    {
        self.bytes.push(byte)?;
        Ok(())
    }

    pub fn bytes(&mut self, bytes: &[u8]) -> Result<(), Memory>
        ensures { OnOk result (self.new ≡ self.old ++ bytes.now) }
    {
        self.bytes.extend_from_slice(bytes)?;
        Ok(())
    }

    pub fn text(&mut self, text: &str) -> Result<(), Memory>
        ensures { OnOk result (self.new ≡ self.old ++ text.now) }
    {
        self.bytes(text.as_bytes())
    }

    /// A space, and then the text.
    pub fn field(&mut self, text: &str) -> Result<(), Memory>
        ensures { OnOk result (self.new ≡ self.old ++ 32 ∷ text.now) }
    {
        self.byte(b' ')?;
        self.text(text)
    }

    pub fn number(&mut self, number: u64) -> Result<(), Memory>
        ensures { OnOk result (self.new ≡ self.old ++ decimal number) }
    {
        let mut buffer = Buffer::new();
        self.text(buffer.format(number))
    }
}

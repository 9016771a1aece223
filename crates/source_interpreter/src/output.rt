use aq_term::memory::Memory;
use std::alloc::Global;

/// The bytes that a run has written.
#[derive(Debug, Drop)]
pub struct Output {
    bytes: Vec<u8>,
}

impl Output {
    pub fn new(alloc: Global) -> Output {
        Output {
            bytes: Vec::new(alloc),
        }
    }

    pub fn put(&mut self, bytes: &[u8]) -> Result<(), Memory> {
        self.bytes.extend_from_slice(bytes)?;
        Ok(())
    }

    /// Writes a new line where bytes were written and the last one is none.
    pub fn begin_line(&mut self) -> Result<(), Memory> {
        match self.bytes.last() {
            None | Some(b'\n') => Ok(()),
            Some(_) => self.put(b"\n"),
        }
    }

    pub fn into_bytes(self) -> Vec<u8> {
        let Output { bytes } = self;
        bytes
    }
}

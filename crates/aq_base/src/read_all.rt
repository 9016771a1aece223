ghost use Rattle.std.specs.Prelude.{◌≡◌, ◌≤◌, ◌<◌, ℕ, List, IfOk, IsErrOf, length};
ghost use Rattle.std.specs.Io.KnownBytes.{Consumes, IsAtEnd};
ghost use Rattle.aq_base.specs.Faults.{HasRisen};
ghost use Rattle.aq_base.specs.declared.read_all.ReadFault.TheVariants as fault;

use crate::source::{Failed, Source};
use std::alloc::{AllocError, Global};
use thiserror::Error;

/// Why a source was not read to its end.
#[derive(Clone, Copy, Debug, PartialEq, Eq, Error)]
pub enum ReadFault {
    #[error("the input is too long")]
    TooLong,
    #[error("a read failed")]
    Failed,
    #[error("out of memory")]
    Memory,
}

impl From<Failed> for ReadFault {
    ghost from_gives = { λ _ e. e ≡ fault.Failed };

    fn from(_failed: Failed) -> ReadFault {
        ReadFault::Failed
    }
}

impl From<AllocError> for ReadFault {
    ghost from_gives = { λ _ e. e ≡ fault.Memory };

    fn from(_error: AllocError) -> ReadFault {
        ReadFault::Memory
    }
}

/// How many bytes are asked for at once.
const PIECE: usize = 65_536;

/// Reads to the end. `TooLong` comes exactly where more than `most` bytes come, and `Failed` only after a fault.
pub fn read_all<S: Source>(alloc: Global, source: &mut S, most: usize) -> Result<Vec<u8>, ReadFault>
    ensures read { IfOk result (λ bytes. Consumes (S.remaining source.old) (S.remaining source.new) bytes.items
        × IsAtEnd (S.remaining source.new)) }
    ensures within { IfOk result (λ bytes. length bytes.items ≤ most) }
    ensures too_long { IsErrOf result ReadFault.TooLong → (front : List ℕ)
        × Consumes (S.remaining source.old) (S.remaining source.new) front × (most < length front) }
    ensures failed { IsErrOf result ReadFault.Failed → HasRisen (S.faults source.old) (S.faults source.new) }
    ensures never_falls { S.faults source.old ≤ S.faults source.new }
{
    let mut bytes = Vec::new(alloc);
    let mut piece = [0u8; PIECE];
    loop {
        let count = source.read(&mut piece)?;
        if count == 0 {
            return Ok(bytes);
        }
        if most - bytes.len() < count {
            return Err(ReadFault::TooLong);
        }
        bytes.extend_from_slice(&piece[..count])?;
    }
}

ghost use Rattle.std.specs.Prelude.{◌≤◌, ℕ, OnOk, OnErr, length, take};
ghost use Rattle.std.specs.Io.KnownBytes.{Appends};
ghost use Rattle.aq_base.specs.Faults.{HasRisen};
ghost use Rattle.aquarius_top.specs.Ending.{joined};

use aq_base::put::put;
use aq_base::sink::Sink;
use aq_base::source::Failed;

/// Writes all bytes of the pieces in turn, or fails after a fault with some first bytes taken.
pub fn put_all<K: Sink>(sink: &mut K, pieces: &[&[u8]]) -> Result<(), Failed>
    ensures whole { OnOk result (Appends (K.taken sink.old) (K.taken sink.new) (joined pieces.now)) }
    ensures front { OnErr result ((n : ℕ) × (n ≤ length (joined pieces.now))
        × Appends (K.taken sink.old) (K.taken sink.new) (take n (joined pieces.now))) }
    ensures failed { OnErr result (HasRisen (K.faults sink.old) (K.faults sink.new)) }
{
    for piece in pieces {
        put(sink, piece)?;
    }
    Ok(())
}

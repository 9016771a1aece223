//! Copies of what a code is made of.

ghost use Rattle.std.specs.Prelude.{◌≡◌, IfOk};

use aq_term::entry::Entry;
use aq_term::memory::Memory;
use aq_term::modes::Modes;
use bam_code::arg_types::ArgTypes;
use bam_code::signature::Signature;
use bam_code::types::Types;
use std::alloc::Global;

/// An entry that is equal to it.
pub fn copy_entry(alloc: Global, entry: &Entry) -> Result<Entry, Memory>
    ensures { IfOk result (λ copy. copy ≡ entry.now) }
{
    Ok(Entry {
        name: entry.name,
        arity: entry.arity,
        modes: Modes::from_vec(entry.modes.as_slice().to_vec(alloc)?),
        clause: entry.clause,
    })
}

/// A signature that is equal to it.
pub fn copy_signature(alloc: Global, signature: &Signature) -> Result<Signature, Memory>
    ensures { IfOk result (λ copy. copy ≡ signature.now) }
{
    Ok(Signature {
        name: signature.name,
        args: ArgTypes::from_vec(signature.args.as_slice().to_vec(alloc)?),
        results: Types::from_vec(signature.results.as_slice().to_vec(alloc)?),
    })
}

ghost use Rattle.std.specs.Prelude.{◌≡◌};
ghost use Rattle.unify_special.specs.Steps.{moves_of, steps_of};

use crate::base::Base;
use crate::draft::Draft;
use crate::opened::Opened;
use crate::picture::Picture;
use aq_term::memory::Memory;
use bam_code::signature::Signature;
use bam_code::word_type::WordType;

/// Writes a label behind which a word is of this type, and looked into.
pub fn open_label(
    number: u32,
    base: Base,
    holds: WordType,
    signature: &Signature,
    picture: &Picture,
    draft: &mut Draft,
) -> Result<(), Memory>
    ensures steps { steps_of draft.new.lines ≡ steps_of draft.old.lines }
    ensures moves { moves_of draft.new.lines ≡ moves_of draft.old.lines }
{
    draft.open(Opened {
        register: base.register,
        holds,
        mark: base.mark,
    })?;
    draft.label(number, signature, picture)
}

ghost use Rattle.std.specs.Prelude.{◌≡◌, ◌+◌, OnOk, OnErr, IfErr};
ghost use Rattle.answer_io.specs.declared.halt.Halt.TheVariants as halt;

use aq_base::area_name::AreaName;
use aq_base::source::Failed;
use machine_store::full::Full;
use machine_store::stray::Stray;

/// Why a write does not go on.
#[derive(Clone, Copy, Debug, PartialEq, Eq)]
pub enum Halt {
    /// No visit was left.
    Stopped,
    /// This area has no room for a word that is needed.
    Full(AreaName),
    /// The sink had a fault.
    Failed,
    /// The words stand for no term.
    Stray,
}

impl From<Failed> for Halt {
    ghost from_gives = { λ _ e. e ≡ halt.Failed };

    fn from(_failed: Failed) -> Halt {
        Halt::Failed
    }
}

impl From<Full> for Halt {
    ghost from_gives = { λ f e. e ≡ halt.Full f.area };

    fn from(full: Full) -> Halt {
        Halt::Full(full.area)
    }
}

impl From<Stray> for Halt {
    ghost from_gives = { λ _ e. e ≡ halt.Stray };

    fn from(_stray: Stray) -> Halt {
        Halt::Stray
    }
}

/// Counts a visit, or stops where none is left.
pub fn count_visit(left: &mut u64) -> Result<(), Halt>
    ensures ok { OnOk result (left.new + 1 ≡ left.old) }
    ensures err { OnErr result (left.new ≡ left.old) }
    ensures none { IfErr result (λ e. (left.old ≡ 0) × (e ≡ halt.Stopped)) }
{
    if *left == 0 {
        return Err(Halt::Stopped);
    }
    *left -= 1;
    Ok(())
}

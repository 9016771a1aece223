ghost use Rattle.std.specs.Prelude.{◌≡◌};
ghost use Rattle.answer_io.specs.declared.load_fault.LoadFault.TheVariants as fault;

use aq_base::area_name::AreaName;
use machine_store::full::Full;
use machine_store::stray::Stray;

/// Why a term is not loaded.
#[derive(Clone, Copy, Debug, PartialEq, Eq)]
pub enum LoadFault {
    /// This area has no room for a word that is needed.
    Full(AreaName),
    /// A cell that was made is not there.
    Stray,
}

impl From<Full> for LoadFault {
    ghost from_gives = { λ f e. e ≡ fault.Full f.area };

    fn from(full: Full) -> LoadFault {
        LoadFault::Full(full.area)
    }
}

impl From<Stray> for LoadFault {
    ghost from_gives = { λ _ e. e ≡ fault.Stray };

    fn from(_stray: Stray) -> LoadFault {
        LoadFault::Stray
    }
}

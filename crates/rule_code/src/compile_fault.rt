ghost use Rattle.std.specs.Prelude.{◌≡◌};
ghost use Rattle.rule_code.specs.declared.compile_fault.CompileFault.TheVariants as fault;

use aq_term::memory::Memory;

/// Why a program has no code.
#[derive(Clone, Copy, Debug, PartialEq, Eq)]
pub enum CompileFault {
    /// The entry's name, or a name that a clause calls, has no clause.
    Undefined,
    /// Want of memory.
    Memory,
}

impl From<Memory> for CompileFault {
    ghost from_gives = { λ _ e. e ≡ fault.Memory };

    fn from(_memory: Memory) -> CompileFault {
        CompileFault::Memory
    }
}

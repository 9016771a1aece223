ghost use Rattle.std.specs.Prelude.{◌≡◌};

/// How far a run may go: `steps` counts steps, the others words of an area.
#[derive(Clone, Copy, Debug, PartialEq, Eq)]
pub struct Limits {
    pub steps: u64,
    pub heap: u64,
    pub env: u64,
    pub choice: u64,
    pub trail: u64,
    pub work: u64,
}

/// The steps of a run where no option says otherwise.
const DEFAULT_STEPS: u64 = 100_000_000;

/// The words of each area where no option says otherwise: 64 MiB.
const DEFAULT_WORDS: u64 = 4_194_304;

impl Limits {
    /// The limits where no option says otherwise.
    pub fn default_limits() -> Limits
        ensures steps { result.steps ≡ 100000000 }
        ensures heap { result.heap ≡ 4194304 }
        ensures env { result.env ≡ 4194304 }
        ensures choice { result.choice ≡ 4194304 }
        ensures trail { result.trail ≡ 4194304 }
        ensures work { result.work ≡ 4194304 }
    {
        Limits {
            steps: DEFAULT_STEPS,
            heap: DEFAULT_WORDS,
            env: DEFAULT_WORDS,
            choice: DEFAULT_WORDS,
            trail: DEFAULT_WORDS,
            work: DEFAULT_WORDS,
        }
    }
}

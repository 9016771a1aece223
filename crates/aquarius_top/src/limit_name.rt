ghost use Rattle.std.specs.Prelude.{◌≡◌, ◌≤◌};
ghost use Rattle.aquarius_top.specs.Options.{limit_named, most_of};

/// The name of a limit that an option of a run sets.
#[derive(Clone, Copy)]
pub enum LimitName {
    Steps,
    Heap,
    Env,
    Choice,
    Trail,
    Work,
}

impl LimitName {
    /// The limit that the word sets, if any.
    pub fn of_option(word: &str) -> Option<LimitName>
        ensures { result ≡ limit_named word.now }
    {
        match word {
            "--steps" => Some(LimitName::Steps),
            "--heap" => Some(LimitName::Heap),
            "--env" => Some(LimitName::Env),
            "--choice" => Some(LimitName::Choice),
            "--trail" => Some(LimitName::Trail),
            "--work" => Some(LimitName::Work),
            _ => None,
        }
    }

    /// The greatest number that the limit may be set to; the least is 1.
    pub fn most(self) -> u64
        ensures most { result ≡ most_of self }
        ensures within { result ≤ 1000000000 }
    {
        match self {
            LimitName::Steps => 1_000_000_000,
            LimitName::Heap => 67_108_864,
            LimitName::Env | LimitName::Choice | LimitName::Trail | LimitName::Work => 16_777_216,
        }
    }
}

ghost use Rattle.std.specs.Prelude.{◌≡◌, ◌≤◌, ◌<◌, ◌+◌, ◌*◌, ◌%◌};

/// Numbers that follow from a seed.
#[derive(Drop)]
pub struct Numbers {
    state: u32,
}

impl Numbers {
    /// The numbers of a seed.
    pub fn of(seed: u32) -> Numbers {
        Numbers {
            state: next_state(next_state(seed)),
        }
    }

    /// The next number, below the bound, or 0 where that is 0.
    pub fn below(&mut self, bound: u32) -> u32
        ensures { result ≤ bound }
    {
        self.state = next_state(self.state);
        if bound == 0 {
            return 0;
        }
        (self.state >> 12) % bound
    }

    /// Whether one of so many throws is the first.
    pub fn one_in(&mut self, count: u32) -> bool {
        self.below(count) == 0
    }
}

/// The state of the linear congruential generator behind this one. It is below 2147483648.
fn next_state(state: u32) -> u32
    ensures next { result ≡ (state * 1103515245 + 12345) % 2147483648 }
    ensures small { result < 2147483648 }
{
    ((state as u64 * 1_103_515_245 + 12_345) % 2_147_483_648) as u32
}

ghost use Rattle.std.specs.Prelude.{◌≤◌};

/// Numbers that follow from a seed.
#[derive(Drop)]
pub struct Numbers {
    pub state: u32,
}

impl Numbers {
    /// The next number, below the bound, or 0 where that is 0.
    pub fn below(&mut self, bound: u32) -> u32
        ensures { result ≤ bound }
    {
        self.state = self.state.wrapping_mul(1_103_515_245).wrapping_add(12_345);
        if bound == 0 {
            return 0;
        }
        (self.state >> 16) % bound
    }

    /// Whether one of so many throws is the first.
    pub fn one_in(&mut self, count: u32) -> bool {
        self.below(count) == 0
    }
}

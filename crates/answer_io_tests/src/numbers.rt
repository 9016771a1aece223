ghost use Rattle.std.specs.Prelude.{◌<◌};

/// Numbers that follow from a seed.
#[derive(Drop)]
pub struct Numbers {
    pub state: u32,
}

impl Numbers {
    /// The next number, below the bound.
    pub fn below(&mut self, bound: u32) -> u32
        requires { 0 < bound }
        ensures { result < bound }
    {
        self.state = self.state.wrapping_mul(1_103_515_245).wrapping_add(12_345);
        (self.state >> 16) % bound
    }
}

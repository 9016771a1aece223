ghost use Rattle.std.specs.Prelude.{◌≡◌, ℕ};

/// New numbers for labels.
pub trait LabelNames {
    /// The new number of each number.
    ghost name_of: { Self → ℕ → ℕ };

    /// The new number of the label of this number.
    fn name(&self, number: u32) -> u32
        ensures { result ≡ name_of self.now number };
}

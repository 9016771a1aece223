ghost use Rattle.std.specs.Prelude.{◌≡◌};
ghost use Rattle.bam_types.specs.States.{is_filled};

/// What the state says of an argument of the procedure.
#[derive(Clone, Copy, Debug)]
pub enum Argument {
    /// Its term has this identity.
    Term(u32),
    /// It is a result, and its hole has this identity.
    Unfilled(u32),
    /// It is a result, and its hole was filled.
    Filled,
    /// It is a number of choices.
    Barrier,
}

impl Argument {
    /// Whether it is no result with an unfilled hole.
    pub fn is_filled(&self) -> bool
        ensures { result ≡ is_filled self.now }
    {
        !matches!(self, Argument::Unfilled(_))
    }
}

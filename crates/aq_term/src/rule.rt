ghost use Rattle.std.specs.Prelude.{◌≡◌};
ghost use Rattle.aq_term.specs.Rule.{word_of};

/// A rule of the verifier, in the order in which a line is tested.
#[derive(Clone, Copy, Debug, PartialEq, Eq)]
pub enum Rule {
    Flow,
    Frame,
    Unset,
    Slot,
    Index,
    Tag,
    Open,
    Call,
    Choice,
    Hole,
    Result,
    State,
    Entry,
    Catch,
}

impl Rule {
    /// The rule's name in a refusal.
    pub fn word(self) -> &'static str
        ensures { result.now ≡ word_of self }
    {
        match self {
            Rule::Flow => "flow",
            Rule::Frame => "frame",
            Rule::Unset => "unset",
            Rule::Slot => "slot",
            Rule::Index => "index",
            Rule::Tag => "tag",
            Rule::Open => "open",
            Rule::Call => "call",
            Rule::Choice => "choice",
            Rule::Hole => "hole",
            Rule::Result => "result",
            Rule::State => "state",
            Rule::Entry => "entry",
            Rule::Catch => "catch",
        }
    }
}

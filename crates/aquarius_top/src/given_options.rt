ghost use Rattle.std.specs.Prelude.{◌≡◌};
ghost use Rattle.aquarius_top.specs.Options.{none_given, number_for, with_number, with_option, with_show, limits_of};

use crate::limit_name::LimitName;
use crate::number::number_within;
use aq_base::limits::Limits;

/// What options have asked for so far.
#[derive(Clone, Copy)]
pub struct GivenOptions {
    steps: Option<u64>,
    heap: Option<u64>,
    env: Option<u64>,
    choice: Option<u64>,
    trail: Option<u64>,
    work: Option<u64>,
    show: bool,
}

impl GivenOptions {
    /// Nothing is asked for.
    pub fn none() -> GivenOptions
        ensures { result ≡ none_given }
    {
        GivenOptions {
            steps: None,
            heap: None,
            env: None,
            choice: None,
            trail: None,
            work: None,
            show: false,
        }
    }

    /// What `--show` gives: `None` where it was there before.
    pub fn with_show(self) -> Option<GivenOptions>
        ensures { result ≡ with_show self }
    {
        if self.show {
            return None;
        }
        let mut given = self;
        given.show = true;
        Some(given)
    }

    /// Whether the code is to be shown.
    pub fn shows(self) -> bool
        ensures { result ≡ self.show }
    {
        self.show
    }

    /// What one more limit gives: `None` where the word is no option, was there before, or has no number in its range.
    pub fn with_option(self, word: &str, number: &str) -> Option<GivenOptions>
        ensures { result ≡ with_option word.now number.now self }
    {
        let limit = LimitName::of_option(word)?;
        if self.number(limit).is_some() {
            return None;
        }
        let number = number_within(number.as_bytes(), limit.most())?;
        Some(self.with_number(limit, number))
    }

    /// The limits, the defaults standing for those that are not set.
    pub fn limits(self) -> Limits
        ensures { result ≡ limits_of self }
    {
        let defaults = Limits::default_limits();
        Limits {
            steps: self.steps.unwrap_or(defaults.steps),
            heap: self.heap.unwrap_or(defaults.heap),
            env: self.env.unwrap_or(defaults.env),
            choice: self.choice.unwrap_or(defaults.choice),
            trail: self.trail.unwrap_or(defaults.trail),
            work: self.work.unwrap_or(defaults.work),
        }
    }

    fn number(self, limit: LimitName) -> Option<u64>
        ensures { result ≡ number_for limit self }
    {
        match limit {
            LimitName::Steps => self.steps,
            LimitName::Heap => self.heap,
            LimitName::Env => self.env,
            LimitName::Choice => self.choice,
            LimitName::Trail => self.trail,
            LimitName::Work => self.work,
        }
    }

    fn with_number(self, limit: LimitName, number: u64) -> GivenOptions
        ensures { result ≡ with_number limit number self }
    {
        let mut given = self;
        match limit {
            LimitName::Steps => given.steps = Some(number),
            LimitName::Heap => given.heap = Some(number),
            LimitName::Env => given.env = Some(number),
            LimitName::Choice => given.choice = Some(number),
            LimitName::Trail => given.trail = Some(number),
            LimitName::Work => given.work = Some(number),
        }
        given
    }
}

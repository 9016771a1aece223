use crate::numbers::Numbers;
use crate::shape::Shape;
use crate::style::Style;
use aq_term::mode::Mode;

/// The names of predicates.
const NAMES: [&str; 6] = ["p", "q", "r", "s", "t", "'the last'"];

/// A predicate that is to be made.
#[derive(Clone, Copy)]
pub struct Plan {
    /// Its number, from 0.
    pub number: u32,
    /// How many arguments it has, 0 to 4.
    pub arity: u32,
    /// What its clauses are like.
    pub shape: Shape,
    /// What becomes of its arguments where it calls itself.
    pub styles: [Style; 4],
    /// Whether it has an entry.
    pub is_entry: bool,
    /// The modes of its entry.
    pub modes: [Mode; 4],
}

impl Plan {
    /// The plan of a predicate. The first has an entry.
    pub fn next(numbers: &mut Numbers, number: u32) -> Plan {
        let shape = match numbers.below(5) {
            0 | 1 => Shape::OnLists,
            2 => Shape::Counting,
            _ => Shape::Plain,
        };
        let arity = match shape {
            Shape::Plain => numbers.below(5),
            _ => 1 + numbers.below(3),
        };
        let styles = [
            style(numbers),
            style(numbers),
            style(numbers),
            style(numbers),
        ];
        let first = match shape {
            Shape::Plain => mode(numbers),
            _ => first_mode(numbers),
        };
        Plan {
            number,
            arity,
            shape,
            styles,
            is_entry: number == 0 || numbers.one_in(3),
            modes: [first, mode(numbers), mode(numbers), mode(numbers)],
        }
    }

    /// Its name, as a text has it.
    pub fn name(self) -> &'static str {
        NAMES.get(self.number as usize).copied().unwrap_or("p")
    }

    /// What becomes of an argument, counted from 0.
    pub fn style(self, place: u32) -> Style {
        self.styles
            .get(place as usize)
            .copied()
            .unwrap_or(Style::Kept)
    }

    /// The mode of an argument, counted from 0.
    pub fn mode(self, place: u32) -> Mode {
        self.modes.get(place as usize).copied().unwrap_or(Mode::Any)
    }
}

fn style(numbers: &mut Numbers) -> Style {
    match numbers.below(5) {
        0 | 1 => Style::Built,
        2 => Style::Gathered,
        3 => Style::Summed,
        _ => Style::Kept,
    }
}

fn mode(numbers: &mut Numbers) -> Mode {
    match numbers.below(6) {
        0 => Mode::Ground,
        1 => Mode::Nonvar,
        2 | 3 => Mode::Any,
        _ => Mode::Out,
    }
}

/// The mode of what a predicate goes down.
fn first_mode(numbers: &mut Numbers) -> Mode {
    match numbers.below(8) {
        0 => Mode::Any,
        1 | 2 => Mode::Nonvar,
        3 => Mode::Out,
        _ => Mode::Ground,
    }
}

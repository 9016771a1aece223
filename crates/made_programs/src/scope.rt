/// The names of variables: those of clauses, and then those that a query's terms share.
const NAMES: [&str; 10] = ["A", "B", "C", "D", "E", "F", "G", "H", "U", "V"];

/// The variables that a term may name: so many, from a place of the table of names on.
#[derive(Clone, Copy)]
pub struct Scope {
    first: u32,
    count: u32,
}

impl Scope {
    /// No variable at all, for ground terms.
    pub const NONE: Scope = Scope { first: 0, count: 0 };

    /// Those of a clause, at most eight.
    pub fn of_clause(count: u32) -> Scope {
        Scope {
            first: 0,
            count: count.min(8),
        }
    }

    /// Those that stand anywhere in a query.
    pub const QUERY: Scope = Scope { first: 8, count: 2 };

    /// How many there are.
    pub fn count(self) -> u32 {
        self.count
    }

    /// The name of one, by its number from 0.
    pub fn name(self, number: u32) -> &'static str {
        NAMES
            .get(self.first.saturating_add(number) as usize)
            .copied()
            .unwrap_or("_")
    }
}

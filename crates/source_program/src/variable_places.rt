use aq_term::memory::Memory;
use std::alloc::Global;

/// Where each variable of an outline stands in its row of occurrences.
#[derive(Drop)]
pub struct VariablePlaces {
    /// The places of each variable, rising.
    rows: Vec<Vec<usize>>,
}

impl VariablePlaces {
    /// The places in `occurrences` of the variables below `variables`.
    pub fn of(
        alloc: Global,
        occurrences: &[u32],
        variables: usize,
    ) -> Result<VariablePlaces, Memory> {
        let mut rows = Vec::with_capacity(alloc, variables)?;
        for _ in 0..variables {
            rows.push(Vec::new(alloc))?;
        }
        for (place, variable) in occurrences.iter().enumerate() {
            if let Some(row) = rows.get_mut(*variable as usize) {
                row.push(place)?;
            }
        }
        Ok(VariablePlaces { rows })
    }

    /// Whether the variable stands at one of the places from `first` on and before `last`.
    pub fn stands_between(&self, variable: u32, first: usize, last: usize) -> bool {
        self.first_between(variable, first, last).is_some()
    }

    /// The first place of the variable from `first` on and before `last`.
    pub fn first_between(&self, variable: u32, first: usize, last: usize) -> Option<usize> {
        let row = self.rows.get(variable as usize)?;
        let earlier = row.as_slice().partition_point(|place| *place < first);
        match row.get(earlier) {
            Some(place) if *place < last => Some(*place),
            _ => None,
        }
    }
}

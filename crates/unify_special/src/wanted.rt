/// Which variables of a clause have a goal behind the one of which code is made.
#[derive(Clone, Copy, Debug)]
pub struct Wanted<'a> {
    /// For each variable how many goals there are up to its last one, that one among them.
    ends: &'a [usize],
    /// How many goals there are up to the one of which code is made, that one among them.
    behind: usize,
}

impl<'a> Wanted<'a> {
    /// By how many goals there are up to the last one of each variable, and up to the one of which code is made.
    pub fn new(ends: &'a [usize], behind: usize) -> Wanted<'a> {
        Wanted { ends, behind }
    }

    /// Whether a later goal has the variable. One of which nothing is known has one.
    pub fn wants(self, variable: u32) -> bool {
        match self.ends.get(variable as usize) {
            Some(end) => *end > self.behind,
            None => true,
        }
    }
}

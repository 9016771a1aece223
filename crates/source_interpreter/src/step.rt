use crate::ending::End;

/// What a step comes to.
#[derive(Clone, Copy, Debug)]
pub enum Step {
    /// The run goes on with the list of goals at this place, or with none.
    Went(Option<usize>),
    Ended(End),
}

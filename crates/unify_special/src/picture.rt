use crate::place::Place;
use crate::place_list::PlaceList;
use flow_equations::fact_list::FactList;

/// What is known at a place of a clause's code: for each variable its fact and where it stands. Labels are written from it and
/// from nothing else.
///
/// The variables below the procedure's width are the head's. A head variable of which the argument is a result, and which is out,
/// stands in the place that holds its unfilled hole; once that is filled it stands nowhere. A barrier stands in its place, and its
/// fact is `Any`. No two other variables share a place, and none shares what the verifier knows with another.
#[derive(Debug, Drop)]
pub struct Picture {
    pub facts: FactList,
    pub places: PlaceList,
    /// How many slots the frame has, where there is one.
    pub frame: Option<u16>,
    /// Where the number of choices stands that there were when the procedure was entered.
    pub depth: Place,
}

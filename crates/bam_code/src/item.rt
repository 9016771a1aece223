use crate::known::Known;
use crate::place::Place;
use crate::place_type::PlaceType;

/// What holds at a label, an alternative or the label of a ball.
#[derive(Clone, Copy, Debug, PartialEq, Eq)]
pub enum Item {
    /// So much is known of the argument of this number, from 0.
    Argument {
        argument: u8,
        known: Known,
    },
    /// The place holds a word of this type. A mark is the number of an argument, whose term or whose hole it is.
    Place {
        place: Place,
        holds: PlaceType,
        mark: Option<u8>,
    },
}

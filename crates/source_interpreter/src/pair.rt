use crate::halt::Halt;
use crate::terms::Terms;
use crate::value::{Compound, Value};

/// Two terms that are compared or made equal.
#[derive(Clone, Copy, Debug)]
pub struct Pair {
    pub left: Value,
    pub right: Value,
}

/// Puts the pairs of the arguments of two compounds on a stack, the first one last.
pub fn push_pairs(
    terms: &Terms,
    left: Compound,
    right: Compound,
    pairs: &mut Vec<Pair>,
) -> Result<(), Halt> {
    for place in (0..left.arity).rev() {
        let (Some(left), Some(right)) = (terms.argument(left, place), terms.argument(right, place))
        else {
            return Err(Halt::Lost);
        };
        pairs.push(Pair { left, right })?;
    }
    Ok(())
}

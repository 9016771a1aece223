use crate::halt::Halt;
use crate::terms::Terms;
use crate::value::{Compound, Value};

/// The arguments of a built-in by their number.
#[derive(Clone, Copy, Debug)]
pub enum Arguments {
    Zero,
    One(Value),
    Two(Value, Value),
    Three(Value, Value, Value),
}

impl Arguments {
    /// The arguments of a call of a built-in.
    pub fn of(terms: &Terms, call: Compound) -> Arguments {
        let first = terms.argument(call, 0);
        let second = terms.argument(call, 1);
        let third = terms.argument(call, 2);
        match (first, second, third) {
            (None, _, _) => Arguments::Zero,
            (Some(only), None, _) => Arguments::One(only),
            (Some(left), Some(right), None) => Arguments::Two(left, right),
            (Some(first), Some(second), Some(third)) => Arguments::Three(first, second, third),
        }
    }
}

/// Puts the arguments of a compound on a stack, the first one last.
pub fn push_arguments(
    terms: &Terms,
    compound: Compound,
    values: &mut Vec<Value>,
) -> Result<(), Halt> {
    for place in (0..compound.arity).rev() {
        let Some(argument) = terms.argument(compound, place) else {
            return Err(Halt::Lost);
        };
        values.push(argument)?;
    }
    Ok(())
}

ghost use Rattle.dcg_rules.specs.Operands.{AreOperands};

use aq_term::args::Args;
use aq_term::term::Term;

/// The arguments of a compound, where they may be those of an operator.
#[derive(Clone, Copy)]
pub enum Operands<'a> {
    One(&'a Term),
    Two(&'a Term, &'a Term),
    Others,
}

/// The arguments by their number.
pub fn by_number(arguments: &Args) -> Operands<'_>
    ensures { AreOperands arguments.now result }
{
    match arguments.as_slice() {
        [only] => Operands::One(only),
        [left, right] => Operands::Two(left, right),
        _ => Operands::Others,
    }
}

ghost use Rattle.source_program.specs.ArgumentList.{AreArguments};

use aq_term::args::Args;
use aq_term::term::Term;

/// The arguments of a compound, where they may be those of a directive, a rule or a control construct.
#[derive(Clone, Copy)]
pub enum Arguments<'a> {
    One(&'a Term),
    Two(&'a Term, &'a Term),
    Three(&'a Term, &'a Term, &'a Term),
    Others,
}

/// The arguments by their number.
pub fn by_number(arguments: &Args) -> Arguments<'_>
    ensures { AreArguments arguments.now result }
{
    match arguments.as_slice() {
        [only] => Arguments::One(only),
        [left, right] => Arguments::Two(left, right),
        [first, second, third] => Arguments::Three(first, second, third),
        _ => Arguments::Others,
    }
}

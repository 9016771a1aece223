ghost use Rattle.std.specs.Prelude.{◌≡◌, length, ◌≤◌, ◌+◌};
ghost use Rattle.unify_special.specs.Steps.{moves_of, steps_of};

use crate::draft::Draft;
use crate::fill::{fill, is_hole};
use crate::ground_pool::GroundPool;
use crate::introduce::{introduce, introduce_all};
use crate::picture::Picture;
use crate::right_side::{RightSide, right_side};
use crate::unify_compound::{bind_compound, unify_compound};
use crate::unify_constant::{unify_constant, unify_ground};
use crate::unify_variable::{share_word, unify_variable};
use crate::wanted::Wanted;
use aq_term::memory::Memory;
use aq_term::term::Term;
use bam_code::signature::Signature;
use flow_equations::occurrences::term_variables;
use flow_equations::unify_rule::unify_rule;
use std::alloc::Global;
use type_lattice::fact::Fact;

/// Writes the lines of the goal `X = T`, and makes the picture the one behind it: the facts are those of the analysis, and a variable
/// that was out has a place. Temporary registers are given back.
///
/// Each variable of the goal that is not out stands somewhere. There is one exception: where the place of X holds the hole of a
/// result, the lines fill it, and a variable of T that is not out, and occurs once in it, may stand nowhere. Its value comes from a
/// later call. Where it is the whole T it takes the hole over; else a hole is made for it, which the call must be passed.
///
/// A variable of T that was out, occurs once and is in no later goal gets no place: its value is not loaded.
///
/// The call goes as deep in the stack as T is deep. After want of memory nothing is said of the picture and of the draft.
pub fn unify_code(
    alloc: Global,
    variable: u32,
    term: &Term,
    wanted: Wanted<'_>,
    signature: &Signature,
    picture: &mut Picture,
    pool: &mut GroundPool,
    draft: &mut Draft,
) -> Result<(), Memory>
    ensures facts { length picture.new.facts ≡ length picture.old.facts }
    ensures places { length picture.new.places ≡ length picture.old.places }
    ensures steps { steps_of draft.new.lines ≡ steps_of draft.old.lines }
    ensures moves { moves_of draft.new.lines ≤ moves_of draft.old.lines + 2 }
{
    let variables = term_variables(alloc, term)?;
    if is_hole(signature, picture, variable) {
        introduce_all(variables.as_slice(), picture, draft)?;
        let mut right = right_side(alloc, term, picture, pool, draft)?;
        right.void_unwanted(wanted, picture);
        let free = draft.register;
        fill(variable, &right, picture, draft)?;
        draft.register = free;
        return unify_rule(alloc, &mut picture.facts, variable, term);
    }
    let before = picture.facts.fact(variable);
    introduce(variable, picture, draft)?;
    introduce_all(variables.as_slice(), picture, draft)?;
    let mut right = right_side(alloc, term, picture, pool, draft)?;
    right.void_unwanted(wanted, picture);
    let free = draft.register;
    let shares = is_shared(variable, &right, picture);
    unify_right(variable, before, &right, signature, picture, draft)?;
    unify_rule(alloc, &mut picture.facts, variable, term)?;
    draft.register = free;
    if shares {
        draft.part(signature, picture)?;
    }
    Ok(())
}

/// Whether X and T are variables in whose places one word stands behind the goal.
fn is_shared(variable: u32, right: &RightSide, picture: &Picture) -> bool {
    match right {
        RightSide::Variable(other) => share_word(variable, *other, picture),
        _ => false,
    }
}

/// The lines of `X = T`, where X had this fact before the goal.
fn unify_right(
    variable: u32,
    before: Fact,
    right: &RightSide,
    signature: &Signature,
    picture: &mut Picture,
    draft: &mut Draft,
) -> Result<(), Memory>
    ensures facts { length picture.new.facts ≡ length picture.old.facts }
    ensures places { length picture.new.places ≡ length picture.old.places }
    ensures steps { steps_of draft.new.lines ≡ steps_of draft.old.lines }
    ensures moves { moves_of draft.new.lines ≤ moves_of draft.old.lines + 2 }
{
    match right {
        RightSide::Variable(other) => unify_variable(variable, *other, picture, draft),
        RightSide::Constant(constant) => {
            unify_constant(variable, *constant, signature, picture, draft)
        }
        RightSide::Ground(number) => unify_ground(variable, *number, picture, draft),
        RightSide::Compound(nodes) if is_in_itself(variable, before, picture) => {
            bind_compound(variable, nodes.as_slice(), picture, draft)
        }
        RightSide::Compound(nodes) => {
            unify_compound(variable, nodes.as_slice(), signature, picture, draft)
        }
    }
}

/// Whether X, which had this fact before the goal, was out and is in T, so that it was put into a cell.
fn is_in_itself(variable: u32, before: Fact, picture: &Picture) -> bool {
    before == Fact::Out && picture.facts.fact(variable) != Fact::Out
}

ghost use Rattle.std.specs.Prelude.{◌≡◌, ◌≤◌, length};

use crate::draft::Draft;
use crate::ground_pool::GroundPool;
use crate::picture::Picture;
use crate::place::Place;
use crate::wanted::Wanted;
use aq_term::args::Args;
use aq_term::atom::Atom;
use aq_term::functor::Functor;
use aq_term::memory::Memory;
use aq_term::term::Term;
use bam_code::constant::Constant;
use std::alloc::Global;
use type_lattice::fact::Fact;

/// A node of a term that is made or taken apart. The nodes of a term stand one after the other, each compound before its arguments.
#[derive(Clone, Copy, Debug)]
pub enum Node {
    Constant(Constant),
    /// A compound without variables, which is the pool's entry of this number.
    Ground(u32),
    /// A variable that is out and occurs once. It has a register, in which nothing stands yet.
    New(u32),
    /// A variable that is out, occurs once and is in no later goal, so that nobody asks for its value.
    Void,
    /// A variable that has a value.
    Known(u32),
    /// A variable that has its value from a later call, to which its hole is passed. It has a register for that hole.
    Passed(u32),
    /// A compound with variables, and the place behind its last argument.
    Compound(Functor, usize),
}

/// A node of which the variables and the pool's entries are not looked up yet.
#[derive(Clone, Copy)]
enum Sketch<'a> {
    Constant(Constant),
    Variable(u32),
    Ground(&'a Term),
    Compound(Functor, usize),
}

/// The nodes of a term. Those of its variables that are out have registers and occur once. A variable that has a value and stands
/// nowhere takes a register for its hole.
///
/// The call goes as deep in the stack as the term is deep.
pub fn pattern_of(
    alloc: Global,
    term: &Term,
    picture: &mut Picture,
    pool: &mut GroundPool,
    draft: &mut Draft,
) -> Result<Vec<Node>, Memory>
    ensures facts { length picture.new.facts ≡ length picture.old.facts }
    ensures places { length picture.new.places ≡ length picture.old.places }
    ensures lines { draft.new.lines ≡ draft.old.lines }
{
    let mut sketches = Vec::new(alloc);
    sketch_term(term, &mut sketches)?;
    let mut nodes = Vec::with_capacity(alloc, sketches.len())?;
    for one in sketches.as_slice() {
        nodes.push(node_of(alloc, *one, picture, pool, draft)?)?;
    }
    Ok(nodes)
}

/// Puts the nodes of a term at the end of the list, one alone for a compound without variables. Says whether there is no variable.
#[cycle(sketch)]
fn sketch_term<'a>(term: &'a Term, found: &mut Vec<Sketch<'a>>) -> Result<bool, Memory> {
    match term {
        Term::Var(number) => {
            found.push(Sketch::Variable(*number))?;
            Ok(false)
        }
        Term::Int(value) => {
            found.push(Sketch::Constant(Constant::Int(*value)))?;
            Ok(true)
        }
        Term::Atom(name) => {
            found.push(Sketch::Constant(Constant::Atom(*name)))?;
            Ok(true)
        }
        Term::Compound(name, args) => {
            let at = found.len();
            found.push(Sketch::Ground(term))?;
            let is_ground = sketch_arguments(args, found)?;
            if is_ground {
                found.truncate(at.saturating_add(1));
            } else {
                set_compound(found, at, functor(*name, args));
            }
            Ok(is_ground)
        }
    }
}

#[cycle(sketch)]
fn sketch_arguments<'a>(args: &'a Args, found: &mut Vec<Sketch<'a>>) -> Result<bool, Memory> {
    let mut are_ground = true;
    for arg in args.as_slice() {
        if !sketch_term(arg, found)? {
            are_ground = false;
        }
    }
    Ok(are_ground)
}

/// Says of the node at a place that it is a compound whose arguments are all behind it.
fn set_compound(found: &mut Vec<Sketch>, at: usize, functor: Functor) {
    let end = found.len();
    if let Some(node) = found.get_mut(at) {
        *node = Sketch::Compound(functor, end);
    }
}

/// The functor of a compound, which has at most 255 arguments.
fn functor(name: Atom, args: &Args) -> Functor {
    Functor {
        name,
        arity: args.len().min(255) as u8,
    }
}

fn node_of(
    alloc: Global,
    sketch: Sketch,
    picture: &mut Picture,
    pool: &mut GroundPool,
    draft: &mut Draft,
) -> Result<Node, Memory>
    ensures facts { length picture.new.facts ≡ length picture.old.facts }
    ensures places { length picture.new.places ≡ length picture.old.places }
    ensures lines { draft.new.lines ≡ draft.old.lines }
{
    Ok(match sketch {
        Sketch::Constant(constant) => Node::Constant(constant),
        Sketch::Variable(number) => variable_node(number, picture, draft),
        Sketch::Ground(term) => Node::Ground(pool.number(alloc, term)?),
        Sketch::Compound(functor, end) => Node::Compound(functor, end),
    })
}

fn variable_node(variable: u32, picture: &mut Picture, draft: &mut Draft) -> Node
    ensures facts { length picture.new.facts ≡ length picture.old.facts }
    ensures places { length picture.new.places ≡ length picture.old.places }
    ensures lines { draft.new.lines ≡ draft.old.lines }
{
    match (picture.facts.fact(variable), picture.places.get(variable)) {
        (Fact::Out, _) => Node::New(variable),
        (_, Place::Nowhere) => {
            let register = draft.take_register();
            picture.places.set(variable, Place::Register(register));
            Node::Passed(variable)
        }
        _ => Node::Known(variable),
    }
}

/// Takes the register from each variable that is out and is in no later goal.
pub fn void_unwanted(nodes: &mut Vec<Node>, wanted: Wanted<'_>, picture: &mut Picture)
    ensures facts { length picture.new.facts ≡ length picture.old.facts }
    ensures places { length picture.new.places ≡ length picture.old.places }
{
    for at in 0..nodes.len() {
        if let Some(node) = nodes.get_mut(at) {
            void_one(node, wanted, picture);
        }
    }
}

fn void_one(node: &mut Node, wanted: Wanted<'_>, picture: &mut Picture)
    ensures facts { length picture.new.facts ≡ length picture.old.facts }
    ensures places { length picture.new.places ≡ length picture.old.places }
{
    if let Node::New(variable) = *node {
        if !wanted.wants(variable) {
            picture.places.set(variable, Place::Nowhere);
            *node = Node::Void;
        }
    }
}

/// The place behind the node at a place and all its arguments.
pub fn after(nodes: &[Node], at: usize) -> usize
    ensures { at ≤ result }
{
    match nodes.get(at) {
        Some(Node::Compound(_, end)) => at.max(*end),
        _ => at.saturating_add(1),
    }
}

/// Takes the variables that are out and were made among the nodes from one place to another as not made.
pub fn forget(nodes: &[Node], picture: &mut Picture)
    ensures facts { length picture.new.facts ≡ length picture.old.facts }
    ensures places { picture.new.places ≡ picture.old.places }
{
    for node in nodes {
        if let Node::New(variable) = node {
            picture.facts.set(*variable, Fact::Out);
        }
    }
}

/// The nodes of the term at a place, which begin with itself.
pub fn part(nodes: &[Node], at: usize) -> &[Node] {
    let end = after(nodes, at).min(nodes.len());
    nodes.get(at..end).unwrap_or(&[])
}

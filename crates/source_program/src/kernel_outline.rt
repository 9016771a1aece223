use aq_term::atom::Atom;
use aq_term::builtin::Builtin;
use aq_term::term::Term;

/// What an item of an outline is. Its terms are those of the source clause.
#[derive(Clone, Copy, Debug)]
pub enum ItemKind<'a> {
    /// The goal `V = T`, with V's number. V is the first variable of the item.
    Unify(u32, &'a Term),
    /// A built-in on these arguments. For a compound argument that is not evaluated there is a variable among those of the item.
    Builtin(Builtin, &'a [Term]),
    Fail,
    /// A throw of this term.
    Throw(&'a Term),
    /// A throw of the ball with this number.
    ThrowAgain(u32),
    /// A call of a predicate, which stands in the program or not, on these arguments. For a compound argument there is a variable
    /// among those of the item.
    Call(Atom, &'a [Term]),
    /// A cut of the clause that is written in the program.
    Cut,
    /// A cut to the predicate whose clause it stands in, which the control construct makes.
    Commit,
    /// A call of an auxiliary predicate, whose clauses are inside.
    Auxiliary(AuxiliaryKind),
    /// A clause, whose goals are inside.
    Clause,
    /// A condition or a negated goal without a cut of its own: its goals stand in the clause around it.
    Inlined,
}

/// Which cuts and variables are an auxiliary predicate's own.
#[derive(Clone, Copy, Debug, PartialEq, Eq)]
pub enum AuxiliaryKind {
    /// A cut inside goes back to where the clause around it was entered.
    Construct,
    /// A cut inside is one of this predicate's clause.
    Local,
    /// As `Local`, and a ball that is thrown inside comes to the handler, which is the next item of the clause around it. The two stand
    /// for one goal.
    Guarded,
    /// As `Construct`, and the ball, with this number, is the first argument.
    Handler(u32),
}

impl AuxiliaryKind {
    /// Whether a cut inside goes back to where this predicate was entered.
    pub fn owns_cuts(self) -> bool {
        matches!(self, AuxiliaryKind::Local | AuxiliaryKind::Guarded)
    }
}

/// A goal, or a group of items inside it, which follow it.
#[derive(Clone, Copy, Debug)]
pub struct Item<'a> {
    pub kind: ItemKind<'a>,
    /// How many of the items after this one are inside it.
    pub inside: usize,
    /// Where the item's variables begin in the outline's row of occurrences.
    pub first: usize,
    /// Where they end.
    pub last: usize,
    /// Where the variables begin in the row of the text that an auxiliary predicate is made of.
    pub text_first: usize,
    /// Where they end.
    pub text_last: usize,
    /// Whether a cut of the clause around it is inside.
    pub cuts: bool,
    /// How many nodes of the goal's arguments hold a variable.
    pub nodes: u64,
}

/// The goals that a source clause becomes when its control constructs are made predicates of their own, with what the limits
/// count of them.
#[derive(Debug, Drop)]
pub struct KernelOutline<'a> {
    /// The variables that are the arguments of the head.
    pub head: Vec<u32>,
    /// Each clause and each auxiliary predicate, followed by the items inside. The first item is the source clause itself.
    pub items: Vec<Item<'a>>,
    /// The variables of the items, in their order.
    pub occurrences: Vec<u32>,
    /// The variables of what auxiliary predicates are made of, in the order of the text.
    pub text: Vec<u32>,
    /// Each variable is below this number.
    pub variables: usize,
}

impl KernelOutline<'_> {
    /// The variables at these places, or none where there are no such places.
    pub fn between(&self, first: usize, last: usize) -> &[u32] {
        if first <= last && last <= self.occurrences.len() {
            &self.occurrences[first..last]
        } else {
            &[]
        }
    }

    /// The variables of what an auxiliary predicate is made of, in the order of the text.
    pub fn text_of(&self, predicate: &Item) -> &[u32] {
        let first = predicate.text_first;
        let last = predicate.text_last;
        if first <= last && last <= self.text.len() {
            &self.text[first..last]
        } else {
            &[]
        }
    }
}

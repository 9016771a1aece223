ghost use Rattle.std.specs.Prelude.{◌≡◌, option_map};
ghost use Rattle.aq_term.specs.PlainOf.{plain};
ghost use Rattle.bam_types.specs.Operands.{
  constant,
  held_operand,
  operand,
  pool_word,
  compound_word,
  one,
  two,
  registers_below,
  reads,
  is_slot,
};

use crate::held::Held;
use crate::state::State;
use aq_term::atom::Atom;
use aq_term::functor::Functor;
use aq_term::term::Term;
use bam_code::code::Code;
use bam_code::known::Known;
use bam_code::line::Line;
use bam_code::place_type::PlaceType;
use bam_code::source::Source;
use bam_code::word_type::WordType;

/// What an instruction reads.
#[derive(Clone, Copy, Debug)]
pub struct Operand {
    pub holds: PlaceType,
    /// The identity of a place, and none of a constant or a pool entry.
    pub identity: Option<u32>,
    /// What is known of its term.
    pub known: Known,
}

impl Operand {
    /// A constant or a pool entry of this type.
    fn constant(word: WordType) -> Operand
        ensures { result ≡ constant word }
    {
        Operand {
            holds: PlaceType::Word(word),
            identity: None,
            known: Known::Ground,
        }
    }

    /// What a set place holds.
    fn held(state: &State, held: Option<Held>) -> Option<Operand>
        ensures { result ≡ option_map (held_operand state.now) held }
    {
        let held = held?;
        Some(Operand {
            holds: held.holds,
            identity: Some(held.identity),
            known: state.identities.known(held.identity),
        })
    }

    /// What is read from a source, or none where it is unset.
    pub fn of(state: &State, code: &Code, source: Source) -> Option<Operand>
        ensures { result ≡ operand state.now code.now.pool source }
    {
        match source {
            Source::Register(number) => Operand::held(state, state.register(number)),
            Source::Slot(number) => Operand::held(state, state.slot(number)),
            Source::Int(_) => Some(Operand::constant(WordType::Int)),
            Source::Atom(_) => Some(Operand::constant(WordType::Atom)),
            Source::Pool(number) => {
                let term = code.pool.as_slice().get(number as usize)?;
                Some(Operand::constant(pool_word(term)?))
            }
        }
    }
}

/// The type of a pool entry, which is a compound.
#[tactic(auto, using(crate::proofs::PoolLemmas::items_plains))]
fn pool_word(term: &Term) -> Option<WordType>
    ensures { result ≡ pool_word (plain term.now) }
{
    match term {
        Term::Compound(name, args) => {
            let arity = u8::try_from(args.len()).ok()?;
            Some(compound_word(Functor { name: *name, arity }))
        }
        _ => None,
    }
}

/// The type of a ground compound that holds no reference.
fn compound_word(functor: Functor) -> WordType
    ensures { result ≡ compound_word functor }
{
    if functor.name.number == Atom::LIST.number && functor.arity == 2 {
        WordType::FullListCell
    } else {
        WordType::FullStructure(functor)
    }
}

/// What a line reads, in the order of its text.
pub type Reads = [Option<Source>; 3];

const NOTHING: Reads = [None, None, None];

fn one(source: Source) -> Reads
    ensures { result ≡ one source }
{
    [Some(source), None, None]
}

fn two(left: Source, right: Source) -> Reads
    ensures { result ≡ two left right }
{
    [Some(left), Some(right), None]
}

/// The registers from 0 on that are the arguments of a built-in of this arity.
fn registers_below(arity: u8) -> Reads
    ensures { result ≡ registers_below arity }
{
    match arity {
        0 => NOTHING,
        1 => one(Source::Register(0)),
        2 => two(Source::Register(0), Source::Register(1)),
        _ => [
            Some(Source::Register(0)),
            Some(Source::Register(1)),
            Some(Source::Register(2)),
        ],
    }
}

/// The operands of a line that are read. What a call passes is no operand.
pub fn reads(line: &Line) -> Reads
    ensures { result ≡ reads line.now }
{
    match line {
        Line::Move { from, .. } => one(*from),
        Line::Deref { from, .. } => one(*from),
        Line::Load { from, .. } => one(*from),
        Line::Push(from) => one(*from),
        Line::Bind { register, with } => two(Source::Register(*register), *with),
        Line::Unify { register, with } => two(Source::Register(*register), *with),
        Line::Switch { register, .. } => one(Source::Register(*register)),
        Line::Match { register, .. } => one(Source::Register(*register)),
        Line::Functor { register, .. } => one(Source::Register(*register)),
        Line::Cut(from) => one(*from),
        Line::Arith { left, right, .. } => two(*left, *right),
        Line::Less { left, right, .. } => two(*left, *right),
        Line::Eval { expression, .. } => one(*expression),
        Line::Same { left, right, .. } => two(*left, *right),
        Line::Builtin(builtin) => registers_below(builtin.arity()),
        Line::Raise(from) => one(*from),
        Line::Fill { register, with } => two(Source::Register(*register), *with),
        _ => NOTHING,
    }
}

/// Whether a source is a slot.
pub fn is_slot(source: Source) -> bool
    ensures { result ≡ is_slot source }
{
    matches!(source, Source::Slot(_))
}

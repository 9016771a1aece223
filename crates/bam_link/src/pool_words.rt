use aq_term::args::Args;
use aq_term::atom::Atom;
use aq_term::functor::Functor;
use aq_term::memory::Memory;
use aq_term::term::Term;
use std::alloc::Global;
use tag_word::tag::Tag;
use tag_word::word::Word;

/// The pool as words. A heap begins with its cells, so that an entry's word is the same in each run.
#[derive(Debug, Drop)]
pub struct PoolWords {
    /// The cells of all entries in the order of the pool: a compound's own cells, then those of its compound arguments from
    /// left to right, each in the same way.
    pub cells: Vec<Word>,
    /// The word of each entry.
    pub entries: Vec<Word>,
}

/// A compound that is to be laid out, and the cell that is to have its word.
#[derive(Clone, Copy)]
struct Pending<'a> {
    cell: usize,
    name: Atom,
    args: &'a Args,
}

/// The word of a functor's cell.
pub fn functor_word(functor: Functor) -> Word {
    Word::of(
        Tag::Fun,
        u64::from(functor.name.number) * 256 + u64::from(functor.arity),
    )
}

/// The word of an atom.
pub fn atom_word(atom: Atom) -> Word {
    Word::of(Tag::Atm, u64::from(atom.number))
}

/// The functor of a compound, which has at most 255 arguments.
fn functor_of(name: Atom, args: &Args) -> Functor {
    Functor {
        name,
        arity: u8::try_from(args.len()).unwrap_or(u8::MAX),
    }
}

/// The words of a pool.
pub fn lay_pool(alloc: Global, pool: &[Term]) -> Result<PoolWords, Memory> {
    let mut cells = Vec::new(alloc);
    let mut entries = Vec::with_capacity(alloc, pool.len())?;
    for term in pool {
        let word = lay_term(alloc, term, &mut cells)?;
        entries.push(word)?;
    }
    Ok(PoolWords { cells, entries })
}

/// Puts the cells of a term at the end, and answers its word. Ground terms alone stand in a pool.
fn lay_term(alloc: Global, term: &Term, cells: &mut Vec<Word>) -> Result<Word, Memory> {
    match term {
        Term::Compound(name, args) => lay_compound(alloc, *name, args, cells),
        Term::Int(value) => Ok(Word::of_int(*value)),
        Term::Atom(name) => Ok(atom_word(*name)),
        Term::Var(_) => Ok(Word::of(Tag::Hol, 0)),
    }
}

/// Puts the cells of a compound and of all compounds in it at the end, and answers its word.
fn lay_compound(
    alloc: Global,
    name: Atom,
    args: &Args,
    cells: &mut Vec<Word>,
) -> Result<Word, Memory> {
    let mut pending: Vec<Pending<'_>> = Vec::new(alloc);
    let whole = lay_own(name, args, cells, &mut pending)?;
    // Each turn lays out a compound of the term, and a term has fewer than memory can count.
    for _ in 0..u64::MAX {
        let Some(next) = pending.pop() else {
            break;
        };
        let word = lay_own(next.name, next.args, cells, &mut pending)?;
        if let Some(cell) = cells.get_mut(next.cell) {
            *cell = word;
        }
    }
    Ok(whole)
}

/// Puts a compound's own cells at the end, and its compound arguments among those that are to be laid out, the leftmost
/// last, which is the next. Answers the compound's word.
fn lay_own<'a>(
    name: Atom,
    args: &'a Args,
    cells: &mut Vec<Word>,
    pending: &mut Vec<Pending<'a>>,
) -> Result<Word, Memory> {
    let index = cells.len() as u64;
    let is_list = name == Atom::LIST && args.len() == 2;
    if !is_list {
        cells.push(functor_word(functor_of(name, args)))?;
    }
    let first = cells.len();
    for arg in args.as_slice() {
        cells.push(own_word(arg))?;
    }
    push_pending(args.as_slice(), first, pending)?;
    Ok(if is_list {
        Word::of(Tag::Lst, index)
    } else {
        Word::of(Tag::Str, index)
    })
}

/// Puts the compounds among arguments, which stand in the cells from an index on, among those that are to be laid out.
fn push_pending<'a>(
    args: &'a [Term],
    first: usize,
    pending: &mut Vec<Pending<'a>>,
) -> Result<(), Memory> {
    for (number, arg) in args.iter().enumerate().rev() {
        if let Term::Compound(name, args) = arg {
            pending.push(Pending {
                cell: first.saturating_add(number),
                name: *name,
                args,
            })?;
        }
    }
    Ok(())
}

/// The word of a constant, or a blank where a compound's word will stand.
fn own_word(term: &Term) -> Word {
    match term {
        Term::Int(value) => Word::of_int(*value),
        Term::Atom(name) => atom_word(*name),
        Term::Var(_) | Term::Compound(_, _) => Word::of(Tag::Hol, 0),
    }
}

ghost use Rattle.std.specs.Prelude.{◌≡◌};
ghost use Rattle.bam_types.specs.WordTypes.{
  same_functor,
  is_term,
  is_nonvar,
  is_direct,
  is_head,
  is_var,
  is_ground,
  is_full,
  is_int,
  is_atom,
  is_list_cell,
  is_structure,
  is_bar,
  word_below,
  strip_word,
  with_ground,
  with_nonvar,
  word_with,
  deref_word,
  made_direct,
  weakened,
  list_cell_type,
  structure_type,
};

use aq_term::functor::Functor;
use bam_code::known::Known;
use bam_code::word_type::WordType;

/// Whether both functors have one name and one arity.
pub fn same_functor(left: Functor, right: Functor) -> bool
    ensures { result ≡ same_functor left right }
{
    left.name.number == right.name.number && left.arity == right.arity
}

/// Whether words of this type stand for terms.
pub fn is_term(word: WordType) -> bool
    ensures { result ≡ is_term word }
{
    !matches!(word, WordType::Bar)
}

/// Whether words of this type, dereferenced, are no references.
pub fn is_nonvar(word: WordType) -> bool
    ensures { result ≡ is_nonvar word }
{
    !matches!(
        word,
        WordType::Any | WordType::Head | WordType::Var | WordType::Bar
    )
}

/// Whether words of this type are no references.
pub fn is_direct(word: WordType) -> bool
    ensures { result ≡ is_direct word }
{
    !matches!(
        word,
        WordType::Any
            | WordType::Head
            | WordType::Var
            | WordType::Nonvar
            | WordType::Ground
            | WordType::Bar
    )
}

/// Whether words of this type are references to unbound cells or no references.
pub fn is_head(word: WordType) -> bool
    ensures { result ≡ is_head word }
{
    matches!(word, WordType::Head | WordType::Var) || is_direct(word)
}

/// Whether words of this type are references to unbound cells.
pub fn is_var(word: WordType) -> bool
    ensures { result ≡ is_var word }
{
    matches!(word, WordType::Var)
}

/// Whether no unbound cell is reachable from words of this type.
pub fn is_ground(word: WordType) -> bool
    ensures { result ≡ is_ground word }
{
    matches!(
        word,
        WordType::Ground
            | WordType::GroundDirect
            | WordType::Full
            | WordType::Int
            | WordType::Atom
            | WordType::GroundListCell
            | WordType::FullListCell
            | WordType::GroundStructure(_)
            | WordType::FullStructure(_)
    )
}

/// Whether no reference is reachable from words of this type, and they are none.
pub fn is_full(word: WordType) -> bool
    ensures { result ≡ is_full word }
{
    matches!(
        word,
        WordType::Full
            | WordType::Int
            | WordType::Atom
            | WordType::FullListCell
            | WordType::FullStructure(_)
    )
}

/// Whether words of this type are integers.
pub fn is_int(word: WordType) -> bool
    ensures { result ≡ is_int word }
{
    matches!(word, WordType::Int)
}

/// Whether words of this type are atoms.
pub fn is_atom(word: WordType) -> bool
    ensures { result ≡ is_atom word }
{
    matches!(word, WordType::Atom)
}

/// Whether words of this type are list cells.
pub fn is_list_cell(word: WordType) -> bool
    ensures { result ≡ is_list_cell word }
{
    matches!(
        word,
        WordType::ListCell | WordType::GroundListCell | WordType::FullListCell
    )
}

/// Whether words of this type are structures of this functor.
pub fn is_structure(functor: Functor, word: WordType) -> bool
    ensures { result ≡ is_structure functor word }
{
    match word {
        WordType::Structure(other)
        | WordType::GroundStructure(other)
        | WordType::FullStructure(other) => same_functor(functor, other),
        _ => false,
    }
}

/// Whether words of this type are numbers of choices.
pub fn is_bar(word: WordType) -> bool
    ensures { result ≡ is_bar word }
{
    matches!(word, WordType::Bar)
}

/// Whether each word of the lower type is of the upper one.
pub fn word_below(lower: WordType, upper: WordType) -> bool
    ensures { result ≡ word_below lower upper }
{
    match upper {
        WordType::Any => is_term(lower),
        WordType::Head => is_head(lower),
        WordType::Var => is_var(lower),
        WordType::Nonvar => is_nonvar(lower),
        WordType::Direct => is_direct(lower),
        WordType::Ground => is_ground(lower),
        WordType::GroundDirect => is_ground(lower) && is_direct(lower),
        WordType::Full => is_full(lower),
        WordType::Int => is_int(lower),
        WordType::Atom => is_atom(lower),
        WordType::ListCell => is_list_cell(lower),
        WordType::GroundListCell => is_list_cell(lower) && is_ground(lower),
        WordType::FullListCell => is_list_cell(lower) && is_full(lower),
        WordType::Structure(functor) => is_structure(functor, lower),
        WordType::GroundStructure(functor) => is_structure(functor, lower) && is_ground(lower),
        WordType::FullStructure(functor) => is_structure(functor, lower) && is_full(lower),
        WordType::Bar => is_bar(lower),
    }
}

/// What a type says of the term that a word stands for.
pub fn strip_word(word: WordType) -> Known
    ensures { result ≡ strip_word word }
{
    match word {
        WordType::Any | WordType::Head | WordType::Var | WordType::Bar => Known::Any,
        WordType::Nonvar | WordType::Direct | WordType::ListCell | WordType::Structure(_) => {
            Known::Nonvar
        }
        WordType::Ground
        | WordType::GroundDirect
        | WordType::Full
        | WordType::Int
        | WordType::Atom
        | WordType::GroundListCell
        | WordType::FullListCell
        | WordType::GroundStructure(_)
        | WordType::FullStructure(_) => Known::Ground,
    }
}

/// The type of a word whose term holds no variable. A reference to an unbound cell is taken as any word.
fn with_ground(word: WordType) -> WordType
    ensures { result ≡ with_ground word }
{
    match word {
        WordType::Any | WordType::Var | WordType::Nonvar => WordType::Ground,
        WordType::Head | WordType::Direct => WordType::GroundDirect,
        WordType::ListCell => WordType::GroundListCell,
        WordType::Structure(functor) => WordType::GroundStructure(functor),
        other => other,
    }
}

/// The type of a word whose term is no variable. A reference to an unbound cell is taken as any word.
fn with_nonvar(word: WordType) -> WordType
    ensures { result ≡ with_nonvar word }
{
    match word {
        WordType::Any | WordType::Var => WordType::Nonvar,
        WordType::Head => WordType::Direct,
        other => other,
    }
}

/// The type of a word of whose term so much is known.
pub fn word_with(word: WordType, known: Known) -> WordType
    ensures { result ≡ word_with word known }
{
    match known {
        Known::Any => word,
        Known::Nonvar => with_nonvar(word),
        Known::Ground => with_ground(word),
    }
}

/// The type of the dereferenced word.
pub fn deref_word(word: WordType) -> WordType
    ensures { result ≡ deref_word word }
{
    match word {
        WordType::Any => WordType::Head,
        WordType::Nonvar => WordType::Direct,
        WordType::Ground => WordType::GroundDirect,
        other => other,
    }
}

/// The type of a word that is seen to be no reference.
pub fn made_direct(word: WordType) -> WordType
    ensures { result ≡ made_direct word }
{
    match word {
        WordType::Any | WordType::Head | WordType::Var | WordType::Nonvar => WordType::Direct,
        WordType::Ground => WordType::GroundDirect,
        other => other,
    }
}

/// The type of a word after any cells were bound.
pub fn weakened(word: WordType) -> WordType
    ensures { result ≡ weakened word }
{
    match word {
        WordType::Head | WordType::Var => WordType::Any,
        other => other,
    }
}

/// The type of a list cell, by whether both its parts are ground, and whether both are full.
pub fn list_cell_type(all_ground: bool, all_full: bool) -> WordType
    ensures { result ≡ list_cell_type all_ground all_full }
{
    if all_full {
        WordType::FullListCell
    } else if all_ground {
        WordType::GroundListCell
    } else {
        WordType::ListCell
    }
}

/// The type of a structure, by whether all its arguments are ground, and whether all are full.
pub fn structure_type(functor: Functor, all_ground: bool, all_full: bool) -> WordType
    ensures { result ≡ structure_type functor all_ground all_full }
{
    if all_full {
        WordType::FullStructure(functor)
    } else if all_ground {
        WordType::GroundStructure(functor)
    } else {
        WordType::Structure(functor)
    }
}

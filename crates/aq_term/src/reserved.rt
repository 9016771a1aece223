ghost use Rattle.std.specs.Prelude.{◌≡◌};
ghost use Rattle.aq_term.specs.Reserved.{is_reserved, with_one, with_two, with_three};

use crate::atom::Atom;

/// Whether programs may neither define nor call the predicate of this name with this many arguments. `-->` with two arguments is
/// among them, though a clause of that form is a grammar rule. `catch` and `throw` are not: they are goals of their own.
pub fn is_reserved(name: Atom, arity: usize) -> bool
    ensures { result ≡ is_reserved name.number arity }
{
    match arity {
        0 => matches!(name, Atom::REPEAT | Atom::HALT),
        1 => is_reserved_with_one(name),
        2 => is_reserved_with_two(name),
        3 => is_reserved_with_three(name),
        4 => matches!(name, Atom::CALL | Atom::OPEN),
        5 => matches!(name, Atom::CALL | Atom::SUB_ATOM),
        6..=8 => matches!(name, Atom::CALL),
        _ => false,
    }
}

fn is_reserved_with_one(name: Atom) -> bool
    ensures { result ≡ with_one name.number }
{
    matches!(
        name,
        Atom::CALL
            | Atom::ASSERTA
            | Atom::ASSERTZ
            | Atom::ASSERT
            | Atom::RETRACT
            | Atom::ABOLISH
            | Atom::ONCE
            | Atom::HALT
            | Atom::FLOAT
            | Atom::READ
            | Atom::GET_CHAR
            | Atom::PEEK_CHAR
            | Atom::WRITE_CANONICAL
            | Atom::PRINT
            | Atom::CURRENT_PREDICATE
            | Atom::CLOSE
            | Atom::IF
            | Atom::QUERY
    )
}

fn is_reserved_with_two(name: Atom) -> bool
    ensures { result ≡ with_two name.number }
{
    matches!(
        name,
        Atom::CALL
            | Atom::CLAUSE
            | Atom::UNIFY_WITH_OCCURS_CHECK
            | Atom::READ_TERM
            | Atom::WRITE_TERM
            | Atom::ATOM_LENGTH
            | Atom::ATOM_CHARS
            | Atom::ATOM_CODES
            | Atom::CHAR_CODE
            | Atom::NUMBER_CHARS
            | Atom::NUMBER_CODES
            | Atom::SET_PROLOG_FLAG
            | Atom::CURRENT_PROLOG_FLAG
            | Atom::ARROW
            | Atom::IF
    )
}

fn is_reserved_with_three(name: Atom) -> bool
    ensures { result ≡ with_three name.number }
{
    matches!(
        name,
        Atom::CALL
            | Atom::FINDALL
            | Atom::BAGOF
            | Atom::SETOF
            | Atom::OP
            | Atom::CURRENT_OP
            | Atom::ATOM_CONCAT
            | Atom::OPEN
    )
}

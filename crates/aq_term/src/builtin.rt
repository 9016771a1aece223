ghost use Rattle.std.specs.Prelude.{◌≡◌, Some, IfSome};
ghost use Rattle.aq_term.specs.Builtins.{name_of, arity_of};
ghost use Rattle.aq_term.specs.declared.builtin.Builtin.{Builtin};

use crate::atom::Atom;

/// A predicate that is built in.
#[derive(Clone, Copy, Debug, PartialEq, Eq)]
pub enum Builtin {
    /// `X = Y`
    Unify,
    /// `X \= Y`
    NotUnify,
    /// `var(X)`
    Var,
    /// `nonvar(X)`
    Nonvar,
    /// `atom(X)`
    Atom,
    /// `integer(X)`
    Integer,
    /// `number(X)`
    Number,
    /// `atomic(X)`
    Atomic,
    /// `compound(X)`
    Compound,
    /// `X == Y`
    Identical,
    /// `X \== Y`
    NotIdentical,
    /// `X @< Y`
    TermLess,
    /// `X @=< Y`
    TermAtMost,
    /// `X @> Y`
    TermGreater,
    /// `X @>= Y`
    TermAtLeast,
    /// `compare(Order, X, Y)`
    Compare,
    /// `functor(Term, Name, Arity)`
    Functor,
    /// `arg(N, Term, Argument)`
    Arg,
    /// `Term =.. List`
    Univ,
    /// `copy_term(Term, Copy)`
    CopyTerm,
    /// `X is Expression`
    Is,
    /// `X =:= Y`
    NumberEqual,
    /// `X =\= Y`
    NumberNotEqual,
    /// `X < Y`
    Less,
    /// `X =< Y`
    AtMost,
    /// `X > Y`
    Greater,
    /// `X >= Y`
    AtLeast,
    /// `write(Term)`
    Write,
    /// `writeq(Term)`
    Writeq,
    /// `nl`
    Nl,
    /// `put_char(Character)`
    PutChar,
}

impl Builtin {
    /// The built-in of this name with this many arguments.
    pub fn of(name: Atom, arity: usize) -> Option<Builtin>
        ensures found { IfSome result (λ b. (name_of b ≡ name.number) × (arity_of b ≡ arity)) }
        ensures all { (b : Builtin) → name_of b ≡ name.number → arity_of b ≡ arity → result ≡ Some b }
    {
        match arity {
            0 => Builtin::without_arguments(name),
            1 => Builtin::of_one(name),
            2 => Builtin::of_two(name),
            3 => Builtin::of_three(name),
            _ => None,
        }
    }

    fn without_arguments(name: Atom) -> Option<Builtin>
        ensures found { IfSome result (λ b. (name_of b ≡ name.number) × (arity_of b ≡ 0)) }
        ensures all { (b : Builtin) → name_of b ≡ name.number → arity_of b ≡ 0 → result ≡ Some b }
    {
        match name {
            Atom::NL => Some(Builtin::Nl),
            _ => None,
        }
    }

    fn of_one(name: Atom) -> Option<Builtin>
        ensures found { IfSome result (λ b. (name_of b ≡ name.number) × (arity_of b ≡ 1)) }
        ensures all { (b : Builtin) → name_of b ≡ name.number → arity_of b ≡ 1 → result ≡ Some b }
    {
        match name {
            Atom::VAR => Some(Builtin::Var),
            Atom::NONVAR => Some(Builtin::Nonvar),
            Atom::ATOM => Some(Builtin::Atom),
            Atom::INTEGER => Some(Builtin::Integer),
            Atom::NUMBER => Some(Builtin::Number),
            Atom::ATOMIC => Some(Builtin::Atomic),
            Atom::COMPOUND => Some(Builtin::Compound),
            Atom::WRITE => Some(Builtin::Write),
            Atom::WRITEQ => Some(Builtin::Writeq),
            Atom::PUT_CHAR => Some(Builtin::PutChar),
            _ => None,
        }
    }

    fn of_two(name: Atom) -> Option<Builtin>
        ensures found { IfSome result (λ b. (name_of b ≡ name.number) × (arity_of b ≡ 2)) }
        ensures all { (b : Builtin) → name_of b ≡ name.number → arity_of b ≡ 2 → result ≡ Some b }
    {
        match name {
            Atom::UNIFIES => Some(Builtin::Unify),
            Atom::NOT_UNIFIES => Some(Builtin::NotUnify),
            Atom::IDENTICAL => Some(Builtin::Identical),
            Atom::NOT_IDENTICAL => Some(Builtin::NotIdentical),
            Atom::TERM_LESS => Some(Builtin::TermLess),
            Atom::TERM_AT_MOST => Some(Builtin::TermAtMost),
            Atom::TERM_GREATER => Some(Builtin::TermGreater),
            Atom::TERM_AT_LEAST => Some(Builtin::TermAtLeast),
            Atom::UNIV => Some(Builtin::Univ),
            Atom::COPY_TERM => Some(Builtin::CopyTerm),
            Atom::IS => Some(Builtin::Is),
            Atom::NUMBER_EQUAL => Some(Builtin::NumberEqual),
            Atom::NUMBER_NOT_EQUAL => Some(Builtin::NumberNotEqual),
            Atom::LESS => Some(Builtin::Less),
            Atom::AT_MOST => Some(Builtin::AtMost),
            Atom::GREATER => Some(Builtin::Greater),
            Atom::AT_LEAST => Some(Builtin::AtLeast),
            _ => None,
        }
    }

    fn of_three(name: Atom) -> Option<Builtin>
        ensures found { IfSome result (λ b. (name_of b ≡ name.number) × (arity_of b ≡ 3)) }
        ensures all { (b : Builtin) → name_of b ≡ name.number → arity_of b ≡ 3 → result ≡ Some b }
    {
        match name {
            Atom::COMPARE => Some(Builtin::Compare),
            Atom::FUNCTOR => Some(Builtin::Functor),
            Atom::ARG => Some(Builtin::Arg),
            _ => None,
        }
    }

    /// How many arguments it takes.
    pub fn arity(self) -> u8
        ensures { result ≡ arity_of self }
    {
        match self {
            Builtin::Nl => 0,
            Builtin::Var
            | Builtin::Nonvar
            | Builtin::Atom
            | Builtin::Integer
            | Builtin::Number
            | Builtin::Atomic
            | Builtin::Compound
            | Builtin::Write
            | Builtin::Writeq
            | Builtin::PutChar => 1,
            Builtin::Compare | Builtin::Functor | Builtin::Arg => 3,
            _ => 2,
        }
    }

    pub fn name(self) -> Atom
        ensures { result.number ≡ name_of self }
    {
        match self {
            Builtin::Unify => Atom::UNIFIES,
            Builtin::NotUnify => Atom::NOT_UNIFIES,
            Builtin::Var => Atom::VAR,
            Builtin::Nonvar => Atom::NONVAR,
            Builtin::Atom => Atom::ATOM,
            Builtin::Integer => Atom::INTEGER,
            Builtin::Number => Atom::NUMBER,
            Builtin::Atomic => Atom::ATOMIC,
            Builtin::Compound => Atom::COMPOUND,
            Builtin::Identical => Atom::IDENTICAL,
            Builtin::NotIdentical => Atom::NOT_IDENTICAL,
            Builtin::TermLess => Atom::TERM_LESS,
            Builtin::TermAtMost => Atom::TERM_AT_MOST,
            Builtin::TermGreater => Atom::TERM_GREATER,
            Builtin::TermAtLeast => Atom::TERM_AT_LEAST,
            Builtin::Compare => Atom::COMPARE,
            Builtin::Functor => Atom::FUNCTOR,
            Builtin::Arg => Atom::ARG,
            Builtin::Univ => Atom::UNIV,
            Builtin::CopyTerm => Atom::COPY_TERM,
            Builtin::Is => Atom::IS,
            Builtin::NumberEqual => Atom::NUMBER_EQUAL,
            Builtin::NumberNotEqual => Atom::NUMBER_NOT_EQUAL,
            Builtin::Less => Atom::LESS,
            Builtin::AtMost => Atom::AT_MOST,
            Builtin::Greater => Atom::GREATER,
            Builtin::AtLeast => Atom::AT_LEAST,
            Builtin::Write => Atom::WRITE,
            Builtin::Writeq => Atom::WRITEQ,
            Builtin::Nl => Atom::NL,
            Builtin::PutChar => Atom::PUT_CHAR,
        }
    }
}

/// The number of a name in an `Atoms`.
#[derive(Clone, Copy, Debug, PartialEq, Eq)]
pub struct Atom {
    pub number: u32,
}

/// The names that have the same number in every table. `FIXED_NAMES` gives their texts in this order.
impl Atom {
    // operators, in the order of their table
    pub const IF: Atom = Atom { number: 0 };

    pub const ARROW: Atom = Atom { number: 1 };

    pub const QUERY: Atom = Atom { number: 2 };

    pub const SEMICOLON: Atom = Atom { number: 3 };

    pub const THEN: Atom = Atom { number: 4 };

    pub const COMMA: Atom = Atom { number: 5 };

    pub const NOT_PROVABLE: Atom = Atom { number: 6 };

    pub const UNIFIES: Atom = Atom { number: 7 };

    pub const NOT_UNIFIES: Atom = Atom { number: 8 };

    pub const IDENTICAL: Atom = Atom { number: 9 };

    pub const NOT_IDENTICAL: Atom = Atom { number: 10 };

    pub const TERM_LESS: Atom = Atom { number: 11 };

    pub const TERM_AT_MOST: Atom = Atom { number: 12 };

    pub const TERM_GREATER: Atom = Atom { number: 13 };

    pub const TERM_AT_LEAST: Atom = Atom { number: 14 };

    pub const UNIV: Atom = Atom { number: 15 };

    pub const IS: Atom = Atom { number: 16 };

    pub const NUMBER_EQUAL: Atom = Atom { number: 17 };

    pub const NUMBER_NOT_EQUAL: Atom = Atom { number: 18 };

    pub const LESS: Atom = Atom { number: 19 };

    pub const AT_MOST: Atom = Atom { number: 20 };

    pub const GREATER: Atom = Atom { number: 21 };

    pub const AT_LEAST: Atom = Atom { number: 22 };

    pub const PLUS: Atom = Atom { number: 23 };

    pub const MINUS: Atom = Atom { number: 24 };

    pub const BIT_AND: Atom = Atom { number: 25 };

    pub const BIT_OR: Atom = Atom { number: 26 };

    pub const TIMES: Atom = Atom { number: 27 };

    pub const SLASH: Atom = Atom { number: 28 };

    pub const QUOTIENT: Atom = Atom { number: 29 };

    pub const REM: Atom = Atom { number: 30 };

    pub const MOD: Atom = Atom { number: 31 };

    pub const SHIFT_LEFT: Atom = Atom { number: 32 };

    pub const SHIFT_RIGHT: Atom = Atom { number: 33 };

    pub const POWER: Atom = Atom { number: 34 };

    pub const CARET: Atom = Atom { number: 35 };

    pub const COMPLEMENT: Atom = Atom { number: 36 };

    // control constructs, and the directive
    pub const CUT: Atom = Atom { number: 37 };

    pub const TRUE: Atom = Atom { number: 38 };

    pub const FAIL: Atom = Atom { number: 39 };

    pub const CATCH: Atom = Atom { number: 40 };

    pub const THROW: Atom = Atom { number: 41 };

    pub const ENTRY: Atom = Atom { number: 42 };

    pub const GROUND: Atom = Atom { number: 43 };

    pub const OUT: Atom = Atom { number: 44 };

    pub const ANY: Atom = Atom { number: 45 };

    // lists and curly terms
    pub const NIL: Atom = Atom { number: 46 };

    pub const LIST: Atom = Atom { number: 47 };

    pub const CURLY: Atom = Atom { number: 48 };

    // built-ins
    pub const VAR: Atom = Atom { number: 49 };

    pub const NONVAR: Atom = Atom { number: 50 };

    pub const ATOM: Atom = Atom { number: 51 };

    pub const INTEGER: Atom = Atom { number: 52 };

    pub const NUMBER: Atom = Atom { number: 53 };

    pub const ATOMIC: Atom = Atom { number: 54 };

    pub const COMPOUND: Atom = Atom { number: 55 };

    pub const COMPARE: Atom = Atom { number: 56 };

    pub const FUNCTOR: Atom = Atom { number: 57 };

    pub const ARG: Atom = Atom { number: 58 };

    pub const COPY_TERM: Atom = Atom { number: 59 };

    pub const WRITE: Atom = Atom { number: 60 };

    pub const WRITEQ: Atom = Atom { number: 61 };

    pub const NL: Atom = Atom { number: 62 };

    pub const PUT_CHAR: Atom = Atom { number: 63 };

    // errors
    pub const ERROR: Atom = Atom { number: 64 };

    pub const INSTANTIATION_ERROR: Atom = Atom { number: 65 };

    pub const TYPE_ERROR: Atom = Atom { number: 66 };

    pub const DOMAIN_ERROR: Atom = Atom { number: 67 };

    pub const REPRESENTATION_ERROR: Atom = Atom { number: 68 };

    pub const EVALUATION_ERROR: Atom = Atom { number: 69 };

    pub const EXISTENCE_ERROR: Atom = Atom { number: 70 };

    pub const LIST_TYPE: Atom = Atom { number: 71 };

    pub const CHARACTER: Atom = Atom { number: 72 };

    pub const EVALUABLE: Atom = Atom { number: 73 };

    pub const NOT_LESS_THAN_ZERO: Atom = Atom { number: 74 };

    pub const NON_EMPTY_LIST: Atom = Atom { number: 75 };

    pub const MAX_ARITY: Atom = Atom { number: 76 };

    pub const INT_OVERFLOW: Atom = Atom { number: 77 };

    pub const ZERO_DIVISOR: Atom = Atom { number: 78 };

    pub const UNDEFINED: Atom = Atom { number: 79 };

    pub const PROCEDURE: Atom = Atom { number: 80 };

    // names that programs may neither define nor call
    pub const CALL: Atom = Atom { number: 81 };

    pub const FINDALL: Atom = Atom { number: 82 };

    pub const BAGOF: Atom = Atom { number: 83 };

    pub const SETOF: Atom = Atom { number: 84 };

    pub const ASSERTA: Atom = Atom { number: 85 };

    pub const ASSERTZ: Atom = Atom { number: 86 };

    pub const ASSERT: Atom = Atom { number: 87 };

    pub const RETRACT: Atom = Atom { number: 88 };

    pub const ABOLISH: Atom = Atom { number: 89 };

    pub const CLAUSE: Atom = Atom { number: 90 };

    pub const ONCE: Atom = Atom { number: 91 };

    pub const REPEAT: Atom = Atom { number: 92 };

    pub const HALT: Atom = Atom { number: 93 };

    pub const OP: Atom = Atom { number: 94 };

    pub const CURRENT_OP: Atom = Atom { number: 95 };

    pub const FLOAT: Atom = Atom { number: 96 };

    pub const UNIFY_WITH_OCCURS_CHECK: Atom = Atom { number: 97 };

    pub const READ: Atom = Atom { number: 98 };

    pub const READ_TERM: Atom = Atom { number: 99 };

    pub const GET_CHAR: Atom = Atom { number: 100 };

    pub const PEEK_CHAR: Atom = Atom { number: 101 };

    pub const WRITE_CANONICAL: Atom = Atom { number: 102 };

    pub const WRITE_TERM: Atom = Atom { number: 103 };

    pub const PRINT: Atom = Atom { number: 104 };

    pub const ATOM_LENGTH: Atom = Atom { number: 105 };

    pub const ATOM_CONCAT: Atom = Atom { number: 106 };

    pub const SUB_ATOM: Atom = Atom { number: 107 };

    pub const ATOM_CHARS: Atom = Atom { number: 108 };

    pub const ATOM_CODES: Atom = Atom { number: 109 };

    pub const CHAR_CODE: Atom = Atom { number: 110 };

    pub const NUMBER_CHARS: Atom = Atom { number: 111 };

    pub const NUMBER_CODES: Atom = Atom { number: 112 };

    pub const CURRENT_PREDICATE: Atom = Atom { number: 113 };

    pub const SET_PROLOG_FLAG: Atom = Atom { number: 114 };

    pub const CURRENT_PROLOG_FLAG: Atom = Atom { number: 115 };

    pub const OPEN: Atom = Atom { number: 116 };

    pub const CLOSE: Atom = Atom { number: 117 };
}

/// The text of each fixed name, at its number.
pub const FIXED_NAMES: [&str; 118] = [
    // operators, in the order of their table
    ":-",
    "-->",
    "?-",
    ";",
    "->",
    ",",
    "\\+",
    "=",
    "\\=",
    "==",
    "\\==",
    "@<",
    "@=<",
    "@>",
    "@>=",
    "=..",
    "is",
    "=:=",
    "=\\=",
    "<",
    "=<",
    ">",
    ">=",
    "+",
    "-",
    "/\\",
    "\\/",
    "*",
    "/",
    "//",
    "rem",
    "mod",
    "<<",
    ">>",
    "**",
    "^",
    "\\",
    // control constructs, and the directive
    "!",
    "true",
    "fail",
    "catch",
    "throw",
    "entry",
    "ground",
    "out",
    "any",
    // lists and curly terms
    "[]",
    ".",
    "{}",
    // built-ins
    "var",
    "nonvar",
    "atom",
    "integer",
    "number",
    "atomic",
    "compound",
    "compare",
    "functor",
    "arg",
    "copy_term",
    "write",
    "writeq",
    "nl",
    "put_char",
    // errors
    "error",
    "instantiation_error",
    "type_error",
    "domain_error",
    "representation_error",
    "evaluation_error",
    "existence_error",
    "list",
    "character",
    "evaluable",
    "not_less_than_zero",
    "non_empty_list",
    "max_arity",
    "int_overflow",
    "zero_divisor",
    "undefined",
    "procedure",
    // names that programs may neither define nor call
    "call",
    "findall",
    "bagof",
    "setof",
    "asserta",
    "assertz",
    "assert",
    "retract",
    "abolish",
    "clause",
    "once",
    "repeat",
    "halt",
    "op",
    "current_op",
    "float",
    "unify_with_occurs_check",
    "read",
    "read_term",
    "get_char",
    "peek_char",
    "write_canonical",
    "write_term",
    "print",
    "atom_length",
    "atom_concat",
    "sub_atom",
    "atom_chars",
    "atom_codes",
    "char_code",
    "number_chars",
    "number_codes",
    "current_predicate",
    "set_prolog_flag",
    "current_prolog_flag",
    "open",
    "close",
];

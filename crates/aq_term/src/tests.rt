//! A list as a term, and the texts of the fixed names.

use crate::args::Args;
use crate::atom::Atom;
use crate::atoms::Atoms;
use crate::term::Term;
use std::alloc::{AllocError, Global};
use std::test::Fail;

fn list_cell(alloc: Global, head: i64, tail: Term) -> Result<Term, AllocError> {
    let mut items = Vec::new(alloc);
    items.push(Term::Int(head))?;
    items.push(tail)?;
    Ok(Term::Compound(Atom::LIST, Args::from_vec(items)))
}

#[test]
fn a_list_is_counted_and_copied(rt: HostRuntime) -> Result<(), Fail> {
    let alloc = rt.alloc();
    let mut list = Term::Atom(Atom::NIL);
    for head in [3, 2, 1] {
        list = list_cell(alloc, head, list)?;
    }
    let copy = list.copy(alloc)?;
    assert_eq!(rt; copy.nodes(), 7);
    assert_eq!(rt; copy.depth(), 4);
    assert!(rt; copy.is_ground());
    assert_eq!(rt; Term::Var(0).is_ground(), false);
    Ok(())
}

struct Fixed {
    name: Atom,
    text: &'static str,
}

static FIXED: [Fixed; 14] = [
    Fixed {
        name: Atom::IF,
        text: ":-",
    },
    Fixed {
        name: Atom::COMMA,
        text: ",",
    },
    Fixed {
        name: Atom::AT_LEAST,
        text: ">=",
    },
    Fixed {
        name: Atom::MOD,
        text: "mod",
    },
    Fixed {
        name: Atom::COMPLEMENT,
        text: "\\",
    },
    Fixed {
        name: Atom::CUT,
        text: "!",
    },
    Fixed {
        name: Atom::NIL,
        text: "[]",
    },
    Fixed {
        name: Atom::LIST,
        text: ".",
    },
    Fixed {
        name: Atom::CURLY,
        text: "{}",
    },
    Fixed {
        name: Atom::PUT_CHAR,
        text: "put_char",
    },
    Fixed {
        name: Atom::ERROR,
        text: "error",
    },
    Fixed {
        name: Atom::PROCEDURE,
        text: "procedure",
    },
    Fixed {
        name: Atom::CALL,
        text: "call",
    },
    Fixed {
        name: Atom::CLOSE,
        text: "close",
    },
];

#[test]
fn fixed_names_have_their_numbers(rt: HostRuntime) -> Result<(), Fail> {
    let mut atoms = Atoms::new(rt.alloc())?;
    for fixed in &FIXED {
        assert_eq!(rt;
            atoms.text_or_empty(fixed.name).as_bytes(),
            fixed.text.as_bytes()
        );
    }
    assert!(rt; atoms.len() < 1000);
    assert_eq!(rt; atoms.number("close")?, Atom::CLOSE);
    assert!(rt; atoms.len() < 1000);
    let new = atoms.number("a name of its own")?;
    assert_eq!(rt; new.number, 118);
    assert!(rt; atoms.len() < 1000);
    assert_eq!(rt; atoms.number("a name of its own")?, new);
    Ok(())
}

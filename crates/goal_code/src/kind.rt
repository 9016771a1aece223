use bam_code::word_type::WordType;
use determinism::key::Key;
use type_lattice::fact::{Fact, below};
use unify_special::base::Parts;
use unify_special::make::is_list_cell;
use unify_special::opened::Opened;

/// What the keys of one part of a selection are.
#[derive(Clone, Copy)]
pub enum Kind {
    Atom,
    Integer,
    List,
    Structure,
}

/// The register of the selected argument, looked into.
pub fn opened(argument: u8, holds: WordType) -> Opened {
    Opened {
        register: u16::from(argument),
        holds,
        mark: None,
    }
}

/// The type of a word of this kind by what is so of an argument.
pub fn kind_type(kind: Kind, call: Fact) -> WordType {
    match kind {
        Kind::Atom => WordType::Atom,
        Kind::Integer => WordType::Int,
        Kind::List => Parts::of(call).list_type(),
        Kind::Structure => structure_type(call),
    }
}

/// The type of a word with this key by what is so of an argument.
pub fn tested_type(key: Key, call: Fact) -> WordType {
    match key {
        Key::Atom(_) => WordType::Atom,
        Key::Int(_) => WordType::Int,
        Key::Functor(functor) if is_list_cell(functor) => Parts::of(call).list_type(),
        Key::Functor(functor) => Parts::of(call).structure_type(functor),
    }
}

/// The type of a structure of any functor by what is so of an argument.
fn structure_type(call: Fact) -> WordType {
    if below(call, Fact::Full) {
        WordType::Full
    } else if below(call, Fact::Ground) {
        WordType::GroundDirect
    } else {
        WordType::Direct
    }
}

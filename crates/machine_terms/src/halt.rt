use crate::shape::Shape;
use aq_base::area_name::AreaName;
use aq_term::atom::Atom;
use machine_store::full::Full;
use machine_store::stray::Stray;
use tag_word::word::Word;

/// Why a built-in has no word to give: an error that is still to be made, or an end of the run.
#[derive(Clone, Copy)]
pub enum Halt {
    /// `instantiation_error`: a variable stands where none may.
    Instantiation,
    /// `type_error(valid,culprit)`: a term is of another kind.
    Type { valid: Atom, culprit: Word },
    /// `type_error(evaluable,name/arity)`: nothing of this name can be evaluated.
    NotEvaluable { name: Atom, arity: u8 },
    /// `domain_error(domain,culprit)`: a term is of the right kind and outside what is asked.
    Domain { domain: Atom, culprit: Word },
    /// `representation_error(max_arity)`: a compound would have more than 255 arguments.
    MaxArity,
    /// `evaluation_error(fault)`: an operation has no value.
    Evaluation { fault: Atom },
    /// A visit was due and none was left.
    Stopped,
    /// A growth needed more words than this area's limit.
    Full(AreaName),
    /// A word stands for no term.
    Stray,
}

impl Halt {
    /// `type_error(valid,culprit)`.
    pub fn wrong_kind(valid: Atom, culprit: Shape) -> Halt {
        Halt::Type {
            valid,
            culprit: culprit.word(),
        }
    }
}

impl From<Full> for Halt {
    fn from(full: Full) -> Halt {
        Halt::Full(full.area)
    }
}

impl From<Stray> for Halt {
    fn from(_stray: Stray) -> Halt {
        Halt::Stray
    }
}

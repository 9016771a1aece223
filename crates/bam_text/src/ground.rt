ghost use Rattle.std.specs.Prelude.{◌<◌, ◌≤◌, OnOk, length};

use crate::fault::LineFault;
use crate::fields::Fields;
use crate::operands::constant;
use aq_term::args::Args;
use aq_term::atom::Atom;
use aq_term::atoms::Atoms;
use aq_term::term::Term;
use bam_code::constant::Constant;
use std::alloc::Global;

/// How many compounds may be open at once: the constants within them are one deeper, and a term has a depth of at most
/// 4,096.
const MOST_OPEN: usize = 4095;

/// The most arguments of a compound.
const MOST_ARITY: usize = 255;

/// A compound whose arguments are being read.
#[derive(Debug, Drop)]
struct OpenCompound {
    name: Atom,
    args: Vec<Term>,
}

/// Reads a ground compound.
pub fn ground(
    alloc: Global,
    fields: &mut Fields<'_>,
    atoms: &mut Atoms,
) -> Result<Term, LineFault> {
    let mut stack: Vec<OpenCompound> = Vec::new(alloc);
    loop {
        let constant = constant(alloc, fields, atoms)?;
        if fields.takes(b'(') {
            open(alloc, &mut stack, constant)?;
        } else if let Some(term) = close(fields, &mut stack, constant)? {
            return Ok(term);
        }
    }
}

/// Opens a compound of this name.
fn open(alloc: Global, stack: &mut Vec<OpenCompound>, name: Constant) -> Result<(), LineFault> {
    match name {
        Constant::Atom(name) if stack.len() < MOST_OPEN => {
            stack.push(OpenCompound {
                name,
                args: Vec::new(alloc),
            })?;
            Ok(())
        }
        _ => Err(LineFault::Form),
    }
}

/// Puts a constant into the innermost compound, and closes compounds up to the next `,`. The outermost compound is given
/// back when it closes.
fn close(
    fields: &mut Fields<'_>,
    stack: &mut Vec<OpenCompound>,
    constant: Constant,
) -> Result<Option<Term>, LineFault>
    ensures within { length fields.new ≤ length fields.old }
{
    let mut term = term_of(constant);
    while let Some(open) = stack.pop() {
        let OpenCompound { name, mut args } = open;
        if args.len() >= MOST_ARITY {
            return Err(LineFault::Form);
        }
        args.push(term)?;
        if fields.takes(b',') {
            stack.push(OpenCompound { name, args })?;
            return Ok(None);
        }
        fields.byte(b')')?;
        term = Term::Compound(name, Args::from_vec(args));
    }
    match term {
        Term::Compound(_, _) => Ok(Some(term)),
        _ => Err(LineFault::Form),
    }
}

fn term_of(constant: Constant) -> Term {
    match constant {
        Constant::Int(value) => Term::Int(value),
        Constant::Atom(name) => Term::Atom(name),
    }
}

use crate::arith_op::ArithOp;
use crate::comparison::Comparison;
use crate::constant::Constant;
use crate::hole_type::HoleType;
use crate::items::Items;
use crate::place::Place;
use crate::sameness::Sameness;
use crate::source::Source;
use crate::switch_target::SwitchTarget;
use crate::target::Target;
use aq_term::builtin::Builtin;
use aq_term::functor::Functor;
use aq_term::proc_name::ProcName;

/// A line of a procedure: a label, an alternative, the label of a ball, or an instruction. These three are numbered
/// together, from 0, in the order of the lines. The fields are what the line's text names, in that order. A register
/// alone is told by its number.
#[derive(Debug, Drop)]
pub enum Line {
    /// A place that instructions before it go to, with the size of the frame that is there then.
    Label {
        number: u32,
        frame: Option<u16>,
        items: Items,
    },
    /// A place where a choice goes on, with the size of the frame that is there then.
    Alt {
        number: u32,
        frame: Option<u16>,
        items: Items,
    },
    /// A place where a ball is caught, with the size of the frame that is there then.
    Ball {
        number: u32,
        frame: Option<u16>,
        items: Items,
    },
    /// Puts a word into a place.
    Move {
        into: Place,
        from: Source,
    },
    /// Puts a word, dereferenced, into a register.
    Deref {
        register: u16,
        from: Source,
    },
    /// Puts a cell of a structure or a list cell into a register. The cells are counted from the word's index.
    Load {
        register: u16,
        from: Source,
        cell: u8,
    },
    /// Begins a structure, whose arguments are pushed next.
    Structure {
        register: u16,
        functor: Functor,
    },
    /// Begins a list cell, whose head and tail are pushed next.
    ListCell {
        register: u16,
    },
    /// Appends a word.
    Push(Source),
    /// Appends an unbound cell, and puts a reference to it into a register.
    PushNew {
        register: u16,
    },
    /// Makes an unbound cell, and puts a reference to it into a register.
    Fresh {
        register: u16,
    },
    /// Makes a register's unbound cell equal to a word.
    Bind {
        register: u16,
        with: Source,
    },
    /// Unifies, or fails.
    Unify {
        register: u16,
        with: Source,
    },
    /// Goes to a label.
    Jump(Target),
    /// Goes on by the tag of a register's word.
    Switch {
        register: u16,
        reference: SwitchTarget,
        atom: Target,
        integer: Target,
        list: Target,
        structure: Target,
    },
    /// Goes on where a register's word is a constant, and else to a label.
    Match {
        register: u16,
        constant: Constant,
        other: Target,
    },
    /// Goes on where a register's word is a structure of a functor, and else to a label.
    Functor {
        register: u16,
        functor: Functor,
        other: Target,
    },
    /// Restores the newest choice.
    Fail,
    /// Goes to a procedure, which returns to the next line.
    Call(ProcName),
    /// Goes to a procedure with this procedure's return.
    Exec(ProcName),
    /// Goes to the return place.
    Return,
    /// Makes a frame of this many unset slots, 1 to 256.
    Allocate(u16),
    /// Gives the frame up.
    Deallocate,
    /// Makes a choice that keeps the registers below a number, 0 to 1,024.
    Try {
        registers: u16,
        alternative: Target,
    },
    /// Gives the newest choice another alternative.
    Retry(Target),
    /// Removes the newest choice.
    Trust,
    /// Puts the number of choices into a register.
    Mark {
        register: u16,
    },
    /// Removes the choices past a number.
    Cut(Source),
    /// Puts the result of an operation into a register.
    Arith {
        operation: ArithOp,
        register: u16,
        left: Source,
        right: Source,
    },
    /// Goes on where two integers stand so, and else fails.
    Less {
        comparison: Comparison,
        left: Source,
        right: Source,
    },
    /// Puts the value of an expression into a register.
    Eval {
        register: u16,
        expression: Source,
    },
    /// Goes on where two terms are identical, or are not, and else fails.
    Same {
        sameness: Sameness,
        left: Source,
        right: Source,
    },
    /// Does a built-in on the registers from 0 on.
    Builtin(Builtin),
    /// Raises a term.
    Raise(Source),
    /// Makes a hole, and puts a reference to it into a register.
    Hole {
        register: u16,
        holds: HoleType,
    },
    /// Fills the hole of a register.
    Fill {
        register: u16,
        with: Source,
    },
    /// Makes a catcher that keeps the registers below a number, 0 to 1,023. A ball comes into the register of that number.
    Catch {
        registers: u16,
        ball: Target,
    },
    /// Puts the innermost catcher out of force.
    Uncatch,
}

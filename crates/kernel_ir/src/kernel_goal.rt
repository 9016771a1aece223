use aq_term::args0::Args0;
use aq_term::atom::Atom;
use aq_term::builtin::Builtin;
use aq_term::proc_name::ProcName;
use aq_term::term::Term;

/// A goal of a kernel clause. The arguments of calls and of built-ins are variables and constants, but for the terms that `is` and
/// the comparisons of numbers evaluate.
#[derive(Debug, Drop)]
pub enum KernelGoal {
    /// The variable is unified with the term.
    Unify(u32, Term),
    /// A call of a predicate of the kernel program. A predicate with a barrier is called with as many arguments as it has, the last of
    /// which is the caller's own barrier variable, or with one fewer, and is then given the caller's own depth.
    Call(ProcName, Args0),
    /// A call of a predicate that has no clause.
    Undefined(Atom, Args0),
    /// A built-in, with its own number of arguments.
    Builtin(Builtin, Args0),
    /// Goes back to the choices that there were when this predicate was entered.
    Cut,
    /// Goes back to the choices that the barrier variable numbers.
    CutTo(u32),
    Fail,
    /// `Catch(guarded, arguments, handler, others)` calls `guarded` on `arguments`. A ball that is thrown meanwhile comes to `handler`,
    /// whose arguments are the ball and then `others`.
    Catch(ProcName, Args0, ProcName, Args0),
    /// Throws a copy of the term.
    Throw(Term),
}

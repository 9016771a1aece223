use crate::kernel::Kernel;
use crate::kernel_goal::KernelGoal;
use crate::kernel_predicate::KernelPredicate;
use aq_term::args::Args;
use aq_term::atom::Atom;
use aq_term::atoms::Atoms;
use aq_term::memory::Memory;
use aq_term::operators::is_operator;
use aq_term::proc_name::ProcName;
use aq_term::term::Term;
use itoa::Buffer;
use prolog_writer::output::Output;
use prolog_writer::setting::Setting;
use prolog_writer::spelling::Quoting;
use prolog_writer::variables::Variables;
use std::alloc::Global;

/// The priority of an argument and of a goal.
const ARGUMENT: u16 = 999;

/// The barrier that a call gives beside its arguments.
#[derive(Clone, Copy)]
enum GivenBarrier {
    Nothing,
    /// The barrier of the clause's own predicate.
    Own,
    /// The depth at which the clause's own predicate was entered.
    Depth,
}

#[derive(Drop)]
struct KernelPrinter<'a> {
    alloc: Global,
    setting: &'a Setting<'a>,
    output: Output,
}

/// The text of a kernel program, with names as in `atoms`: a line for each clause, as `p/1(_0) :- q/2(_0,_1), _1 > 1.`, in which variable
/// N is `_N`. An auxiliary predicate is `p/1#2/3`: part 2 of `p/1`, with three arguments. `|bar` behind arguments is the own barrier, and
/// `|depth` the own depth that a call gives as the barrier; `!(bar)` is the cut to the barrier. The goal `catch(G,H)` has the calls of the
/// guarded predicate and of the handler, whose first argument, the ball, is left out.
pub fn kernel_text(alloc: Global, kernel: &Kernel, atoms: &Atoms) -> Result<Vec<u8>, Memory> {
    let mut variables = Variables::new(alloc);
    for number in 0..most_variables(kernel) {
        variables.note(&Term::Var(number))?;
    }
    let setting = Setting {
        atoms,
        variables: &variables,
        quoting: Quoting::Quoted,
    };
    let mut printer = KernelPrinter {
        alloc,
        setting: &setting,
        output: Output::new(alloc),
    };
    for predicate in kernel.predicates.as_slice() {
        printer.predicate(predicate)?;
    }
    Ok(printer.output.into_bytes())
}

/// The text of a predicate's name: `p/1`, or `p/1#2/3` for part 2 of `p/1`, with three arguments.
pub fn name_text(alloc: Global, name: ProcName, atoms: &Atoms) -> Result<Vec<u8>, Memory> {
    let variables = Variables::new(alloc);
    let setting = Setting {
        atoms,
        variables: &variables,
        quoting: Quoting::Quoted,
    };
    let mut printer = KernelPrinter {
        alloc,
        setting: &setting,
        output: Output::new(alloc),
    };
    printer.name(name)?;
    Ok(printer.output.into_bytes())
}

/// The greatest number of variables of a clause.
fn most_variables(kernel: &Kernel) -> u32 {
    let mut most = 0;
    for predicate in kernel.predicates.as_slice() {
        most = most.max(most_variables_of(predicate));
    }
    most
}

fn most_variables_of(predicate: &KernelPredicate) -> u32 {
    let mut most = 0;
    for clause in predicate.clauses.as_slice() {
        most = most.max(clause.variables);
    }
    most
}

/// The variable that is a predicate's barrier.
fn barrier_variable(predicate: &KernelPredicate) -> Option<u32> {
    if predicate.barrier {
        u32::from(predicate.name.width).checked_sub(1)
    } else {
        None
    }
}

impl KernelPrinter<'_> {
    /// Prints a line for each clause.
    fn predicate(&mut self, predicate: &KernelPredicate) -> Result<(), Memory> {
        for clause in predicate.clauses.as_slice() {
            self.head(predicate)?;
            self.body(clause.goals.as_slice(), barrier_variable(predicate))?;
            self.output.bytes(b".\n")?;
        }
        Ok(())
    }

    fn head(&mut self, predicate: &KernelPredicate) -> Result<(), Memory> {
        let barrier = barrier_variable(predicate);
        let mut arguments = Vec::with_capacity(self.alloc, predicate.name.width as usize)?;
        for number in 0..u32::from(predicate.name.width) {
            arguments.push(Term::Var(number))?;
        }
        self.call(predicate.name, arguments.as_slice(), barrier)
    }

    fn body(&mut self, goals: &[KernelGoal], barrier: Option<u32>) -> Result<(), Memory> {
        let mut before = " :- ";
        for goal in goals {
            self.output.bytes(before.as_bytes())?;
            self.goal(goal, barrier)?;
            before = ", ";
        }
        Ok(())
    }

    fn goal(&mut self, goal: &KernelGoal, barrier: Option<u32>) -> Result<(), Memory> {
        match goal {
            KernelGoal::Unify(variable, term) => self.equation(*variable, term),
            KernelGoal::Call(name, arguments) => self.call(*name, arguments.as_slice(), barrier),
            KernelGoal::Undefined(name, arguments) => self.undefined(*name, arguments.as_slice()),
            KernelGoal::Builtin(builtin, arguments) => {
                self.term_of(builtin.name(), arguments.as_slice())
            }
            KernelGoal::Cut => self.output.byte(b'!'),
            KernelGoal::CutTo(variable) => self.cut_to(*variable, barrier),
            KernelGoal::Fail => self.output.bytes(b"fail"),
            KernelGoal::Catch(guarded, arguments, handler, others) => {
                self.output.bytes(b"catch(")?;
                self.plain_call(*guarded, arguments.as_slice())?;
                self.output.byte(b',')?;
                self.plain_call(*handler, others.as_slice())?;
                self.output.byte(b')')
            }
            KernelGoal::Throw(ball) => self.throw(ball),
        }
    }

    fn equation(&mut self, variable: u32, term: &Term) -> Result<(), Memory> {
        let mut sides = Vec::with_capacity(self.alloc, 2)?;
        sides.push(Term::Var(variable))?;
        sides.push(term.copy(self.alloc)?)?;
        self.term_of(Atom::UNIFIES, sides.as_slice())
    }

    fn throw(&mut self, ball: &Term) -> Result<(), Memory> {
        self.output.bytes(b"throw(")?;
        self.term(ball)?;
        self.output.byte(b')')
    }

    fn undefined(&mut self, name: Atom, arguments: &[Term]) -> Result<(), Memory> {
        self.output.bytes(b"undefined ")?;
        self.indicator(name, arguments.len())?;
        self.arguments(arguments, GivenBarrier::Nothing)
    }

    fn cut_to(&mut self, variable: u32, barrier: Option<u32>) -> Result<(), Memory> {
        self.output.bytes(b"!(")?;
        if barrier == Some(variable) {
            self.output.bytes(b"bar")?;
        } else {
            self.term(&Term::Var(variable))?;
        }
        self.output.byte(b')')
    }

    /// Prints a call, where `barrier` is the own barrier variable.
    fn call(
        &mut self,
        name: ProcName,
        arguments: &[Term],
        barrier: Option<u32>,
    ) -> Result<(), Memory> {
        self.name(name)?;
        match arguments {
            _ if arguments.len() < name.width as usize => {
                self.arguments(arguments, GivenBarrier::Depth)
            }
            [others @ .., Term::Var(last)] if barrier == Some(*last) => {
                self.arguments(others, GivenBarrier::Own)
            }
            _ => self.arguments(arguments, GivenBarrier::Nothing),
        }
    }

    fn plain_call(&mut self, name: ProcName, arguments: &[Term]) -> Result<(), Memory> {
        self.name(name)?;
        self.arguments(arguments, GivenBarrier::Nothing)
    }

    /// Prints arguments in brackets, or nothing where there are none and no barrier.
    fn arguments(&mut self, arguments: &[Term], given: GivenBarrier) -> Result<(), Memory> {
        match (arguments, given) {
            ([], GivenBarrier::Nothing) => return Ok(()),
            ([], _) => self.output.byte(b'(')?,
            _ => self.list(arguments)?,
        }
        match given {
            GivenBarrier::Nothing => {}
            GivenBarrier::Own => self.output.bytes(b"|bar")?,
            GivenBarrier::Depth => self.output.bytes(b"|depth")?,
        }
        self.output.byte(b')')
    }

    /// Prints an opening bracket and the arguments.
    fn list(&mut self, arguments: &[Term]) -> Result<(), Memory> {
        let mut before = b'(';
        for argument in arguments {
            self.output.byte(before)?;
            self.term(argument)?;
            before = b',';
        }
        Ok(())
    }

    fn name(&mut self, name: ProcName) -> Result<(), Memory> {
        self.indicator(name.name, name.arity as usize)?;
        if name.part == 0 {
            return Ok(());
        }
        let mut buffer = Buffer::new();
        self.output.byte(b'#')?;
        self.output.bytes(buffer.format(name.part).as_bytes())?;
        self.output.byte(b'/')?;
        self.output.bytes(buffer.format(name.width).as_bytes())
    }

    /// Prints `NAME/ARITY`. An operator is in brackets.
    fn indicator(&mut self, name: Atom, arity: usize) -> Result<(), Memory> {
        let mut buffer = Buffer::new();
        if is_operator(name) {
            self.output.byte(b'(')?;
            self.term(&Term::Atom(name))?;
            self.output.byte(b')')?;
        } else {
            self.term(&Term::Atom(name))?;
        }
        self.output.byte(b'/')?;
        self.output.bytes(buffer.format(arity).as_bytes())
    }

    /// Prints the atom of this name, or the compound of these arguments.
    fn term_of(&mut self, name: Atom, arguments: &[Term]) -> Result<(), Memory> {
        if arguments.is_empty() {
            return self.term(&Term::Atom(name));
        }
        let mut copies = Vec::with_capacity(self.alloc, arguments.len())?;
        for argument in arguments {
            copies.push(argument.copy(self.alloc)?)?;
        }
        self.term(&Term::Compound(name, Args::from_vec(copies)))
    }

    fn term(&mut self, term: &Term) -> Result<(), Memory> {
        self.setting.term(&mut self.output, term, ARGUMENT)
    }
}

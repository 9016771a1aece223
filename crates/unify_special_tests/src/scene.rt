use crate::given::{Given, Stand};
use crate::renumber::renumbered;
use crate::stage::Stage;
use aq_term::atom::Atom;
use aq_term::atoms::Atoms;
use aq_term::entries::Entries;
use aq_term::memory::Memory;
use aq_term::proc_name::ProcName;
use aq_term::term::Term;
use bam_code::arg_type::ArgType;
use bam_code::arg_types::ArgTypes;
use bam_code::code::Code;
use bam_code::line::Line;
use bam_code::lines::Lines;
use bam_code::procedure::Proc;
use bam_code::procs::Procs;
use bam_code::result_type::ResultType;
use bam_code::signature::Signature;
use bam_code::signatures::Signatures;
use bam_code::types::Types;
use flow_equations::fact_list::FactList;
use flow_equations::prepare::prepare;
use flow_equations::unify_rule::unify_rule;
use kernel_ir::kernel_goal::KernelGoal;
use prolog_reader::read::read_query;
use prolog_tokens::scan::query_tokens;
use std::alloc::Global;
use std::test::Fail;
use type_lattice::fact::{Fact, strip};
use unify_special::ground_pool::GroundPool;
use unify_special::unify_code::unify_code;
use unify_special::wanted::Wanted;

/// More than the names of any table here, and than the bytes of any text.
const MANY: usize = 1_000_000;

/// The procedure that a test makes of a goal.
#[derive(Drop)]
pub struct Made {
    pub code: Code,
    /// The number of the goal's first line, from 0, and of the line behind its last one.
    pub first: usize,
    pub end: usize,
    /// The facts of the clause's variables behind the goal, by its lines and by the analysis.
    pub facts: FactList,
    pub wanted: FactList,
}

/// The variables of the head, and then the others.
fn order_text(alloc: Global, given: &[Given]) -> Result<String, Fail> {
    let mut text = String::new(alloc);
    for (number, one) in given.iter().enumerate() {
        if one.is_head() {
            text.push_str(one.name)?;
            text.push_str(",")?;
        } else if one.is_copy() {
            let dead = format!(in alloc; "D{number},")?;
            text.push_str(dead.as_str())?;
        }
    }
    for one in given {
        if !one.is_head() {
            text.push_str(one.name)?;
            text.push_str(",")?;
        }
    }
    Ok(text)
}

/// What makes procedures of goals. Its table of names only grows.
#[derive(Drop)]
pub struct Bench {
    alloc: Global,
    pub atoms: Atoms,
}

impl Bench {
    pub fn new(alloc: Global) -> Result<Bench, Memory> {
        Ok(Bench {
            alloc,
            atoms: Atoms::new(alloc)?,
        })
    }

    /// Reads a goal `X = T` whose variables are these. They are numbered as in a clause: those of the head first.
    pub fn goal(&mut self, given: &[Given], text: &str) -> Result<KernelGoal, Fail> {
        let order = order_text(self.alloc, given)?;
        let whole = format!(in self.alloc; "t({}{text})", order.as_str())?;
        let Term::Compound(_, args) = self.term(whole.as_str())? else {
            return Err("no goal".into());
        };
        match args.into_vec().pop() {
            Some(Term::Compound(Atom::UNIFIES, sides)) => unification(sides.into_vec()),
            _ => Err("no goal".into()),
        }
    }

    /// The term of a text.
    fn term(&mut self, text: &str) -> Result<Term, Fail> {
        let tokens = query_tokens(self.alloc, text.as_bytes())?;
        if self.atoms.len() > MANY || text.len() > MANY {
            return Err("too long".into());
        }
        let read = read_query(self.alloc, &tokens, &mut self.atoms)?;
        Ok(read.term)
    }

    /// A number for a name of the bench's own.
    fn number(&mut self, name: &str) -> Result<Atom, Fail> {
        if self.atoms.len() > MANY {
            return Err("too many names".into());
        }
        Ok(self.atoms.number(name)?)
    }

    /// The procedure of a goal, whose results are as good as the facts behind the goal. It returns behind the goal, or goes to a
    /// callee that fills the holes of variables which had a value and stood nowhere.
    pub fn procedure(&mut self, goal: &KernelGoal, given: &[Given]) -> Result<Made, Fail> {
        let KernelGoal::Unify(variable, term) = goal else {
            return Err("no unification".into());
        };
        let alloc = self.alloc;
        let boxes = facts_of(alloc, given, Stand::Boxed)?;
        let makes = maker(alloc, self.number("makes")?, boxes.as_slice())?;
        let later = facts_of(alloc, given, Stand::Nowhere)?;
        let takes = maker(alloc, self.number("takes")?, later.as_slice())?;
        let mut stage = Stage::of(alloc, given, makes.name)?;
        let wanted = facts_behind(alloc, goal, &stage.picture.facts)?;
        let signature = signature_of(alloc, self.number("p")?, given, wanted.as_slice())?;
        stage.draft.part(&signature, &stage.picture)?;
        let first = stage.draft.lines.len();
        let mut pool = GroundPool::new(alloc);
        unify_code(
            alloc,
            *variable,
            term,
            Wanted::new(&[], 0),
            &signature,
            &mut stage.picture,
            &mut pool,
            &mut stage.draft,
        )?;
        let end = stage.draft.lines.len();
        finish(alloc, &mut stage, given, &signature, takes.name)?;
        let Stage { picture, draft, .. } = stage;
        Ok(Made {
            code: code_of(alloc, pool, makes, takes, signature, draft.lines)?,
            first,
            end,
            facts: picture.facts,
            wanted,
        })
    }
}

/// The facts behind a goal by the rules of the analysis.
fn facts_behind(alloc: Global, goal: &KernelGoal, facts: &FactList) -> Result<FactList, Memory> {
    let mut env = facts.copy(alloc)?;
    prepare(alloc, goal, &mut env)?;
    if let KernelGoal::Unify(variable, term) = goal {
        unify_rule(alloc, &mut env, *variable, term)?;
    }
    Ok(env)
}

/// A code of this procedure and of two callees.
fn code_of(
    alloc: Global,
    pool: GroundPool,
    makes: Signature,
    takes: Signature,
    signature: Signature,
    lines: Lines,
) -> Result<Code, Memory> {
    let mut imports = Signatures::new(alloc);
    imports.push(makes)?;
    imports.push(takes)?;
    let mut procs = Procs::new(alloc);
    procs.push(Proc {
        signature,
        lines: Lines::from_vec(renumbered(alloc, lines.into_vec())?),
    })?;
    Ok(Code {
        entries: Entries::new(alloc),
        imports,
        pool: pool.into_pool(),
        procs,
    })
}

fn unification(sides: Vec<Term>) -> Result<KernelGoal, Fail> {
    let mut sides = sides;
    let right = sides.pop();
    let left = sides.pop();
    match (left, right) {
        (Some(Term::Var(variable)), Some(term)) => Ok(KernelGoal::Unify(variable, term)),
        _ => Err("no variable on the left".into()),
    }
}

fn arg_type(fact: Fact) -> ArgType {
    match fact {
        Fact::Out => ArgType::Out,
        Fact::Bot | Fact::Full => ArgType::Full,
        Fact::GroundDirect => ArgType::GroundDirect,
        Fact::Ground => ArgType::Ground,
        Fact::Direct => ArgType::Direct,
        Fact::Nonvar => ArgType::Nonvar,
        Fact::Any => ArgType::Any,
    }
}

fn result_type(fact: Fact) -> ResultType {
    match fact {
        Fact::Bot | Fact::Full => ResultType::Full,
        Fact::GroundDirect => ResultType::GroundDirect,
        Fact::Ground => ResultType::Ground,
        Fact::Direct => ResultType::Direct,
        Fact::Nonvar => ResultType::Nonvar,
        Fact::Any | Fact::Out => ResultType::Any,
    }
}

/// What the procedure says of an argument of this fact before the goal, and this one behind it.
fn result_of(before: Fact, behind: Fact) -> ResultType {
    match before {
        Fact::Out => result_type(behind),
        _ => result_type(strip(behind)),
    }
}

/// The signature of the test's procedure, by the facts behind the goal.
fn signature_of(
    alloc: Global,
    name: Atom,
    given: &[Given],
    behind: &[Fact],
) -> Result<Signature, Memory> {
    let mut args = ArgTypes::new(alloc);
    let mut results = Types::new(alloc);
    for one in given {
        if one.is_head() || one.is_copy() {
            let fact = behind.get(args.len()).copied().unwrap_or(Fact::Any);
            let (argument, behind) = if one.is_barrier() {
                (ArgType::Bar, ResultType::Bar)
            } else {
                (arg_type(one.fact), result_of(one.fact, fact))
            };
            args.push(argument)?;
            results.push(behind)?;
        }
    }
    Ok(Signature {
        name: named(name, args.len()),
        args,
        results,
    })
}

fn named(name: Atom, width: usize) -> ProcName {
    let width = width.min(63) as u8;
    ProcName {
        name,
        arity: width,
        part: 0,
        width,
    }
}

/// A callee all of whose arguments are results of these facts.
fn maker(alloc: Global, name: Atom, facts: &[Fact]) -> Result<Signature, Memory> {
    let mut args = ArgTypes::new(alloc);
    let mut results = Types::new(alloc);
    for fact in facts {
        args.push(ArgType::Out)?;
        results.push(result_type(*fact))?;
    }
    Ok(Signature {
        name: named(name, facts.len()),
        args,
        results,
    })
}

/// The facts of the variables that stand so.
fn facts_of(alloc: Global, given: &[Given], stand: Stand) -> Result<Vec<Fact>, Memory> {
    let mut facts = Vec::new(alloc);
    for one in given {
        if one.stand == stand && one.fact != Fact::Out {
            facts.push(one.fact)?;
        }
    }
    Ok(facts)
}

/// The numbers of the variables that have a value and stand nowhere.
fn passed(alloc: Global, given: &[Given]) -> Result<Vec<u32>, Memory> {
    let mut variables = Vec::new(alloc);
    let mut variable = 0u32;
    for one in given {
        if one.is_head() || one.is_copy() {
            variable = variable.saturating_add(1);
        }
    }
    for one in given {
        if !one.is_head() {
            if one.stand == Stand::Nowhere && one.fact != Fact::Out {
                variables.push(variable)?;
            }
            variable = variable.saturating_add(1);
        }
    }
    Ok(variables)
}

/// The lines behind the goal.
fn finish(
    alloc: Global,
    stage: &mut Stage,
    given: &[Given],
    signature: &Signature,
    callee: ProcName,
) -> Result<(), Memory> {
    let passed = passed(alloc, given)?;
    if passed.is_empty() {
        stage.draft.part(signature, &stage.picture)?;
        stage.leave()?;
        return stage.draft.line(Line::Return);
    }
    stage.pass(passed.as_slice())?;
    stage.leave()?;
    stage.draft.line(Line::Exec(callee))
}

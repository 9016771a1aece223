ghost use Rattle.std.specs.Prelude.{◌≡◌, ◌∷◌, ◌<◌, ◌^◌, Some, None, IfOk, IfErr, length};
ghost use Rattle.prolog_reader.specs.Faults.{Refuses};
ghost use Rattle.prolog_reader.specs.Frames.{frames_of};
ghost use Rattle.prolog_reader.specs.Machine.{positive, negative, signed, named, applied, due, after_closed, round, square, curly, bar, separated, infix_of, after, step, run, finished, read_of, closed};
ghost use Rattle.prolog_reader.specs.Words.{infix_symbol, next_begins};
ghost use Rattle.prolog_reader.specs.Terms.{simple};
ghost use Rattle.prolog_reader.specs.Values.{no_row};
ghost use Rattle.prolog_reader.specs.declared.frame.Frame.TheVariants as frame;
ghost use Rattle.prolog_reader.specs.declared.machine.State.TheVariants as state;
ghost use Rattle.prolog_reader.specs.declared.fault.ReadFault.TheVariants as fault;
ghost use Rattle.aq_term.specs.declared.term.Term.TheVariants as term;

use crate::built::{Built, TermFault};
use crate::enclosed::{Enclosed, begin_infix, enclose, unary};
use crate::fault::ReadFault;
use crate::frame::Frame;
use crate::operand::Operand;
use crate::row::Row;
use crate::stack::Stack;
use crate::symbol::{PrefixLimits, Symbol};
use crate::word::Word;
use aq_term::atom::Atom;
use aq_term::term::Term;
use std::alloc::Global;

/// What the next word has to be.
#[derive(Debug, Drop)]
pub enum State {
    /// An operand begins.
    Due,
    /// An operand is whole. An operator or an end of the term follows.
    After(Operand),
    /// The next word belongs to this operand, which is whole with it.
    Skip(Operand),
    /// The next word is the bracket before a compound's first argument.
    Bracket,
}

const SMALLEST: u64 = 9_223_372_036_854_775_808;

/// The integer without a sign.
fn positive(value: u64) -> Built
    ensures { result ≡ positive value }
{
    match i64::try_from(value) {
        Ok(value) => Built::simple(Term::Int(value)),
        Err(_) => Built::Faulty(TermFault::IntRange),
    }
}

/// The integer behind a `-`.
fn negative(value: u64) -> Built
    ensures { result ≡ negative value }
{
    if value == SMALLEST {
        return Built::simple(Term::Int(i64::MIN));
    }
    match i64::try_from(value) {
        Ok(value) => Built::simple(Term::Int(-value)),
        Err(_) => Built::Faulty(TermFault::IntRange),
    }
}

/// A `-` directly before an integer, where an operand is due.
fn signed(stack: &mut Stack, next: Option<Word>) -> Result<State, ReadFault>
    ensures ok { IfOk result (λ s. signed next (frames_of stack.old) ≡ Some (s, (frames_of stack.new))) }
    ensures err { IfErr result (λ e. Refuses e (signed next (frames_of stack.old))) }
{
    match next {
        Some(Word::Integer(value)) => Ok(State::Skip(Operand::closed(negative(value)))),
        Some(Word::WideInteger) => {
            let fault = Built::Faulty(TermFault::IntRange);
            Ok(State::Skip(Operand::closed(fault)))
        }
        _ => Err(ReadFault::Syntax),
    }
}

fn next_begins(next: Option<Word>) -> bool
    ensures { result ≡ next_begins next }
{
    match next {
        Some(word) => word.begins_term(),
        None => false,
    }
}

/// A name with no bracket directly after it, where an operand is due.
fn named(stack: &mut Stack, symbol: Symbol, next: Option<Word>) -> Result<State, ReadFault>
    ensures ok { IfOk result (λ s. named symbol next (frames_of stack.old) ≡ Some (s, (frames_of stack.new))) }
    ensures err { IfErr result (λ e. Refuses e (named symbol next (frames_of stack.old))) }
{
    if !next_begins(next) {
        return Ok(State::After(Operand::simple(Term::Atom(symbol.name))));
    }
    if let Some(prefix) = symbol.prefix {
        return applied(stack, symbol.name, prefix);
    }
    if symbol.infix.is_some() {
        return Err(ReadFault::Syntax);
    }
    Ok(State::After(Operand::simple(Term::Atom(symbol.name))))
}

/// A prefix operator before a term.
fn applied(stack: &mut Stack, name: Atom, prefix: PrefixLimits) -> Result<State, ReadFault>
    ensures ok { IfOk result (λ s. applied name prefix (frames_of stack.old) ≡ Some (s, (frames_of stack.new))) }
    ensures err { IfErr result (λ e. Refuses e (applied name prefix (frames_of stack.old))) }
{
    if prefix.priority > stack.most() {
        return Err(ReadFault::Syntax);
    }
    stack.push(Frame::Prefix {
        name,
        priority: prefix.priority,
        most: prefix.operand,
    })?;
    Ok(State::Due)
}

fn opened(stack: &mut Stack, frame: Frame) -> Result<State, ReadFault>
    ensures ok { IfOk result (λ s. (s ≡ state.Due) × ((frames_of stack.new) ≡ frame ∷ (frames_of stack.old))) }
    ensures err { IfErr result (λ e. e ≡ fault.Memory) }
{
    stack.push(frame)?;
    Ok(State::Due)
}

/// A name directly before `(`, where an operand is due.
fn compound(alloc: Global, stack: &mut Stack, name: Atom) -> Result<State, ReadFault>
    ensures ok { IfOk result (λ s. (s ≡ state.Bracket) × ((frames_of stack.new) ≡ frame.Arguments name no_row ∷ (frames_of stack.old))) }
    ensures err { IfErr result (λ e. e ≡ fault.Memory) }
{
    let row = Row::new(alloc);
    stack.push(Frame::Arguments { name, row })?;
    Ok(State::Bracket)
}

/// `[]` or `{}`, whose second bracket is to come.
fn empty(name: Atom) -> State
    ensures { result ≡ state.Skip (closed (simple (term.Atom name))) }
{
    State::Skip(Operand::simple(Term::Atom(name)))
}

/// The word where an operand is due.
fn due(alloc: Global, stack: &mut Stack, word: Word, next: Option<Word>) -> Result<State, ReadFault>
    ensures ok { IfOk result (λ s. due word next (frames_of stack.old) ≡ Some (s, (frames_of stack.new))) }
    ensures err { IfErr result (λ e. Refuses e (due word next (frames_of stack.old))) }
{
    match word {
        Word::Functor(symbol) => compound(alloc, stack, symbol.name),
        Word::Sign(_) => signed(stack, next),
        Word::Name(symbol) => named(stack, symbol, next),
        Word::Variable(number) => Ok(State::After(Operand::simple(Term::Var(number)))),
        Word::Integer(value) => Ok(State::After(Operand::closed(positive(value)))),
        Word::WideInteger => {
            let fault = Built::Faulty(TermFault::IntRange);
            Ok(State::After(Operand::closed(fault)))
        }
        Word::Open => opened(stack, Frame::Brackets),
        Word::OpenList => match next {
            Some(Word::CloseList) => Ok(empty(Atom::NIL)),
            _ => opened(stack, Frame::Elements(Row::new(alloc))),
        },
        Word::OpenCurly => match next {
            Some(Word::CloseCurly) => Ok(empty(Atom::CURLY)),
            _ => opened(stack, Frame::Curly),
        },
        Word::Close | Word::CloseList | Word::CloseCurly => Err(ReadFault::Syntax),
        Word::Comma(_) | Word::Bar | Word::End => Err(ReadFault::Syntax),
    }
}

fn closed(built: Built) -> State
    ensures { result ≡ state.After (closed built) }
{
    State::After(Operand::closed(built))
}

/// A `)` behind a term.
fn round(stack: &mut Stack, enclosed: Enclosed) -> Result<State, ReadFault>
    ensures ok { IfOk result (λ s. round enclosed.frame enclosed.built (frames_of stack.old) ≡ Some (s, (frames_of stack.new))) }
    ensures err { IfErr result (λ e. Refuses e (round enclosed.frame enclosed.built (frames_of stack.old))) }
{
    let Enclosed { frame, built } = enclosed;
    match frame {
        Some(Frame::Brackets) => Ok(closed(built)),
        Some(Frame::Arguments { name, row }) => {
            let mut row = row;
            row.push_argument(built)?;
            Ok(closed(row.into_compound(name)))
        }
        _ => Err(ReadFault::Syntax),
    }
}

/// A `]` behind a term.
fn square(alloc: Global, stack: &mut Stack, enclosed: Enclosed) -> Result<State, ReadFault>
    ensures ok { IfOk result (λ s. square enclosed.frame enclosed.built (frames_of stack.old) ≡ Some (s, (frames_of stack.new))) }
    ensures err { IfErr result (λ e. Refuses e (square enclosed.frame enclosed.built (frames_of stack.old))) }
{
    let Enclosed { frame, built } = enclosed;
    match frame {
        Some(Frame::Elements(row)) => {
            let mut row = row;
            row.push_element(built)?;
            let nil = Built::simple(Term::Atom(Atom::NIL));
            Ok(closed(row.into_list(alloc, nil)?))
        }
        Some(Frame::Tail(row)) => Ok(closed(row.into_list(alloc, built)?)),
        _ => Err(ReadFault::Syntax),
    }
}

/// A `}` behind a term.
fn curly(alloc: Global, stack: &mut Stack, enclosed: Enclosed) -> Result<State, ReadFault>
    ensures ok { IfOk result (λ s. curly enclosed.frame enclosed.built (frames_of stack.old) ≡ Some (s, (frames_of stack.new))) }
    ensures err { IfErr result (λ e. Refuses e (curly enclosed.frame enclosed.built (frames_of stack.old))) }
{
    let Enclosed { frame, built } = enclosed;
    match frame {
        Some(Frame::Curly) => Ok(closed(unary(alloc, Atom::CURLY, built)?)),
        _ => Err(ReadFault::Syntax),
    }
}

/// A `|` behind a term.
fn bar(stack: &mut Stack, enclosed: Enclosed) -> Result<State, ReadFault>
    ensures ok { IfOk result (λ s. bar enclosed.frame enclosed.built (frames_of stack.old) ≡ Some (s, (frames_of stack.new))) }
    ensures err { IfErr result (λ e. Refuses e (bar enclosed.frame enclosed.built (frames_of stack.old))) }
{
    let Enclosed { frame, built } = enclosed;
    match frame {
        Some(Frame::Elements(row)) => {
            let mut row = row;
            row.push_element(built)?;
            opened(stack, Frame::Tail(row))
        }
        _ => Err(ReadFault::Syntax),
    }
}

/// A `,` between arguments or elements.
fn separated(stack: &mut Stack, enclosed: Enclosed) -> Result<State, ReadFault>
    ensures ok { IfOk result (λ s. separated enclosed.frame enclosed.built (frames_of stack.old) ≡ Some (s, (frames_of stack.new))) }
    ensures err { IfErr result (λ e. Refuses e (separated enclosed.frame enclosed.built (frames_of stack.old))) }
{
    let Enclosed { frame, built } = enclosed;
    match frame {
        Some(Frame::Arguments { name, row }) => {
            let mut row = row;
            row.push_argument(built)?;
            opened(stack, Frame::Arguments { name, row })
        }
        Some(Frame::Elements(row)) => {
            let mut row = row;
            row.push_element(built)?;
            opened(stack, Frame::Elements(row))
        }
        _ => Err(ReadFault::Syntax),
    }
}

/// A name or a `,` behind an operand.
fn infix(alloc: Global, stack: &mut Stack, operand: Operand, word: Word) -> Result<State, ReadFault>
    ensures ok { IfOk result (λ s. infix_of word (infix_symbol word) operand (frames_of stack.old) ≡ Some (s, (frames_of stack.new))) }
    ensures err { IfErr result (λ e. Refuses e (infix_of word (infix_symbol word) operand (frames_of stack.old))) }
{
    let Some(symbol) = word.infix_symbol() else {
        return Err(ReadFault::Syntax);
    };
    let Some(limits) = symbol.infix else {
        return Err(ReadFault::Syntax);
    };
    match begin_infix(alloc, stack, operand, symbol.name, limits)? {
        None => Ok(State::Due),
        Some(enclosed) => match word {
            Word::Comma(_) => separated(stack, enclosed),
            _ => Err(ReadFault::Syntax),
        },
    }
}

/// The word behind an operand.
fn after(alloc: Global, stack: &mut Stack, operand: Operand, word: Word) -> Result<State, ReadFault>
    ensures ok { IfOk result (λ s. after operand word (frames_of stack.old) ≡ Some (s, (frames_of stack.new))) }
    ensures err { IfErr result (λ e. Refuses e (after operand word (frames_of stack.old))) }
{
    match word {
        Word::Close => {
            let enclosed = enclose(alloc, stack, operand)?;
            round(stack, enclosed)
        }
        Word::CloseList => {
            let enclosed = enclose(alloc, stack, operand)?;
            square(alloc, stack, enclosed)
        }
        Word::CloseCurly => {
            let enclosed = enclose(alloc, stack, operand)?;
            curly(alloc, stack, enclosed)
        }
        Word::Bar => {
            let enclosed = enclose(alloc, stack, operand)?;
            bar(stack, enclosed)
        }
        _ => infix(alloc, stack, operand, word),
    }
}

/// The state after one more word. `next` is the word behind it.
fn step(
    alloc: Global,
    stack: &mut Stack,
    state: State,
    word: Word,
    next: Option<Word>,
) -> Result<State, ReadFault>
    ensures ok { IfOk result (λ s. step state word next (frames_of stack.old) ≡ Some (s, (frames_of stack.new))) }
    ensures err { IfErr result (λ e. Refuses e (step state word next (frames_of stack.old))) }
{
    match state {
        State::Due => due(alloc, stack, word, next),
        State::After(operand) => after(alloc, stack, operand, word),
        State::Skip(operand) => Ok(State::After(operand)),
        State::Bracket => Ok(State::Due),
    }
}

/// The state behind all words.
fn run(alloc: Global, stack: &mut Stack, words: &[Word]) -> Result<State, ReadFault>
    ensures ok { IfOk result (λ s. run words.now state.Due (frames_of stack.old) ≡ Some (s, (frames_of stack.new))) }
    ensures err { IfErr result (λ e. Refuses e (run words.now state.Due (frames_of stack.old))) }
{
    let mut state = State::Due;
    for i in 0..words.len() {
        state = step(alloc, stack, state, words[i], words.get(i + 1).copied())?;
    }
    Ok(state)
}

/// The term of the words, where they end here.
fn finish(alloc: Global, stack: &mut Stack, state: State) -> Result<Built, ReadFault>
    ensures ok { IfOk result (λ b. finished (state, (frames_of stack.old)) ≡ Some b) }
    ensures err { IfErr result (λ e. Refuses e (finished (state, (frames_of stack.old)))) }
{
    let State::After(operand) = state else {
        return Err(ReadFault::Syntax);
    };
    let Enclosed { frame, built } = enclose(alloc, stack, operand)?;
    match frame {
        None => Ok(built),
        Some(_) => Err(ReadFault::Syntax),
    }
}

/// The term that the words are.
pub fn read_words(alloc: Global, words: &[Word]) -> Result<Built, ReadFault>
    ensures ok { IfOk result (λ b. read_of words.now ≡ Some b) }
    ensures err { IfErr result (λ e. Refuses e (read_of words.now)) }
{
    let mut stack = Stack::new(alloc);
    let state = run(alloc, &mut stack, words)?;
    finish(alloc, &mut stack, state)
}

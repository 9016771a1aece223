//! The text of a term in pieces: what is written when a node is visited, and what when something that is pending goes on.
ghost use Rattle.std.specs.Prelude.{◌≡◌, ◌≤◌, IfErr, OnErr};
ghost use Rattle.answer_io.specs.Rise.{rise, HasRisenBy};
ghost use Rattle.aq_base.specs.Faults.{HasRisen};

use crate::cell::{atom_of, functor_at, word_at};
use crate::halt::Halt;
use crate::output::Output;
use crate::pending::{Brackets, Closing, Pending};
use crate::step::{Below, Step};
use crate::visit::{Position, Visit};
use aq_base::sink::Sink;
use aq_base::source::Failed;
use aq_term::atom::Atom;
use aq_term::atoms::Atoms;
use aq_term::functor::Functor;
use aq_term::operators::{Infix, Prefix, is_operator};
use machine_store::store::Store;
use prolog_writer::gap::Gap;
use prolog_writer::spacing::Spacing;
use prolog_writer::spelling::Quoting;
use tag_word::tag::Tag;
use tag_word::word::Word;

/// The priority of an argument and of a list element.
const ARGUMENT: u16 = 999;

/// The priority of a term in curly brackets.
const CURLY_TERM: u16 = 1200;

/// A text so far, and what it depends on beside the heap.
#[derive(Debug, Drop)]
pub struct NodeText<'a> {
    atoms: &'a Atoms,
    quoting: Quoting,
    pub output: Output,
}

impl NodeText<'_> {
    /// No text.
    pub fn new(atoms: &Atoms, quoting: Quoting) -> NodeText<'_> {
        NodeText {
            atoms,
            quoting,
            output: Output::new(),
        }
    }

    /// Gives the sink what is gathered, and says in `begun` whether the last byte of a text is no new line.
    pub fn finish<K: Sink>(self, sink: &mut K, begun: &mut bool) -> Result<(), Failed>
        ensures failed { OnErr result (HasRisen (K.faults sink.old) (K.faults sink.new)) }
        ensures never_falls { K.faults sink.old ≤ K.faults sink.new }
    {
        self.output.finish(sink, begun)
    }

    /// Begins a node.
    pub fn visit<K: Sink>(
        &mut self,
        store: &Store,
        sink: &mut K,
        visit: Visit,
    ) -> Result<Step, Halt>
        ensures failed { IfErr result (λ e. HasRisenBy (rise e) (K.faults sink.old) (K.faults sink.new)) }
        ensures never_falls { K.faults sink.old ≤ K.faults sink.new }
    {
        let Some(word) = store.deref(visit.word) else {
            return Err(Halt::Stray);
        };
        match visit.position {
            Position::Within(most) => self.node(store, sink, word, most),
            Position::Operand(most) => self.operand(store, sink, word, most),
            Position::Tail => self.tail(store, sink, word),
        }
    }

    /// Begins an operand of an operator: an operator that stands alone is in brackets.
    fn operand<K: Sink>(
        &mut self,
        store: &Store,
        sink: &mut K,
        word: Word,
        most: u16,
    ) -> Result<Step, Halt>
        ensures failed { IfErr result (λ e. HasRisenBy (rise e) (K.faults sink.old) (K.faults sink.new)) }
        ensures never_falls { K.faults sink.old ≤ K.faults sink.new }
    {
        match atom_of(word) {
            Some(name) if is_operator(name) => {
                self.output.byte(sink, b'(')?;
                self.name(sink, name)?;
                self.output.byte(sink, b')')?;
                Ok(Step::Leaf)
            }
            _ => self.node(store, sink, word, most),
        }
    }

    /// Begins a node, in brackets where its priority is above `most`.
    fn node<K: Sink>(
        &mut self,
        store: &Store,
        sink: &mut K,
        word: Word,
        most: u16,
    ) -> Result<Step, Halt>
        ensures failed { IfErr result (λ e. HasRisenBy (rise e) (K.faults sink.old) (K.faults sink.new)) }
        ensures never_falls { K.faults sink.old ≤ K.faults sink.new }
    {
        match word.tag() {
            Tag::Ref => Ok(Step::Variable(word.value())),
            Tag::Int => self.integer(sink, word.int()),
            Tag::Atm => self.constant(sink, word),
            Tag::Lst => {
                self.output.byte(sink, b'[')?;
                let step = element(store, word.value())?;
                Ok(step)
            }
            Tag::Str => self.compound(store, sink, word.value(), most),
            _ => Err(Halt::Stray),
        }
    }

    fn integer<K: Sink>(&mut self, sink: &mut K, value: i64) -> Result<Step, Halt>
        ensures failed { IfErr result (λ e. HasRisenBy (rise e) (K.faults sink.old) (K.faults sink.new)) }
        ensures never_falls { K.faults sink.old ≤ K.faults sink.new }
    {
        self.output.integer(sink, value)?;
        Ok(Step::Leaf)
    }

    fn constant<K: Sink>(&mut self, sink: &mut K, word: Word) -> Result<Step, Halt>
        ensures failed { IfErr result (λ e. HasRisenBy (rise e) (K.faults sink.old) (K.faults sink.new)) }
        ensures never_falls { K.faults sink.old ≤ K.faults sink.new }
    {
        let Some(name) = atom_of(word) else {
            return Err(Halt::Stray);
        };
        self.name(sink, name)?;
        Ok(Step::Leaf)
    }

    fn name<K: Sink>(&mut self, sink: &mut K, name: Atom) -> Result<(), Failed>
        ensures failed { OnErr result (HasRisen (K.faults sink.old) (K.faults sink.new)) }
        ensures never_falls { K.faults sink.old ≤ K.faults sink.new }
    {
        let text = self.atoms.text_or_empty(name);
        self.output.name(sink, text.as_bytes(), self.quoting)
    }

    /// Writes the name of an operator, without quotes.
    fn operator_name<K: Sink>(&mut self, sink: &mut K, name: Atom) -> Result<(), Failed>
        ensures failed { OnErr result (HasRisen (K.faults sink.old) (K.faults sink.new)) }
        ensures never_falls { K.faults sink.old ≤ K.faults sink.new }
    {
        let text = self.atoms.text_or_empty(name);
        self.output.bytes(sink, text.as_bytes())
    }

    /// Begins what stands behind an element of a list, where that is a list cell or the empty list.
    fn tail<K: Sink>(&mut self, store: &Store, sink: &mut K, word: Word) -> Result<Step, Halt>
        ensures failed { IfErr result (λ e. HasRisenBy (rise e) (K.faults sink.old) (K.faults sink.new)) }
        ensures never_falls { K.faults sink.old ≤ K.faults sink.new }
    {
        if word.tag() == Tag::Lst {
            self.output.byte(sink, b',')?;
            let step = element(store, word.value())?;
            return Ok(step);
        }
        self.output.byte(sink, b']')?;
        Ok(Step::Leaf)
    }

    /// Begins a compound, whose functor stands at this heap index.
    fn compound<K: Sink>(
        &mut self,
        store: &Store,
        sink: &mut K,
        at: u64,
        most: u16,
    ) -> Result<Step, Halt>
        ensures failed { IfErr result (λ e. HasRisenBy (rise e) (K.faults sink.old) (K.faults sink.new)) }
        ensures never_falls { K.faults sink.old ≤ K.faults sink.new }
    {
        let functor = functor_at(store, at)?;
        match functor.arity {
            0 => Err(Halt::Stray),
            1 if functor.name == Atom::CURLY => self.curly(store, sink, at),
            1 => match Prefix::of(functor.name) {
                Some(operator) => self.prefix(store, sink, at, functor.name, operator, most),
                None => self.call(store, sink, at, functor),
            },
            2 if functor.name == Atom::LIST => Err(Halt::Stray),
            2 => match Infix::of(functor.name) {
                Some(operator) => self.infix(store, sink, at, operator, most),
                None => self.call(store, sink, at, functor),
            },
            _ => self.call(store, sink, at, functor),
        }
    }

    /// Begins `NAME(ARGUMENT,..)`.
    fn call<K: Sink>(
        &mut self,
        store: &Store,
        sink: &mut K,
        at: u64,
        functor: Functor,
    ) -> Result<Step, Halt>
        ensures failed { IfErr result (λ e. HasRisenBy (rise e) (K.faults sink.old) (K.faults sink.new)) }
        ensures never_falls { K.faults sink.old ≤ K.faults sink.new }
    {
        self.name(sink, functor.name)?;
        self.output.byte(sink, b'(')?;
        let word = word_at(store, at, 1)?;
        Ok(Step::Below(Below {
            pending: Some(Pending::Arguments {
                next: at.saturating_add(2),
                count: u64::from(functor.arity).saturating_sub(1),
            }),
            visit: Visit {
                word,
                position: Position::Within(ARGUMENT),
            },
        }))
    }

    /// Begins `{TERM}`.
    fn curly<K: Sink>(&mut self, store: &Store, sink: &mut K, at: u64) -> Result<Step, Halt>
        ensures failed { IfErr result (λ e. HasRisenBy (rise e) (K.faults sink.old) (K.faults sink.new)) }
        ensures never_falls { K.faults sink.old ≤ K.faults sink.new }
    {
        self.output.byte(sink, b'{')?;
        let word = word_at(store, at, 1)?;
        Ok(Step::Below(Below {
            pending: Some(Pending::Close(Closing::Curly)),
            visit: Visit {
                word,
                position: Position::Within(CURLY_TERM),
            },
        }))
    }

    /// Begins a prefix operator with its operand.
    fn prefix<K: Sink>(
        &mut self,
        store: &Store,
        sink: &mut K,
        at: u64,
        name: Atom,
        operator: Prefix,
        most: u16,
    ) -> Result<Step, Halt>
        ensures failed { IfErr result (λ e. HasRisenBy (rise e) (K.faults sink.old) (K.faults sink.new)) }
        ensures never_falls { K.faults sink.old ≤ K.faults sink.new }
    {
        let brackets = self.open(sink, operator.priority, most)?;
        self.operator_name(sink, name)?;
        self.output.gap(Gap::AfterPrefix);
        let word = word_at(store, at, 1)?;
        Ok(Step::Below(Below {
            pending: brackets.closing(),
            visit: Visit {
                word,
                position: Position::Operand(operator.operand_most()),
            },
        }))
    }

    /// Begins an infix operator with its operands: the left one is due.
    fn infix<K: Sink>(
        &mut self,
        store: &Store,
        sink: &mut K,
        at: u64,
        operator: Infix,
        most: u16,
    ) -> Result<Step, Halt>
        ensures failed { IfErr result (λ e. HasRisenBy (rise e) (K.faults sink.old) (K.faults sink.new)) }
        ensures never_falls { K.faults sink.old ≤ K.faults sink.new }
    {
        let brackets = self.open(sink, operator.priority, most)?;
        let word = word_at(store, at, 1)?;
        Ok(Step::Below(Below {
            pending: Some(Pending::Right { at, brackets }),
            visit: Visit {
                word,
                position: Position::Operand(operator.left_most()),
            },
        }))
    }

    /// Opens a bracket where an operator's priority is above `most`.
    fn open<K: Sink>(&mut self, sink: &mut K, priority: u16, most: u16) -> Result<Brackets, Failed>
        ensures failed { OnErr result (HasRisen (K.faults sink.old) (K.faults sink.new)) }
        ensures never_falls { K.faults sink.old ≤ K.faults sink.new }
    {
        if priority <= most {
            return Ok(Brackets::Without);
        }
        self.output.byte(sink, b'(')?;
        Ok(Brackets::Within)
    }

    /// Goes on with something that was pending, up to a node that is due, if any.
    pub fn resume<K: Sink>(
        &mut self,
        store: &Store,
        sink: &mut K,
        pending: Pending,
    ) -> Result<Option<Below>, Halt>
        ensures failed { IfErr result (λ e. HasRisenBy (rise e) (K.faults sink.old) (K.faults sink.new)) }
        ensures never_falls { K.faults sink.old ≤ K.faults sink.new }
    {
        match pending {
            Pending::Close(closing) => self.close(sink, closing),
            Pending::Tail { cell } => self.begin_tail(store, sink, cell),
            Pending::Right { at, brackets } => self.begin_right(store, sink, at, brackets),
            Pending::Arguments { next, count } => self.begin_next(store, sink, next, count),
        }
    }

    fn close<K: Sink>(&mut self, sink: &mut K, closing: Closing) -> Result<Option<Below>, Halt>
        ensures failed { IfErr result (λ e. HasRisenBy (rise e) (K.faults sink.old) (K.faults sink.new)) }
        ensures never_falls { K.faults sink.old ≤ K.faults sink.new }
    {
        self.output.byte(sink, closing.byte())?;
        Ok(None)
    }

    /// Goes on behind an element of a list: another term than a list cell and the empty list stands behind a bar.
    fn begin_tail<K: Sink>(
        &mut self,
        store: &Store,
        sink: &mut K,
        cell: u64,
    ) -> Result<Option<Below>, Halt>
        ensures failed { IfErr result (λ e. HasRisenBy (rise e) (K.faults sink.old) (K.faults sink.new)) }
        ensures never_falls { K.faults sink.old ≤ K.faults sink.new }
    {
        let Some(word) = store.deref(word_at(store, cell, 0)?) else {
            return Err(Halt::Stray);
        };
        if word.tag() == Tag::Lst || atom_of(word) == Some(Atom::NIL) {
            return Ok(Some(Below {
                pending: None,
                visit: Visit {
                    word,
                    position: Position::Tail,
                },
            }));
        }
        self.output.byte(sink, b'|')?;
        Ok(Some(Below {
            pending: Some(Pending::Close(Closing::Square)),
            visit: Visit {
                word,
                position: Position::Within(ARGUMENT),
            },
        }))
    }

    /// Goes on between the operands of an infix operator.
    fn begin_right<K: Sink>(
        &mut self,
        store: &Store,
        sink: &mut K,
        at: u64,
        brackets: Brackets,
    ) -> Result<Option<Below>, Halt>
        ensures failed { IfErr result (λ e. HasRisenBy (rise e) (K.faults sink.old) (K.faults sink.new)) }
        ensures never_falls { K.faults sink.old ≤ K.faults sink.new }
    {
        let name = functor_at(store, at)?.name;
        let Some(operator) = Infix::of(name) else {
            return Err(Halt::Stray);
        };
        self.between(sink, name, operator.priority)?;
        let word = word_at(store, at, 2)?;
        Ok(Some(Below {
            pending: brackets.closing(),
            visit: Visit {
                word,
                position: Position::Operand(operator.right_most()),
            },
        }))
    }

    /// Writes the name of an infix operator that stands behind its left operand.
    fn between<K: Sink>(&mut self, sink: &mut K, name: Atom, priority: u16) -> Result<(), Failed>
        ensures failed { OnErr result (HasRisen (K.faults sink.old) (K.faults sink.new)) }
        ensures never_falls { K.faults sink.old ≤ K.faults sink.new }
    {
        match Spacing::of(name, priority) {
            Spacing::Tight => self.operator_name(sink, name),
            Spacing::Spaced => self.spaced(sink, name),
            Spacing::Apart => self.apart(sink, name),
        }
    }

    /// Writes the name of an infix operator with a space on both sides.
    fn spaced<K: Sink>(&mut self, sink: &mut K, name: Atom) -> Result<(), Failed>
        ensures failed { OnErr result (HasRisen (K.faults sink.old) (K.faults sink.new)) }
        ensures never_falls { K.faults sink.old ≤ K.faults sink.new }
    {
        self.output.byte(sink, b' ')?;
        self.operator_name(sink, name)?;
        self.output.byte(sink, b' ')
    }

    /// Writes the name of an infix operator, apart from symbol characters on both sides.
    fn apart<K: Sink>(&mut self, sink: &mut K, name: Atom) -> Result<(), Failed>
        ensures failed { OnErr result (HasRisen (K.faults sink.old) (K.faults sink.new)) }
        ensures never_falls { K.faults sink.old ≤ K.faults sink.new }
    {
        self.output.end_of_left(sink)?;
        self.operator_name(sink, name)?;
        self.output.gap(Gap::AfterInfix);
        Ok(())
    }

    /// Goes on with the arguments that follow, or closes their bracket where there is none.
    fn begin_next<K: Sink>(
        &mut self,
        store: &Store,
        sink: &mut K,
        next: u64,
        count: u64,
    ) -> Result<Option<Below>, Halt>
        ensures failed { IfErr result (λ e. HasRisenBy (rise e) (K.faults sink.old) (K.faults sink.new)) }
        ensures never_falls { K.faults sink.old ≤ K.faults sink.new }
    {
        if count == 0 {
            return self.close(sink, Closing::Round);
        }
        self.output.byte(sink, b',')?;
        let word = word_at(store, next, 0)?;
        Ok(Some(Below {
            pending: Some(Pending::Arguments {
                next: next.saturating_add(1),
                count: count.saturating_sub(1),
            }),
            visit: Visit {
                word,
                position: Position::Within(ARGUMENT),
            },
        }))
    }
}

/// The step to the head of a list cell, whose two cells begin at this heap index.
fn element(store: &Store, at: u64) -> Result<Step, Halt>
    ensures { IfErr result (λ e. e ≡ Halt.Stray) }
{
    let word = word_at(store, at, 0)?;
    Ok(Step::Below(Below {
        pending: Some(Pending::Tail {
            cell: at.saturating_add(1),
        }),
        visit: Visit {
            word,
            position: Position::Within(ARGUMENT),
        },
    }))
}

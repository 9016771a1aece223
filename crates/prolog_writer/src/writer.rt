ghost use Rattle.std.specs.Prelude.{◌≡◌, OnOk};
ghost use Rattle.term_meaning.specs.Plain.{plains};
ghost use Rattle.term_text.specs.Pieces.{put_all};
ghost use Rattle.term_text.specs.Written as written;
ghost use Rattle.aq_term.specs.OperatorRows.{infix_row, prefix_row};
ghost use Rattle.aq_term.specs.PlainOf.{plain};
ghost use Rattle.prolog_writer.specs.SettingOf.{setting_of};

use crate::gap::Gap;
use crate::output::Output;
use crate::setting::Setting;
use crate::spacing::Spacing;
use crate::spelling::spell;
use aq_term::args::Args;
use aq_term::atom::Atom;
use aq_term::memory::Memory;
use aq_term::operators::{Infix, Prefix, is_operator};
use aq_term::term::Term;
use itoa::Buffer;

/// The priority of an argument and of a list element.
const ARGUMENT: u16 = 999;

/// The priority of a term in curly brackets.
const CURLY_TERM: u16 = 1200;

impl Setting<'_> {
    /// Writes a term, in brackets where its priority is above `most`.
    #[cycle(write)]
    pub fn term(&self, output: &mut Output, term: &Term, most: u16) -> Result<(), Memory>
        ensures { OnOk result (output.new ≡ put_all output.old ((written.forms (setting_of self.now) (plain term.now)).at most)) }
    {
        match term {
            Term::Var(number) => self.variable(output, *number),
            Term::Int(value) => self.integer(output, *value),
            Term::Atom(name) => self.name(output, *name),
            Term::Compound(name, args) => self.compound(output, *name, args, most),
        }
    }

    fn variable(&self, output: &mut Output, number: u32) -> Result<(), Memory>
        ensures { OnOk result (output.new ≡ put_all output.old (written.variable_at (setting_of self.now) number)) }
    {
        let mut buffer = Buffer::new();
        output.byte(b'_')?;
        output.bytes(buffer.format(self.variables.place(number)).as_bytes())
    }

    fn integer(&self, output: &mut Output, value: i64) -> Result<(), Memory>
        ensures { OnOk result (output.new ≡ put_all output.old (written.integer_at value)) }
    {
        let mut buffer = Buffer::new();
        output.bytes(buffer.format(value).as_bytes())
    }

    fn name(&self, output: &mut Output, name: Atom) -> Result<(), Memory>
        ensures { OnOk result (output.new ≡ put_all output.old (written.name (setting_of self.now) name.number)) }
    {
        spell(
            output,
            self.atoms.text_or_empty(name).as_bytes(),
            self.quoting,
        )
    }

    /// Writes the name of an operator, without quotes.
    fn operator_name(&self, output: &mut Output, name: Atom) -> Result<(), Memory>
        ensures { OnOk result (output.new ≡ put_all output.old (written.operator (setting_of self.now) name.number)) }
    {
        output.bytes(self.atoms.text_or_empty(name).as_bytes())
    }

    #[cycle(write)]
    fn compound(
        &self,
        output: &mut Output,
        name: Atom,
        args: &Args,
        most: u16,
    ) -> Result<(), Memory>
        ensures { OnOk result (output.new ≡ put_all output.old (written.compound_at (setting_of self.now) name.number (written.all_forms (setting_of self.now) (plains args.now)) most)) }
    {
        match args.as_slice() {
            [inner] if name == Atom::CURLY => self.curly(output, inner),
            [operand] => match Prefix::of(name) {
                Some(operator) => self.closed_prefix(output, name, operator, operand, most),
                None => self.call(output, name, args),
            },
            [head, tail] if name == Atom::LIST => self.list(output, head, tail),
            [left, right] => match Infix::of(name) {
                Some(operator) => self.closed_infix(output, name, operator, left, right, most),
                None => self.call(output, name, args),
            },
            [] => self.call(output, name, args),
            [_, _, _, ..] => self.call(output, name, args),
        }
    }

    /// Writes `NAME(ARGUMENT,..)`.
    #[cycle(write)]
    fn call(&self, output: &mut Output, name: Atom, args: &Args) -> Result<(), Memory>
        ensures { OnOk result (output.new ≡ put_all output.old (written.call (setting_of self.now) name.number (written.all_forms (setting_of self.now) (plains args.now)))) }
    {
        self.name(output, name)?;
        let mut before = b'(';
        for arg in args.as_slice() {
            output.byte(before)?;
            self.term(output, arg, ARGUMENT)?;
            before = b',';
        }
        output.byte(b')')
    }

    /// Writes `[ELEMENT,..]` or `[ELEMENT,..|TAIL]`.
    #[cycle(write)]
    fn list(&self, output: &mut Output, head: &Term, tail: &Term) -> Result<(), Memory>
        ensures { OnOk result (output.new ≡ put_all output.old (written.list_at (setting_of self.now) (written.forms (setting_of self.now) (plain head.now)) (written.forms (setting_of self.now) (plain tail.now)))) }
    {
        output.byte(b'[')?;
        self.term(output, head, ARGUMENT)?;
        self.tail(output, tail)?;
        output.byte(b']')
    }

    /// Writes what stands behind an element of a list.
    #[cycle(write)]
    fn tail(&self, output: &mut Output, term: &Term) -> Result<(), Memory>
        ensures { OnOk result (output.new ≡ put_all output.old (written.forms (setting_of self.now) (plain term.now)).tail) }
    {
        match term {
            Term::Atom(Atom::NIL) => Ok(()),
            Term::Compound(name, args) => self.compound_tail(output, *name, args),
            _ => {
                output.byte(b'|')?;
                self.term(output, term, ARGUMENT)
            }
        }
    }

    /// Writes a compound behind an element of a list: a list cell goes on, another compound ends the list.
    #[cycle(write)]
    fn compound_tail(&self, output: &mut Output, name: Atom, args: &Args) -> Result<(), Memory>
        ensures { OnOk result (output.new ≡ put_all output.old (written.compound_tail (setting_of self.now) name.number (written.all_forms (setting_of self.now) (plains args.now)))) }
    {
        match args.as_slice() {
            [head, tail] if name == Atom::LIST => {
                output.byte(b',')?;
                self.term(output, head, ARGUMENT)?;
                self.tail(output, tail)
            }
            [_, _] => self.end_of_list(output, name, args),
            [] => self.end_of_list(output, name, args),
            [_] => self.end_of_list(output, name, args),
            [_, _, _, ..] => self.end_of_list(output, name, args),
        }
    }

    /// Writes a compound that ends a list.
    #[cycle(write)]
    fn end_of_list(&self, output: &mut Output, name: Atom, args: &Args) -> Result<(), Memory>
        ensures { OnOk result (output.new ≡ put_all output.old (written.last_compound (setting_of self.now) name.number (written.all_forms (setting_of self.now) (plains args.now)))) }
    {
        output.byte(b'|')?;
        self.compound(output, name, args, ARGUMENT)
    }

    /// Writes `{TERM}`.
    #[cycle(write)]
    fn curly(&self, output: &mut Output, inner: &Term) -> Result<(), Memory>
        ensures { OnOk result (output.new ≡ put_all output.old (written.curly_at (setting_of self.now) (written.forms (setting_of self.now) (plain inner.now)))) }
    {
        output.byte(b'{')?;
        self.term(output, inner, CURLY_TERM)?;
        output.byte(b'}')
    }

    /// Writes an infix operator between its operands, in brackets where its priority is above `most`.
    #[cycle(write)]
    fn closed_infix(
        &self,
        output: &mut Output,
        name: Atom,
        operator: Infix,
        left: &Term,
        right: &Term,
        most: u16,
    ) -> Result<(), Memory>
        ensures { OnOk result (output.new ≡ put_all output.old (written.infix_at (setting_of self.now) (infix_row operator) name.number (written.forms (setting_of self.now) (plain left.now)) (written.forms (setting_of self.now) (plain right.now)) most)) }
    {
        if operator.priority <= most {
            return self.open_infix(output, name, operator, left, right);
        }
        output.byte(b'(')?;
        self.open_infix(output, name, operator, left, right)?;
        output.byte(b')')
    }

    /// Writes an infix operator between its operands.
    #[cycle(write)]
    fn open_infix(
        &self,
        output: &mut Output,
        name: Atom,
        operator: Infix,
        left: &Term,
        right: &Term,
    ) -> Result<(), Memory>
        ensures { OnOk result (output.new ≡ put_all output.old (written.open_infix (setting_of self.now) (infix_row operator) name.number (written.forms (setting_of self.now) (plain left.now)) (written.forms (setting_of self.now) (plain right.now)))) }
    {
        self.operand(output, left, operator.left_most())?;
        self.between(output, name, operator.priority)?;
        self.operand(output, right, operator.right_most())
    }

    /// Writes the name of an infix operator that stands behind its left operand.
    fn between(&self, output: &mut Output, name: Atom, priority: u16) -> Result<(), Memory>
        ensures { OnOk result (output.new ≡ put_all output.old (written.between (setting_of self.now) name.number priority)) }
    {
        match Spacing::of(name, priority) {
            Spacing::Tight => self.operator_name(output, name),
            Spacing::Spaced => self.spaced(output, name),
            Spacing::Apart => self.apart(output, name),
        }
    }

    /// Writes the name of an infix operator with a space on both sides.
    fn spaced(&self, output: &mut Output, name: Atom) -> Result<(), Memory>
        ensures { OnOk result (output.new ≡ put_all output.old (written.spaced (setting_of self.now) name.number)) }
    {
        output.byte(b' ')?;
        self.operator_name(output, name)?;
        output.byte(b' ')
    }

    /// Writes the name of an infix operator, apart from symbol characters on both sides.
    fn apart(&self, output: &mut Output, name: Atom) -> Result<(), Memory>
        ensures { OnOk result (output.new ≡ put_all output.old (written.apart (setting_of self.now) name.number)) }
    {
        output.end_of_left()?;
        self.operator_name(output, name)?;
        output.gap(Gap::AfterInfix);
        Ok(())
    }

    /// Writes a prefix operator and its operand, in brackets where its priority is above `most`.
    #[cycle(write)]
    fn closed_prefix(
        &self,
        output: &mut Output,
        name: Atom,
        operator: Prefix,
        operand: &Term,
        most: u16,
    ) -> Result<(), Memory>
        ensures { OnOk result (output.new ≡ put_all output.old (written.prefix_at (setting_of self.now) (prefix_row operator) name.number (written.forms (setting_of self.now) (plain operand.now)) most)) }
    {
        if operator.priority <= most {
            return self.open_prefix(output, name, operator, operand);
        }
        output.byte(b'(')?;
        self.open_prefix(output, name, operator, operand)?;
        output.byte(b')')
    }

    /// Writes a prefix operator and its operand.
    #[cycle(write)]
    fn open_prefix(
        &self,
        output: &mut Output,
        name: Atom,
        operator: Prefix,
        operand: &Term,
    ) -> Result<(), Memory>
        ensures { OnOk result (output.new ≡ put_all output.old (written.open_prefix (setting_of self.now) (prefix_row operator) name.number (written.forms (setting_of self.now) (plain operand.now)))) }
    {
        self.operator_name(output, name)?;
        output.gap(Gap::AfterPrefix);
        self.operand(output, operand, operator.operand_most())
    }

    /// Writes an operand of an operator: a term, where an operator that stands alone is in brackets too.
    #[cycle(write)]
    fn operand(&self, output: &mut Output, term: &Term, most: u16) -> Result<(), Memory>
        ensures { OnOk result (output.new ≡ put_all output.old ((written.forms (setting_of self.now) (plain term.now)).operand most)) }
    {
        match term {
            Term::Atom(name) if is_operator(*name) => {
                output.byte(b'(')?;
                self.name(output, *name)?;
                output.byte(b')')
            }
            _ => self.term(output, term, most),
        }
    }
}

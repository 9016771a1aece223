ghost use Rattle.std.specs.Prelude.{◌≡◌, ◌≤◌, ◌<◌, OnOk};
ghost use Rattle.goal_code.specs.StepCounts.{choices_of, ends_of};
ghost use Rattle.unify_special.specs.Steps.{steps_of};

use crate::arguments::argument_register;
use crate::writer::Writer;
use aq_term::memory::Memory;
use aq_term::proc_name::ProcName;
use aq_term::term::Term;
use bam_code::item::Item;
use bam_code::items::Items;
use bam_code::line::Line;
use bam_code::place::Place as CodePlace;
use bam_code::place_type::PlaceType;
use bam_code::source::Source;
use bam_code::target::Target;
use bam_code::word_type::WordType;
use flow_equations::env::see_all;
use type_lattice::fact::Fact;
use unify_special::draft::FIRST_FREE;
use unify_special::fact_types::word_type;
use unify_special::label::label_items;
use unify_special::operand::move_to;
use unify_special::place::Place;
use unify_special::place_list::PlaceList;
use unify_special::role::mark;

impl Writer<'_> {
    /// Writes a clause whose one goal is a catch of these variables. The holes of results are filled first, since a run that comes to the
    /// handler must find them so.
    pub fn catch(
        &mut self,
        variables: &[u32],
        guarded: ProcName,
        arguments: &[Term],
        handler: ProcName,
        others: &[Term],
    ) -> Result<(), Memory>
        ensures choices { choices_of self.new.draft.lines ≡ choices_of self.old.draft.lines }
        ensures ends { ends_of self.old.draft.lines ≤ ends_of self.new.draft.lines }
        ensures ended { OnOk result (ends_of self.old.draft.lines < ends_of self.new.draft.lines) }
    {
        self.fill_head()?;
        see_all(&mut self.picture.facts, variables);
        self.make_cells(variables)?;
        self.clear_arguments(variables)?;
        self.put_all(others)?;
        let registers = argument_register(others.len());
        let label = self.draft.take_label();
        self.line(Line::Catch {
            registers,
            ball: Target::Label(label),
        })?;
        self.line(Line::Allocate(1))?;
        self.put_all(arguments)?;
        self.line(Line::Call(guarded))?;
        self.line(Line::Uncatch)?;
        self.line(Line::Deallocate)?;
        self.line(Line::Return)?;
        self.ball_label(label, others)?;
        self.shift(registers)?;
        self.line(Line::Exec(handler))
    }

    /// Fills the hole of each result with an unbound cell.
    fn fill_head(&mut self) -> Result<(), Memory>
        ensures { steps_of self.new.draft.lines ≡ steps_of self.old.draft.lines }
    {
        for number in 0..u32::from(self.width()) {
            if self.picture.facts.fact(number) == Fact::Out {
                self.fill_argument(number)?;
            }
        }
        Ok(())
    }

    fn fill_argument(&mut self, number: u32) -> Result<(), Memory>
        ensures { steps_of self.new.draft.lines ≡ steps_of self.old.draft.lines }
    {
        let Place::Register(hole) = self.picture.places.get(number) else {
            return Ok(());
        };
        let register = self.draft.take_register();
        self.line(Line::Fresh { register })?;
        self.line(Line::Fill {
            register: hole,
            with: Source::Register(register),
        })?;
        self.picture.facts.set(number, Fact::Any);
        self.picture.places.set(number, Place::Register(register));
        Ok(())
    }

    /// Moves variables from the registers of arguments to new ones, so that those are free.
    fn clear_arguments(&mut self, variables: &[u32]) -> Result<(), Memory>
        ensures { steps_of self.new.draft.lines ≡ steps_of self.old.draft.lines }
    {
        for variable in variables {
            self.clear_argument(*variable)?;
        }
        Ok(())
    }

    fn clear_argument(&mut self, variable: u32) -> Result<(), Memory>
        ensures { steps_of self.new.draft.lines ≡ steps_of self.old.draft.lines }
    {
        match self.picture.places.get(variable) {
            Place::Register(register) if register < FIRST_FREE => {
                let new = self.draft.take_register();
                self.line(move_to(new, Source::Register(register)))?;
                self.picture.places.set(variable, Place::Register(new));
                Ok(())
            }
            _ => Ok(()),
        }
    }

    /// Puts arguments into the registers from 0 on.
    fn put_all(&mut self, arguments: &[Term]) -> Result<(), Memory>
        ensures { steps_of self.new.draft.lines ≡ steps_of self.old.draft.lines }
    {
        for (number, argument) in arguments.iter().enumerate() {
            if let Some(from) = self.argument_source(argument) {
                let register = argument_register(number);
                self.line(move_to(register, from))?;
            }
        }
        Ok(())
    }

    /// Writes the label where a ball is caught: the arguments of the handler stand in the registers from 0 on, and nothing else does.
    fn ball_label(&mut self, number: u32, others: &[Term]) -> Result<(), Memory>
        ensures { steps_of self.new.draft.lines ≡ steps_of self.old.draft.lines }
    {
        self.picture.places = PlaceList::new(self.alloc);
        let mut items = label_items(self.alloc, self.signature, &self.picture, &[])?;
        self.list_others(others, &mut items)?;
        self.line(Line::Ball {
            number,
            frame: None,
            items,
        })
    }

    fn list_others(&self, others: &[Term], items: &mut Items) -> Result<(), Memory> {
        for (number, argument) in others.iter().enumerate() {
            let (holds, mark) = self.held(argument);
            items.push(Item::Place {
                place: CodePlace::Register(argument_register(number)),
                holds: PlaceType::Word(holds),
                mark,
            })?;
        }
        Ok(())
    }

    /// The type of a handler's argument, and the argument of the procedure that it is.
    fn held(&self, argument: &Term) -> (WordType, Option<u8>) {
        match argument {
            Term::Var(variable) => (
                word_type(self.picture.facts.fact(*variable)),
                mark(self.signature, *variable),
            ),
            _ => (WordType::Full, None),
        }
    }

    /// Moves the ball, which stands behind the arguments of the handler, in front of them. There are this many.
    fn shift(&mut self, count: u16) -> Result<(), Memory>
        ensures { steps_of self.new.draft.lines ≡ steps_of self.old.draft.lines }
    {
        if count == 0 {
            return Ok(());
        }
        self.line(move_to(FIRST_FREE, Source::Register(count)))?;
        for number in (0..count).rev() {
            let into = number.saturating_add(1);
            self.line(move_to(into, Source::Register(number)))?;
        }
        self.line(move_to(0, Source::Register(FIRST_FREE)))
    }
}

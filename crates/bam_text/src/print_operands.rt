ghost use Rattle.std.specs.Prelude.{◌≡◌, ◌++◌, OnOk};
ghost use Rattle.aq_term.specs.PlainOf.{plain};
ghost use Rattle.term_meaning.specs.Plain.{plains};
ghost use Rattle.bam_text.specs.Operands as operands;
ghost use Rattle.bam_text.specs.Words as words;

use crate::output::Output;
use crate::words::known_word;
use aq_term::args::Args;
use aq_term::atoms::Atoms;
use aq_term::builtin::Builtin;
use aq_term::functor::Functor;
use aq_term::memory::Memory;
use aq_term::proc_name::ProcName;
use aq_term::term::Term;
use bam_code::constant::Constant;
use bam_code::item::Item;
use bam_code::known::Known;
use bam_code::place::Place;
use bam_code::place_type::PlaceType;
use bam_code::source::Source;
use bam_code::switch_target::SwitchTarget;
use bam_code::target::Target;
use bam_code::word_type::WordType;

pub fn register(output: &mut Output, number: u16) -> Result<(), Memory>
    ensures { OnOk result (output.new ≡ output.old ++ operands.register_text number) }
{
    output.byte(b'r')?;
    output.number(u64::from(number))
}

pub fn slot(output: &mut Output, number: u8) -> Result<(), Memory>
    ensures { OnOk result (output.new ≡ output.old ++ operands.slot_text number) }
{
    output.byte(b'y')?;
    output.number(u64::from(number))
}

pub fn place(output: &mut Output, place: Place) -> Result<(), Memory>
    ensures { OnOk result (output.new ≡ output.old ++ operands.place_text place) }
{
    match place {
        Place::Register(number) => register(output, number),
        Place::Slot(number) => slot(output, number),
    }
}

pub fn source(output: &mut Output, atoms: &Atoms, source: Source) -> Result<(), Memory>
    ensures { OnOk result (output.new ≡ output.old ++ operands.source_text atoms.now source) }
{
    match source {
        Source::Register(number) => register(output, number),
        Source::Slot(number) => slot(output, number),
        Source::Int(value) => output.integer(value),
        Source::Atom(name) => output.atom(atoms, name),
        Source::Pool(number) => pool_entry(output, number),
    }
}

fn pool_entry(output: &mut Output, number: u32) -> Result<(), Memory>
    ensures { OnOk result (output.new ≡ output.old ++ operands.pool_entry_text number) }
{
    output.byte(b'#')?;
    output.number(u64::from(number))
}

pub fn constant(output: &mut Output, atoms: &Atoms, constant: Constant) -> Result<(), Memory>
    ensures { OnOk result (output.new ≡ output.old ++ operands.constant_text atoms.now constant) }
{
    match constant {
        Constant::Int(value) => output.integer(value),
        Constant::Atom(name) => output.atom(atoms, name),
    }
}

pub fn functor(output: &mut Output, atoms: &Atoms, functor: Functor) -> Result<(), Memory>
    ensures { OnOk result (output.new ≡ output.old ++ operands.functor_text atoms.now functor) }
{
    output.atom(atoms, functor.name)?;
    output.byte(b'/')?;
    output.number(u64::from(functor.arity))
}

pub fn builtin(output: &mut Output, atoms: &Atoms, builtin: Builtin) -> Result<(), Memory>
    ensures { OnOk result (output.new ≡ output.old ++ operands.builtin_text atoms.now builtin) }
{
    output.atom(atoms, builtin.name())?;
    output.byte(b'/')?;
    output.number(u64::from(builtin.arity()))
}

pub fn name(output: &mut Output, atoms: &Atoms, name: ProcName) -> Result<(), Memory>
    ensures { OnOk result (output.new ≡ output.old ++ operands.name_text atoms.now name) }
{
    output.atom(atoms, name.name)?;
    output.byte(b'/')?;
    output.number(u64::from(name.arity))?;
    if name.part == 0 {
        return Ok(());
    }
    output.byte(b'#')?;
    output.number(u64::from(name.part))?;
    output.byte(b'/')?;
    output.number(u64::from(name.width))
}

pub fn target(output: &mut Output, target: Target) -> Result<(), Memory>
    ensures { OnOk result (output.new ≡ output.old ++ operands.target_text target) }
{
    match target {
        Target::Label(number) => output.number(u64::from(number)),
        Target::Fails => output.text("-"),
    }
}

pub fn switch_target(output: &mut Output, target: SwitchTarget) -> Result<(), Memory>
    ensures { OnOk result (output.new ≡ output.old ++ operands.switch_target_text target) }
{
    match target {
        SwitchTarget::Label(number) => output.number(u64::from(number)),
        SwitchTarget::Fails => output.text("-"),
        SwitchTarget::Never => output.text("*"),
    }
}

pub fn frame(output: &mut Output, frame: Option<u16>) -> Result<(), Memory>
    ensures { OnOk result (output.new ≡ output.old ++ operands.frame_text frame) }
{
    match frame {
        None => output.text("-"),
        Some(slots) => {
            output.byte(b'f')?;
            output.number(u64::from(slots))
        }
    }
}

fn word_type(output: &mut Output, atoms: &Atoms, word_type: WordType) -> Result<(), Memory>
    ensures { OnOk result (output.new ≡ output.old ++ operands.word_type_text atoms.now word_type) }
{
    match word_type {
        WordType::Any => output.text("any"),
        WordType::Head => output.text("head"),
        WordType::Var => output.text("var"),
        WordType::Nonvar => output.text("nonvar"),
        WordType::Direct => output.text("direct"),
        WordType::Ground => output.text("ground"),
        WordType::GroundDirect => output.text("gdirect"),
        WordType::Full => output.text("full"),
        WordType::Int => output.text("int"),
        WordType::Atom => output.text("atm"),
        WordType::ListCell => output.text("lst"),
        WordType::GroundListCell => output.text("glst"),
        WordType::FullListCell => output.text("flst"),
        WordType::Structure(of) => structure(output, atoms, "str:", of),
        WordType::GroundStructure(of) => structure(output, atoms, "gstr:", of),
        WordType::FullStructure(of) => structure(output, atoms, "fstr:", of),
        WordType::Bar => output.text("bar"),
    }
}

/// A type with its functor.
fn structure(output: &mut Output, atoms: &Atoms, word: &str, of: Functor) -> Result<(), Memory>
    ensures { OnOk result (output.new ≡ output.old ++ word.now ++ operands.functor_text atoms.now of) }
{
    output.text(word)?;
    functor(output, atoms, of)
}

fn place_type(output: &mut Output, atoms: &Atoms, holds: PlaceType) -> Result<(), Memory>
    ensures { OnOk result (output.new ≡ output.old ++ operands.place_type_text atoms.now holds) }
{
    match holds {
        PlaceType::Word(held) => word_type(output, atoms, held),
        PlaceType::Hole(held) => prefixed(output, atoms, "hole:", held),
        PlaceType::Part(held) => prefixed(output, atoms, "part:", held),
        PlaceType::Cell(held) => prefixed(output, atoms, "cell:", held),
    }
}

fn prefixed(output: &mut Output, atoms: &Atoms, word: &str, held: WordType) -> Result<(), Memory>
    ensures { OnOk result (output.new ≡ output.old ++ word.now ++ operands.word_type_text atoms.now held) }
{
    output.text(word)?;
    word_type(output, atoms, held)
}

fn mark(output: &mut Output, mark: Option<u8>) -> Result<(), Memory>
    ensures { OnOk result (output.new ≡ output.old ++ operands.mark_text mark) }
{
    match mark {
        None => Ok(()),
        Some(argument) => {
            output.text("=a")?;
            output.number(u64::from(argument))
        }
    }
}

fn item(output: &mut Output, atoms: &Atoms, item: Item) -> Result<(), Memory>
    ensures { OnOk result (output.new ≡ output.old ++ operands.item_text atoms.now item) }
{
    match item {
        Item::Argument { argument, known } => argument_item(output, argument, known),
        Item::Place { place, holds, mark } => place_item(output, atoms, place, holds, mark),
    }
}

fn argument_item(output: &mut Output, argument: u8, known: Known) -> Result<(), Memory>
    ensures { OnOk result (output.new ≡ output.old ++ operands.argument_item_text argument known) }
{
    output.byte(b'a')?;
    output.number(u64::from(argument))?;
    output.byte(b':')?;
    output.text(known_word(known))
}

fn place_item(
    output: &mut Output,
    atoms: &Atoms,
    at: Place,
    holds: PlaceType,
    marked: Option<u8>,
) -> Result<(), Memory>
    ensures { OnOk result (output.new ≡ output.old ++ operands.place_item_text atoms.now at holds marked) }
{
    place(output, at)?;
    output.byte(b':')?;
    place_type(output, atoms, holds)?;
    mark(output, marked)
}

/// Items, each after a space.
pub fn items(output: &mut Output, atoms: &Atoms, items: &[Item]) -> Result<(), Memory>
    ensures { OnOk result (output.new ≡ output.old ++ operands.items_text atoms.now items.now) }
{
    for one in items {
        output.byte(b' ')?;
        item(output, atoms, *one)?;
    }
    Ok(())
}

/// A ground term. It goes as deep in the stack as the term is deep.
#[cycle(ground)]
pub fn ground(output: &mut Output, atoms: &Atoms, term: &Term) -> Result<(), Memory>
    ensures { OnOk result (output.new ≡ output.old ++ operands.ground_text atoms.now (plain term.now)) }
{
    match term {
        Term::Var(_) => Ok(()),
        Term::Int(value) => output.integer(*value),
        Term::Atom(name) => output.atom(atoms, *name),
        Term::Compound(name, args) => {
            output.atom(atoms, *name)?;
            arguments(output, atoms, args)
        }
    }
}

/// The arguments of a compound in brackets.
#[cycle(ground)]
fn arguments(output: &mut Output, atoms: &Atoms, args: &Args) -> Result<(), Memory>
    ensures { OnOk result (output.new ≡ output.old ++ operands.arguments_text atoms.now (plains args.now)) }
{
    let mut before = b'(';
    for arg in args.as_slice() {
        output.byte(before)?;
        ground(output, atoms, arg)?;
        before = b',';
    }
    output.byte(b')')
}

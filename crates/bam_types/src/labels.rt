ghost use Rattle.std.specs.Prelude.{◌≡◌, length, slice_get, option_map, IfOk};
ghost use Rattle.bam_types.specs.Labels.{
  label,
  label_seen,
  label_of,
  is_label,
  is_alternative,
  is_ball,
  is_frameless,
  slots_listed,
  has_registers_below,
  is_slot_item,
  is_item_below,
  label_places,
};

use aq_term::memory::Memory;
use bam_code::item::Item;
use bam_code::items::Items;
use bam_code::line::Line;
use bam_code::place::Place;
use std::alloc::Global;
use std::marker::Model;

/// Which kind of label a line is.
#[derive(Clone, Copy, Debug, PartialEq, Eq)]
pub enum LabelKind {
    Label,
    Alternative,
    Ball,
}

impl LabelKind {
    pub fn is_label(self) -> bool
        ensures { result ≡ is_label self }
    {
        matches!(self, LabelKind::Label)
    }

    pub fn is_alternative(self) -> bool
        ensures { result ≡ is_alternative self }
    {
        matches!(self, LabelKind::Alternative)
    }

    pub fn is_ball(self) -> bool
        ensures { result ≡ is_ball self }
    {
        matches!(self, LabelKind::Ball)
    }
}

/// A label, an alternative or the label of a ball, with what holds there.
#[derive(Clone, Copy)]
pub struct LabelLine<'a> {
    pub kind: LabelKind,
    pub number: u32,
    pub frame: Option<u16>,
    pub items: &'a [Item],
}

impl<'a> LabelLine<'a> {
    /// The label that a line is.
    pub fn of(line: &'a Line) -> Option<LabelLine<'a>>
        ensures { option_map label_seen result ≡ label_of line.now }
    {
        match line {
            Line::Label {
                number,
                frame,
                items,
            } => Some(LabelLine::new(LabelKind::Label, *number, *frame, items)),
            Line::Alt {
                number,
                frame,
                items,
            } => Some(LabelLine::new(LabelKind::Alternative, *number, *frame, items)),
            Line::Ball {
                number,
                frame,
                items,
            } => Some(LabelLine::new(LabelKind::Ball, *number, *frame, items)),
            _ => None,
        }
    }

    fn new(kind: LabelKind, number: u32, frame: Option<u16>, items: &'a Items) -> LabelLine<'a>
        ensures { label_seen result ≡ label kind number frame items.now }
    {
        LabelLine {
            kind,
            number,
            frame,
            items: items.as_slice(),
        }
    }

    /// Whether no frame is there, and no slot is listed.
    pub fn is_frameless(&self) -> bool
        ensures { result ≡ is_frameless (label_seen self.now) }
    {
        self.frame.is_none() && self.slots() == 0
    }

    /// How many slots are listed.
    pub fn slots(&self) -> usize
        ensures { result ≡ slots_listed self.now.items.now }
    {
        self.items.iter().filter(|item| is_slot(item)).count()
    }

    /// Whether each register that is listed is below this number.
    pub fn has_registers_below(&self, registers: u16) -> bool
        ensures { result ≡ has_registers_below (label_seen self.now) registers }
    {
        self.items.iter().all(|item| is_below(item, registers))
    }
}

fn is_slot(item: &Item) -> bool
    ensures { result ≡ is_slot_item item.now }
{
    matches!(
        item,
        Item::Place {
            place: Place::Slot(_),
            ..
        }
    )
}

fn is_below(item: &Item, registers: u16) -> bool
    ensures { result ≡ is_item_below registers item.now }
{
    match item {
        Item::Place {
            place: Place::Register(number),
            ..
        } => *number < registers,
        _ => true,
    }
}

/// Where the labels, alternatives and ball labels of a procedure stand. Contracts see the list of the places of their lines,
/// counted from 0, by their numbers.
#[derive(Debug, Drop)]
pub struct Labels {
    lines: Vec<usize>,
}

impl Model for Labels {
    ghost use Rattle.std.specs.Prelude.{List, ℕ};

    ghost Value = { List ℕ };

    ghost view = { λ a. a.lines.items };
}

impl Labels {
    /// Those of these lines, which are numbered from 0 in the order of the lines.
    pub fn of(alloc: Global, lines: &[Line]) -> Result<Labels, Memory>
        ensures { IfOk result (λ labels. labels ≡ label_places 0 lines.now) }
    {
        let mut found = Vec::new(alloc);
        for (at, line) in lines.iter().enumerate() {
            if LabelLine::of(line).is_some() {
                found.push(at)?;
            }
        }
        Ok(Labels { lines: found })
    }

    pub fn len(&self) -> usize
        ensures { result ≡ length self.now }
    {
        self.lines.len()
    }

    /// The place of the line of a label.
    pub fn line_of(&self, number: u32) -> Option<usize>
        ensures { result ≡ slice_get self.now number }
    {
        self.lines.get(number as usize).copied()
    }
}

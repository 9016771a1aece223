ghost use Rattle.std.specs.Prelude.{◌≡◌, map};
ghost use Rattle.reg_alloc.specs.Renamed.{renamed_place, renamed_source};
ghost use Rattle.move_coalescing.specs.Outlines.{forget, outline};

use bam_code::line::Line;
use bam_code::place::Place;
use bam_code::source::Source;

/// Another register, put in the place of one.
#[derive(Clone, Copy, Debug)]
pub struct Change {
    pub old: u16,
    pub new: u16,
}

impl Change {
    /// Puts the new register in the place of the old one wherever the lines from a place on read it.
    pub fn in_reads(&self, lines: &mut Vec<Line>, from: usize)
        ensures { map outline lines.new.items ≡ map outline lines.old.items }
    {
        for at in from..lines.len() {
            self.in_reads_at(lines, at);
        }
    }

    fn in_reads_at(&self, lines: &mut Vec<Line>, at: usize)
        ensures { map outline lines.new.items ≡ map outline lines.old.items }
    {
        match lines.get_mut(at) {
            Some(line) => self.in_read(line),
            None => {}
        }
    }

    /// Has the line at a place, which sets the old register, set the new one.
    pub fn in_set_at(&self, lines: &mut Vec<Line>, at: usize)
        ensures { map outline lines.new.items ≡ map outline lines.old.items }
    {
        match lines.get_mut(at) {
            Some(line) => self.in_set(line),
            None => {}
        }
    }

    fn in_set(&self, line: &mut Line)
        ensures { outline line.new ≡ outline line.old }
    {
        match line {
            Line::Move { into, .. } => self.place(into),
            Line::Deref { register, .. } => self.register(register),
            Line::Load { register, .. } => self.register(register),
            Line::Structure { register, .. } => self.register(register),
            Line::ListCell { register } => self.register(register),
            Line::PushNew { register } => self.register(register),
            Line::Fresh { register } => self.register(register),
            Line::Mark { register } => self.register(register),
            Line::Arith { register, .. } => self.register(register),
            Line::Eval { register, .. } => self.register(register),
            Line::Hole { register, .. } => self.register(register),
            _ => {}
        }
    }

    fn in_read(&self, line: &mut Line)
        ensures { outline line.new ≡ outline line.old }
    {
        match line {
            Line::Move { from, .. } => self.source(from),
            Line::Deref { from, .. } => self.source(from),
            Line::Load { from, .. } => self.source(from),
            Line::Bind { register, with } => self.both(register, with),
            Line::Unify { register, with } => self.both(register, with),
            Line::Fill { register, with } => self.both(register, with),
            Line::Switch { register, .. } => self.register(register),
            Line::Match { register, .. } => self.register(register),
            Line::Functor { register, .. } => self.register(register),
            Line::Push(word) => self.source(word),
            Line::Cut(word) => self.source(word),
            Line::Raise(word) => self.source(word),
            Line::Eval { expression, .. } => self.source(expression),
            Line::Arith { left, right, .. } => self.two(left, right),
            Line::Less { left, right, .. } => self.two(left, right),
            Line::Same { left, right, .. } => self.two(left, right),
            _ => {}
        }
    }

    fn register(&self, register: &mut u16) {
        if *register == self.old {
            *register = self.new;
        }
    }

    fn source(&self, word: &mut Source)
        ensures { renamed_source forget word.new ≡ renamed_source forget word.old }
    {
        if let Source::Register(number) = *word {
            if number == self.old {
                *word = Source::Register(self.new);
            }
        }
    }

    fn both(&self, register: &mut u16, word: &mut Source)
        ensures { renamed_source forget word.new ≡ renamed_source forget word.old }
    {
        self.register(register);
        self.source(word);
    }

    fn two(&self, left: &mut Source, right: &mut Source)
        ensures left { renamed_source forget left.new ≡ renamed_source forget left.old }
        ensures right { renamed_source forget right.new ≡ renamed_source forget right.old }
    {
        self.source(left);
        self.source(right);
    }

    fn place(&self, place: &mut Place)
        ensures { renamed_place forget place.new ≡ renamed_place forget place.old }
    {
        if let Place::Register(number) = *place {
            if number == self.old {
                *place = Place::Register(self.new);
            }
        }
    }
}

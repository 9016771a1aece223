use bam_code::line::Line;

/// The structure or the list cell to which the next lines push.
#[derive(Clone, Copy, Debug)]
pub struct Opened {
    /// Its register.
    register: u16,
    /// How many pushes are due.
    due: u8,
}

impl Opened {
    /// Nothing is pushed to.
    pub fn nothing() -> Opened {
        Opened {
            register: 0,
            due: 0,
        }
    }

    /// Goes past a line, and gives the register of what it pushes to.
    pub fn take(&mut self, line: &Line) -> Option<u16> {
        match line {
            Line::Structure { register, functor } => {
                self.open(*register, functor.arity);
                None
            }
            Line::ListCell { register } => {
                self.open(*register, 2);
                None
            }
            Line::Push(_) | Line::PushNew { .. } | Line::Hole { .. } => self.push(),
            _ => None,
        }
    }

    fn open(&mut self, register: u16, due: u8) {
        self.register = register;
        self.due = due;
    }

    fn push(&mut self) -> Option<u16> {
        if self.due == 0 {
            return None;
        }
        self.due -= 1;
        Some(self.register)
    }
}

ghost use Rattle.std.specs.Prelude.{◌≡◌};
ghost use Rattle.bam_peephole.specs.Relabeled.{from_the_end};

use crate::label_names::LabelNames;

/// The numbers below a count, taken from the other end. The others stay.
#[derive(Clone, Copy, Debug)]
pub struct FromTheEnd {
    pub count: u32,
}

impl LabelNames for FromTheEnd {
    ghost name_of = { λ names number. from_the_end names.count number };

    fn name(&self, number: u32) -> u32 {
        if number < self.count {
            self.count - 1 - number
        } else {
            number
        }
    }
}

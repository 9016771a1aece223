ghost use Rattle.std.specs.Prelude.{◌≡◌, option_map, option_copied};
ghost use Rattle.bam_types.specs.Labels.{label_seen, numbered, target_label};
ghost use Rattle.bam_types.specs.Scopes.{within_of};

use crate::callees::Callees;
use crate::labels::{LabelLine, Labels};
use aq_term::proc_name::ProcName;
use bam_code::code::Code;
use bam_code::line::Line;
use bam_code::signature::Signature;
use bam_code::target::Target;

/// What a line of a procedure is tested against besides the state.
#[derive(Clone, Copy)]
pub struct Scope<'a> {
    pub code: &'a Code,
    pub callees: &'a Callees,
    /// The procedure's own.
    pub signature: &'a Signature,
    pub lines: &'a [Line],
    pub labels: &'a Labels,
}

impl<'a> Scope<'a> {
    /// The signature of a callee.
    pub fn callee(&self, name: &ProcName) -> Option<&'a Signature>
        ensures { option_copied result ≡ (within_of self.now).callee name.now }
    {
        self.callees.signature(self.code, name)
    }

    /// The label of this number.
    pub fn label(&self, number: u32) -> Option<LabelLine<'a>>
        ensures { option_map label_seen result ≡ numbered (within_of self.now) number }
    {
        let at = self.labels.line_of(number)?;
        LabelLine::of(self.lines.get(at)?)
    }

    /// The label that a target names.
    pub fn target(&self, target: Target) -> Option<LabelLine<'a>>
        ensures { option_map label_seen result ≡ target_label (within_of self.now) target }
    {
        match target {
            Target::Label(number) => self.label(number),
            Target::Fails => None,
        }
    }
}

ghost use Rattle.std.specs.Prelude.{◌≡◌};

use bam_code::code::Code;
use std::marker::Model;

/// A code that keeps all rules. Contracts see the code.
#[derive(Debug, Drop)]
pub struct Verified {
    code: Code,
}

impl Model for Verified {
    ghost use Rattle.bam_code.specs.declared.code.Code.{Code};

    ghost Value = { Code };

    ghost use Rattle.bam_code.specs.contracts.code.Code as whole_code;

    ghost coded = { whole_code.the_row.coded };

    ghost view = { λ v. v.code };
}

impl Verified {
    /// Takes a code as verified and tests nothing. It is for codes that are known to keep all rules.
    pub fn new(code: Code) -> Verified
        ensures { result ≡ code }
    {
        Verified { code }
    }

    pub fn code(&self) -> &Code
        ensures { result.now ≡ self.now }
    {
        &self.code
    }

    /// The code, with no copy.
    pub fn into_code(self) -> Code
        ensures { result ≡ self }
    {
        let Verified { code } = self;
        code
    }
}

ghost use Rattle.std.specs.Prelude.{◌≡◌};

use aq_term::atoms::Atoms;
use bam_link::image::Image;
use bam_types::verified::Verified;
use flow_equations::facts::Facts;
use kernel_ir::kernel::Kernel;
use source_program::program::Program;

/// A program with all that was made of it.
#[derive(Drop)]
pub struct Built {
    program: Program,
    kernel: Kernel,
    facts: Facts,
    code: Verified,
    image: Image,
    atoms: Atoms,
}

/// What a query of a built program needs.
#[derive(Drop)]
pub struct Parts {
    pub program: Program,
    pub code: Verified,
    pub image: Image,
    /// The table of the names in the program and its code.
    pub atoms: Atoms,
}

impl Built {
    /// Puts together a program in the table `atoms` and what was made of it.
    pub(crate) fn new(parts: Parts, kernel: Kernel, facts: Facts) -> Built
        ensures program { result.program ≡ parts.program }
        ensures kernel { result.kernel ≡ kernel }
        ensures facts { result.facts ≡ facts }
        ensures code { result.code ≡ parts.code }
        ensures image { result.image ≡ parts.image }
        ensures atoms { result.atoms ≡ parts.atoms }
    {
        let Parts {
            program,
            code,
            image,
            atoms,
        } = parts;
        Built {
            program,
            kernel,
            facts,
            code,
            image,
            atoms,
        }
    }

    pub fn program(&self) -> &Program
        ensures { result.now ≡ self.now.program }
    {
        &self.program
    }

    /// The program in kernel form.
    pub fn kernel(&self) -> &Kernel
        ensures { result.now ≡ self.now.kernel }
    {
        &self.kernel
    }

    /// The least facts of the kernel form.
    pub fn facts(&self) -> &Facts
        ensures { result.now ≡ self.now.facts }
    {
        &self.facts
    }

    pub fn code(&self) -> &Verified
        ensures { result.now ≡ self.now.code }
    {
        &self.code
    }

    /// The linked code.
    pub fn image(&self) -> &Image
        ensures { result.now ≡ self.now.image }
    {
        &self.image
    }

    /// The table of the names in the program and its code.
    pub fn atoms(&self) -> &Atoms
        ensures { result.now ≡ self.now.atoms }
    {
        &self.atoms
    }

    /// The parts that a query needs, with no copy.
    pub fn parts(self) -> Parts
        ensures program { result.program ≡ self.program }
        ensures code { result.code ≡ self.code }
        ensures image { result.image ≡ self.image }
        ensures atoms { result.atoms ≡ self.atoms }
    {
        Parts {
            program: self.program,
            code: self.code,
            image: self.image,
            atoms: self.atoms,
        }
    }
}

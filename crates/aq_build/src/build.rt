ghost use Rattle.std.specs.Prelude.{◌≡◌, [], None, All, IfOk, map};
ghost use Rattle.aq_build.specs.Built.{IsBuilt};
ghost use Rattle.bam_meaning.specs.Linked.{entry_places, linked};
ghost use Rattle.bam_verify.specs.Accepts.{first_reject};
ghost use Rattle.goal_code.specs.CodeEntries.{code_entry};
ghost use Rattle.goal_code.specs.Signatures.{signature_of, signatures_due};
ghost use Rattle.uninit_args.specs.Results.{plans_of};

use crate::build_fault::BuildFault;
use crate::built::{Built, Parts};
use crate::emit::emit;
use aq_term::atoms::Atoms;
use bam_code::code::Code;
use bam_link::link::link;
use bam_types::verified::Verified;
use bam_verify::verify::verify;
use flow_analysis::analyse;
use kernel_form::to_kernel;
use source_program::program::Program;
use std::alloc::Global;

/// Compiles a program to code, verifies it and links it. The program keeps the forms and the limits of the language, and its names
/// are in the table. It is taken as a program and not as a text, since whoever reads the text tells its refusals, and a query's
/// behind them.
pub fn build(alloc: Global, program: Program, atoms: Atoms) -> Result<Built, BuildFault>
    ensures program { IfOk result (λ built. built.program ≡ program) }
    ensures atoms { IfOk result (λ built. built.atoms ≡ atoms) }
    ensures accepted { IfOk result (λ built. first_reject built.code ≡ None) }
    ensures entries { IfOk result (λ built. built.code.entries ≡ map code_entry built.program.entries) }
    ensures imports { IfOk result (λ built. built.code.imports ≡ []) }
    ensures signatures { IfOk result (λ built. map signature_of built.code.procs
        ≡ signatures_due built.kernel.predicates built.facts (plans_of built.kernel.predicates built.facts)) }
    ensures procedures { IfOk result (λ built. All (IsBuilt built.kernel.predicates built.facts) built.code.procs) }
    ensures linked { IfOk result (λ built. built.image ≡ record {
      instructions = linked built.code;
      entries = entry_places built.code;
    }) }
{
    let kernel = to_kernel(alloc, &program)?;
    let facts = analyse(alloc, &kernel, &program.entries)?;
    let code = accepted(alloc, emit(alloc, &kernel, &facts, &program.entries)?)?;
    let image = link(alloc, code.code())?;
    let parts = Parts {
        program,
        code,
        image,
        atoms,
    };
    Ok(Built::new(parts, kernel, facts))
}

/// The code, where the verifier accepts it.
fn accepted(alloc: Global, code: Code) -> Result<Verified, BuildFault>
    ensures accepted { IfOk result (λ verified. first_reject verified ≡ None) }
    ensures code { IfOk result (λ verified. verified ≡ code) }
{
    let verified = verify(alloc, code)?;
    Ok(verified)
}

ghost use Rattle.std.specs.Prelude.{◌≡◌, map, None, IfOk, option_copied};
ghost use Rattle.aq_term.specs.declared.proc_name.ProcName.{ProcName};
ghost use Rattle.bam_types.specs.Callees.{
  key_of,
  placed,
  signature_of,
  procedure_in,
  callee_in,
  last_of,
  procedure_of_name,
  callee_of_name,
};

use aq_term::memory::Memory;
use aq_term::proc_name::ProcName;
use bam_code::code::Code;
use bam_code::procedure::Proc;
use bam_code::signature::Signature;
use std::alloc::Global;
use std::collections::HashMap;

/// A name as a key: its atom's number, its arity, its part and its width.
type Key = (u32, u8, u32, u8);

fn key(name: &ProcName) -> Key
    ensures { result ≡ key_of name.now }
{
    (name.name.number, name.arity, name.part, name.width)
}

/// Where the signatures of the names of a code stand.
#[derive(Debug, Drop)]
pub struct Callees {
    imports: HashMap<Key, usize>,
    procs: HashMap<Key, usize>,
}

impl Callees {
    /// Those of a code.
    pub fn of(alloc: Global, code: &Code) -> Result<Callees, Memory>
        ensures procedures { IfOk result (λ callees. procedure_in callees code.now ≡ procedure_of_name code.now) }
        ensures callees { IfOk result (λ callees. callee_in callees code.now ≡ callee_of_name code.now) }
    {
        let imports = import_places(alloc, code.imports.as_slice())?;
        let procs = proc_places(alloc, code.procs.as_slice())?;
        Ok(Callees { imports, procs })
    }

    /// The signature of a procedure of this name.
    pub fn procedure<'a>(&self, code: &'a Code, name: &ProcName) -> Option<&'a Signature>
        ensures { option_copied result ≡ procedure_in self.now code.now name.now }
    {
        let number = *self.procs.get(&key(name))?;
        let proc = code.procs.as_slice().get(number)?;
        Some(&proc.signature)
    }

    /// The signature of a procedure or an import of this name.
    pub fn signature<'a>(&self, code: &'a Code, name: &ProcName) -> Option<&'a Signature>
        ensures { option_copied result ≡ callee_in self.now code.now name.now }
    {
        match self.procedure(code, name) {
            Some(signature) => Some(signature),
            None => {
                let number = *self.imports.get(&key(name))?;
                code.imports.as_slice().get(number)
            }
        }
    }
}

/// The place of the last of these signatures of each name.
fn import_places(alloc: Global, imports: &[Signature]) -> Result<HashMap<Key, usize>, Memory>
    ensures { IfOk result (λ places. (name : ProcName) → placed places name ≡ last_of imports.now name 0 None) }
{
    let mut places = HashMap::new(alloc);
    for (number, import) in imports.iter().enumerate() {
        places.insert(key(&import.name), number)?;
    }
    Ok(places)
}

/// The place of the last of these procedures of each name.
fn proc_places(alloc: Global, procs: &[Proc]) -> Result<HashMap<Key, usize>, Memory>
    ensures { IfOk result (λ places. (name : ProcName) → placed places name ≡ last_of (map signature_of procs.now) name 0 None) }
{
    let mut places = HashMap::new(alloc);
    for (number, proc) in procs.iter().enumerate() {
        places.insert(key(&proc.signature.name), number)?;
    }
    Ok(places)
}

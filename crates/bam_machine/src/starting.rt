//! How a run of a query begins.
ghost use Rattle.std.specs.Prelude.{◌≡◌, ◌≢◌, Some};
ghost use Rattle.bam_machine.specs.Runs.{new_machine};

use crate::end::End;
use crate::engine::Engine;
use crate::halt::Halt;
use crate::machine::Machine;
use answer_io::load::{Beginning, load_argument};
use answer_io::load_fault::LoadFault;
use answer_io::query::Query;
use aq_term::term::Term;
use bam_code::arg_type::ArgType;
use bam_link::image::Image;

impl<'a> Machine<'a> {
    /// Begins the run of a query that was loaded for the image's entries, where the machine is new: it puts the pool's cells
    /// and then the query's terms on the heap, and the arguments into the registers. The cell of an argument that the
    /// entry's procedure is to make is a hole. Where the heap has no room for them, the run is over with that area's limit.
    pub fn start(&mut self, query: &'a Query)
        requires new { self.old ≡ new_machine self.old.image self.old.limits }
        ensures no_fault { self.new.over_by ≢ Some End.WriteFault }
    {
        let image = self.image;
        self.query = Some(query);
        self.base = image.pool().len() as u64;
        let base = self.base;
        match self.engine.begin(image, query, base) {
            Ok(()) => {}
            Err(Halt::Full(area)) => self.over_by = Some(End::AreaLimit(area)),
            Err(_) => self.over_by = Some(End::Stray),
        }
    }
}

impl<'a> Engine<'a> {
    /// Loads the pool and the query, and goes to the entry's procedure.
    fn begin(&mut self, image: &Image, query: &Query, base: u64) -> Result<(), Halt> {
        self.place = image.place_of_entry(query.entry).ok_or(Halt::Stray)?;
        for word in image.pool() {
            self.store.push_heap(*word)?;
        }
        let types = image.entry_args(query.entry).ok_or(Halt::Stray)?;
        let types = types.as_slice();
        for (number, term) in query.args.as_slice().iter().enumerate() {
            self.load_argument(query, base, number, term, types.get(number).copied())?;
        }
        Ok(())
    }

    /// Loads an argument, which is numbered from 0, into the register of its number.
    fn load_argument(
        &mut self,
        query: &Query,
        base: u64,
        number: usize,
        term: &Term,
        declared: Option<ArgType>,
    ) -> Result<(), Halt> {
        let beginning = match declared {
            Some(ArgType::Out) => Beginning::Hole,
            _ => Beginning::Unbound,
        };
        let register = u16::try_from(number).ok().ok_or(Halt::Stray)?;
        let word = match load_argument(&mut self.store, query, base, term, beginning) {
            Ok(word) => word,
            Err(LoadFault::Full(area)) => return Err(Halt::Full(area)),
            Err(LoadFault::Stray) => return Err(Halt::Stray),
        };
        self.registers.set(register, word)
    }
}

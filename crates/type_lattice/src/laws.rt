ghost use Rattle.type_lattice.specs.FactLaws.{FactsAreLattice};

/// The law that facts are a lattice by `below`, `join` and `meet`. It does nothing when it runs.
pub fn facts_are_lattice()
    ensures { FactsAreLattice }
{}

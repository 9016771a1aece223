use bam_code::arg_type::ArgType;

/// What a line may name.
#[derive(Debug, Drop)]
pub struct Scope<'a> {
    /// How many entries the pool has.
    pub pool: usize,
    /// The arguments of the procedure.
    pub args: &'a [ArgType],
    /// How many labels, alternatives and labels of balls the procedure has so far.
    pub labels: u64,
}

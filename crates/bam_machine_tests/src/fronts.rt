/// A procedure with one argument of any kind.
pub const ONE: &str = "bam 1 / entry 'p'/1 any / proc 'p'/1 any -> any";

/// A procedure with two arguments of any kind.
pub const TWO: &str = "bam 1 / entry 'p'/2 any any / proc 'p'/2 any any -> any any";

/// A procedure with three arguments of any kind.
pub const THREE: &str = "bam 1 / entry 'p'/3 any any any / proc 'p'/3 any any any -> any any any";

/// A procedure that makes a constant or a ground term of its first argument.
pub const VALUE: &str = "bam 1 / entry 'p'/2 any out / proc 'p'/2 any out -> ground full";

/// A procedure with one argument of any kind and a pool.
pub const POOL: &str = "bam 1 / entry 'p'/1 any / pool 'f'(1,'g'('a')) / proc 'p'/1 any -> any";

/// A procedure with one argument of any kind, in code that catches.
pub const CATCHING: &str = "bam 2 / entry 'p'/1 any / proc 'p'/1 any -> any";

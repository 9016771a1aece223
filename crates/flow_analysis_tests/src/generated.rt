use crate::generator::Generator;
use crate::rounds::{are_same, rounds};
use flow_analysis::analyse;
use flow_equations::facts::Facts;
use std::test::Fail;

/// How many programs are generated.
const PROGRAMS: u32 = 4000;

/// How many predicates of a program are called and come to an end.
fn succeeding(facts: &Facts) -> u64 {
    let mut count = 0u64;
    for predicate in facts.as_slice() {
        if predicate.reached && !predicate.never_succeeds() {
            count = count.saturating_add(1);
        }
    }
    count
}

#[test]
fn rounds_give_the_same(rt: HostRuntime) -> Result<(), Fail> {
    let mut succeeded = 0u64;
    for seed in 0..PROGRAMS {
        let mut generator = Generator::new(rt.alloc(), seed.wrapping_mul(7919));
        let kernel = generator.kernel()?;
        let entries = generator.entries()?;
        let facts = analyse(rt.alloc(), &kernel, &entries)?;
        let others = rounds(rt.alloc(), &kernel, &entries)?;
        let agree = are_same(facts.as_slice(), others.as_slice());
        assert!(rt; agree, "of seed {seed}");
        succeeded = succeeded.saturating_add(succeeding(&facts));
    }
    // what never succeeds would be no test
    assert!(rt; succeeded > u64::from(PROGRAMS));
    Ok(())
}

use crate::harness::runs;
use std::test::Fail;

const HOLES: &str = "\
bam 1 / entry 'p'/2 any out / proc 'p'/2 any out -> any any / fill r1 r0 / return / end | p(X,Y) | 7 2 0 0 0 | X = _0 / Y = _0 / ; / no / % code 2 steps 7 choices 0
bam 1 / entry 'p'/2 out any / proc 'p'/2 out any -> any any / fill r0 r1 / return / end | p(Y,X) | 7 2 0 0 0 | Y = _0 / X = _0 / ; / no / % code 2 steps 7 choices 0
bam 1 / entry 'p'/1 out / proc 'p'/1 out -> full / try 1 0 / fill r0 1 / return / alt 0 - r0:hole:full=a0 / trust / fill r0 2 / return / end | p(X) | 12 1 0 9 1 | X = 1 / ; / X = 2 / ; / no / % code 6 steps 12 choices 1
bam 1 / entry 'p'/1 out / proc 'p'/1 out -> any / allocate 1 / hole r1 full / move y0 r0 / move r0 r1 / call 'q'/1 / str r1 'f'/1 / push 'a' / move r2 y0 / fill r2 r1 / deallocate / return / end / proc 'q'/1 out -> full / fill r0 'b' / return / end | p(X) | 17 4 3 0 0 | X = f(a) / ; / no / % code 13 steps 17 choices 0
bam 1 / entry 'p'/1 out / proc 'p'/1 out -> full / lst r1 / push 1 / hole r2 full / fill r0 r1 / move r0 r2 / exec 'q'/1 / end / proc 'q'/1 out -> full / fill r0 '[]' / return / end | p(X) | 13 3 0 0 0 | X = [1] / ; / no / % code 8 steps 13 choices 0";

#[test]
fn results_travel_through_holes(rt: HostRuntime) -> Result<(), Fail> {
    runs(&rt, rt.alloc(), HOLES)
}

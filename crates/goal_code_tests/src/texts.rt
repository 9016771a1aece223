//! Programs with the lines of their procedures, found by hand.

use crate::harness::text_of_code;
use std::alloc::Global;
use std::process::Abort;
use std::test::Fail;

/// Each program is followed by lines that begin with `> `, which its code has in a row behind the entries and the pool, and by an
/// empty line.
const TEXTS: &str = "\
:- entry(app(ground,ground,out)). app([],L,L). app([H|T],L,[H|R]) :- app(T,L,R).
> proc 'app'/3 full full out -> ground ground full
> switch r0 var=* atm=0 int=- lst=4 str=-
> label 0 - a0:ground a1:ground r0:atm=a0 r1:full=a1 r2:hole:full=a2
> match r0 '[]' -
> jump 2
> label 1 - a0:ground a1:ground r0:full=a0 r1:full=a1 r2:hole:full=a2
> match r0 '[]' -
> label 2 - a0:ground a1:ground r1:full=a1 r2:hole:full=a2
> fill r2 r1
> return
> label 3 - a0:ground a1:ground r0:full=a0 r1:full=a1 r2:hole:full=a2
> switch r0 var=* atm=- int=- lst=4 str=-
> label 4 - a0:ground a1:ground r0:flst=a0 r1:full=a1 r2:hole:full=a2
> load r64 r0 0
> load r65 r0 1
> lst r67
> push r64
> hole r66 full
> fill r2 r67
> move r0 r65
> move r2 r66
> exec 'app'/3
> end

:- entry(p(ground)). p([a|_]). p([_|T]) :- p(T).
> proc 'p'/1 full -> ground
> switch r0 var=* atm=- int=- lst=0 str=-
> label 0 - a0:ground r0:flst=a0
> try 1 1
> jump 3
> alt 1 - a0:ground r0:flst=a0
> trust
> jump 5
> label 2 - a0:ground r0:full=a0
> switch r0 var=* atm=- int=- lst=3 str=-
> label 3 - a0:ground r0:flst=a0
> load r65 r0 0
> match r65 'a' -
> return
> label 4 - a0:ground r0:full=a0
> switch r0 var=* atm=- int=- lst=5 str=-
> label 5 - a0:ground r0:flst=a0
> load r65 r0 1
> move r0 r65
> exec 'p'/1
> end

:- entry(p(any)). p(f(X)) :- q(X). p(g(Y,Y)) :- q(Y). q(_).
> proc 'p'/1 any -> nonvar
> deref r0 r0
> switch r0 var=0 atm=- int=- lst=- str=2
> label 0 - a0:any r0:any=a0
> try 1 1
> jump 4
> alt 1 - a0:any r0:any=a0
> trust
> jump 9
> label 2 - a0:nonvar r0:direct=a0
> functor r0 'f'/1 3
> jump 7
> label 3 - a0:nonvar r0:direct=a0
> functor r0 'g'/2 -
> jump 10
> label 4 - a0:any r0:any=a0
> deref r0 r0
> switch r0 var=5 atm=- int=- lst=- str=6
> label 5 - a0:any r0:var=a0
> str r65 'f'/1
> push_new r64
> bind r0 r65
> jump 8
> label 6 - a0:nonvar r0:direct=a0
> functor r0 'f'/1 -
> label 7 - a0:nonvar r0:str:'f'/1=a0
> load r64 r0 1
> label 8 - a0:nonvar r0:nonvar=a0 r64:any
> move r0 r64
> exec 'q'/1
> label 9 - a0:any r0:any=a0
> label 10 - a0:any r0:any=a0
> fresh r64
> deref r0 r0
> switch r0 var=11 atm=- int=- lst=- str=12
> label 11 - a0:any r0:var=a0 r64:any
> str r65 'g'/2
> push r64
> push r64
> bind r0 r65
> jump 13
> label 12 - a0:nonvar r0:direct=a0 r64:any
> functor r0 'g'/2 -
> load r65 r0 1
> unify r65 r64
> load r65 r0 2
> unify r65 r64
> label 13 - a0:nonvar r0:nonvar=a0 r64:any
> move r0 r64
> exec 'q'/1
> end

:- entry(p(any,any)). p(A,B) :- q(B,A). q(_,_).
> proc 'p'/2 any any -> any any
> move r64 r1
> move r65 r0
> move r0 r64
> move r1 r65
> exec 'q'/2
> end

:- entry(p(out)). p(X) :- q(X), !. q(1). q(2).
> proc 'p'/1 out -> full
> mark r1
> allocate 3
> move y0 r0
> move y1 r1
> hole r0 full
> move y2 r0
> call 'q'/1
> cut y1
> move r64 y0
> fill r64 y2
> deallocate
> return
> end

:- entry(p(any)). p(X) :- catch(q(X),E,r(E,X)). q(_). r(_,_).
> proc 'p'/1#1/1 any -> any
> move r64 r0
> move r0 r64
> catch 1 0
> allocate 1
> move r0 r64
> call 'p'/1#2/1
> uncatch
> deallocate
> return
> ball 0 - a0:any r0:any=a0
> move r64 r1
> move r1 r0
> move r0 r64
> exec 'p'/1#3/2
> end

:- entry(p(any,out)). p(X,Y) :- Y is X * 2 - 3.
> proc 'p'/2 any out -> ground full
> eval r64 r0
> arith mul r64 r64 2
> arith sub r64 r64 3
> fill r1 r64
> return
> end

:- entry(p(any)). p(X) :- q(f(X)), r. r.
> pool 'error'('existence_error'('procedure','/'('q',1)),'[]')
> proc 'p'/1 any -> ground
> str r64 'f'/1
> push r0
> raise #0
> end
";

/// The code of a program has these lines in a row.
fn assert_lines(rt: &impl Abort, alloc: Global, program: &str, lines: &str) -> Result<(), Fail> {
    let text = text_of_code(alloc, program)?;
    let found = text.as_str();
    let has = found.contains(lines);
    assert!(rt; has, "{program}wanted {lines}found {found}");
    Ok(())
}

#[test]
fn lines_are_as_found_by_hand(rt: HostRuntime) -> Result<(), Fail> {
    let alloc = rt.alloc();
    let mut program = String::new(alloc);
    let mut lines = String::new(alloc);
    for line in TEXTS.lines() {
        if line.is_empty() {
            assert_lines(&rt, alloc, program.as_str(), lines.as_str())?;
            lines = String::new(alloc);
        } else if let Some(wanted) = line.strip_prefix("> ") {
            lines.push_str(wanted)?;
            lines.push_str("\n")?;
        } else {
            program = String::from_str(alloc, line)?;
        }
    }
    assert_lines(&rt, alloc, program.as_str(), lines.as_str())
}

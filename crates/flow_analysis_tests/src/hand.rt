use crate::notation::read_kernel;
use crate::rounds::{are_same, rounds};
use facts_text::facts_text;
use flow_analysis::analyse;
use std::alloc::Global;
use std::process::Abort;
use std::test::Fail;

/// Kernel programs, each followed by the lines of its facts, which begin with `>`, and an empty line.
const PROGRAMS: &str = "\
:- entry(p(out)). p(A) :- A = 1.
> p/1 call out success full

:- entry(p(ground)). p(A) :- A = a.
> p/1 call full success ground

:- entry(p(nonvar)). p(A) :- A = a.
> p/1 call direct success ground

:- entry(p(any)). p(A) :- A = a.
> p/1 call any success ground

:- entry(p(out)). p(A) :- A = f(1,g(b)).
> p/1 call out success full

:- entry(p(any)). p(A) :- A = f(1,g(b)).
> p/1 call any success ground

:- entry(p(out)). p(A).
> p/1 call out success any

:- entry(p(nonvar)). p(A).
> p/1 call direct success nonvar

:- entry(p(any)). p(A).
> p/1 call any success any

:- entry(p(out,out)). p(A,B) :- A = B.
> p/2 call out out success any any

:- entry(p(ground,out)). p(A,B) :- A = B.
> p/2 call full out success ground full

:- entry(p(ground,out)). p(A,B) :- B = A.
> p/2 call full out success ground full

:- entry(p(ground,any)). p(A,B) :- A = B.
> p/2 call full any success ground ground

:- entry(p(nonvar,any)). p(A,B) :- A = B.
> p/2 call direct any success nonvar nonvar

:- entry(p(nonvar,ground)). p(A,B) :- A = B, q(A,B). q(C,D).
> p/2 call direct full success ground ground
> q/2 call gdirect full success ground ground

:- entry(p(out)). p(A) :- A = A.
> p/1 call out success any

:- entry(p(nonvar)). p(A) :- A = A, q(A). q(B).
> p/1 call direct success nonvar
> q/1 call direct success nonvar

:- entry(p(ground,out)). p(A,B) :- B = f(A,1).
> p/2 call full out success ground full

:- entry(p(any,out)). p(A,B) :- atom(A), B = f(A).
> p/2 call any out success ground gdirect

:- entry(p(any,out)). p(A,B) :- B = f(A).
> p/2 call any out success any direct

:- entry(p(out)). p(A) :- A = f(B), q(B). q(C).
> p/1 call out success direct
> q/1 call out success any

:- entry(p(out)). p(A) :- A = f(B), q(B), r(A). q(C). r(D).
> p/1 call out success direct
> q/1 call any success any
> r/1 call direct success nonvar

:- entry(p(ground,out)). p(A,B) :- A = f(B).
> p/2 call full out success ground full

:- entry(p(any,out)). p(A,B) :- atomic(A), A = f(B).
> p/2 call any out success ground ground

:- entry(p(nonvar,out)). p(A,B) :- atomic(A), A = f(B).
> p/2 call direct out success ground ground

:- entry(p(ground,any)). p(A,B) :- A = f(B).
> p/2 call full any success ground ground

:- entry(p(ground,nonvar)). p(A,B) :- A = f(B), q(B). q(C).
> p/2 call full direct success ground ground
> q/1 call gdirect success ground

:- entry(p(any,out)). p(A,B) :- A = f(B).
> p/2 call any out success nonvar any

:- entry(p(nonvar,ground)). p(A,B) :- A = f(B), q(A,B). q(C,D).
> p/2 call direct full success nonvar ground
> q/2 call direct full success nonvar ground

:- entry(p(out)). p(A) :- A = f(B,B).
> p/1 call out success direct

:- entry(p(ground)). p(A) :- A = f(B,B), q(B). q(C).
> p/1 call full success ground
> q/1 call ground success ground

:- entry(p(ground)). p(A) :- A = f(B), q(B). q(C).
> p/1 call full success ground
> q/1 call full success ground

:- entry(p(ground)). p(A) :- A = f(g(B),h(B,C)), q(B,C). q(D,E).
> p/1 call full success ground
> q/2 call ground full success ground ground

:- entry(p(out)). p(A) :- A = f(A).
> p/1 call out success nonvar

:- entry(p(any)). p(A) :- A = f(A,B), q(B). q(C).
> p/1 call any success nonvar
> q/1 call any success any

:- entry(p). p :- q(1,a). q(A,B).
> p/0 call success
> q/2 call full full success ground ground

:- entry(p(out)). p(A) :- q(A). q(B) :- B = 1.
> p/1 call out success full
> q/1 call out success full

:- entry(p). p :- q(A,A). q(B,C).
> p/0 call success
> q/2 call any any success any any

:- entry(p(out)). p(A) :- q(A,A). q(B,C) :- B = 1.
> p/1 call out success ground
> q/2 call any any success ground any

:- entry(p). p :- q(A), q(1). q(B).
> p/0 call success
> q/1 call any success any

:- entry(p(out,ground)). p(A,B) :- q(A), q(B). q(C) :- C = 1.
> p/2 call out full success ground ground
> q/1 call any success ground

:- entry(p(nonvar)). p(A) :- q(A), q(1). q(B).
> p/1 call direct success nonvar
> q/1 call direct success nonvar

:- entry(p(nonvar,any)). p(A,B) :- q(A), atom(B), q(B). q(C).
> p/2 call direct any success nonvar ground
> q/1 call nonvar success nonvar

:- entry(p(nonvar)). p(A) :- q(A), r(A). q(B) :- atom(B). r(C).
> p/1 call direct success ground
> q/1 call direct success ground
> r/1 call gdirect success ground

:- entry(p(out)). p(A) :- A = 1. p(A) :- A = f(B).
> p/1 call out success direct

:- entry(p(out,any)). p(A,B) :- A = f(C). p(A,B) :- atom(B), A = B.
> p/2 call out any success nonvar any

:- entry(p(out)). p(A) :- q(A), r(A). q(B) :- q(B). r(C).
> p/1 call out success bot
> q/1 call out success bot

:- entry(p). p :- q, r(1). q :- q. r(A).
> p/0 call success
> q/0 call success
> r/1 call full success ground

:- entry(p(out)). p(A) :- u(A), q(A). q(B).
> p/1 call out success bot

:- entry(p(out)). p(A) :- fail, q(A). p(A) :- A = 1. q(B).
> p/1 call out success full

:- entry(p(out)). p(A) :- throw(f(A)), q(A). p(A) :- A = 1. q(B).
> p/1 call out success full

:- entry(p(ground)). p(A) :- q(A), fail. q(B).
> p/1 call full success bot
> q/1 call full success ground

:- entry(p(out)). p(A) :- !, A = 1.
> p/1 call out success full

:- entry(p(ground,out)). p(A,B) :- B is A+1.
> p/2 call full out success ground full

:- entry(p(any,any)). p(A,B) :- B is A+1.
> p/2 call any any success ground ground

:- entry(p(out,out)). p(A,B) :- B is A+1.
> p/2 call out out success ground full

:- entry(p(out)). p(A) :- A is A+1.
> p/1 call out success ground

:- entry(p(any)). p(A) :- 3 is A.
> p/1 call any success ground

:- entry(p(ground,nonvar)). p(A,B) :- B is A*A, q(A,B). q(C,D).
> p/2 call full direct success ground ground
> q/2 call full gdirect success ground ground

:- entry(p(any,out)). p(A,B) :- A < B.
> p/2 call any out success ground ground

:- entry(p(any,nonvar)). p(A,B) :- A =:= B+1.
> p/2 call any direct success ground ground

:- entry(p(any,any,any,any)). p(A,B,C,D) :- A =< 1, B > 1, C >= 1, D =\\= 1.
> p/4 call any any any any success ground ground ground ground

:- entry(p(any,any,any,any)). p(A,B,C,D) :- atom(A), integer(B), number(C), atomic(D).
> p/4 call any any any any success ground ground ground ground

:- entry(p(any,out)). p(A,B) :- nonvar(A), compound(B).
> p/2 call any out success nonvar nonvar

:- entry(p(ground)). p(A) :- compound(A), q(A). q(B).
> p/1 call full success ground
> q/1 call full success ground

:- entry(p(nonvar)). p(A) :- atom(A), q(A). q(B).
> p/1 call direct success ground
> q/1 call gdirect success ground

:- entry(p(any,out,out)). p(A,B,C) :- functor(A,B,C).
> p/3 call any out out success nonvar ground ground

:- entry(p(out)). p(A) :- functor(A,A,1).
> p/1 call out success ground

:- entry(p(out,any,out)). p(A,B,C) :- arg(A,B,C).
> p/3 call out any out success ground nonvar any

:- entry(p(out,any)). p(A,B) :- A =.. B.
> p/2 call out any success nonvar nonvar

:- entry(p(out,out,any)). p(A,B,C) :- compare(A,B,C).
> p/3 call out out any success ground any any

:- entry(p(any)). p(A) :- put_char(A).
> p/1 call any success ground

:- entry(p(out,out,out,any)). p(A,B,C,D) :- write(A), var(B), A == C, copy_term(D,B), nl.
> p/4 call out out out any success any any any any

:- entry(p(out,ground)). p(A,B) :- A @< B, q(A,B). q(C,D).
> p/2 call out full success any ground
> q/2 call any full success any ground

:- entry(p(out,out,ground)). p(A,B,C) :- A @>= B, writeq(C), A \\== 1, q(C). q(D).
> p/3 call out out full success any any ground
> q/1 call full success ground

:- entry(p(any)). p(A) :- A = f(B), q(B). q(C).
> p/1 call any success nonvar
> q/1 call any success any

:- entry(p(ground)). p(A) :- B = f(A), q(B). q(C).
> p/1 call full success ground
> q/1 call full success ground

:- entry(p(out)). p(A) :- B = f(A), q(A). q(C).
> p/1 call out success any
> q/1 call any success any

:- entry(p(out,out)). p(A,B) :- A = f(C), B = C.
> p/2 call out out success direct any

:- entry(p(out,out)). p(A,B) :- B = C, A = f(C).
> p/2 call out out success direct any

:- entry(p(out)). p(A) :- A = f(B), B is 1+1.
> p/1 call out success full

:- entry(p(any)). p(A) :- A = f(B), B is 1+1.
> p/1 call any success nonvar

:- entry(p(out)). p(A) :- A = f(B), A = f(C), q(B,C). q(D,E).
> p/1 call out success direct
> q/2 call any any success any any

:- entry(p(out)). p(A) :- A = B, q(B). q(C) :- C = 1.
> p/1 call out success full
> q/1 call out success full

:- entry(p(out)). p(A) :- A = 1, write(A).
> p/1 call out success full

:- entry(app(ground,ground,out)).
app(A,B,C) :- A = [], C = B.
app(A,B,C) :- A = [H|T], C = [H|R], app(T,B,R).
> app/3 call full full out success ground ground full

:- entry(app(out,out,ground)).
app(A,B,C) :- A = [], C = B.
app(A,B,C) :- A = [H|T], C = [H|R], app(T,B,R).
> app/3 call out out full success full full ground

:- entry(len(ground,out)).
len(A,B) :- A = [], B = 0.
len(A,B) :- A = [C|T], len(T,M), B is M+1.
> len/2 call full out success ground full

:- entry(len(any,out)).
len(A,B) :- A = [], B = 0.
len(A,B) :- A = [C|T], len(T,M), B is M+1.
> len/2 call any out success nonvar full

:- entry(rev(ground,ground,out)).
rev(A,B,C) :- A = [], C = B.
rev(A,B,C) :- A = [H|T], D = [H|B], rev(T,D,C).
> rev/3 call full full out success ground ground full

:- entry(e(ground)).
e(A) :- A = 0.
e(A) :- A = s(B), o(B).
o(A) :- A = s(B), e(B).
> e/1 call full success ground
> o/1 call full success ground

:- entry(a(out)).
a(A) :- b(A).
a(A) :- A = 1.
b(A) :- a(A).
b(A) :- A = f(C).
> a/1 call out success direct
> b/1 call out success direct

:- entry(p(ground)).
p(A) :- A = 0.
p(A) :- B = f(C,A), p(B).
> p/1 call direct success nonvar

:- entry(p(ground)). :- entry(q(out)).
p(A) :- q(A).
q(B) :- B = 1.
> p/1 call full success ground
> q/1 call any success ground

:- entry(p). p. r(A) :- p.
> p/0 call success

:- entry(p(ground)). p(A) :- A = a, write(1). p(A) :- A = b, fail. p(A) :- A = c.
> p/1 call full success ground

:- entry('P q'(out)). 'P q'(A) :- A = 1.
> 'P q'/1 call out success full

:- entry(+(out,out)). +(A,B) :- A = 1, B = 2.
> +/2 call out out success full full

:- entry(p(out)).
p(A) :- 'p/1#1/2bar'(A).
'p/1#1/2bar'(A,B) :- q(A), cut_to(B).
'p/1#1/2bar'(A,B) :- A = 0.
q(A) :- A = 1.
> p/1 call out success full
> p/1#1/2 call out bar success full bar
> q/1 call out success full

:- entry(p(out)).
p(A) :- 'p/1#1/2bar'(A).
'p/1#1/2bar'(A,B) :- 'p/1#2/2bar'(A,B), r(A).
'p/1#2/2bar'(A,B) :- q(A), cut_to(B).
q(A) :- A = 1.
r(A).
> p/1 call out success full
> p/1#1/2 call out bar success full bar
> p/1#2/2 call out bar success full bar
> q/1 call out success full
> r/1 call full success ground

:- entry(p).
p :- 'p/0#1/1bar'.
'p/0#1/1bar'(B) :- q, cut_to(B).
'p/0#1/1bar'(B) :- fail.
q :- fail.
> p/0 call success
> p/0#1/1 call bar success bar
> q/0 call success

:- entry(p(out)).
p(A) :- 'p/1#1/1'(A).
p(A) :- A = 7.
'p/1#1/1'(A) :- q(B), B > 1, !, A = B.
'p/1#1/1'(A) :- A = 0.
q(A) :- A = 1.
q(A) :- A = 2.
> p/1 call out success full
> p/1#1/1 call out success full
> q/1 call out success full

:- entry(p(out)).
p(A) :- 'p/1#1/1'(A), q(A).
'p/1#1/1'(A) :- A = a, !, fail.
'p/1#1/1'(A).
q(A) :- A = c.
> p/1 call out success ground
> p/1#1/1 call out success any
> q/1 call any success ground

:- entry(p(out)).
p(A) :- 'p/1#1/1'(A).
'p/1#1/1'(A) :- catch('p/1#2/1'(A),'p/1#3/2'(A)).
'p/1#2/1'(A) :- q(A).
'p/1#3/2'(A,B) :- A = C, !, B = c(C).
'p/1#3/2'(A,B) :- throw(A).
q(A) :- A = 1.
q(A) :- throw(b).
> p/1 call out success any
> p/1#1/1 call out success any
> p/1#2/1 call any success ground
> p/1#3/2 call any any success any nonvar
> q/1 call any success ground

:- entry(p(ground)).
p(A) :- 'p/1#1/1'(A), q(A).
'p/1#1/1'(A) :- catch('p/1#2/1'(A),'p/1#3/2'(A)).
'p/1#2/1'(A) :- fail.
'p/1#3/2'(A,B).
q(A).
> p/1 call full success ground
> p/1#1/1 call full success ground
> p/1#2/1 call full success bot
> p/1#3/2 call any full success any ground
> q/1 call full success ground
";

/// The lines of the facts of a kernel program, on which the rounds agree.
pub fn lines_of(rt: &impl Abort, alloc: Global, program: &str) -> Result<String, Fail> {
    let written = read_kernel(alloc, program)?;
    let facts = analyse(alloc, &written.kernel, &written.entries)?;
    let others = rounds(alloc, &written.kernel, &written.entries)?;
    let agree = are_same(facts.as_slice(), others.as_slice());
    assert!(rt; agree, "rounds of {program}");
    Ok(String::from_utf8(facts_text(alloc, &facts, &written.atoms)?)?)
}

/// Programs as they are read off the table.
#[derive(Drop)]
struct Table {
    alloc: Global,
    program: String,
    lines: String,
    count: usize,
}

impl Table {
    fn new(alloc: Global) -> Table {
        Table {
            alloc,
            program: String::new(alloc),
            lines: String::new(alloc),
            count: 0,
        }
    }

    fn take(&mut self, rt: &impl Abort, line: &str) -> Result<(), Fail> {
        if line.is_empty() {
            return self.compare(rt);
        }
        match line.strip_prefix("> ") {
            Some(facts) => {
                self.lines.push_str(facts)?;
                self.lines.push_str("\n")?;
            }
            None => {
                self.program.push_str(line)?;
                self.program.push_str("\n")?;
            }
        }
        Ok(())
    }

    fn compare(&mut self, rt: &impl Abort) -> Result<(), Fail> {
        let program = self.program.as_str();
        let found = lines_of(rt, self.alloc, program)?;
        let agree = found.as_str() == self.lines.as_str();
        let wanted = self.lines.as_str();
        let found = found.as_str();
        assert!(rt; agree, "{program}wanted {wanted}found {found}");
        self.count = self.count.saturating_add(1);
        self.program = String::new(self.alloc);
        self.lines = String::new(self.alloc);
        Ok(())
    }
}

#[test]
fn facts_are_those_found_by_hand(rt: HostRuntime) -> Result<(), Fail> {
    let mut table = Table::new(rt.alloc());
    for line in PROGRAMS.lines() {
        table.take(&rt, line)?;
    }
    table.compare(&rt)?;
    assert_eq!(rt; table.count, 105);
    Ok(())
}

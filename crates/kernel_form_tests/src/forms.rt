use crate::harness::kernel_of;
use std::alloc::Global;
use std::process::Abort;
use std::test::Fail;

/// What stands behind each program of a table, with its kernel form.
const ENTRY: &str = " :- entry(main). main.";

const ENTRY_FORM: &str = "main/0.\n";

/// Takes each program of a table, which stands before the lines of its kernel form and an empty line.
fn assert_forms(rt: &impl Abort, alloc: Global, table: &str) -> Result<(), Fail> {
    for row in table.split("\n\n") {
        let (program, form) = row.split_once('\n').ok_or("no form")?;
        let text = format!(in alloc; "{program}{ENTRY}")?;
        let wanted = format!(in alloc; "{form}\n{ENTRY_FORM}")?;
        let given = kernel_of(rt, alloc, text.as_str())?;
        assert_eq!(rt; given.as_str(), wanted.as_str(), "{program}");
    }
    Ok(())
}

const ARGUMENTS_OF_HEADS: &str = "\
p.
p/0.

p(X).
p/1(_0).

p(X,Y,Z).
p/3(_0,_1,_2).

p(7).
p/1(_0) :- _0 = 7.

p(a,X,b).
p/3(_0,_1,_2) :- _0 = a, _2 = b.

p(X,X).
p/2(_0,_1) :- _1 = _0.

p(f(X),X).
p/2(_0,_1) :- _0 = f(_2), _1 = _2.

p(X,f(X)).
p/2(_0,_1) :- _1 = f(_0).

p(X,f(X,Y),Y) :- q(Y).
p/3(_0,_1,_2) :- _1 = f(_0,_3), _2 = _3, undefined q/1(_3).

p([H|T],[]) :- q(T).
p/2(_0,_1) :- _0 = [_2|_3], _1 = [], undefined q/1(_3).

p(_,_) :- q.
p/2(_0,_1) :- undefined q/0.";

#[test]
fn arguments_of_heads(rt: HostRuntime) -> Result<(), Fail> {
    assert_forms(&rt, rt.alloc(), ARGUMENTS_OF_HEADS)
}

const NAMES_AND_CALLS: &str = "\
'A b'. -(X) :- 'A b'.
'A b'/0.
(-)/1(_0) :- 'A b'/0.

p(1). q. p(2).
p/1(_0) :- _0 = 1.
p/1(_0) :- _0 = 2.
q/0.

p :- p(1), p. p(X) :- p.
p/0 :- p/1(1), p/0.
p/1(_0) :- p/0.

p(X) :- q(X,X). q(A,B).
p/1(_0) :- q/2(_0,_0).
q/2(_0,_1).

p :- true.
p/0.

p :- q, true, q, (true, true). q.
p/0 :- q/0, q/0.
q/0.

p :- fail.
p/0 :- fail.

p :- !, nl, !.
p/0 :- !, nl, !.

p :- (a, b), (c, d).
p/0 :- undefined a/0, undefined b/0, undefined c/0, undefined d/0.";

#[test]
fn names_and_calls(rt: HostRuntime) -> Result<(), Fail> {
    assert_forms(&rt, rt.alloc(), NAMES_AND_CALLS)
}

const EQUATIONS: &str = "\
p(X,Y) :- X = Y.
p/2(_0,_1) :- _0 = _1.

p(X,Y) :- Y = X.
p/2(_0,_1) :- _1 = _0.

p(X) :- f(Y) = X.
p/1(_0) :- _0 = f(_1).

p(X) :- 1 = X, X = 2.
p/1(_0) :- _0 = 1, _0 = 2.

p(X) :- f(X) = g(Y).
p/1(_0) :- _1 = f(_0), _1 = g(_2).

p :- a = a.
p/0 :- _0 = a, _0 = a.

p :- X = X.
p/0 :- _0 = _0.";

#[test]
fn equations(rt: HostRuntime) -> Result<(), Fail> {
    assert_forms(&rt, rt.alloc(), EQUATIONS)
}

const ARGUMENTS_OF_GOALS: &str = "\
p(X) :- q(f(X),a,g(X,Y),Y). q(_,_,_,_).
p/1(_0) :- _1 = f(_0), _2 = g(_0,_3), q/4(_1,a,_2,_3).
q/4(_0,_1,_2,_3).

p :- q(f(a),[]). q(_,_).
p/0 :- _0 = f(a), q/2(_0,[]).
q/2(_0,_1).

p(X) :- functor(f(X),N,3), write(g(N)).
p/1(_0) :- _1 = f(_0), functor(_1,_2,3), _3 = g(_2), write(_3).

p(X) :- f(X) == g(X), X @< a.
p/1(_0) :- _1 = f(_0), _2 = g(_0), _1 == _2, _0 @< a.

p(X) :- X =.. [f,a].
p/1(_0) :- _1 = [f,a], _0 =.. _1.

p(X,Y) :- X is Y+1*2, Y < X-1.
p/2(_0,_1) :- _0 is _1+1*2, _1 < _0-1.

p(X) :- f(Y) is X+Y, 3 is X.
p/1(_0) :- _1 = f(_2), _1 is _0+_2, 3 is _0.

p(X) :- f(X) =:= g(1), X >= 1, 1 =\\= X.
p/1(_0) :- f(_0) =:= g(1), _0 >= 1, 1 =\\= _0.

p(X) :- throw(f(X,Y)).
p/1(_0) :- throw(f(_0,_1)).

p :- q(f(X)), q(f(X)).
p/0 :- _0 = f(_1), undefined q/1(_0), _2 = f(_1), undefined q/1(_2).";

#[test]
fn arguments_of_goals(rt: HostRuntime) -> Result<(), Fail> {
    assert_forms(&rt, rt.alloc(), ARGUMENTS_OF_GOALS)
}

const ALTERNATIVES: &str = "\
p(X) :- q(X) ; r(X,Y).
p/1(_0) :- p/1#1/1(_0).
p/1#1/1(_0) :- undefined q/1(_0).
p/1#1/1(_0) :- undefined r/2(_0,_1).

p :- a ; b ; c.
p/0 :- p/0#1/0.
p/0#1/0 :- undefined a/0.
p/0#1/0 :- undefined b/0.
p/0#1/0 :- undefined c/0.

p :- (a ; b) ; c.
p/0 :- p/0#1/0.
p/0#1/0 :- p/0#2/0.
p/0#1/0 :- undefined c/0.
p/0#2/0 :- undefined a/0.
p/0#2/0 :- undefined b/0.

p :- a ; (b ; c), d ; true.
p/0 :- p/0#1/0.
p/0#1/0 :- undefined a/0.
p/0#1/0 :- p/0#2/0, undefined d/0.
p/0#1/0.
p/0#2/0 :- undefined b/0.
p/0#2/0 :- undefined c/0.

p :- a, (b ; c), d.
p/0 :- undefined a/0, p/0#1/0, undefined d/0.
p/0#1/0 :- undefined b/0.
p/0#1/0 :- undefined c/0.

p :- (a ; b). p :- (c ; d), (e ; f).
p/0 :- p/0#1/0.
p/0 :- p/0#2/0, p/0#3/0.
p/0#1/0 :- undefined a/0.
p/0#1/0 :- undefined b/0.
p/0#2/0 :- undefined c/0.
p/0#2/0 :- undefined d/0.
p/0#3/0 :- undefined e/0.
p/0#3/0 :- undefined f/0.

p :- (a, (b ; c) ; d), (e ; f).
p/0 :- p/0#1/0, p/0#3/0.
p/0#1/0 :- undefined a/0, p/0#2/0.
p/0#1/0 :- undefined d/0.
p/0#2/0 :- undefined b/0.
p/0#2/0 :- undefined c/0.
p/0#3/0 :- undefined e/0.
p/0#3/0 :- undefined f/0.";

#[test]
fn alternatives(rt: HostRuntime) -> Result<(), Fail> {
    assert_forms(&rt, rt.alloc(), ALTERNATIVES)
}

const ARGUMENTS_OF_AUXILIARIES: &str = "\
p(A,B) :- q(B,A) ; r.
p/2(_0,_1) :- p/2#1/2(_1,_0).
p/2#1/2(_0,_1) :- undefined q/2(_0,_1).
p/2#1/2(_0,_1) :- undefined r/0.

p(A,B) :- q(A,f(B)) ; r.
p/2(_0,_1) :- p/2#1/2(_0,_1).
p/2#1/2(_0,_1) :- _2 = f(_1), undefined q/2(_0,_2).
p/2#1/2(_0,_1) :- undefined r/0.

p(A,B) :- f(B) = A ; r.
p/2(_0,_1) :- p/2#1/2(_1,_0).
p/2#1/2(_0,_1) :- _1 = f(_0).
p/2#1/2(_0,_1) :- undefined r/0.

p(a,f(B)) :- q(B) ; r.
p/2(_0,_1) :- _0 = a, _1 = f(_2), p/2#1/1(_2).
p/2#1/1(_0) :- undefined q/1(_0).
p/2#1/1(_0) :- undefined r/0.

p :- (q(X) ; r(X,Y)), (s(X,Z) ; t(Z)).
p/0 :- p/0#1/1(_0), p/0#2/1(_0).
p/0#1/1(_0) :- undefined q/1(_0).
p/0#1/1(_0) :- undefined r/2(_0,_1).
p/0#2/1(_0) :- undefined s/2(_0,_1).
p/0#2/1(_0) :- undefined t/1(_1).

p(X) :- a ; q(Y), (r(Y,X,Z) ; s(Z,Y)).
p/1(_0) :- p/1#1/1(_0).
p/1#1/1(_0) :- undefined a/0.
p/1#1/1(_0) :- undefined q/1(_1), p/1#2/2(_1,_0).
p/1#2/2(_0,_1) :- undefined r/3(_0,_1,_2).
p/1#2/2(_0,_1) :- undefined s/2(_2,_0).";

#[test]
fn arguments_of_auxiliaries(rt: HostRuntime) -> Result<(), Fail> {
    assert_forms(&rt, rt.alloc(), ARGUMENTS_OF_AUXILIARIES)
}

const CONDITIONS: &str = "\
p :- (a -> b).
p/0 :- p/0#1/0.
p/0#1/0 :- undefined a/0, !, undefined b/0.

p(X) :- (a(X) -> b ; c(X) -> d ; e).
p/1(_0) :- p/1#1/1(_0).
p/1#1/1(_0) :- undefined a/1(_0), !, undefined b/0.
p/1#1/1(_0) :- undefined c/1(_0), !, undefined d/0.
p/1#1/1(_0) :- undefined e/0.

p(X) :- (a ; b -> c).
p/1(_0) :- p/1#1/0.
p/1#1/0 :- undefined a/0.
p/1#1/0 :- undefined b/0, !, undefined c/0.

p(X) :- (a -> (b(X) -> c ; d) ; e).
p/1(_0) :- p/1#1/1(_0).
p/1#1/1(_0) :- undefined a/0, !, p/1#2/1(_0).
p/1#1/1(_0) :- undefined e/0.
p/1#2/1(_0) :- undefined b/1(_0), !, undefined c/0.
p/1#2/1(_0) :- undefined d/0.

p(X) :- ((X = 1 ; X = 2) -> a ; b).
p/1(_0) :- p/1#1/1(_0).
p/1#1/1(_0) :- p/1#2/1(_0), !, undefined a/0.
p/1#1/1(_0) :- undefined b/0.
p/1#2/1(_0) :- _0 = 1.
p/1#2/1(_0) :- _0 = 2.

p :- ((a -> b) -> c ; d).
p/0 :- p/0#1/0.
p/0#1/0 :- p/0#2/0, !, undefined c/0.
p/0#1/0 :- undefined d/0.
p/0#2/0 :- undefined a/0, !, undefined b/0.

p(X) :- (q(Y), Y > 1 -> X = Y ; X = 0). p(7). q(1). q(2). q(3).
p/1(_0) :- p/1#1/1(_0).
p/1(_0) :- _0 = 7.
p/1#1/1(_0) :- q/1(_1), _1 > 1, !, _0 = _1.
p/1#1/1(_0) :- _0 = 0.
q/1(_0) :- _0 = 1.
q/1(_0) :- _0 = 2.
q/1(_0) :- _0 = 3.";

#[test]
fn conditions(rt: HostRuntime) -> Result<(), Fail> {
    assert_forms(&rt, rt.alloc(), CONDITIONS)
}

const NEGATIONS: &str = "\
p(X) :- \\+ q(X).
p/1(_0) :- p/1#1/1(_0).
p/1#1/1(_0) :- undefined q/1(_0), !, fail.
p/1#1/1(_0).

p(X,Y) :- X \\= Y.
p/2(_0,_1) :- p/2#1/2(_0,_1).
p/2#1/2(_0,_1) :- _0 = _1, !, fail.
p/2#1/2(_0,_1).

p(X) :- f(X) \\= g(Y).
p/1(_0) :- p/1#1/1(_0).
p/1#1/1(_0) :- _1 = f(_0), _1 = g(_2), !, fail.
p/1#1/1(_0).

p(A,B) :- f(A) \\= B.
p/2(_0,_1) :- p/2#1/2(_0,_1).
p/2#1/2(_0,_1) :- _1 = f(_0), !, fail.
p/2#1/2(_0,_1).

p :- \\+ \\+ a.
p/0 :- p/0#1/0.
p/0#1/0 :- p/0#2/0, !, fail.
p/0#1/0.
p/0#2/0 :- undefined a/0, !, fail.
p/0#2/0.

p :- \\+ (a ; b).
p/0 :- p/0#1/0.
p/0#1/0 :- p/0#2/0, !, fail.
p/0#1/0.
p/0#2/0 :- undefined a/0.
p/0#2/0 :- undefined b/0.

p(X) :- \\+ (q(X), !).
p/1(_0) :- p/1#1/1(_0).
p/1#1/1(_0) :- p/1#2/1(_0), !, fail.
p/1#1/1(_0).
p/1#2/1(_0) :- undefined q/1(_0), !.";

#[test]
fn negations(rt: HostRuntime) -> Result<(), Fail> {
    assert_forms(&rt, rt.alloc(), NEGATIONS)
}

const CUTS: &str = "\
p(X) :- (q(X), ! ; X = 0). q(1).
p/1(_0) :- p/1#1/2(_0|depth).
p/1#1/2(_0|bar) :- q/1(_0), !(bar).
p/1#1/2(_0|bar) :- _0 = 0.
q/1(_0) :- _0 = 1.

p(X) :- (a ; (b ; !, X = 1), c).
p/1(_0) :- p/1#1/2(_0|depth).
p/1#1/2(_0|bar) :- undefined a/0.
p/1#1/2(_0|bar) :- p/1#2/2(_0|bar), undefined c/0.
p/1#2/2(_0|bar) :- undefined b/0.
p/1#2/2(_0|bar) :- !(bar), _0 = 1.

p :- (a -> !, b ; c).
p/0 :- p/0#1/1(|depth).
p/0#1/1(|bar) :- undefined a/0, !, !(bar), undefined b/0.
p/0#1/1(|bar) :- undefined c/0.

p :- (a, ! -> b ; c).
p/0 :- p/0#1/0.
p/0#1/0 :- p/0#2/0, !, undefined b/0.
p/0#1/0 :- undefined c/0.
p/0#2/0 :- undefined a/0, !.

p :- (! -> ! ; a).
p/0 :- p/0#1/1(|depth).
p/0#1/1(|bar) :- p/0#2/0, !, !(bar).
p/0#1/1(|bar) :- undefined a/0.
p/0#2/0 :- !.

p :- ((a, ! ; b) -> c ; d).
p/0 :- p/0#1/0.
p/0#1/0 :- p/0#2/0, !, undefined c/0.
p/0#1/0 :- undefined d/0.
p/0#2/0 :- p/0#3/1(|depth).
p/0#3/1(|bar) :- undefined a/0, !(bar).
p/0#3/1(|bar) :- undefined b/0.

p :- ((!, a -> b ; c) -> d ; e).
p/0 :- p/0#1/0.
p/0#1/0 :- p/0#2/0, !, undefined d/0.
p/0#1/0 :- undefined e/0.
p/0#2/0 :- p/0#3/0, !, undefined b/0.
p/0#2/0 :- undefined c/0.
p/0#3/0 :- !, undefined a/0.

p :- ((a -> !) -> b ; c).
p/0 :- p/0#1/0.
p/0#1/0 :- p/0#2/0, !, undefined b/0.
p/0#1/0 :- undefined c/0.
p/0#2/0 :- p/0#3/1(|depth).
p/0#3/1(|bar) :- undefined a/0, !, !(bar).

p(X) :- \\+ (q(X) ; !).
p/1(_0) :- p/1#1/1(_0).
p/1#1/1(_0) :- p/1#2/1(_0), !, fail.
p/1#1/1(_0).
p/1#2/1(_0) :- p/1#3/2(_0|depth).
p/1#3/2(_0|bar) :- undefined q/1(_0).
p/1#3/2(_0|bar) :- !(bar).

p(X,Y) :- (a ; (b ; (c(Y) ; !), d), e).
p/2(_0,_1) :- p/2#1/2(_1|depth).
p/2#1/2(_0|bar) :- undefined a/0.
p/2#1/2(_0|bar) :- p/2#2/2(_0|bar), undefined e/0.
p/2#2/2(_0|bar) :- undefined b/0.
p/2#2/2(_0|bar) :- p/2#3/2(_0|bar), undefined d/0.
p/2#3/2(_0|bar) :- undefined c/1(_0).
p/2#3/2(_0|bar) :- !(bar).

p :- (a, ! ; b), (c ; d), !.
p/0 :- p/0#1/1(|depth), p/0#2/0, !.
p/0#1/1(|bar) :- undefined a/0, !(bar).
p/0#1/1(|bar) :- undefined b/0.
p/0#2/0 :- undefined c/0.
p/0#2/0 :- undefined d/0.";

#[test]
fn cuts(rt: HostRuntime) -> Result<(), Fail> {
    assert_forms(&rt, rt.alloc(), CUTS)
}

const CATCHES: &str = "\
p(X) :- catch(q(X),E,r(E)).
p/1(_0) :- p/1#1/1(_0).
p/1#1/1(_0) :- catch(p/1#2/1(_0),p/1#3/1).
p/1#2/1(_0) :- undefined q/1(_0).
p/1#3/1(_0) :- _0 = _1, !, undefined r/1(_1).
p/1#3/1(_0) :- throw(_0).

p(X,Y) :- catch(q(X,Z),e(Y,Z),r(Z,W)), s(W).
p/2(_0,_1) :- p/2#1/3(_0,_1,_2), undefined s/1(_2).
p/2#1/3(_0,_1,_2) :- catch(p/2#2/2(_0,_3),p/2#3/4(_1,_3,_2)).
p/2#2/2(_0,_1) :- undefined q/2(_0,_1).
p/2#3/4(_0,_1,_2,_3) :- _0 = e(_1,_2), !, undefined r/2(_2,_3).
p/2#3/4(_0,_1,_2,_3) :- throw(_0).

p :- catch(a,E,(b, !, c)).
p/0 :- p/0#1/0.
p/0#1/0 :- catch(p/0#2/0,p/0#3/1).
p/0#2/0 :- undefined a/0.
p/0#3/1(_0) :- _0 = _1, !, p/0#4/0.
p/0#3/1(_0) :- throw(_0).
p/0#4/0 :- undefined b/0, !, undefined c/0.

p :- catch((a, !),e,true).
p/0 :- p/0#1/0.
p/0#1/0 :- catch(p/0#2/0,p/0#3/1).
p/0#2/0 :- undefined a/0, !.
p/0#3/1(_0) :- _0 = e, !.
p/0#3/1(_0) :- throw(_0).

p :- catch((a ; !),_,(b ; !)).
p/0 :- p/0#1/0.
p/0#1/0 :- catch(p/0#2/0,p/0#3/1).
p/0#2/0 :- p/0#4/1(|depth).
p/0#3/1(_0) :- _0 = _1, !, p/0#5/0.
p/0#3/1(_0) :- throw(_0).
p/0#4/1(|bar) :- undefined a/0.
p/0#4/1(|bar) :- !(bar).
p/0#5/0 :- p/0#6/1(|depth).
p/0#6/1(|bar) :- undefined b/0.
p/0#6/1(|bar) :- !(bar).

p :- catch(catch(a,x,b),y,c).
p/0 :- p/0#1/0.
p/0#1/0 :- catch(p/0#2/0,p/0#3/1).
p/0#2/0 :- p/0#4/0.
p/0#3/1(_0) :- _0 = y, !, undefined c/0.
p/0#3/1(_0) :- throw(_0).
p/0#4/0 :- catch(p/0#5/0,p/0#6/1).
p/0#5/0 :- undefined a/0.
p/0#6/1(_0) :- _0 = x, !, undefined b/0.
p/0#6/1(_0) :- throw(_0).

p :- catch(a,_,b), ! ; c.
p/0 :- p/0#1/1(|depth).
p/0#1/1(|bar) :- p/0#2/0, !(bar).
p/0#1/1(|bar) :- undefined c/0.
p/0#2/0 :- catch(p/0#3/0,p/0#4/1).
p/0#3/0 :- undefined a/0.
p/0#4/1(_0) :- _0 = _1, !, undefined b/0.
p/0#4/1(_0) :- throw(_0).

p(X) :- q, catch(throw(X),X,fail), (a ; b).
p/1(_0) :- undefined q/0, p/1#1/1(_0), p/1#4/0.
p/1#1/1(_0) :- catch(p/1#2/1(_0),p/1#3/2(_0)).
p/1#2/1(_0) :- throw(_0).
p/1#3/2(_0,_1) :- _0 = _1, !, fail.
p/1#3/2(_0,_1) :- throw(_0).
p/1#4/0 :- undefined a/0.
p/1#4/0 :- undefined b/0.

p(X) :- (catch(a,e,b) -> X = 1 ; X = 2).
p/1(_0) :- p/1#1/1(_0).
p/1#1/1(_0) :- p/1#2/0, !, _0 = 1.
p/1#1/1(_0) :- _0 = 2.
p/1#2/0 :- catch(p/1#3/0,p/1#4/1).
p/1#3/0 :- undefined a/0.
p/1#4/1(_0) :- _0 = e, !, undefined b/0.
p/1#4/1(_0) :- throw(_0).";

#[test]
fn catches(rt: HostRuntime) -> Result<(), Fail> {
    assert_forms(&rt, rt.alloc(), CATCHES)
}

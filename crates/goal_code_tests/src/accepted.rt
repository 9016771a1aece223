//! Programs of which the code is accepted.

use crate::harness::assert_accepted;
use std::test::Fail;

/// Facts, and heads of all kinds of arguments.
const HEADS: &str = "\
:- entry(p). p.
:- entry(p). p. p.
:- entry(p(ground)). p(a).
:- entry(p(ground)). p(a). p(b). p(c).
:- entry(p(any)). p(a). p(b). p(1). p([]). p(f(x)).
:- entry(p(out)). p(a). p(b).
:- entry(p(out)). p(f(X,X)).
:- entry(p(out)). p(_).
:- entry(p(out,out)). p(X,X).
:- entry(p(any,any)). p(X,X).
:- entry(p(any,out)). p(X,X).
:- entry(p(ground,any)). p([X|Y],f(Y,X)).
:- entry(p(any)). p(f(g(X,a),[X,Y|Y],h(i(j)),1)).
:- entry(p(nonvar)). p(f(g(X,a),[X,Y|Y],h(i(j)),1)).
:- entry(p(ground)). p(f(g(X,a),[X,Y|Y],h(i(j)),1)).
:- entry(p(out)). p(f(g(X,a),[X,Y|Y],h(i(j)),1)).
:- entry(p(any)). p([a,b,c]). p([]). p([X|_]) :- p(X).
:- entry(p(ground)). p(1). p(2). p(2). p(a). p(f(1)). p(f(2)). p(g(1)). p([1]). p([2]).
:- entry(p(any)). p(1). p(2). p(2). p(a). p(f(1)). p(f(2)). p(g(1)). p([1]). p([2]).
:- entry(p(any,any)). p(a,1). p(X,2) :- p(X,1). p(c,3).
:- entry(p(nonvar)). p(a). p(b). p(f(X)) :- p(X).";

#[test]
fn heads_are_accepted(rt: HostRuntime) -> Result<(), Fail> {
    assert_accepted(&rt, rt.alloc(), HEADS)
}

/// Goals between terms.
const UNIFICATIONS: &str = "\
:- entry(p(out)). p(X) :- X = Y, atom(X), Y = a.
:- entry(p(any)). p(X) :- X = f(X).
:- entry(p(out)). p(X) :- X = f(X).
:- entry(p). p :- X = f(X).
:- entry(p(out)). p(X) :- Y = Z, Z = a, X = f(Y,Z).
:- entry(p(any,any)). p(X,Y) :- X = Y, Y = a.
:- entry(p(any,out)). p(X,Y) :- X = f(Z), Y = g(Z).
:- entry(p(any,out)). p(X,Y) :- X = f(Z,Z), Y = g(Z,W,W).
:- entry(p(nonvar,out)). p(X,Y) :- X = f(Z,[Z|T]), Y = T.
:- entry(p(ground,out)). p(X,Y) :- X = f(Z,[Z|T]), Y = T.
:- entry(p(out,out)). p(X,Y) :- X = Y.
:- entry(p(out,out)). p(X,Y) :- X = Y, Y = f(X).
:- entry(p(any,any)). p(X,Y) :- X = Z, Z = f(Y,1,a,\"x\"), Y = Z.
:- entry(p(out)). p(X) :- Y = f(A,g(A,B)), B = [1,2|C], X = C, C = A.";

#[test]
fn unifications_are_accepted(rt: HostRuntime) -> Result<(), Fail> {
    assert_accepted(&rt, rt.alloc(), UNIFICATIONS)
}

/// Calls, frames, results, and calls that give the procedure up.
const CALLS: &str = "\
:- entry(app(ground,ground,out)). app([],L,L). app([H|T],L,[H|R]) :- app(T,L,R).
:- entry(app(any,any,any)). app([],L,L). app([H|T],L,[H|R]) :- app(T,L,R).
:- entry(app(out,out,ground)). app([],L,L). app([H|T],L,[H|R]) :- app(T,L,R).
:- entry(rev(ground,out)). rev([],[]). rev([X|T],R) :- rev(T,S), app(S,[X],R). app([],L,L). app([H|T],L,[H|R]) :- app(T,L,R).
:- entry(p(any,out)). p(A,B) :- q(A,X), r(X,Y), s(Y,B). q(X,X). r(X,f(X)). s(X,g(X,Y)) :- q(Y,X).
:- entry(p(any,out)). p(A,Y) :- q(A,Z), r, Z = f(W), Y = g(V,Z), s(W,V). q(X,X). r. s(a,b). s(W,f(W)).
:- entry(p(out)). p(X) :- q(X), q(X).  q(a). q(b).
:- entry(p(out)). p(X) :- q(Y,Y), X = Y. q(a,b). q(X,X).
:- entry(p(out)). p(X) :- q(X,Y), r(Y). q(1,2). r(2). r(X) :- r(X).
:- entry(p(out,out)). p(X,Y) :- q(Y,X). q(a,b). q(X,Y) :- p(Y,X).
:- entry(p(out,out)). p(X,Y) :- q(X), q(Y). q(a). q(f(X)) :- q(X).
:- entry(p(any,any,any)). p(A,B,C) :- p(B,C,A). p(_,_,a).
:- entry(p(any,any,any)). p(A,B,C) :- q(A), p(C,A,B). p(a,_,_). q(_).
:- entry(p(any)). p(X) :- q(X), fail. p(X) :- q(f(X)). q(_).
:- entry(p(out)). p(X) :- never(X), q(X). q(a). never(X) :- never(X).
:- entry(p(out)). p(X) :- q, never(Y), X = Y. q. never(X) :- never(X).
:- entry(p(out)). p(X) :- never(X). never(X) :- never(X).
:- entry(p). p :- never. never :- never.
:- entry(p(out)). p(X) :- undefined(X, f(Y)), q(Y). q(_).
:- entry(p(out)). p(f(X,Y,Z)) :- q(X), q(Y), q(Z). q(1). q(2).
:- entry(p(any,out)). p(X,Y) :- q(X), q(f(X,Z)), r(Z,Y). q(_). r(Z,[Z,W,W]).
:- entry(p(any,out)). p(X,Y) :- q(X,Y). q(X,Y) :- r(Y,X). r(a,b). r(X,X).
:- entry(p(ground,out)). p(X,Y) :- q(X,Z), r(Z), Y = Z. q(f(X),X). r(f(_)).
:- entry(p(ground,out)). p(X,Y) :- q(X,Z), r(Z), Y = h(Z,W), r(W). q(f(X),X). r(f(_)).
:- entry(p(any,out)). p(X,Y) :- q(X,Z), r(Z), Z = f(A,b), r(A), Y = Z. q(X,f(X,_)). r(_).
:- entry(p(any,out)). p(D,C) :- q(A,C,D). p(a,b). q(A,B,C) :- q(C,B,A). q(A,D,A). q(A,A,A).
:- entry(p(out)). p(X) :- q(Y,X). p(f(X)) :- p(X). p(X) :- r(X), throw(X). q(a,b). q(f(X),[X|Y]) :- q(X,Y). r(1).
:- entry(p(any)). p(X) :- q(X,Y), throw(Y). p(X) :- q(X,Y), throw(f(Y,Z,Z,W)). q(X,X).
:- entry(p(any,any,out,out)). p(A,B,C,D) :- q(B,D,A,C). q(A,B,C,D) :- p(C,A,D,B). q(a,b,c,d).";

#[test]
fn calls_are_accepted(rt: HostRuntime) -> Result<(), Fail> {
    assert_accepted(&rt, rt.alloc(), CALLS)
}

/// Control constructs.
const CONTROL: &str = "\
:- entry(p(out)). p(X) :- q(X), !. q(1). q(2).
:- entry(p(out)). p(X) :- !, q(X). p(3). q(1). q(2).
:- entry(p(out)). p(X) :- ( q(X), ! ; X = 0 ). q(1).
:- entry(p(out)). p(X) :- r, ( q(X), r, ! ; X = 0 ), r. q(1). r.
:- entry(p(any)). p(X) :- ( X = a -> true ; X = b ).
:- entry(p(any)). p(X) :- ( q(X) -> r(X) ; q(f(X)) -> ! ; true ), r(X). q(a). q(f(_)). r(_).
:- entry(p(any)). p(X) :- \\+ X = a. p(b).
:- entry(p(out)). p(X) :- \\+ q(X), q(X). q(1).
:- entry(p(any,any)). p(X,Y) :- X \\= Y, ( q(X) ; q(Y), ! ). q(1). q(2).
:- entry(p(any)). p(X) :- \\+ ( q(X), !, fail ), q(X). q(1).
:- entry(p(any)). p(X) :- ( q(X), ( r(X), ! ; r(f(X)) ) ; ! ). q(1). r(2). r(_).
:- entry(p(out)). p(X) :- ( X = 1 ; X = 2 ; X = 3, ! ; X = 4 ).
:- entry(p(any)). p(X) :- q(X), !, r(X), !, q(X). q(1). r(_).
:- entry(p(out)). p(X) :- ( q(Y), Y > 1 -> X = Y ; X = 0 ). p(7). q(1). q(2). q(3).
:- entry(p). p :- ( a ; b ), ( c -> d ; true ). a. b. c. d.";

#[test]
fn control_is_accepted(rt: HostRuntime) -> Result<(), Fail> {
    assert_accepted(&rt, rt.alloc(), CONTROL)
}

/// Catching and throwing.
const BALLS: &str = "\
:- entry(p(out)). p(X) :- catch(q(X),E,X = c(E)). q(1). q(X) :- throw(b).
:- entry(p). p :- catch(r,a,true), throw(a). r.
:- entry(p(out)). p(X) :- catch(Y is 1 // 0,error(E,_),X = E).
:- entry(p). p :- catch(catch(throw(a),b,true),a,write(got)).
:- entry(p). p :- throw(_).
:- entry(p(any)). p(X) :- throw(X).
:- entry(p(any)). p(X) :- q(X,Y), throw(f(X,Y,Z,Z,1)). q(_,_).
:- entry(p(any)). p(X) :- throw(f(a,[1])). p(_) :- throw(3).
:- entry(p(any,out)). p(X,Y) :- catch(q(X,Z,W),f(Z,V),r(V,W,X)), Y = g(Z,W). q(_,1,_). r(_,_,_).
:- entry(p(any,out,out)). p(X,Y,Z) :- catch(q(X,Y),_,r(X,Y)). q(_,_). r(_,_).
:- entry(p(ground)). p(X) :- catch(q(X),X,( ! ; r(X) )). q(_). r(_).
:- entry(p). p :- catch(q,_,r). q. r.
:- entry(p(any)). p(X) :- catch(throw(X),Y,catch(throw(f(X,Y)),Z,q(X,Y,Z))). q(_,_,_).";

#[test]
fn balls_are_accepted(rt: HostRuntime) -> Result<(), Fail> {
    assert_accepted(&rt, rt.alloc(), BALLS)
}

/// Arithmetic and the other built-ins.
const BUILTINS: &str = "\
:- entry(len(ground,out)). len([],0). len([_|T],N) :- len(T,M), N is M+1.
:- entry(p(any,out)). p(X,Y) :- Y is X * 2 - 3 + (X // 4) rem 5 mod 6.
:- entry(p(any,out)). p(X,Y) :- Y is - X /\\ \\ X \\/ (X << 1) >> 2.
:- entry(p(any,any)). p(X,Y) :- Y is X.
:- entry(p(any,any)). p(X,Y) :- 7 is X, Y is 7, X is Y.
:- entry(p(out)). p(X) :- X is 7.
:- entry(p(out)). p(X) :- X is X + 1.
:- entry(p(out)). p(X) :- Y is f(Z,1,g(Z)) + 2, X = Y, q(Z). q(_).
:- entry(p(out)). p(X) :- X is a.
:- entry(p(out)). p(X) :- X is [1,Y], q(Y). q(_).
:- entry(p(any,any)). p(X,Y) :- X < Y, X =< 3, 2 > Y, X >= Y + 1, X =:= Y, X =\\= Y * Y.
:- entry(p(any,any)). p(X,Y) :- X == Y, X \\== f, Z == X, a \\== Z.
:- entry(p(any)). p(X) :- var(X). p(X) :- nonvar(X), q(X). p(X) :- atom(X), integer(X), number(X), atomic(X), compound(X). q(_).
:- entry(p(any,any)). p(X,Y) :- X @< Y, X @=< a, b @> Y, Y @>= X, compare(O,X,Y), q(O). q(_).
:- entry(p(any,out)). p(X,Y) :- functor(X,N,A), functor(Z,N,A), arg(1,X,B), arg(1,Z,B), Z =.. L, copy_term(L,Y).
:- entry(p(any,any)). p(X,Y) :- functor(Y,X,1), arg(1,Y,X), Y =.. [_|X], copy_term(Y,X).
:- entry(p(any)). p(X) :- write(X), writeq(f(X,Y)), nl, put_char(a), q(Y), put_char(X). q(_).
:- entry(p(any,any,out)). p(X,Y,Z) :- q(X,Z), compare(Y,Z,X), write(Y), r(Y,X). q(X,f(X)). r(_,_).
:- entry(p(any,any,any)). p(X,Y,Z) :- compare(Z,Y,X), compare(Y,X,Z), compare(X,Z,Y), q(X,Y,Z). q(_,_,_).
:- entry(p(out,out)). p(X,Y) :- write(a), write(Z), X = Z, write(Y), !, q(Y). q(_).
:- entry(fac(ground,out)). fac(0,1) :- !. fac(N,F) :- M is N-1, fac(M,G), F is N*G.
:- entry(fib(ground,out)). fib(0,0). fib(1,1). fib(N,F) :- N > 1, A is N-1, B is N-2, fib(A,X), fib(B,Y), F is X+Y.
:- entry(q(ground,out)). q(N,Q) :- r(1,N,L), s(L,[],Q). r(N,N,[N]) :- !. r(M,N,[M|T]) :- M < N, K is M+1, r(K,N,T). s([],Q,Q). s(U,S,Q) :- t(X,U,R), \\+ a(X,1,S), s(R,[X|S],Q). t(X,[X|T],T). t(X,[H|T],[H|R]) :- t(X,T,R). a(X,N,[Y|_]) :- X =:= Y+N. a(X,N,[Y|_]) :- X =:= Y-N. a(X,N,[_|Ys]) :- M is N+1, a(X,M,Ys).";

#[test]
fn builtins_are_accepted(rt: HostRuntime) -> Result<(), Fail> {
    assert_accepted(&rt, rt.alloc(), BUILTINS)
}

//! Runs of small programs, each with the exact bytes that the language says.

use crate::ending::Ending;
use crate::interpreter::Bounds;
use crate::reading::{ReadingFault, interpret_text};
use crate::transcript::Transcript;
use std::alloc::Global;
use std::process::Abort;
use std::test::Fail;

/// What stands for a new line in a table.
const BREAK: &str = " / ";

/// A program, a query, and the lines that the run writes with those of its ending.
type Row = (&'static str, &'static str, &'static str);

fn run(alloc: Global, text: &str, query: &str) -> Result<Transcript, Fail> {
    let bounds = Bounds {
        steps: 10_000,
        visits: 100_000,
    };
    Ok(interpret_text(alloc, text.as_bytes(), query.as_bytes(), bounds)?)
}

/// The lines of a text of a table.
fn lines_of(alloc: Global, row: &str) -> Result<String, Fail> {
    let mut lines = String::new(alloc);
    for line in row.split(BREAK) {
        lines.push_str(line)?;
        lines.push('\n')?;
    }
    Ok(lines)
}

fn check(rt: &impl Abort, alloc: Global, rows: &[Row], ending: Ending) -> Result<(), Fail> {
    for (text, query, lines) in rows {
        let expected = lines_of(alloc, lines)?;
        let ran = run(alloc, text, query)?;
        let written = str::from_utf8(ran.bytes.as_slice()).ok().ok_or("no text")?;
        assert_eq!(rt; written, expected.as_str(), "{query} on {text}");
        assert_eq!(rt; ran.ending, ending, "{query} on {text}");
    }
    Ok(())
}

#[test]
fn calls_and_backtracking(rt: HostRuntime) -> Result<(), Fail> {
    let rows = [
        (":- entry(p). p :- fail.", "p", "no"),
        (":- entry(p). p. q. p.", "p", "true / ; / true / ; / no"),
        (
            ":- entry(app(ground,ground,out)). app([],L,L). app([H|T],L,[H|R]) :- app(T,L,R).",
            "app([1,2],[3],X)",
            "X = [1,2,3] / ; / no",
        ),
        (
            ":- entry(app(out,out,ground)). app([],L,L). app([H|T],L,[H|R]) :- app(T,L,R).",
            "app(X,Y,[1])",
            "X = [] / Y = [1] / ; / X = [1] / Y = [] / ; / no",
        ),
        (
            ":- entry(p(any,any)). p(f(A,B),g(B,C,A)).",
            "p(X,Y)",
            "X = f(_0,_1) / Y = g(_1,_2,_0) / ; / no",
        ),
        (
            ":- entry(p(any,any)). p(X,X). p(X,Y) :- X = Y, Y = a.",
            "p(f(A),B)",
            "A = _0 / B = f(_0) / ; / no",
        ),
        (
            ":- entry(s(out)). s --> [a], b. b --> []. b --> \"c\", !. b --> b. s(X) :- s(X,[]).",
            "s(X)",
            "X = [a] / ; / X = [a,99] / ; / no",
        ),
        (
            ":- entry(p(out)). p(X) :- ( X = 1 ; X = 2 ; X = 3 ), ( q ; X \\= 2 ). q.",
            "p(X)",
            "X = 1 / ; / X = 1 / ; / X = 2 / ; / X = 3 / ; / X = 3 / ; / no",
        ),
    ];
    check(&rt, rt.alloc(), &rows, Ending::Exhausted)
}

#[test]
fn cuts_and_conditions(rt: HostRuntime) -> Result<(), Fail> {
    let rows = [
        (
            ":- entry(p(out)). q(1). q(2). p(X) :- q(X), !.",
            "p(X)",
            "X = 1 / ; / no",
        ),
        (
            ":- entry(p(out)). p(X) :- q(X). p(9). q(X) :- r(a), !, X = 1. q(2). r(a). r(b).",
            "p(X)",
            "X = 1 / ; / X = 9 / ; / no",
        ),
        (
            ":- entry(p(out)). p(X) :- ( q(Y), Y > 1 -> X = Y ; X = 0 ). p(7). q(1). q(2). q(3).",
            "p(X)",
            "X = 2 / ; / X = 7 / ; / no",
        ),
        (
            ":- entry(p(out)). p(X) :- ( fail -> X = 1 ; X = 2 ). p(X) :- ( X = 3 -> fail ). p(4).",
            "p(X)",
            "X = 2 / ; / X = 4 / ; / no",
        ),
        (
            ":- entry(p(out)). p(X) :- ( q(X), ! ; X = 5 ). p(6). q(1). q(2).",
            "p(X)",
            "X = 1 / ; / no",
        ),
        (
            ":- entry(s(out)). s(X) :- ( ( q(X), ! ) -> true ; r ). s(2). q(0). q(1). r.",
            "s(X)",
            "X = 0 / ; / X = 2 / ; / no",
        ),
        (
            ":- entry(p(out)). p(X) :- q(X), \\+ ( r(X), ! ). q(1). q(2). q(3). r(2).",
            "p(X)",
            "X = 1 / ; / X = 3 / ; / no",
        ),
        (
            ":- entry(p(out)). p(X) :- \\+ \\+ X = 1, ( X = 2 ; true ).",
            "p(X)",
            "X = 2 / ; / X = _0 / ; / no",
        ),
        (
            ":- entry(p(out)). p(X) :- ( true -> ( X = 1 ; X = 2 ), ! ; X = 3 ). p(4).",
            "p(X)",
            "X = 1 / ; / no",
        ),
        (
            ":- entry(p(out)). p(X) :- ( q(X) -> true ; X = 3 ; X = 4 ). q(Y) :- ( Y = 1 ; Y = 2 ).",
            "p(X)",
            "X = 1 / ; / no",
        ),
    ];
    check(&rt, rt.alloc(), &rows, Ending::Exhausted)
}

#[test]
fn balls_and_catchers(rt: HostRuntime) -> Result<(), Fail> {
    let rows = [
        (
            ":- entry(p(out)). p(X) :- catch(q(X),found(X),true). q(1). q(_) :- throw(found(2)).",
            "p(X)",
            "X = 1 / ; / X = 2 / ; / no",
        ),
        (
            ":- entry(p(out)). p(X) :- catch(( Y = 1, throw(Y) ),Z,( var(Y), X = Z )).",
            "p(X)",
            "X = 1 / ; / no",
        ),
        (
            ":- entry(p(out)). p(X) :- catch(catch(throw(b),a,X = 1),b,X = 2).",
            "p(X)",
            "X = 2 / ; / no",
        ),
        (
            ":- entry(p(out)). p(X) :- catch(Y is foo + 1,error(E,_),X = E), var(Y).",
            "p(X)",
            "X = type_error(evaluable,foo/0) / ; / no",
        ),
        (
            ":- entry(p(out)). p(X) :- catch(q(a),error(E,U),X = E-U).",
            "p(X)",
            "X = existence_error(procedure,q/1)-[] / ; / no",
        ),
        (
            ":- entry(p(out)). p(X) :- catch(throw(_),error(E,_),X = E).",
            "p(X)",
            "X = instantiation_error / ; / no",
        ),
        (
            ":- entry(p(out)). p(X) :- catch(throw(f(Y,Y,_)),Z,X = Z), var(Y).",
            "p(X)",
            "X = f(_0,_0,_1) / ; / no",
        ),
        (
            ":- entry(p(out)). p(X) :- catch(( ( X = 1 ; X = 2 ; X = 3 ), X > 1, ! ),_,fail). p(8).",
            "p(X)",
            "X = 2 / ; / X = 8 / ; / no",
        ),
        (
            ":- entry(p(out)). p(X) :- catch(throw(a),_,( X = 1, ! ; X = 2 )). p(3).",
            "p(X)",
            "X = 1 / ; / X = 3 / ; / no",
        ),
    ];
    check(&rt, rt.alloc(), &rows, Ending::Exhausted)
}

#[test]
fn uncaught_errors(rt: HostRuntime) -> Result<(), Fail> {
    let rows = [
        (
            ":- entry(p). p :- q.",
            "p",
            "error: existence_error(procedure,q/0)",
        ),
        (
            ":- entry(p(out)). p(X) :- X is 9223372036854775807 + 1.",
            "p(X)",
            "error: evaluation_error(int_overflow)",
        ),
        (
            ":- entry(p(out)). p(X) :- X is -7 mod 2. p(X) :- X is -7 // 2. p(X) :- X is 1 + foo.",
            "p(X)",
            "X = 1 / ; / X = -3 / ; / error: type_error(evaluable,foo/0)",
        ),
        (
            ":- entry(p(out)). p(X) :- compare(X,1,a). p(X) :- X =.. [f,1]. p(X) :- X is 1 << 64.",
            "p(X)",
            "X = < / ; / X = f(1) / ; / error: evaluation_error(undefined)",
        ),
        (
            ":- entry(p). p :- write(a), catch(throw(f(X,1,X)),f(b,2,_),true).",
            "p",
            "a / error: f(_0,1,_0)",
        ),
        (
            ":- entry(p). p :- catch(true,_,true), throw('A b').",
            "p",
            "error: 'A b'",
        ),
        (
            ":- entry(p). p :- catch(throw(first),_,throw(second)).",
            "p",
            "error: second",
        ),
        (
            ":- entry(p). p :- 1 < 2, 2 =< 2, 3 >= 2, 3 > 2, 3 =\\= 2, 1 + 2 =:= 3, _ < a.",
            "p",
            "error: instantiation_error",
        ),
    ];
    check(&rt, rt.alloc(), &rows, Ending::Raised)
}

/// The error of each built-in in the order of its tests, as a catcher sees it.
#[test]
fn errors_of_built_ins(rt: HostRuntime) -> Result<(), Fail> {
    for (goal, error) in [
        ("functor(_,_,1)", "instantiation_error"),
        ("functor(_,g(_),_)", "instantiation_error"),
        ("functor(_,g(a),b)", "type_error(atomic,g(a))"),
        ("functor(_,a,b)", "type_error(integer,b)"),
        ("functor(_,a,g(1))", "type_error(integer,g(1))"),
        ("functor(_,1,-1)", "domain_error(not_less_than_zero,-1)"),
        ("functor(_,1,256)", "representation_error(max_arity)"),
        ("functor(_,1,2)", "type_error(atom,1)"),
        ("arg(a,_,_)", "instantiation_error"),
        ("arg(_,f(1),_)", "instantiation_error"),
        ("arg(a,b,_)", "type_error(integer,a)"),
        ("arg(-1,b,_)", "type_error(compound,b)"),
        ("arg(-1,f(b),_)", "domain_error(not_less_than_zero,-1)"),
        ("_ =.. _", "instantiation_error"),
        ("_ =.. [a|_]", "instantiation_error"),
        ("_ =.. [a|b]", "type_error(list,[a|b])"),
        ("_ =.. f", "type_error(list,f)"),
        ("_ =.. []", "domain_error(non_empty_list,[])"),
        ("_ =.. [_,a]", "instantiation_error"),
        ("_ =.. [g(1)]", "type_error(atomic,g(1))"),
        ("_ =.. [1,2]", "type_error(atom,1)"),
        ("_ =.. [g(1),2]", "type_error(atom,g(1))"),
        ("X @< f(X,_), f(X) @< f(_)", "instantiation_error"),
        ("compare(_,f(_,1),f(_,2))", "instantiation_error"),
        ("put_char(_)", "instantiation_error"),
        ("put_char(ab)", "type_error(character,ab)"),
        ("put_char(1)", "type_error(character,1)"),
        ("put_char('')", "type_error(character,'')"),
        ("_ is 1 + _", "instantiation_error"),
        ("_ is g(_)", "type_error(evaluable,g/1)"),
        ("_ is +(1)", "type_error(evaluable,(+)/1)"),
        ("_ is a + _", "type_error(evaluable,a/0)"),
        ("_ is 1 // 0", "evaluation_error(zero_divisor)"),
        ("_ is 1 rem 0", "evaluation_error(zero_divisor)"),
        ("_ is 1 mod 0", "evaluation_error(zero_divisor)"),
        (
            "_ is -9223372036854775808 // -1",
            "evaluation_error(int_overflow)",
        ),
        (
            "_ is -(-9223372036854775808)",
            "evaluation_error(int_overflow)",
        ),
        (
            "_ is 4611686018427387904 * 2",
            "evaluation_error(int_overflow)",
        ),
        ("_ is -2 << 63", "evaluation_error(int_overflow)"),
        ("_ is 1 >> -1", "evaluation_error(undefined)"),
        ("1 / 0 < _", "type_error(evaluable,(/)/2)"),
    ] {
        let text = String::from_str(rt.alloc(), ":- entry(p(out)). p(E) :- catch((")?;
        let mut text = text;
        text.push_str(goal)?;
        text.push_str("),error(E,_),true).")?;
        let mut lines = String::from_str(rt.alloc(), "E = ")?;
        lines.push_str(error)?;
        lines.push_str("\n;\nno\n")?;
        let ran = run(rt.alloc(), text.as_str(), "p(E)")?;
        let written = str::from_utf8(ran.bytes.as_slice()).ok().ok_or("no text")?;
        assert_eq!(rt; written, lines.as_str(), "{goal}");
    }
    Ok(())
}

/// Expressions with their values.
#[test]
fn values_of_expressions(rt: HostRuntime) -> Result<(), Fail> {
    for (expression, value) in [
        ("2 + 3 * 4 - 1", "13"),
        ("-7 // 2", "-3"),
        ("7 // -2", "-3"),
        ("-7 rem 2", "-1"),
        ("7 rem -2", "1"),
        ("-7 mod 2", "1"),
        ("7 mod -2", "-1"),
        ("-8 mod 4", "0"),
        ("-9223372036854775808 rem -1", "0"),
        ("-9223372036854775808 mod -1", "0"),
        ("1 << 62", "4611686018427387904"),
        ("-1 << 63", "-9223372036854775808"),
        ("0 << 63", "0"),
        ("-7 >> 1", "-4"),
        ("-1 >> 63", "-1"),
        ("12 /\\ 10", "8"),
        ("12 \\/ 3", "15"),
        ("\\ 5", "-6"),
        ("- 5", "-5"),
        ("-(-5)", "5"),
    ] {
        let mut text = String::from_str(rt.alloc(), ":- entry(p(out)). p(X) :- X is ")?;
        text.push_str(expression)?;
        text.push_str(".")?;
        let mut lines = String::from_str(rt.alloc(), "X = ")?;
        lines.push_str(value)?;
        lines.push_str("\n;\nno\n")?;
        let ran = run(rt.alloc(), text.as_str(), "p(X)")?;
        let written = str::from_utf8(ran.bytes.as_slice()).ok().ok_or("no text")?;
        assert_eq!(rt; written, lines.as_str(), "{expression}");
    }
    Ok(())
}

#[test]
fn terms_and_their_order(rt: HostRuntime) -> Result<(), Fail> {
    let rows = [
        (
            ":- entry(p(out)). p(X) :- functor(T,f,2), arg(1,T,a), X = T.",
            "p(X)",
            "X = f(a,_0) / ; / no",
        ),
        (
            ":- entry(p(out)). p(X) :- functor(g(a,b),N,A), functor(7,M,B), X = [N,A,M,B].",
            "p(X)",
            "X = [g,2,7,0] / ; / no",
        ),
        (
            ":- entry(p(out)). p(X) :- functor(X,[],0). p(X) :- functor([a],X,2). p(X) :- arg(0,f(a),X).",
            "p(X)",
            "X = [] / ; / X = '.' / ; / no",
        ),
        (
            ":- entry(p(out)). p(X) :- f(a,B) =.. X, B = 1. p(X) :- 7 =.. X. p(X) :- X =.. [7]. p(1) :- f(a) =.. f.",
            "p(X)",
            "X = [f,a,1] / ; / X = [7] / ; / X = 7 / ; / no",
        ),
        (
            ":- entry(p(out)). p(X) :- copy_term(f(A,B,A),X), A = 1, B = 2. p(1) :- copy_term(f(A),f(b)), var(A).",
            "p(X)",
            "X = f(_0,_1,_0) / ; / X = 1 / ; / no",
        ),
        (
            ":- entry(p(out)). p(X) :- compare(X,f(A),f(B,C)), var(A), var(B), var(C). p(X) :- compare(X,b(1),a(2)). p(X) :- compare(X,f(Y,2),f(Y,1)). p(X) :- compare(X,'',a).",
            "p(X)",
            "X = < / ; / X = > / ; / X = > / ; / X = < / ; / no",
        ),
        (
            ":- entry(p). p :- _ @< 1, 1 @< a, a @< f(a), -1 @< 0, ab @< b, f(b) @=< f(b), g(a) @>= f(a), z(a) @< a(a,a).",
            "p",
            "true / ; / no",
        ),
        (
            ":- entry(p). p :- X == X, X \\== Y, f(X,Y) \\== f(Y,X), X = Y, f(X,Y) == f(Y,X), 1 \\== a.",
            "p",
            "true / ; / no",
        ),
        (
            ":- entry(p). p :- var(X), nonvar(a), atom([]), atom(+), integer(1), number(2), atomic(a), atomic(1), compound([a]), \\+ atom(1), \\+ atom(X), \\+ integer(a), \\+ atomic(f(a)), \\+ compound(a), \\+ nonvar(X), \\+ var(1).",
            "p",
            "true / ; / no",
        ),
        (
            ":- entry(p). p :- f(X,b) \\= f(a,c), var(X), \\+ f(X) \\= f(a), a \\= b.",
            "p",
            "true / ; / no",
        ),
    ];
    check(&rt, rt.alloc(), &rows, Ending::Exhausted)
}

#[test]
fn written_terms(rt: HostRuntime) -> Result<(), Fail> {
    let rows = [
        (
            ":- entry(p). p :- write(f(X,Y,X)), nl.",
            "p",
            "f(_0,_1,_0) / true / ; / no",
        ),
        (
            ":- entry(p). p :- X = 1- -1, writeq(X), writeq(- (1)), writeq('A b').",
            "p",
            "1- -1- 1'A b' / true / ; / no",
        ),
        (
            ":- entry(p). p :- write('A b'), put_char(x), put_char('\\n'), write(''). p :- write('').",
            "p",
            "A bx / true / ; / true / ; / no",
        ),
        (
            ":- entry(p). p :- write(a), fail. p :- write(b), q. q :- writeq([1|X]), writeq(X). q.",
            "p",
            "ab[1|_0]_0 / true / ; / true / ; / no",
        ),
        (
            ":- entry(p(any,out)). p(_,X) :- X = (a:-b,c).",
            "p(_,Long)",
            "Long = (a :- b,c) / ; / no",
        ),
        (
            ":- entry(p). p :- writeq((a:-b,c)), writeq({x,y}), writeq(-(-(a))), writeq(f(:-,(a,b))).",
            "p",
            "a :- b,c{x,y}- -af(:-,(a,b)) / true / ; / no",
        ),
    ];
    check(&rt, rt.alloc(), &rows, Ending::Exhausted)
}

/// A run that comes to the occurs check, and one without an end.
#[test]
fn other_endings(rt: HostRuntime) -> Result<(), Fail> {
    for (text, lines, ending) in [
        (
            ":- entry(p(any)). p(1). p(X) :- X = f(X).",
            "X = 1\n;\n",
            Ending::Occurs,
        ),
        (
            ":- entry(p(any)). p(X) :- write(a), X \\= f(X).",
            "a",
            Ending::Occurs,
        ),
        (
            ":- entry(p(any)). p(X) :- q(X,f(X)). q(Y,Y).",
            "",
            Ending::Occurs,
        ),
        (
            ":- entry(p(any)). p(1). p(X) :- p(X).",
            "X = 1\n;\n",
            Ending::Stopped,
        ),
    ] {
        let bounds = Bounds {
            steps: 6,
            visits: 100_000,
        };
        let ran = interpret_text(rt.alloc(), text.as_bytes(), b"p(X)", bounds)?;
        assert_eq!(rt; ran.bytes.as_slice(), lines.as_bytes(), "{text}");
        assert_eq!(rt; ran.ending, ending, "{text}");
    }
    Ok(())
}

/// Texts and queries that are no programs and queries.
#[test]
fn refused_texts(rt: HostRuntime) -> Result<(), Fail> {
    let bounds = Bounds {
        steps: 10,
        visits: 10,
    };
    for (text, query) in [
        (":- entry(p). p", "p"),
        (":- entry(p). p :- X.", "p"),
        (":- entry(p). p :- a :- b.", "p"),
        (":- entry(p). p.", "q"),
        (":- entry(p). p.", "p("),
        (":- entry(p(out)). p(1).", "p(1)"),
    ] {
        let ran = interpret_text(rt.alloc(), text.as_bytes(), query.as_bytes(), bounds);
        assert_eq!(rt; ran.err(), Some(ReadingFault::Refused), "{query} on {text}");
    }
    Ok(())
}

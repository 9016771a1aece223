use crate::fronts::{ONE, THREE, TWO, VALUE};
use crate::harness::{outputs_of, runs_of};
use std::test::Fail;

const TESTS: &str = "\
builtin 'var'/1 / return | p(X) | 5 1 0 0 0 | X = _0 / ; / no / % code 2 steps 5 choices 0
builtin 'var'/1 / return | p(a) | 1 0 0 0 0 | no / % code 2 steps 1 choices 0
builtin 'nonvar'/1 / return | p(a) | 4 0 0 0 0 | true / ; / no / % code 2 steps 4 choices 0
builtin 'nonvar'/1 / return | p(X) | 1 1 0 0 0 | no / % code 2 steps 1 choices 0
builtin 'atom'/1 / return | p([]) | 4 0 0 0 0 | true / ; / no / % code 2 steps 4 choices 0
builtin 'atom'/1 / return | p(1) | 1 0 0 0 0 | no / % code 2 steps 1 choices 0
builtin 'integer'/1 / return | p(-1) | 4 0 0 0 0 | true / ; / no / % code 2 steps 4 choices 0
builtin 'integer'/1 / return | p(a) | 1 0 0 0 0 | no / % code 2 steps 1 choices 0
builtin 'number'/1 / return | p(1) | 4 0 0 0 0 | true / ; / no / % code 2 steps 4 choices 0
builtin 'number'/1 / return | p([1]) | 1 2 0 0 0 | no / % code 2 steps 1 choices 0
builtin 'atomic'/1 / return | p(a) | 4 0 0 0 0 | true / ; / no / % code 2 steps 4 choices 0
builtin 'atomic'/1 / return | p(f(a)) | 1 2 0 0 0 | no / % code 2 steps 1 choices 0
builtin 'compound'/1 / return | p([a]) | 4 2 0 0 0 | true / ; / no / % code 2 steps 4 choices 0
builtin 'compound'/1 / return | p(f(a)) | 4 2 0 0 0 | true / ; / no / % code 2 steps 4 choices 0
builtin 'compound'/1 / return | p([]) | 1 0 0 0 0 | no / % code 2 steps 1 choices 0
builtin 'write'/1 / return | p(f('A b',X)) | 8 3 0 0 0 | f(A b,_0) / X = _0 / ; / no / % code 2 steps 8 choices 0
builtin 'writeq'/1 / return | p(f('A b',X)) | 8 3 0 0 0 | f('A b',_0) / X = _0 / ; / no / % code 2 steps 8 choices 0
builtin 'nl'/0 / return | p(a) | 4 0 0 0 0 |  / true / ; / no / % code 2 steps 4 choices 0
builtin 'put_char'/1 / return | p(x) | 4 0 0 0 0 | x / true / ; / no / % code 2 steps 4 choices 0
builtin 'put_char'/1 / return | p(X) | 2 4 0 0 0 | error: instantiation_error / % code 2 steps 2 choices 0
builtin 'put_char'/1 / return | p(ab) | 4 6 0 0 0 | error: type_error(character,ab) / % code 2 steps 4 choices 0
builtin 'put_char'/1 / return | p(f(a)) | 5 8 0 0 0 | error: type_error(character,f(a)) / % code 2 steps 5 choices 0
builtin 'write'/1 / raise 'stop' | p(a) | 4 0 0 0 0 | a / error: stop / % code 2 steps 4 choices 0";

#[test]
fn kinds_are_tested_and_terms_written(rt: HostRuntime) -> Result<(), Fail> {
    runs_of(&rt, rt.alloc(), ONE, TESTS)
}

const TERMS: &str = "\
builtin '@<'/2 / return | p(1,a) | 5 0 0 0 0 | true / ; / no / % code 2 steps 5 choices 0
builtin '@<'/2 / return | p(a,1) | 2 0 0 0 0 | no / % code 2 steps 2 choices 0
builtin '@=<'/2 / return | p(f(a),f(a)) | 6 4 0 0 0 | true / ; / no / % code 2 steps 6 choices 0
builtin '@>'/2 / return | p(f(b),f(a)) | 6 4 0 0 0 | true / ; / no / % code 2 steps 6 choices 0
builtin '@>='/2 / return | p(g(a),f(a,b)) | 2 5 0 0 0 | no / % code 2 steps 2 choices 0
builtin '@<'/2 / return | p(X,Y) | 3 5 0 0 0 | error: instantiation_error / % code 2 steps 3 choices 0
builtin '=..'/2 / return | p(f(a,b),L) | 15 10 0 0 0 | L = [f,a,b] / ; / no / % code 2 steps 15 choices 0
builtin '=..'/2 / return | p(T,[f,1]) | 9 7 0 0 0 | T = f(1) / ; / no / % code 2 steps 9 choices 0
builtin '=..'/2 / return | p(T,L) | 2 5 0 0 0 | error: instantiation_error / % code 2 steps 2 choices 0
builtin 'copy_term'/2 / return | p(f(X,Y,X),C) | 26 9 0 0 0 | X = _0 / Y = _1 / C = f(_2,_3,_2) / ; / no / % code 2 steps 26 choices 0
builtin 'copy_term'/2 / return | p(a,C) | 7 1 0 0 0 | C = a / ; / no / % code 2 steps 7 choices 0
builtin 'copy_term'/2 / return | p(X,C) | 9 3 0 0 0 | X = _0 / C = _1 / ; / no / % code 2 steps 9 choices 0";

#[test]
fn terms_are_ordered_taken_apart_and_copied(rt: HostRuntime) -> Result<(), Fail> {
    runs_of(&rt, rt.alloc(), TWO, TERMS)
}

const FUNCTORS: &str = "\
builtin 'compare'/3 / return | p(O,1,a) | 7 1 0 0 0 | O = < / ; / no / % code 2 steps 7 choices 0
builtin 'compare'/3 / return | p(O,f(a),f(a)) | 8 5 0 0 0 | O = = / ; / no / % code 2 steps 8 choices 0
builtin 'compare'/3 / return | p(<,b,a) | 3 0 0 0 0 | no / % code 2 steps 3 choices 0
builtin 'functor'/3 / return | p(T,f,2) | 11 4 0 0 0 | T = f(_0,_1) / ; / no / % code 2 steps 11 choices 0
builtin 'functor'/3 / return | p(f(a,b),N,A) | 8 5 0 0 0 | N = f / A = 2 / ; / no / % code 2 steps 8 choices 0
builtin 'functor'/3 / return | p(T,N,1) | 2 5 0 0 0 | error: instantiation_error / % code 2 steps 2 choices 0
builtin 'functor'/3 / return | p(T,f(a),1) | 5 9 0 0 0 | error: type_error(atomic,f(a)) / % code 2 steps 5 choices 0
builtin 'functor'/3 / return | p(T,f,a) | 4 7 0 0 0 | error: type_error(integer,a) / % code 2 steps 4 choices 0
builtin 'functor'/3 / return | p(T,f,-1) | 4 7 0 0 0 | error: domain_error(not_less_than_zero,-1) / % code 2 steps 4 choices 0
builtin 'functor'/3 / return | p(T,f,256) | 3 6 0 0 0 | error: representation_error(max_arity) / % code 2 steps 3 choices 0
builtin 'functor'/3 / return | p(T,1,2) | 4 7 0 0 0 | error: type_error(atom,1) / % code 2 steps 4 choices 0
builtin 'functor'/3 / return | p(T,7,0) | 6 1 0 0 0 | T = 7 / ; / no / % code 2 steps 6 choices 0
builtin 'arg'/3 / return | p(1,f(a),A) | 6 3 0 0 0 | A = a / ; / no / % code 2 steps 6 choices 0
builtin 'arg'/3 / return | p(0,f(a),A) | 1 3 0 0 0 | no / % code 2 steps 1 choices 0
builtin 'arg'/3 / return | p(2,f(a),A) | 1 3 0 0 0 | no / % code 2 steps 1 choices 0
builtin 'arg'/3 / return | p(N,f(a),A) | 2 7 0 0 0 | error: instantiation_error / % code 2 steps 2 choices 0
builtin 'arg'/3 / return | p(a,f(a),A) | 4 9 0 0 0 | error: type_error(integer,a) / % code 2 steps 4 choices 0
builtin 'arg'/3 / return | p(1,a,A) | 4 7 0 0 0 | error: type_error(compound,a) / % code 2 steps 4 choices 0
builtin 'arg'/3 / return | p(-1,f(a),A) | 4 9 0 0 0 | error: domain_error(not_less_than_zero,-1) / % code 2 steps 4 choices 0";

#[test]
fn functors_and_arguments_are_found(rt: HostRuntime) -> Result<(), Fail> {
    runs_of(&rt, rt.alloc(), THREE, FUNCTORS)
}

const LISTS: &str = "\
builtin '=..'/2 / return | p(T,[f|X]) | error: instantiation_error / % code 2 steps 3 choices 0
builtin '=..'/2 / return | p(T,a) | error: type_error(list,a) / % code 2 steps 4 choices 0
builtin '=..'/2 / return | p(T,[]) | error: domain_error(non_empty_list,[]) / % code 2 steps 4 choices 0
builtin '=..'/2 / return | p(T,[X]) | error: instantiation_error / % code 2 steps 3 choices 0
builtin '=..'/2 / return | p(T,[f(a)]) | error: type_error(atomic,f(a)) / % code 2 steps 6 choices 0
builtin '=..'/2 / return | p(T,[1,a]) | error: type_error(atom,1) / % code 2 steps 6 choices 0
builtin '=..'/2 / return | p(T,[7]) | T = 7 / ; / no / % code 2 steps 7 choices 0
builtin '=..'/2 / return | p(a,b) | no / % code 2 steps 3 choices 0
builtin '@<'/2 / return | p(f(X),f(Y)) | error: instantiation_error / % code 2 steps 4 choices 0
builtin '@<'/2 / return | p(X,X) | no / % code 2 steps 2 choices 0
builtin '@=<'/2 / return | p(X,X) | X = _0 / ; / no / % code 2 steps 6 choices 0";

#[test]
fn lists_that_make_no_term_are_told(rt: HostRuntime) -> Result<(), Fail> {
    outputs_of(&rt, rt.alloc(), TWO, LISTS)
}

const EVALUATIONS: &str = "\
eval r2 r0 / fill r1 r2 / return | p(7 // -2,X) | X = -3 / ; / no / % code 3 steps 9 choices 0
eval r2 r0 / fill r1 r2 / return | p(7 rem -2,X) | X = 1 / ; / no / % code 3 steps 9 choices 0
eval r2 r0 / fill r1 r2 / return | p(-7 mod 2,X) | X = 1 / ; / no / % code 3 steps 9 choices 0
eval r2 r0 / fill r1 r2 / return | p(7 mod -2,X) | X = -1 / ; / no / % code 3 steps 9 choices 0
eval r2 r0 / fill r1 r2 / return | p(-9223372036854775808 mod -1,X) | X = 0 / ; / no / % code 3 steps 9 choices 0
eval r2 r0 / fill r1 r2 / return | p(-9223372036854775808 // -1,X) | error: evaluation_error(int_overflow) / % code 3 steps 6 choices 0
eval r2 r0 / fill r1 r2 / return | p(1 mod 0,X) | error: evaluation_error(zero_divisor) / % code 3 steps 6 choices 0
eval r2 r0 / fill r1 r2 / return | p(1 rem 0,X) | error: evaluation_error(zero_divisor) / % code 3 steps 6 choices 0
eval r2 r0 / fill r1 r2 / return | p(3 << 2,X) | X = 12 / ; / no / % code 3 steps 9 choices 0
eval r2 r0 / fill r1 r2 / return | p(-1 << 63,X) | X = -9223372036854775808 / ; / no / % code 3 steps 9 choices 0
eval r2 r0 / fill r1 r2 / return | p(1 << 63,X) | error: evaluation_error(int_overflow) / % code 3 steps 6 choices 0
eval r2 r0 / fill r1 r2 / return | p(1 << 64,X) | error: evaluation_error(undefined) / % code 3 steps 6 choices 0
eval r2 r0 / fill r1 r2 / return | p(-5 >> 1,X) | X = -3 / ; / no / % code 3 steps 9 choices 0
eval r2 r0 / fill r1 r2 / return | p(1 >> -1,X) | error: evaluation_error(undefined) / % code 3 steps 6 choices 0
eval r2 r0 / fill r1 r2 / return | p(12 /\\ 10,X) | X = 8 / ; / no / % code 3 steps 9 choices 0
eval r2 r0 / fill r1 r2 / return | p(12 \\/ 10,X) | X = 14 / ; / no / % code 3 steps 9 choices 0
eval r2 r0 / fill r1 r2 / return | p(\\ 5,X) | X = -6 / ; / no / % code 3 steps 8 choices 0
eval r2 r0 / fill r1 r2 / return | p(- (5),X) | X = -5 / ; / no / % code 3 steps 8 choices 0
eval r2 r0 / fill r1 r2 / return | p(1 + f(2),X) | error: type_error(evaluable,f/1) / % code 3 steps 9 choices 0
eval r2 r0 / fill r1 r2 / return | p(2 * Y,X) | error: instantiation_error / % code 3 steps 5 choices 0
eval r2 r0 / arith quot r2 r2 0 / fill r1 r2 / return | p(1,X) | error: evaluation_error(zero_divisor) / % code 4 steps 5 choices 0
eval r2 r0 / arith rem r2 r2 3 / fill r1 r2 / return | p(-7,X) | X = -1 / ; / no / % code 4 steps 8 choices 0
eval r2 r0 / arith mod r2 r2 3 / fill r1 r2 / return | p(-7,X) | X = 2 / ; / no / % code 4 steps 8 choices 0
eval r2 r0 / arith shl r2 r2 3 / fill r1 r2 / return | p(5,X) | X = 40 / ; / no / % code 4 steps 8 choices 0
eval r2 r0 / arith shr r2 r2 1 / fill r1 r2 / return | p(5,X) | X = 2 / ; / no / % code 4 steps 8 choices 0
eval r2 r0 / arith and r2 r2 6 / fill r1 r2 / return | p(5,X) | X = 4 / ; / no / % code 4 steps 8 choices 0
eval r2 r0 / arith or r2 r2 6 / fill r1 r2 / return | p(5,X) | X = 7 / ; / no / % code 4 steps 8 choices 0
eval r2 r0 / less le r2 5 / fill r1 r2 / return | p(5,X) | X = 5 / ; / no / % code 4 steps 8 choices 0
eval r2 r0 / less ge r2 5 / fill r1 r2 / return | p(4,X) | no / % code 4 steps 3 choices 0
eval r2 r0 / less eq r2 5 / fill r1 r2 / return | p(5,X) | X = 5 / ; / no / % code 4 steps 8 choices 0
eval r2 r0 / less ne r2 5 / fill r1 r2 / return | p(5,X) | no / % code 4 steps 3 choices 0";

#[test]
fn each_operation_gives_its_value_or_its_error(rt: HostRuntime) -> Result<(), Fail> {
    outputs_of(&rt, rt.alloc(), VALUE, EVALUATIONS)
}

//! The programs under examples/, word for word, since a test reads no files. The check `example_texts` compares them with the files.
#![tactic(auto)]

/// examples/bicycle_repair.pl
pub const BICYCLE_REPAIR: &str =
    r##"% query: diagnose([hears(clicking),when(pedalling),chain_stretch(12),brake_pad(1),spokes(loose)],Known)
% A rule system with forward chaining: a rule whose conditions are all known adds its conclusion, until no rule adds anything.
% Each rule that fires is written down. A condition `such_that` compares numbers in place of looking among what is known.

:- entry(diagnose(ground,out)).

diagnose(Known,All) :-
    rule(Name,Conditions,Conclusion),
    hold(Conditions,Known),
    \+ among(Conclusion,Known), !,
    write(Name), write(': '), write(Conclusion), nl,
    diagnose([Conclusion|Known],All).
diagnose(Known,Known).

rule(worn_chain,     [chain_stretch(Tenths), such_that(Tenths > 10)],          replace(chain)).
rule(worn_cassette,  [replace(chain), chain_stretch(Tenths), such_that(Tenths > 15)], replace(cassette)).
rule(bottom_bracket, [hears(clicking), when(pedalling)],                       inspect(bottom_bracket)).
rule(wheel_bearing,  [hears(clicking), when(coasting)],                        inspect(hub)).
rule(thin_pads,      [brake_pad(Millimetres), such_that(Millimetres < 2)],     replace(brake_pads)).
rule(wobble,         [spokes(loose)],                                          true_up(wheel)).
rule(rim_wear,       [true_up(wheel), replace(brake_pads)],                    inspect(rim)).
rule(drive_first,    [replace(chain), inspect(bottom_bracket)],                order(chain,bottom_bracket)).
rule(not_safe,       [inspect(rim)],                                           do_not_ride).

hold([],_).
hold([Condition|Conditions],Known) :- holds(Condition,Known), hold(Conditions,Known).

holds(such_that(A > B),_) :- !, A > B.
holds(such_that(A < B),_) :- !, A < B.
holds(Condition,Known) :- among(Condition,Known).

among(X,[X|_]).
among(X,[_|Rest]) :- among(X,Rest).
"##;

/// examples/calculator.pl
pub const CALCULATOR: &str = r##"% query: session(Results)
% A calculator that goes on after errors: each line of a session is an expression or an assignment, each fault is raised where it
% is found and caught around its line, and the errors of arithmetic are told in words. One kind of fault ends the session; it is
% raised again and caught further out.

:- entry(session(out)).

session(Results) :-
    lines(Lines),
    catch(answer_all(Lines,[],Results),stop(Reason),Results = stopped(Reason)).

lines([
    set(width,6 * 7),
    show(width + 1),
    show(height - 1),
    show(width // (width - 42)),
    set(big,1 << 62),
    show(big + big),
    show(1 << 64),
    show(power(2,10)),
    show(power(2,-1)),
    show(width rem 5 - power(width,2) mod 100),
    show(colour(red)),
    leave(done),
    show(1)
]).

answer_all([],_,[]).
answer_all([Line|Lines],Values,Results) :-
    catch(answer(Line,Values,Next,Result),Ball,recover(Ball,Line,Values,Next,Result)),
    write(Line), write(' => '), write(Result), nl,
    answer_on(Lines,Next,Result,Results).

answer_on(Lines,Values,Result,[Result|Results]) :- answer_all(Lines,Values,Results).

answer(set(Name,Expression),Values,[Name-Value|Values],Value) :- value(Expression,Values,Value).
answer(show(Expression),Values,Values,Value) :- value(Expression,Values,Value).
answer(leave(Reason),_,_,_) :- throw(stop(Reason)).

% A stop goes further out. Every other fault leaves the values as they were.
recover(stop(Reason),_,_,_,_) :- !, throw(stop(Reason)).
recover(Ball,_,Values,Values,fault(Text)) :- text(Ball,Text).

text(error(evaluation_error(zero_divisor),_),'division by zero') :- !.
text(error(evaluation_error(int_overflow),_),'too large') :- !.
text(error(evaluation_error(undefined),_),'no such shift') :- !.
text(error(type_error(evaluable,Name/_),_),unknown(Name)) :- !.
text(no_value(Name),unset(Name)) :- !.
text(negative_power(N),power(N)).

value(N,_,N) :- integer(N), !.
value(Name,Values,Value) :- atom(Name), !, value_of(Values,Name,Value).
value(power(A,B),Values,Value) :- !, value(A,Values,X), value(B,Values,Y), power(X,Y,Value).
value(Expression,Values,Value) :-
    Expression =.. [Operator,A,B], !,
    value(A,Values,X),
    value(B,Values,Y),
    Sum =.. [Operator,X,Y],
    Value is Sum.
value(Expression,_,Value) :- Value is Expression.

value_of([],Name,_) :- throw(no_value(Name)).
value_of([Name-Value|_],Name,Value) :- !.
value_of([_|Values],Name,Value) :- value_of(Values,Name,Value).

power(_,N,_) :- N < 0, !, throw(negative_power(N)).
power(_,0,1) :- !.
power(X,N,Value) :- M is N - 1, power(X,M,Before), Value is X * Before.
"##;

/// examples/derivative.pl
pub const DERIVATIVE: &str = r##"% query: derivative(x^3*sin(2*x) - (x+1)/x,x,D)
% Derives an expression for a variable by the rules of calculus, and makes the result plain: products with 0 and 1 vanish,
% constants are joined, and a power of 1 is left out.

:- entry(derivative(ground,ground,out)).

derivative(E,X,D) :- derive(E,X,Raw), plain(Raw,D).

derive(N,_,0) :- integer(N), !.
derive(X,X,1) :- !.
derive(Y,_,0) :- atom(Y), !.
derive(U+V,X,DU+DV) :- derive(U,X,DU), derive(V,X,DV).
derive(U-V,X,DU-DV) :- derive(U,X,DU), derive(V,X,DV).
derive(-U,X,-DU) :- derive(U,X,DU).
derive(U*V,X,DU*V+U*DV) :- derive(U,X,DU), derive(V,X,DV).
derive(U/V,X,(DU*V-U*DV)/V^2) :- derive(U,X,DU), derive(V,X,DV).
derive(U^N,X,N*U^M*DU) :- integer(N), M is N - 1, derive(U,X,DU).
derive(sin(U),X,cos(U)*DU) :- derive(U,X,DU).
derive(cos(U),X,-(sin(U)*DU)) :- derive(U,X,DU).
derive(exp(U),X,exp(U)*DU) :- derive(U,X,DU).
derive(log(U),X,DU/U) :- derive(U,X,DU).

% The parts are made plain first, and then what they are parts of.
plain(E,E) :- atomic(E), !.
plain(U+V,E) :- !, plain(U,P), plain(V,Q), sum(P,Q,E).
plain(U-V,E) :- !, plain(U,P), plain(V,Q), difference(P,Q,E).
plain(U*V,E) :- !, plain(U,P), plain(V,Q), product(P,Q,E).
plain(U/V,E) :- !, plain(U,P), plain(V,Q), quotient(P,Q,E).
plain(U^N,E) :- !, plain(U,P), power(P,N,E).
plain(-U,E) :- !, plain(U,P), negative(P,E).
plain(F,E) :- F =.. [Name,U], plain(U,P), E =.. [Name,P].

sum(0,E,E) :- !.
sum(E,0,E) :- !.
sum(M,N,E) :- integer(M), integer(N), !, E is M + N.
sum(P,-Q,E) :- !, difference(P,Q,E).
sum(P,Q,P+Q).

difference(E,0,E) :- !.
difference(0,E,N) :- !, negative(E,N).
difference(E,E,0) :- !.
difference(M,N,E) :- integer(M), integer(N), !, E is M - N.
difference(P+Q,P,Q) :- !.
difference(P,P+Q,N) :- !, negative(Q,N).
difference(P,N/Q,E) :- integer(N), N < 0, !, M is - N, sum(P,M/Q,E).
difference(P,Q,P-Q).

product(0,_,0) :- !.
product(_,0,0) :- !.
product(1,E,E) :- !.
product(E,1,E) :- !.
product(M,N,E) :- integer(M), integer(N), !, E is M * N.
product(P,N,E) :- integer(N), !, product(N,P,E).
product(M,N*P,E) :- integer(M), integer(N), !, K is M * N, product(K,P,E).
product(P,N*Q,E) :- integer(N), !, product(P,Q,R), product(N,R,E).
product(P,Q,P*Q).

quotient(0,_,0) :- !.
quotient(E,1,E) :- !.
quotient(E,E,1) :- !.
quotient(P,Q,P/Q).

power(_,0,1) :- !.
power(E,1,E) :- !.
power(P,N,P^N).

negative(N,E) :- integer(N), !, E is - N.
negative(-E,E) :- !.
negative(P-Q,Q-P) :- !.
negative(E,-E).
"##;

/// examples/expressions.pl
pub const EXPRESSIONS: &str = r##"% query: evaluate("12 * (3 + 4) - 100 / 7 + 2",Tree,Value)
% Reads an expression in two stages, both written as grammar rules: from character codes to tokens, and from tokens to a tree.
% Operators of one strength group to the left, which is why the parser hands on the tree that it has so far.

:- entry(evaluate(ground,out,out)).

evaluate(Text,Tree,Value) :-
    tokens(Tokens,Text,[]),
    sum(Tree,Tokens,[]),
    Value is Tree.

% Codes to tokens.

tokens(Tokens) --> blank, !, tokens(Tokens).
tokens([Token|Tokens]) --> token(Token), !, tokens(Tokens).
tokens([]) --> [].

blank --> [Code], { Code =< 32 }.

token(number(N)) --> digit(D), !, digits(D,N).
token(plus) --> "+".
token(minus) --> "-".
token(times) --> "*".
token(over) --> "/".
token(open) --> "(".
token(close) --> ")".

digits(Sofar,N) --> digit(D), !, { Next is Sofar * 10 + D }, digits(Next,N).
digits(N,N) --> [].

digit(D) --> [Code], { Code >= 0'0, Code =< 0'9, D is Code - 0'0 }.

% Tokens to a tree.

sum(Tree) --> product(First), sum_rest(First,Tree).

sum_rest(Sofar,Tree) --> [plus], !, product(Next), sum_rest(Sofar + Next,Tree).
sum_rest(Sofar,Tree) --> [minus], !, product(Next), sum_rest(Sofar - Next,Tree).
sum_rest(Tree,Tree) --> [].

product(Tree) --> factor(First), product_rest(First,Tree).

product_rest(Sofar,Tree) --> [times], !, factor(Next), product_rest(Sofar * Next,Tree).
product_rest(Sofar,Tree) --> [over], !, factor(Next), product_rest(Sofar // Next,Tree).
product_rest(Tree,Tree) --> [].

factor(N) --> [number(N)].
factor(- Tree) --> [minus], factor(Tree).
factor(Tree) --> [open], sum(Tree), [close].
"##;

/// examples/facts.pl
pub const FACTS: &str = r##"% query: p
:- entry(p).
p.
q.   % of another name
p.
"##;

/// examples/family.pl
pub const FAMILY: &str = r##"% query: relation(Relation,victoria,Other)
% A bank of facts on a family, and rules for the relations in it. The query asks for every relation of one person.

:- entry(relation(any,any,any)).

parents(edward_vii,albert,victoria).
parents(alice,albert,victoria).
parents(alfred,albert,victoria).
parents(victoria,edward_of_kent,victoria_of_saxe).
parents(albert,ernest,louise).
parents(ernest_ii,ernest,louise).
parents(edward_of_kent,george_iii,charlotte).
parents(george_iv,george_iii,charlotte).
parents(william_iv,george_iii,charlotte).
parents(victoria_of_saxe,francis,augusta).
parents(ernest,francis,augusta).
parents(george_v,edward_vii,alexandra).
parents(louise_of_fife,edward_vii,alexandra).
parents(alix,ludwig,alice).

male(edward_vii). male(albert). male(alfred). male(edward_of_kent). male(ernest). male(ernest_ii). male(george_iii).
male(george_iv). male(william_iv). male(francis). male(george_v). male(ludwig).

female(victoria). female(alice). female(victoria_of_saxe). female(louise). female(charlotte). female(augusta).
female(alexandra). female(louise_of_fife). female(alix).

parent(P,Child) :- parents(Child,P,_).
parent(P,Child) :- parents(Child,_,P).

relation(mother,X,Y) :- parents(X,_,Y).
relation(father,X,Y) :- parents(X,Y,_).
relation(husband,X,Y) :- married(Y,X).
relation(wife,X,Y) :- married(X,Y).
relation(son,X,Y) :- parent(X,Y), male(Y).
relation(daughter,X,Y) :- parent(X,Y), female(Y).
relation(grandparent,X,Y) :- parent(P,X), parent(Y,P).
relation(grandchild,X,Y) :- parent(X,P), parent(P,Y).
relation(brother,X,Y) :- siblings(X,Y), male(Y).
relation(uncle,X,Y) :- parent(P,X), siblings(P,Y), male(Y).
relation(cousin,X,Y) :- parent(P,X), siblings(P,Q), parent(Q,Y).
relation(ancestor,X,Y) :- ancestor(X,Y).

siblings(X,Y) :- parents(X,F,M), parents(Y,F,M), X \== Y.

% Each couple once, at its first child.
married(F,M) :- parents(Child,F,M), \+ elder(Child,F,M).

elder(Child,F,M) :- parents(First,F,M), !, First \== Child.

ancestor(X,Y) :- parent(Y,X).
ancestor(X,Y) :- parent(P,X), ancestor(P,Y).
"##;

/// examples/footpaths.pl
pub const FOOTPATHS: &str = r##"% query: tour
% The ways down from a summit to the bus. Each rule leads from a place to the next one, so that each answer is one way of
% walking down, with one of the buses.

:- entry(tour).

tour :- summit, bus.

summit :- ridge.
summit :- gully.

ridge :- saddle.
ridge :- hut.
gully :- hut.

saddle :- pasture.
hut :- pasture.
hut :- wood.

pasture :- village.
wood :- village.
wood :- mill.     % the longer way, along the brook
mill :- village.

village.

bus.   % at ten past four
bus.   % at ten past six
"##;

/// examples/hanoi.pl
pub const HANOI: &str = r##"% query: hanoi(4,Moves)
% The tower of Hanoi: each move of a disc is written down, and the answer counts the moves.

:- entry(hanoi(ground,out)).

hanoi(Discs,Moves) :- move(Discs,left,right,middle,0,Moves).

move(0,_,_,_,Moves,Moves) :- !.
move(Disc,From,To,Over,Before,After) :-
    Smaller is Disc - 1,
    move(Smaller,From,Over,To,Before,Between),
    write(disc(Disc)), write(': '), write(From), write(' -> '), write(To), nl,
    Next is Between + 1,
    move(Smaller,Over,To,From,Next,After).
"##;

/// examples/huffman.pl
pub const HUFFMAN: &str = r##"% query: huffman([a,b,r,a,c,a,d,a,b,r,a],Codes,Bits,Again)
% Huffman's codes for the letters of a text: the two rarest trees are joined until one is left, and a letter's code is its way
% from the root. The text is encoded by the codes and decoded by the tree again.

:- entry(huffman(ground,out,out,out)).

huffman(Text,Codes,Bits,Again) :-
    weights(Text,[],Weights),
    leaves(Weights,[],Leaves),
    join(Leaves,Tree),
    codes(Tree,[],Codes,[]),
    encode(Text,Codes,Bits),
    decode(Bits,Tree,Again).

weights([],Weights,Weights).
weights([Letter|Text],Sofar,Weights) :- add(Sofar,Letter,Next), weights(Text,Next,Weights).

add([],Letter,[weight(Letter,1)]).
add([weight(Letter,N)|Weights],Letter,[weight(Letter,M)|Weights]) :- !, M is N + 1.
add([Weight|Weights],Letter,[Weight|More]) :- add(Weights,Letter,More).

% Trees stand in a list, the lightest first; a new one goes behind those of its weight.
leaves([],Trees,Trees).
leaves([weight(Letter,N)|Weights],Sofar,Trees) :- insert(Sofar,N-leaf(Letter),Next), leaves(Weights,Next,Trees).

insert([],New,[New]).
insert([M-Tree|Trees],N-New,[N-New,M-Tree|Trees]) :- N < M, !.
insert([Tree|Trees],New,[Tree|More]) :- insert(Trees,New,More).

join([_-Tree],Tree) :- !.
join([M-Left,N-Right|Trees],Tree) :-
    Weight is M + N,
    insert(Trees,Weight-node(Left,Right),Next),
    join(Next,Tree).

codes(leaf(Letter),Backwards,[Letter-Code|Rest],Rest) :- reverse(Backwards,[],Code).
codes(node(Left,Right),Way,Codes,Rest) :-
    codes(Left,[0|Way],Codes,More),
    codes(Right,[1|Way],More,Rest).

encode([],_,[]).
encode([Letter|Text],Codes,Bits) :-
    code(Codes,Letter,Code),
    append(Code,Rest,Bits),
    encode(Text,Codes,Rest).

code([Letter-Code|_],Letter,Code) :- !.
code([_|Codes],Letter,Code) :- code(Codes,Letter,Code).

decode([],_,[]).
decode([Bit|Bits],Tree,[Letter|Text]) :- letter(Tree,[Bit|Bits],Letter,Rest), decode(Rest,Tree,Text).

letter(leaf(Letter),Bits,Letter,Bits).
letter(node(Left,Right),[Bit|Bits],Letter,Rest) :-
    ( Bit =:= 0 -> letter(Left,Bits,Letter,Rest) ; letter(Right,Bits,Letter,Rest) ).

append([],Ys,Ys).
append([X|Xs],Ys,[X|Zs]) :- append(Xs,Ys,Zs).

reverse([],Done,Done).
reverse([X|Rest],Sofar,Done) :- reverse(Rest,[X|Sofar],Done).
"##;

/// examples/knights_tour.pl
pub const KNIGHTS_TOUR: &str = r##"% query: tour(6,at(1,1))
% A knight visits each square of a board once. It always goes to the square with the fewest ways on; where that ends too early, it
% goes back to the next one. The board is written with the numbers of the moves.

:- entry(tour(ground,ground)).

tour(Size,Start) :-
    Squares is Size * Size,
    go(Squares,Size,[Start],Tour), !,
    draw(1,1,Size,Squares,Tour).

go(1,_,Tour,Tour) :- !.
go(Left,Size,[Square|Before],Tour) :-
    ways(Square,Size,[Square|Before],Ways),
    ranked(Ways,Size,[Square|Before],[],Ranked),
    member(_-Next,Ranked),
    Less is Left - 1,
    go(Less,Size,[Next,Square|Before],Tour).

% The squares that the knight can go to.
ways(Square,Size,Before,Ways) :-
    ways([by(1,2),by(2,1),by(2,-1),by(1,-2),by(-1,-2),by(-2,-1),by(-2,1),by(-1,2)],Square,Size,Before,Ways).

ways([],_,_,_,[]).
ways([by(DX,DY)|Moves],at(X,Y),Size,Before,[at(V,W)|Ways]) :-
    V is X + DX, V >= 1, V =< Size,
    W is Y + DY, W >= 1, W =< Size,
    \+ member(at(V,W),Before), !,
    ways(Moves,at(X,Y),Size,Before,Ways).
ways([_|Moves],Square,Size,Before,Ways) :- ways(Moves,Square,Size,Before,Ways).

% The squares with their numbers of ways on, the fewest first.
ranked([],_,_,Ranked,Ranked).
ranked([Square|Squares],Size,Before,Sofar,Ranked) :-
    ways(Square,Size,[Square|Before],Ways),
    length(Ways,0,N),
    insert(Sofar,N-Square,Next),
    ranked(Squares,Size,Before,Next,Ranked).

insert([],New,[New]).
insert([M-S|Others],N-T,[N-T,M-S|Others]) :- N < M, !.
insert([Other|Others],New,[Other|More]) :- insert(Others,New,More).

length([],N,N).
length([_|Xs],Sofar,N) :- Next is Sofar + 1, length(Xs,Next,N).

member(X,[X|_]).
member(X,[_|Rest]) :- member(X,Rest).

draw(_,Y,Size,_,_) :- Y > Size, !.
draw(X,Y,Size,Squares,Tour) :- X > Size, !, nl, Next is Y + 1, draw(1,Next,Size,Squares,Tour).
draw(X,Y,Size,Squares,Tour) :-
    number_of(Tour,at(X,Y),Squares,N),
    ( N < 10 -> write('  ') ; write(' ') ),
    write(N),
    Next is X + 1,
    draw(Next,Y,Size,Squares,Tour).

% The tour has its last square first.
number_of([Square|_],Square,N,N) :- !.
number_of([_|Squares],Square,Sofar,N) :- Next is Sofar - 1, number_of(Squares,Square,Next,N).
"##;

/// examples/lambda_types.pl
pub const LAMBDA_TYPES: &str = r##"% query: typing(Term,Type)
% Finds the most general type of lambda terms. A term is a variable `v(Name)`, a function `fn(Name,Body)`, an application
% `app(F,A)`, a `let(Name,Value,Body)`, or an integer. The unification of the language does not ask whether a variable occurs in
% the term that it is bound to, and a type checker has to: so `unify` here does it, and `fn(x,app(x,x))` has no type.

:- entry(typing(out,out)).

typing(Term,Type) :-
    example(Term),
    ( type(Term,[],Found) -> Type = Found ; Type = none ).

example(fn(x,v(x))).
example(fn(x,fn(y,v(x)))).
example(fn(f,fn(g,fn(x,app(v(f),app(v(g),v(x))))))).
example(fn(f,fn(x,fn(y,app(app(v(f),v(y)),v(x)))))).
example(app(fn(x,app(app(v(plus),v(x)),1)),41)).
example(fn(x,app(v(x),v(x)))).
example(app(1,2)).
example(let(identity,fn(x,v(x)),app(app(v(identity),v(identity)),3))).
example(app(fn(identity,app(app(v(identity),v(identity)),3)),fn(x,v(x)))).
example(fn(p,app(app(v(pair),v(p)),v(p)))).
example(v(unknown)).

type(N,_,int) :- integer(N).
type(v(Name),Context,Type) :-
    ( bound(Name,Context,Scheme) -> instance(Scheme,Type) ; constant(Name,Type) ).
type(fn(Name,Body),Context,(From -> To)) :- type(Body,[Name-mono(From)|Context],To).
type(app(F,A),Context,To) :-
    type(F,Context,TypeF),
    type(A,Context,From),
    unify(TypeF,(From -> To)).
type(let(Name,Value,Body),Context,Type) :-
    type(Value,Context,TypeV),
    type(Body,[Name-poly(TypeV,Context)|Context],Type).

constant(plus,(int -> int -> int)).
constant(pair,(A -> B -> pair(A,B))).

bound(Name,[Name-Scheme|_],Scheme) :- !.
bound(Name,[_|Context],Scheme) :- bound(Name,Context,Scheme).

% A use of what `let` names has a copy of its type, in which the variables of the context around stay as they are.
instance(mono(Type),Type).
instance(poly(Type,Context),Copy) :- copy_term(poly(Type,Context),poly(Copy,Context)).

unify(S,T) :- S == T, !.
unify(S,T) :- var(S), !, free_of(S,T), S = T.
unify(S,T) :- var(T), !, free_of(T,S), S = T.
unify(S,T) :-
    functor(S,Name,Arity),
    functor(T,Name,Arity),
    unify_arguments(Arity,S,T).

unify_arguments(0,_,_) :- !.
unify_arguments(N,S,T) :-
    arg(N,S,A),
    arg(N,T,B),
    unify(A,B),
    Before is N - 1,
    unify_arguments(Before,S,T).

free_of(X,T) :- var(T), !, X \== T.
free_of(X,T) :- functor(T,_,Arity), free_of_arguments(Arity,X,T).

free_of_arguments(0,_,_) :- !.
free_of_arguments(N,X,T) :-
    arg(N,T,A),
    free_of(X,A),
    Before is N - 1,
    free_of_arguments(Before,X,T).
"##;

/// examples/life.pl
pub const LIFE: &str = r##"% query: life(8,Alive)
% Conway's game of life on a board of fixed size, as lists of rows: a glider on its way. Each generation is drawn, and the answer
% counts the living cells at the end. What is outside the board is dead.

:- entry(life(ground,out)).

life(Generations,Alive) :- start(Board), run(Generations,Board,Alive).

start([
    [0,1,0,0,0,0,0,0],
    [0,0,1,0,0,0,0,0],
    [1,1,1,0,0,0,0,0],
    [0,0,0,0,0,0,0,0],
    [0,0,0,0,0,0,0,0],
    [0,0,0,0,0,0,0,0]
]).

run(0,Board,Alive) :- !, draw(Board), count(Board,0,Alive).
run(N,Board,Alive) :-
    draw(Board), nl,
    next(Board,New),
    M is N - 1,
    run(M,New,Alive).

draw([]).
draw([Row|Rows]) :- draw_row(Row), nl, draw(Rows).

draw_row([]).
draw_row([Cell|Cells]) :- ( Cell =:= 1 -> put_char('o') ; put_char('.') ), draw_row(Cells).

count([],N,N).
count([Row|Rows],Sofar,N) :- sum(Row,Sofar,Next), count(Rows,Next,N).

sum([],N,N).
sum([X|Xs],Sofar,N) :- Next is Sofar + X, sum(Xs,Next,N).

% Three rows at a time, with a dead row above the first and below the last one.
next([Row|Rows],New) :- dead(Row,Dead), next_rows(Dead,Row,Rows,Dead,New).

next_rows(Above,Row,[],Dead,[New]) :- !, next_row(Above,Row,Dead,New).
next_rows(Above,Row,[Below|Rows],Dead,[New|News]) :-
    next_row(Above,Row,Below,New),
    next_rows(Row,Below,Rows,Dead,News).

dead([],[]).
dead([_|Cells],[0|Dead]) :- dead(Cells,Dead).

% Three columns at a time, in the same way.
next_row([A|As],[B|Bs],[C|Cs],New) :-
    Column is A + B + C,
    next_cells(0,Column,B,As,Bs,Cs,New).

next_cells(Left,Middle,Cell,[],[],[],[New]) :- !,
    Around is Left + Middle - Cell,
    fate(Around,Cell,New).
next_cells(Left,Middle,Cell,[A|As],[B|Bs],[C|Cs],[New|News]) :-
    Right is A + B + C,
    Around is Left + Middle + Right - Cell,
    fate(Around,Cell,New),
    next_cells(Middle,Right,B,As,Bs,Cs,News).

fate(3,_,1) :- !.
fate(2,Cell,Cell) :- !.
fate(_,_,0).
"##;

/// examples/matrices.pl
pub const MATRICES: &str =
    r##"% query: matrices([[2,0,1],[1,3,-2],[0,4,5]],Transposed,Square,Determinant,Inverse)
% Matrices as lists of rows: the transposed one, products, determinants and the inverse times the determinant, which is the matrix
% of the minors. The last answer value is checked by multiplying it with the matrix.

:- entry(matrices(ground,out,out,out,out)).

matrices(Matrix,Transposed,Square,Determinant,over(Adjugate,Determinant)) :-
    transpose(Matrix,Transposed),
    product(Matrix,Matrix,Square),
    determinant(Matrix,Determinant),
    adjugate(Matrix,Adjugate),
    product(Matrix,Adjugate,Checked),
    diagonal(Checked,Determinant,0).

transpose([[]|_],[]) :- !.
transpose(Rows,[Firsts|Columns]) :- firsts(Rows,Firsts,Rests), transpose(Rests,Columns).

firsts([],[],[]).
firsts([[X|Xs]|Rows],[X|Firsts],[Xs|Rests]) :- firsts(Rows,Firsts,Rests).

product(A,B,C) :- transpose(B,Columns), rows_times(A,Columns,C).

rows_times([],_,[]).
rows_times([Row|Rows],Columns,[New|News]) :- row_times(Columns,Row,New), rows_times(Rows,Columns,News).

row_times([],_,[]).
row_times([Column|Columns],Row,[X|Xs]) :- dot(Row,Column,0,X), row_times(Columns,Row,Xs).

dot([],[],Sum,Sum).
dot([X|Xs],[Y|Ys],Sofar,Sum) :- Next is Sofar + X * Y, dot(Xs,Ys,Next,Sum).

% Along the first row, each element times the determinant of its minor, with signs in turn.
determinant([],1) :- !.
determinant([Row|Rows],Determinant) :- along(Row,1,1,Rows,0,Determinant).

along([],_,_,_,Sum,Sum).
along([X|Xs],Column,Sign,Rows,Sofar,Sum) :-
    without_column(Rows,Column,Minor),
    determinant(Minor,D),
    Next is Sofar + Sign * X * D,
    After is Column + 1,
    Other is - Sign,
    along(Xs,After,Other,Rows,Next,Sum).

without_column([],_,[]).
without_column([Row|Rows],Column,[Short|Shorts]) :- without(Column,Row,Short), without_column(Rows,Column,Shorts).

without(1,[_|Xs],Xs) :- !.
without(N,[X|Xs],[X|Ys]) :- M is N - 1, without(M,Xs,Ys).

adjugate(Matrix,Adjugate) :- minors(Matrix,[],1,Rows), transpose(Rows,Adjugate).

minors([],_,_,[]).
minors([Row|After],Before,Sign,[Minors|Rest]) :-
    append_reversed(Before,After,Others),
    row_minors(Row,1,Sign,Others,Minors),
    Other is - Sign,
    minors(After,[Row|Before],Other,Rest).

row_minors([],_,_,_,[]).
row_minors([_|Row],Column,Sign,Others,[Minor|Minors]) :-
    without_column(Others,Column,Rows),
    determinant(Rows,D),
    Minor is Sign * D,
    After is Column + 1,
    Other is - Sign,
    row_minors(Row,After,Other,Others,Minors).

append_reversed([],Rows,Rows).
append_reversed([Row|Rows],Sofar,All) :- append_reversed(Rows,[Row|Sofar],All).

diagonal([],_,_).
diagonal([Row|Rows],D,Zeros) :- zeros_but(Row,Zeros,D), Next is Zeros + 1, diagonal(Rows,D,Next).

zeros_but([D|Xs],0,D) :- !, zeros(Xs).
zeros_but([0|Xs],N,D) :- M is N - 1, zeros_but(Xs,M,D).

zeros([]).
zeros([0|Xs]) :- zeros(Xs).
"##;

/// examples/paragraph.pl
pub const PARAGRAPH: &str =
    r##"% query: paragraph("The quick brown fox jumps over the lazy dog, and the dog sleeps on. Then the sun goes down, and all is still.",28)
% Sets a text in lines of one width: words go on a line as long as they fit, and the spaces that are left over are given to the
% gaps from the left. The last line is not spread. Characters are written one by one.

:- entry(paragraph(ground,ground)).

paragraph(Text,Width) :-
    words(Words,Text,[]),
    lines(Words,Width,Lines),
    rule(Width),
    write_lines(Lines,Width),
    rule(Width).

words(Words) --> " ", !, words(Words).
words([Word|Words]) --> letters(Word), { Word = [_|_] }, !, words(Words).
words([]) --> [].

letters([Char|Chars]) --> [Code], { Code =\= 32, character(Code,Char) }, !, letters(Chars).
letters([]) --> [].

% A line is line(Words,Room), with the room that is left besides one space in each gap.
lines([],_,[]).
lines([Word|Words],Width,[line([Word|Others],Left)|Lines]) :-
    length(Word,0,Length),
    Room is Width - Length,
    fill(Words,Room,Others,Left,Rest),
    lines(Rest,Width,Lines).

fill([Word|Words],Room,[Word|Others],Left,Rest) :-
    length(Word,0,Length),
    Length < Room, !,
    Less is Room - Length - 1,
    fill(Words,Less,Others,Left,Rest).
fill(Words,Room,[],Room,Words).

length([],N,N).
length([_|Xs],Sofar,N) :- Next is Sofar + 1, length(Xs,Next,N).

write_lines([line(Words,_)],_) :- !, put_char('|'), put_words(Words,0,0), put_char('|'), nl.
write_lines([line(Words,Left)|Lines],Width) :-
    gaps(Words,Gaps),
    put_char('|'),
    ( Gaps =:= 0 -> put_words(Words,0,0) ; Each is Left // Gaps, More is Left rem Gaps, put_words(Words,Each,More) ),
    put_char('|'), nl,
    write_lines(Lines,Width).

gaps(Words,Gaps) :- length(Words,0,N), Gaps is N - 1.

put_words([Word],_,_) :- !, put_chars(Word).
put_words([Word|Words],Each,More) :-
    put_chars(Word),
    ( More > 0 -> Spaces is Each + 2, Less is More - 1 ; Spaces is Each + 1, Less = 0 ),
    put_times(Spaces,' '),
    put_words(Words,Each,Less).

put_chars([]).
put_chars([Char|Chars]) :- put_char(Char), put_chars(Chars).

put_times(0,_) :- !.
put_times(N,Char) :- put_char(Char), M is N - 1, put_times(M,Char).

rule(Width) :- put_char('+'), put_times(Width,'-'), put_char('+'), nl.

% There is no built-in that makes an atom of a code.
character(0'a,a). character(0'b,b). character(0'c,c). character(0'd,d). character(0'e,e). character(0'f,f). character(0'g,g).
character(0'h,h). character(0'i,i). character(0'j,j). character(0'k,k). character(0'l,l). character(0'm,m). character(0'n,n).
character(0'o,o). character(0'p,p). character(0'q,q). character(0'r,r). character(0's,s). character(0't,t). character(0'u,u).
character(0'v,v). character(0'w,w). character(0'x,x). character(0'y,y). character(0'z,z).
character(0'T,'T'). character(0',,','). character(0'.,'.').
"##;

/// examples/queens.pl
pub const QUEENS: &str = r##"% query: queens(6,Rows)
% All ways of placing queens on a board so that none attacks another one. Each column holds one queen, and the answer lists
% their rows. The columns are filled one after the other; the rows that are left are handed on, so that only diagonals have
% to be compared.

:- entry(queens(ground,out)).

queens(N,Rows) :- rows(N,Free), place(Free,[],Rows).

rows(N,Rows) :- rows(1,N,Rows).

rows(N,N,[N]) :- !.
rows(K,N,[K|Rows]) :- K < N, Next is K + 1, rows(Next,N,Rows).

place([],Placed,Placed).
place(Free,Placed,Rows) :-
    take(Row,Free,Rest),
    safe(Placed,Row,1),
    place(Rest,[Row|Placed],Rows).

take(X,[X|Rest],Rest).
take(X,[Y|Rest],[Y|Left]) :- take(X,Rest,Left).

safe([],_,_).
safe([Other|Placed],Row,Distance) :-
    Other =\= Row + Distance,
    Other =\= Row - Distance,
    Next is Distance + 1,
    safe(Placed,Row,Next).
"##;

/// examples/river_crossing.pl
pub const RIVER_CROSSING: &str = r##"% query: crossing(Plan)
% A farmer has to bring a wolf, a goat and a cabbage over a river in a boat that holds one of them beside the farmer. Alone
% with each other, the wolf eats the goat and the goat eats the cabbage. The plans are searched breadth first, so that the
% shortest come first, and the search stops at the length of the first ones.

:- entry(crossing(out)).

% A state says for each of the four on which bank it is.
crossing(Plan) :-
    shortest([way(state(left,left,left,left),[])],Plans),
    member(Backwards,Plans),
    reverse(Backwards,[],Plan).

% From all ways of one length: those that have arrived, or else the search among the ways that are one crossing longer.
shortest(Ways,Plans) :-
    arrived(Ways,Plans),
    Plans = [_|_], !.
shortest(Ways,Plans) :-
    Ways = [_|_],
    longer(Ways,Next),
    shortest(Next,Plans).

arrived([],[]).
arrived([way(state(right,right,right,right),Plan)|Ways],[Plan|Plans]) :- !, arrived(Ways,Plans).
arrived([_|Ways],Plans) :- arrived(Ways,Plans).

longer([],[]).
longer([Way|Ways],Next) :-
    longer(Ways,Later),
    steps([nothing,wolf,goat,cabbage],Way,Later,Next).

steps([],_,Next,Next).
steps([Load|Loads],way(State,Plan),Later,[way(New,[Load|Plan])|Next]) :-
    cross(Load,State,New),
    safe(New),
    sensible(Load,Plan), !,
    steps(Loads,way(State,Plan),Later,Next).
steps([_|Loads],Way,Later,Next) :- steps(Loads,Way,Later,Next).

% Nobody takes straight back what was just brought over.
sensible(_,[]).
sensible(Load,[Last|_]) :- Load \== Last.

cross(nothing,state(F,W,G,C),state(T,W,G,C)) :- opposite(F,T).
cross(wolf,state(F,F,G,C),state(T,T,G,C)) :- opposite(F,T).
cross(goat,state(F,W,F,C),state(T,W,T,C)) :- opposite(F,T).
cross(cabbage,state(F,W,G,F),state(T,W,G,T)) :- opposite(F,T).

opposite(left,right).
opposite(right,left).

safe(state(F,W,G,C)) :-
    ( G = F -> true ; W \== G, G \== C ).

member(X,[X|_]).
member(X,[_|Rest]) :- member(X,Rest).

reverse([],Done,Done).
reverse([X|Rest],Sofar,Done) :- reverse(Rest,[X|Sofar],Done).
"##;

/// examples/routes.pl
pub const ROUTES: &str = r##"% query: route(bern,chur,Towns,Kilometres)
% The shortest way between two towns, found from the nearest town outwards: the ways that are begun are kept in the order of
% their lengths, the shortest is gone on with, and a town that was left once is not entered again.

:- entry(route(ground,ground,out,out)).

road(geneva,lausanne,64).
road(lausanne,bern,102).
road(lausanne,sion,93).
road(sion,brig,53).
road(bern,basel,97).
road(bern,luzern,111).
road(bern,zurich,125).
road(bern,brig,113).
road(basel,zurich,87).
road(zurich,luzern,52).
road(zurich,chur,119).
road(zurich,st_gallen,85).
road(st_gallen,chur,104).
road(luzern,bellinzona,139).
road(brig,bellinzona,133).
road(bellinzona,chur,117).

between(A,B,Length) :- road(A,B,Length).
between(A,B,Length) :- road(B,A,Length).

route(From,To,Towns,Length) :-
    search([way(0,From,[])],[],To,Backwards,Length),
    reverse(Backwards,[],Towns).

search([way(Length,To,Before)|_],_,To,[To|Before],Length) :- !.
search([way(_,Town,_)|Ways],Left,To,Towns,Length) :-
    member(Town,Left), !,
    search(Ways,Left,To,Towns,Length).
search([way(Sofar,Town,Before)|Ways],Left,To,Towns,Length) :-
    roads(Town,Left,Roads),
    begin_ways(Roads,Sofar,[Town|Before],Ways,Next),
    search(Next,[Town|Left],To,Towns,Length).

% The roads from a town to towns that were not left yet, one after the other: without a built-in that collects answers, each
% is asked for with the list of those that are known.
roads(Town,Left,Roads) :- further_roads(Town,Left,[],Roads).

further_roads(Town,Left,Known,Roads) :-
    between(Town,Next,Length),
    \+ member(Next,Left),
    \+ member(to(Next,Length),Known), !,
    further_roads(Town,Left,[to(Next,Length)|Known],Roads).
further_roads(_,_,Roads,Roads).

begin_ways([],_,_,Ways,Ways).
begin_ways([to(Town,Length)|Roads],Sofar,Before,Ways,Next) :-
    Total is Sofar + Length,
    insert(Ways,way(Total,Town,Before),More),
    begin_ways(Roads,Sofar,Before,More,Next).

insert([],New,[New]).
insert([way(A,T,B)|Ways],way(C,U,D),[way(C,U,D),way(A,T,B)|Ways]) :- C < A, !.
insert([Way|Ways],New,[Way|More]) :- insert(Ways,New,More).

member(X,[X|_]).
member(X,[_|Rest]) :- member(X,Rest).

reverse([],Done,Done).
reverse([X|Rest],Sofar,Done) :- reverse(Rest,[X|Sofar],Done).
"##;

/// examples/run_length.pl
pub const RUN_LENGTH: &str = r##"% query: packed(Row,Runs,Same)
% Run-length encoding of the rows of a small picture, and back again: each row is packed to runs of equal points, the runs are
% unpacked, and the last value says whether the row came back. The picture is written first.

:- entry(packed(out,out,out)).

packed(Row,Runs,Same) :-
    picture(Row,Codes),
    points(Codes,Points),
    draw(Points),
    pack(Points,Runs),
    unpack(Runs,Again),
    ( Points = Again -> Same = yes ; Same = no ).

picture(1,"...####....").
picture(2,".##....##..").
picture(3,"#........##").
picture(4,"...........").

points([],[]).
points([0'.|Codes],[white|Points]) :- points(Codes,Points).
points([0'#|Codes],[black|Points]) :- points(Codes,Points).

draw([]) :- nl.
draw([Point|Points]) :- character(Point,Char), put_char(Char), draw(Points).

character(white,' ').
character(black,'#').

pack([],[]).
pack([X|Xs],[N*X|Runs]) :- run(Xs,X,1,N,Rest), pack(Rest,Runs).

run([X|Xs],X,Sofar,N,Rest) :- !, Next is Sofar + 1, run(Xs,X,Next,N,Rest).
run(Rest,_,N,N,Rest).

unpack([],[]).
unpack([0*_|Runs],Points) :- !, unpack(Runs,Points).
unpack([N*X|Runs],[X|Points]) :- M is N - 1, unpack([M*X|Runs],Points).
"##;

/// examples/search_tree.pl
pub const SEARCH_TREE: &str =
    r##"% query: dictionary([in,the,beginning,was,the,word,and,the,word,was,with,letters],Words,Height)
% Counts words in a balanced search tree. Each inner node keeps the difference of the heights of its sides, and where one side
% has grown by two, a rotation mends the tree. The words are compared by the order of terms.

:- entry(dictionary(ground,out,out)).

dictionary(Words,Counts,Height) :-
    insert_all(Words,empty,Tree),
    counts(Tree,Counts,[]),
    height(Tree,Height).

insert_all([],Tree,Tree).
insert_all([Word|Words],Before,After) :-
    insert(Before,Word,Between,_),
    insert_all(Words,Between,After).

% insert(Before,Word,After,Grown): Grown says whether the tree is higher than before.
insert(empty,Word,tree(empty,Word,1,balanced,empty),yes).
insert(tree(L,W,N,B,R),Word,After,Grown) :-
    compare(Order,Word,W),
    insert(Order,tree(L,W,N,B,R),Word,After,Grown).

insert(=,tree(L,W,N,B,R),_,tree(L,W,M,B,R),no) :- M is N + 1.
insert(<,tree(L,W,N,B,R),Word,After,Grown) :-
    insert(L,Word,NewL,GrownL),
    grow_left(GrownL,tree(NewL,W,N,B,R),After,Grown).
insert(>,tree(L,W,N,B,R),Word,After,Grown) :-
    insert(R,Word,NewR,GrownR),
    grow_right(GrownR,tree(L,W,N,B,NewR),After,Grown).

grow_left(no,Tree,Tree,no).
grow_left(yes,tree(L,W,N,balanced,R),tree(L,W,N,left,R),yes).
grow_left(yes,tree(L,W,N,right,R),tree(L,W,N,balanced,R),no).
grow_left(yes,tree(L,W,N,left,R),After,no) :- rotate_right(L,W,N,R,After).

grow_right(no,Tree,Tree,no).
grow_right(yes,tree(L,W,N,balanced,R),tree(L,W,N,right,R),yes).
grow_right(yes,tree(L,W,N,left,R),tree(L,W,N,balanced,R),no).
grow_right(yes,tree(L,W,N,right,R),After,no) :- rotate_left(L,W,N,R,After).

rotate_right(tree(A,V,M,left,B),W,N,C,tree(A,V,M,balanced,tree(B,W,N,balanced,C))).
rotate_right(tree(A,U,L,right,tree(B,V,M,Side,C)),W,N,D,tree(tree(A,U,L,BU,B),V,M,balanced,tree(C,W,N,BW,D))) :-
    shares(Side,BU,BW).

rotate_left(A,V,M,tree(B,W,N,right,C),tree(tree(A,V,M,balanced,B),W,N,balanced,C)).
rotate_left(A,U,L,tree(tree(B,V,M,Side,C),W,N,left,D),tree(tree(A,U,L,BU,B),V,M,balanced,tree(C,W,N,BW,D))) :-
    shares(Side,BU,BW).

% What the middle tree's side gives to the two nodes beneath it.
shares(left,balanced,right).
shares(right,left,balanced).
shares(balanced,balanced,balanced).

counts(empty,Rest,Rest).
counts(tree(L,W,N,_,R),Counts,Rest) :-
    counts(L,Counts,[W-N|More]),
    counts(R,More,Rest).

height(empty,0).
height(tree(L,_,_,Side,R),Height) :-
    ( Side == right -> height(R,H) ; height(L,H) ),
    Height is H + 1.
"##;

/// examples/send_more_money.pl
pub const SEND_MORE_MONEY: &str = r##"% query: solve(Send,More,Money)
% SEND + MORE = MONEY, where each letter is a digit of its own. The columns are added from the right, and each sum fixes the
% digit below it, so that a wrong choice is seen early.

:- entry(solve(out,out,out)).

solve([S,E,N,D],[M,O,R,E],[M,O,N,E,Y]) :-
    Digits = [0,1,2,3,4,5,6,7,8,9],
    column(0,D,E,Y,Carry1,Digits,Digits1),
    column(Carry1,N,R,E,Carry2,Digits1,Digits2),
    column(Carry2,E,O,N,Carry3,Digits2,Digits3),
    column(Carry3,S,M,O,M,Digits3,_),
    S > 0,
    M > 0.

% The letters of a column, with the digits that no letter has before and after. A carry is no letter, but the last one is M.
column(Carry,A,B,Sum,Carried,Before,After) :-
    digit(A,Before,Between),
    digit(B,Between,Later),
    Total is A + B + Carry,
    Carried is Total // 10,
    Low is Total mod 10,
    sum_digit(Sum,Low,Later,After).

% A letter that has its digit keeps it.
digit(A,Digits,Digits) :- integer(A), !.
digit(A,Digits,Rest) :- take(A,Digits,Rest).

sum_digit(A,Low,Digits,Digits) :- integer(A), !, A = Low.
sum_digit(Low,Low,Digits,Rest) :- take(Low,Digits,Rest).

take(X,[X|Rest],Rest).
take(X,[Y|Rest],[Y|Left]) :- take(X,Rest,Left).
"##;

/// examples/sightings.pl
pub const SIGHTINGS: &str = r##"% query: kingfisher
% The log of one day at a bird hide: a line for each sighting, in the order of the day. The query answers once for each
% sighting of a kingfisher; another entry asks for another bird.

:- entry(kingfisher).

heron.
mallard.
mallard.
kingfisher.   % upstream, with a fish
coot.
moorhen.
mallard.
reed_bunting.
grey_wagtail.
mallard.
heron.
kingfisher.   % perched on the rail
little_grebe.
coot.
coot.
mute_swan.
mallard.
wren.
robin.
kingfisher.   % heard only
heron.
cormorant.
mallard.
teal.
teal.
gadwall.
coot.
moorhen.
water_rail.
snipe.
kingfisher.   % pair at the bank
mallard.
sedge_warbler.
reed_warbler.
swift.
swift.
swallow.
house_martin.
kingfisher.   % flying downstream
heron.
little_egret.
mallard.
coot.
tufted_duck.
pochard.
shoveler.
kestrel.
kingfisher.   % just before dusk
barn_owl.
mallard.
"##;

/// examples/sorting.pl
pub const SORTING: &str = r##"% query: sorted(Method,Sorted)
% Four ways of sorting one list of numbers, an answer for each of them.

:- entry(sorted(out,out)).

sorted(Method,Sorted) :-
    numbers(Numbers),
    sorted(Method,Numbers,Sorted).

numbers([31,4,15,92,65,35,89,79,32,38,46,26,43,38,32,79,50,28,84,19,71,69,39,93,75,10,58,20,97,49,44,59]).

sorted(insertion,Numbers,Sorted) :- insertion_sort(Numbers,[],Sorted).
sorted(selection,Numbers,Sorted) :- selection_sort(Numbers,Sorted).
sorted(merge,Numbers,Sorted) :- merge_sort(Numbers,Sorted).
sorted(quick,Numbers,Sorted) :- quick_sort(Numbers,Sorted,[]).

insertion_sort([],Sorted,Sorted).
insertion_sort([X|Xs],Sofar,Sorted) :- insert(X,Sofar,Next), insertion_sort(Xs,Next,Sorted).

insert(X,[],[X]).
insert(X,[Y|Ys],[X,Y|Ys]) :- X =< Y, !.
insert(X,[Y|Ys],[Y|Zs]) :- insert(X,Ys,Zs).

selection_sort([],[]).
selection_sort([X|Xs],[Least|Sorted]) :-
    least(Xs,X,Least),
    without(Least,[X|Xs],Rest),
    selection_sort(Rest,Sorted).

least([],Least,Least).
least([X|Xs],Sofar,Least) :- X < Sofar, !, least(Xs,X,Least).
least([_|Xs],Sofar,Least) :- least(Xs,Sofar,Least).

without(X,[X|Xs],Xs) :- !.
without(X,[Y|Ys],[Y|Zs]) :- without(X,Ys,Zs).

merge_sort([],[]) :- !.
merge_sort([X],[X]) :- !.
merge_sort(Xs,Sorted) :-
    halves(Xs,Ys,Zs),
    merge_sort(Ys,SortedYs),
    merge_sort(Zs,SortedZs),
    merge(SortedYs,SortedZs,Sorted).

halves([],[],[]).
halves([X|Xs],[X|Ys],Zs) :- halves(Xs,Zs,Ys).

merge([],Ys,Ys) :- !.
merge(Xs,[],Xs) :- !.
merge([X|Xs],[Y|Ys],[X|Zs]) :- X =< Y, !, merge(Xs,[Y|Ys],Zs).
merge([X|Xs],[Y|Ys],[Y|Zs]) :- merge([X|Xs],Ys,Zs).

% The sorted list ends with what is sorted behind it, so nothing is appended.
quick_sort([],Rest,Rest).
quick_sort([X|Xs],Sorted,Rest) :-
    divide(Xs,X,Small,Large),
    quick_sort(Small,Sorted,[X|SortedLarge]),
    quick_sort(Large,SortedLarge,Rest).

divide([],_,[],[]).
divide([Y|Ys],X,[Y|Small],Large) :- Y < X, !, divide(Ys,X,Small,Large).
divide([Y|Ys],X,Small,[Y|Large]) :- divide(Ys,X,Small,Large).
"##;

/// examples/while_language.pl
pub const WHILE_LANGUAGE: &str =
    r##"% query: execute("left := 10; sum := 0; while 0 < left do (if even left then sum := sum + left else skip; left := left - 1)",Store)
% A small imperative language: its text is tokenized and parsed by grammar rules to a statement, and the statement is carried
% out on a store, which is a list of names and values. A name that has no value yet raises an error, and it is caught.

:- entry(execute(ground,out)).

execute(Text,Store) :-
    tokens(Tokens,Text,[]),
    statements(Program,Tokens,[]),
    catch(carry_out(Program,[],Store),no_value(Name),Store = no_value(Name)).

% Tokens. There is no built-in that makes an atom of codes, so a table has the words of the language and the names.

tokens(Tokens) --> blank, !, tokens(Tokens).
tokens([Token|Tokens]) --> token(Token), !, tokens(Tokens).
tokens([]) --> [].

blank --> " ".
blank --> "\n".

token(word(Word)) --> letter(C), !, letters(Cs), { word([C|Cs],Word) }.
token(number(N)) --> digit(D), !, digits(D,N).
token(assign) --> ":=".
token(less) --> "<".
token(plus) --> "+".
token(minus) --> "-".
token(times) --> "*".
token(semicolon) --> ";".
token(open) --> "(".
token(close) --> ")".

letters([C|Cs]) --> letter(C), !, letters(Cs).
letters([]) --> [].

letter(C) --> [C], { C >= 0'a, C =< 0'z }.

digits(Sofar,N) --> digit(D), !, { Next is Sofar * 10 + D }, digits(Next,N).
digits(N,N) --> [].

digit(D) --> [C], { C >= 0'0, C =< 0'9, D is C - 0'0 }.

word("while",while) :- !.
word("do",do) :- !.
word("if",if) :- !.
word("then",then) :- !.
word("else",else) :- !.
word("even",even) :- !.
word("skip",skip) :- !.
word("left",left) :- !.
word("sum",sum) :- !.
word(Codes,unknown(Codes)).

% Statements.

statements(Program) --> statement(First), statements_after(First,Program).

statements_after(First,(First;Rest)) --> [semicolon], !, statements(Rest).
statements_after(First,First) --> [].

statement(skip) --> [word(skip)].
statement(while(Test,Body)) --> [word(while)], !, test(Test), [word(do)], statement(Body).
statement(if(Test,Yes,No)) -->
    [word(if)], !, test(Test), [word(then)], statement(Yes), [word(else)], statement(No).
statement(Body) --> [open], !, statements(Body), [close].
statement(assign(Name,Value)) --> [word(Name),assign], value(Value).

test(even(Value)) --> [word(even)], !, value(Value).
test(less(A,B)) --> value(A), [less], value(B).

value(Value) --> simple(First), value_after(First,Value).

value_after(Sofar,Value) --> [plus], !, simple(Next), value_after(plus(Sofar,Next),Value).
value_after(Sofar,Value) --> [minus], !, simple(Next), value_after(minus(Sofar,Next),Value).
value_after(Sofar,Value) --> [times], !, simple(Next), value_after(times(Sofar,Next),Value).
value_after(Value,Value) --> [].

simple(number(N)) --> [number(N)].
simple(name(Name)) --> [word(Name)].

% Carrying out.

carry_out(skip,Store,Store).
carry_out((First;Rest),Before,After) :- carry_out(First,Before,Between), carry_out(Rest,Between,After).
carry_out(assign(Name,Expression),Before,After) :- evaluate(Expression,Before,Value), put(Before,Name,Value,After).
carry_out(if(Test,Yes,No),Before,After) :-
    ( succeeds(Test,Before) -> carry_out(Yes,Before,After) ; carry_out(No,Before,After) ).
carry_out(while(Test,Body),Before,After) :-
    (   succeeds(Test,Before)
    ->  carry_out(Body,Before,Between), carry_out(while(Test,Body),Between,After)
    ;   After = Before
    ).

succeeds(even(Expression),Store) :- evaluate(Expression,Store,Value), 0 is Value mod 2.
succeeds(less(A,B),Store) :- evaluate(A,Store,X), evaluate(B,Store,Y), X < Y.

evaluate(number(N),_,N).
evaluate(name(Name),Store,Value) :- ( value_of(Store,Name,Found) -> Value = Found ; throw(no_value(Name)) ).
evaluate(plus(A,B),Store,Value) :- evaluate(A,Store,X), evaluate(B,Store,Y), Value is X + Y.
evaluate(minus(A,B),Store,Value) :- evaluate(A,Store,X), evaluate(B,Store,Y), Value is X - Y.
evaluate(times(A,B),Store,Value) :- evaluate(A,Store,X), evaluate(B,Store,Y), Value is X * Y.

value_of([Name = Value|_],Name,Value) :- !.
value_of([_|Store],Name,Value) :- value_of(Store,Name,Value).

put([],Name,Value,[Name = Value]).
put([Name = _|Store],Name,Value,[Name = Value|Store]) :- !.
put([Other|Store],Name,Value,[Other|After]) :- put(Store,Name,Value,After).
"##;

/// examples/zebra.pl
pub const ZEBRA: &str = r##"% query: zebra(Zebra,Water)
% The puzzle of the five houses: who keeps the zebra, and who drinks water? A house is known by its colour, the nation of its
% owner, the pet, the drink and the brand that is smoked.

:- entry(zebra(out,out)).

zebra(Zebra,Water) :-
    Street = [house(_,norwegian,_,_,_),_,house(_,_,_,milk,_),_,_],
    member(house(red,english,_,_,_),Street),
    member(house(green,_,_,coffee,_),Street),
    right_of(house(green,_,_,_,_),house(ivory,_,_,_,_),Street),
    member(house(_,spanish,dog,_,_),Street),
    member(house(_,ukrainian,_,tea,_),Street),
    member(house(_,_,snails,_,old_gold),Street),
    member(house(yellow,_,_,_,kools),Street),
    beside(house(_,norwegian,_,_,_),house(blue,_,_,_,_),Street),
    beside(house(_,_,_,_,kools),house(_,_,horse,_,_),Street),
    beside(house(_,_,_,_,chesterfield),house(_,_,fox,_,_),Street),
    member(house(_,_,_,orange_juice,lucky_strike),Street),
    member(house(_,japanese,_,_,parliament),Street),
    member(house(_,Zebra,zebra,_,_),Street),
    member(house(_,Water,_,water,_),Street).

member(X,[X|_]).
member(X,[_|Rest]) :- member(X,Rest).

right_of(X,Y,[Y,X|_]).
right_of(X,Y,[_|Rest]) :- right_of(X,Y,Rest).

beside(X,Y,Street) :- right_of(X,Y,Street).
beside(X,Y,Street) :- right_of(Y,X,Street).
"##;

use crate::postfix::Postfix;
use aq_base::refusal::refusal_text;
use source_program::fault::GatherFault;
use source_program::program::Program;
use source_program::query_entry::{EntryFault, query_entry};
use source_program::{Entries, gather};
use std::alloc::Global;
use std::fmt::Write;
use std::process::Abort;
use std::test::Fail;

/// `accepted`, or what the line of the refusal says.
fn answer(alloc: Global, text: &str) -> Result<String, Fail> {
    let mut postfix = Postfix::new(alloc)?;
    postfix.read(text)?;
    match gather(alloc, &postfix.clauses, postfix.atoms()) {
        Ok(_program) => Ok(String::from_str(alloc, "accepted")?),
        Err(GatherFault::Memory) => Err(Fail::new("out of memory")),
        Err(GatherFault::Refused(refusal)) => {
            let line = String::from_utf8(refusal_text(alloc, &refusal)?)?;
            let text = line.as_str().trim_start_matches("refused: ").trim_end();
            Ok(String::from_str(alloc, text)?)
        }
    }
}

/// Programs in postfix order, each behind the entry of p/0, which is clause 1, and what is answered.
const BEHIND_ENTRY: &str = "\
p . | accepted
p q :-/2 . | accepted
p . p . q . | accepted
p . q . p . q . | accepted
p true :-/2 . | accepted
p fail :-/2 . | accepted
p ! :-/2 . | accepted
p q r ,/2 :-/2 . | accepted
p q r ;/2 :-/2 . | accepted
p q r ->/2 :-/2 . | accepted
p q \\+/1 :-/2 . | accepted
p q r ->/2 s ;/2 :-/2 . | accepted
p q r ;/2 s ;/2 :-/2 . | accepted
p 1 2 =/2 :-/2 . | accepted
p nl :-/2 . | accepted
p q E r catch/3 :-/2 . | accepted
p ! _ ! catch/3 :-/2 . | accepted
p X throw/1 :-/2 . | accepted
p catch :-/2 . | accepted
p a catch/1 :-/2 . | accepted
p a b c d catch/4 :-/2 . | accepted
p a b throw/2 :-/2 . | accepted
p {} :-/2 . | accepted
p a {}/1 :-/2 . | accepted
p [] :-/2 . | accepted
p a b ./2 :-/2 . | accepted
p a nl/1 :-/2 . | accepted
p a b var/2 :-/2 . | accepted
p entry :-/2 . | accepted
p q entry/1 :-/2 . | accepted
p a b c d e f g h i call/9 :-/2 . | accepted
p call :-/2 . | accepted
p X :-/2 . | clause 2: body
p 7 :-/2 . | clause 2: body
p q X ,/2 :-/2 . | clause 2: body
p X q ,/2 :-/2 . | clause 2: body
p q X ;/2 :-/2 . | clause 2: body
p X q ->/2 :-/2 . | clause 2: body
p X \\+/1 :-/2 . | clause 2: body
p X E r catch/3 :-/2 . | clause 2: body
p q E 1 catch/3 :-/2 . | clause 2: body
p q call/1 :-/2 . | clause 2: body
p a b c d e f g h call/8 :-/2 . | clause 2: body
p X q L findall/3 :-/2 . | clause 2: body
p a assertz/1 :-/2 . | clause 2: body
p halt :-/2 . | clause 2: body
p 1 halt/1 :-/2 . | clause 2: body
p repeat :-/2 . | clause 2: body
p a b :-/2 :-/2 . | clause 2: body
p a :-/1 :-/2 . | clause 2: body
p a ?-/1 :-/2 . | clause 2: body
p a b -->/2 :-/2 . | clause 2: body
X . | clause 2: head
7 . | clause 2: head
X q :-/2 . | clause 2: head
true . | clause 2: head
fail q :-/2 . | clause 2: head
! . | clause 2: head
a b ,/2 . | clause 2: head
a b ;/2 q :-/2 . | clause 2: head
a b ->/2 . | clause 2: head
a \\+/1 . | clause 2: head
a b c catch/3 . | clause 2: head
a throw/1 q :-/2 . | clause 2: head
X Y =/2 . | clause 2: head
nl . | clause 2: head
X Y is/2 q :-/2 . | clause 2: head
a once/1 . | clause 2: head
a ?-/1 . | clause 2: head
a b :-/2 c :-/2 . | clause 2: head
X Y :-/2 . | clause 2: head
catch . throw . a nl/1 . | accepted
q :-/1 . | clause 2: directive
X :-/1 . | clause 2: directive
X entry/1 :-/1 . | clause 2: directive
1 entry/1 :-/1 . | clause 2: directive
X q/1 entry/1 :-/1 . | clause 2: directive
in q/1 entry/1 :-/1 . | clause 2: directive
a b entry/2 :-/1 . | clause 2: directive
p . p entry/1 :-/1 . | clause 3: directive";

/// The answers to the programs of a table, each behind the entry of p/0 and before a fact of p/0.
fn assert_answers(rt: &impl Abort, alloc: Global, table: &str) -> Result<(), Fail> {
    for line in table.lines() {
        let (program, wanted) = line.split_once(" | ").ok_or("no answer")?;
        let text = format!(in alloc; "p entry/1 :-/1 . {program} p .")?;
        let given = answer(alloc, text.as_str())?;
        assert_eq!(rt; given.as_str(), wanted, "{program}");
    }
    Ok(())
}

#[test]
fn forms_of_clauses(rt: HostRuntime) -> Result<(), Fail> {
    assert_answers(&rt, rt.alloc(), BEHIND_ENTRY)
}

/// Programs at a limit and one past it, as in the table of forms.
const LIMITS: &str = "\
a*63 q/63 . | accepted
q a*63 r/63 :-/2 . | accepted
q r E s a*63 r/63 t ;/2 \\+/1 ,/2 catch/3 :-/2 . | accepted
a*64 q/64 . | clause 2: limit arity
q a*64 r/64 :-/2 . | clause 2: limit arity
q r E s a*64 r/64 t ;/2 \\+/1 ,/2 catch/3 :-/2 . | clause 2: limit arity
a*64 f/64 q/1 . | accepted
X1..62 f/62 q/1 X1..62 g/62 r/1 \\+/1 :-/2 . | accepted
q X1..62 g/62 r/1 s ;/2 X1..62 g/62 r/1 ,/2 :-/2 . | accepted
q X1..62 g/62 r/1 X1..62 h/62 s catch/3 :-/2 . | accepted
X1..62 f/62 q/1 X1..62 g/62 a \\=/2 :-/2 . | accepted
X1..63 f/63 q/1 X1..63 g/63 r/1 \\+/1 :-/2 . | clause 2: limit branch
q X1..63 g/63 r/1 s ;/2 X1..63 g/63 r/1 ,/2 :-/2 . | clause 2: limit branch
q X1..63 g/63 r/1 X1..63 h/63 s catch/3 :-/2 . | clause 2: limit branch
X1..63 f/63 q/1 X1..63 g/63 a \\=/2 :-/2 . | clause 2: limit branch
q X1..63 g/63 r/1 X1..63 h/63 r/1 ;/2 :-/2 . | accepted
q X1..63 g/63 r/1 X1..63 h/63 r/1 ,/2 \\+/1 :-/2 . | accepted
X1..62 f/62 q/1 X1..62 g/62 r/1 ! ;/2 :-/2 . | accepted
A B q/2 A X1..200 f/200 =/2 B X201..398 f/198 =/2 ,/2 :-/2 . | accepted
A B q/2 A X1..200 f/200 =/2 B X201..399 f/199 =/2 ,/2 :-/2 . | clause 2: limit variables
q X1..63 r/63 X64..126 r/63 X127..189 r/63 X190..252 r/63 X253..256 r/4 true ,/2*5 :-/2 . | accepted
q X1..63 r/63 X64..126 r/63 X127..189 r/63 X190..252 r/63 X253..257 r/5 true ,/2*5 :-/2 . | clause 2: limit slots
q X1..63 r/63 X64..126 r/63 X127..189 r/63 X190..252 r/63 X253..255 r/3 ! ,/2*5 :-/2 . | accepted
q X1..63 r/63 X64..126 r/63 X127..189 r/63 X190..252 r/63 X253..256 r/4 ! ,/2*5 :-/2 . | clause 2: limit slots
q X1..63 r/63 X64..126 r/63 X127..189 r/63 X190..252 r/63 X253..255 r/3 ! a ;/2 ,/2*5 :-/2 . | accepted
q X1..63 r/63 X64..126 r/63 X127..189 r/63 X190..252 r/63 X253..256 r/4 ! a ;/2 ,/2*5 :-/2 . | clause 2: limit slots
q X1..63 r/63 X64..126 r/63 X127..189 r/63 X190..252 r/63 X253..256 r/4 a b ;/2 ,/2*5 :-/2 . | accepted
X1 X2 q/2 X1..63 r/63 X64..126 r/63 X127..189 r/63 X190..252 r/63 X253..254 r/2 ,/2*4 :-/2 . | accepted
X1 X2 q/2 X1..63 r/63 X64..126 r/63 X127..189 r/63 X190..252 r/63 X253..255 r/3 ,/2*4 :-/2 . | clause 2: limit slots
q X1..63 f/63 X64..126 f/63 =/2 X127..252 f/126 Z =/2 ,/2 :-/2 . | accepted
q A X*249 f/249 =/2 B X*249 f/249 =/2 C X*8 g/8 =/2 ,/2*2 :-/2 . | accepted
q A X*249 f/249 =/2 B X*249 f/249 =/2 C X*9 g/9 =/2 ,/2*2 :-/2 . | clause 2: limit nodes
q a*255 f/255 a*255 f/255 a*255 f/255 r/3 :-/2 . | accepted
X1..200 f/200 X201..401 f/201 q/2 X1..200 f/200 r/1 \\+/1 X1..200 f/200 X201..401 f/201 r/2 ,/2 :-/2 . | clause 2: limit branch
X1..200 f/200 X201..401 f/201 q/2 X1..200 f/200 r/1 \\+/1 a*64 r/64 ,/2 :-/2 . | clause 2: limit arity
X1..200 f/200 X201..401 f/201 q/2 X1..200 f/200 X201..401 f/201 r/2 :-/2 . | clause 2: limit variables
X1..200 f/200 X201..401 f/201 q/2 X1..200 f/200 r/1 \\+/1 X1..200 f/200 X201..401 f/201 r/2 ,/2 :-/2 . X . | clause 3: head
X1..200 f/200 X201..401 f/201 q/2 X1..200 f/200 X201..401 f/201 r/2 :-/2 . X1..200 f/200 X201..401 f/201 q/2 X1..200 f/200 r/1 \\+/1 a*64 r/64 ,/2 :-/2 . | clause 2: limit variables";

#[test]
fn limits_of_clauses(rt: HostRuntime) -> Result<(), Fail> {
    assert_answers(&rt, rt.alloc(), LIMITS)
}

/// Programs with a body of nearly the greatest depth, as in the table of forms.
const DEEP: &str = "\
q a a&,/2*4000 :-/2 . | accepted
q a a&,/2*4000 -->/2 . | clause 2: limit variables
q a*4000 a ,/2*4000 :-/2 . | accepted
q a*4000 a ,/2*4000 -->/2 . | clause 2: limit variables
q a a&;/2*4000 :-/2 . | accepted
q a a&;/2*4000 -->/2 . | accepted
q a*4000 a ;/2*4000 :-/2 . | accepted
q a*4000 a ;/2*4000 -->/2 . | accepted
q a a&->/2*4000 :-/2 . | accepted
q a a&->/2*4000 -->/2 . | accepted
q a*4000 a ->/2*4000 :-/2 . | accepted
q a*4000 a ->/2*4000 -->/2 . | accepted
q a \\+/1*4000 :-/2 . | accepted
q a \\+/1*4000 -->/2 . | accepted
q ! \\+/1*4000 :-/2 . | accepted
q ! \\+/1*4000 -->/2 . | accepted
q a E&a&catch/3*4000 :-/2 . | accepted
q a&E*4000 a catch/3*4000 :-/2 . | accepted";

#[test]
fn deep_bodies(rt: HostRuntime) -> Result<(), Fail> {
    assert_answers(&rt, rt.alloc(), DEEP)
}

/// Whole programs in postfix order, and what is answered.
const WHOLE: &str = "\
p . | no entry
 | no entry
p entry/1 :-/1 . | clause 1: entry undefined
p entry/1 :-/1 . q . | clause 1: entry undefined
p entry/1 :-/1 . a p/1 . | clause 1: entry undefined
p . q entry/1 :-/1 . p entry/1 :-/1 . | clause 2: entry undefined
nl entry/1 :-/1 . p . | clause 1: entry undefined
true entry/1 :-/1 . | clause 1: entry undefined
q . p . p entry/1 :-/1 . | accepted
p entry/1 :-/1 . any p/1 entry/1 :-/1 . p . a p/1 . | accepted
ground nonvar out any p/4 entry/1 :-/1 . a b c d p/4 . | accepted
any p/1 entry/1 :-/1 . out p/1 entry/1 :-/1 . a p/1 . | clause 2: directive
q call/1 p :-/2 . X . | clause 1: head
p q call/1 :-/2 . X . | clause 1: body
X Y :-/2 . | clause 1: head
q :-/1 . p X :-/2 . | clause 1: directive
p X :-/2 . q :-/1 . | clause 1: body
any any a/2 entry/1 :-/1 . a b -->/2 . | accepted
a X -->/2 . | clause 1: body
a 7 -->/2 . | clause 1: body
a b [] ./2 ,/2 c -->/2 . | clause 1: head
X b -->/2 . | clause 1: head
7 b -->/2 . | clause 1: head
X Y -->/2 . | clause 1: head
a functor/1 X -->/2 . | clause 1: body
a functor/1 b -->/2 . | clause 1: head
a X {}/1 -->/2 . | clause 1: body
a b call/1 -->/2 . | clause 1: body
a b X ./2 -->/2 . | clause 1: body
any any a/2 entry/1 :-/1 . a b [] ./2 -->/2 . | accepted
any any a/2 entry/1 :-/1 . a [] -->/2 . | accepted
any any a/2 entry/1 :-/1 . a ! nl {}/1 ,/2 b \\+/1 ;/2 -->/2 . | accepted
any any a/2 entry/1 :-/1 . a b c ->/2 d ;/2 -->/2 . | accepted
any any a/2 entry/1 :-/1 . a {} -->/2 . | accepted
a a b -->/2 :-/2 . | clause 1: body
a b -->/2 c :-/2 . | clause 1: head";

#[test]
fn whole_programs(rt: HostRuntime) -> Result<(), Fail> {
    let alloc = rt.alloc();
    for line in WHOLE.lines() {
        let (program, wanted) = line.split_once(" | ").ok_or("no answer")?;
        let given = answer(alloc, program)?;
        assert_eq!(rt; given.as_str(), wanted, "{program}");
    }
    Ok(())
}

/// A clause of 504 nodes that hold a variable, of which 64 reach the greatest total.
const GREAT_CLAUSE: &str = "p A X*249 f/249 =/2 B X*249 f/249 =/2 C D =/2 ,/2*2 :-/2 .";

/// The answer to 64 of these clauses and more.
fn answer_to_total(alloc: Global, more: &str) -> Result<String, Fail> {
    let mut text = String::from_str(alloc, "p entry/1 :-/1 . ")?;
    for _ in 0..64 {
        text.push_str(GREAT_CLAUSE)?;
        text.push_str(" ")?;
    }
    text.push_str(more)?;
    answer(alloc, text.as_str())
}

#[test]
fn the_limit_of_the_total(rt: HostRuntime) -> Result<(), Fail> {
    let alloc = rt.alloc();
    assert_eq!(rt; answer_to_total(alloc, "")?.as_str(), "accepted");
    assert_eq!(rt;
        answer_to_total(alloc, "q .")?.as_str(),
        "clause 66: limit total"
    );
    assert_eq!(rt;
        answer_to_total(alloc, "q . X .")?.as_str(),
        "clause 67: head"
    );
    Ok(())
}

/// Entries and a query in postfix order, and the place of the entry or the fault.
const QUERIES: &str = "\
p entry/1 :-/1 . | p | 0
p entry/1 :-/1 . | q | not entry
p entry/1 :-/1 . | a p/1 | not entry
any p/1 entry/1 :-/1 . | p | not entry
any p/1 entry/1 :-/1 . | X | not entry
any p/1 entry/1 :-/1 . | 7 | not entry
any p/1 entry/1 :-/1 . any q/1 entry/1 :-/1 . | X q/1 | 1
any p/1 entry/1 :-/1 . any any p/2 entry/1 :-/1 . | X Y p/2 | 1
ground p/1 entry/1 :-/1 . | a f/1 p/1 | 0
ground p/1 entry/1 :-/1 . | X p/1 | mode 1
ground p/1 entry/1 :-/1 . | a X f/2 p/1 | mode 1
nonvar p/1 entry/1 :-/1 . | X f/1 p/1 | 0
nonvar p/1 entry/1 :-/1 . | X p/1 | mode 1
out p/1 entry/1 :-/1 . | X p/1 | 0
out p/1 entry/1 :-/1 . | a p/1 | mode 1
out p/1 entry/1 :-/1 . | X f/1 p/1 | mode 1
out out p/2 entry/1 :-/1 . | X X p/2 | mode 1
out any p/2 entry/1 :-/1 . | X X f/1 p/2 | mode 1
any out p/2 entry/1 :-/1 . | X X f/1 p/2 | mode 2
out out p/2 entry/1 :-/1 . | X Y p/2 | 0
any p/1 entry/1 :-/1 . | X X f/2 p/1 | 0
ground ground out app/3 entry/1 :-/1 . | 1 T ./2 3 [] ./2 X app/3 | mode 1
ground nonvar p/2 entry/1 :-/1 . | X Y p/2 | mode 1
ground nonvar p/2 entry/1 :-/1 . | a Y p/2 | mode 2";

/// The entries that are declared.
fn entries_of(alloc: Global, declared: &str) -> Result<Entries, Fail> {
    let mut postfix = Postfix::new(alloc)?;
    postfix.read(declared)?;
    postfix.read("p . a p/1 . a b p/2 . a q/1 . a b c app/3 .")?;
    match gather(alloc, &postfix.clauses, postfix.atoms()) {
        Ok(program) => {
            let Program {
                predicates: _,
                entries,
            } = program;
            Ok(entries)
        }
        Err(_) => Err(Fail::new("no program")),
    }
}

#[test]
fn queries_of_entries(rt: HostRuntime) -> Result<(), Fail> {
    let alloc = rt.alloc();
    for line in QUERIES.lines() {
        let (declared, rest) = line.split_once(" | ").ok_or("no query")?;
        let (query, wanted) = rest.split_once(" | ").ok_or("no answer")?;
        // the names of the entries are numbered before those of the query
        let mut postfix = Postfix::new(alloc)?;
        postfix.read(declared)?;
        postfix.read("p . a p/1 . a b p/2 . a q/1 . a b c app/3 .")?;
        postfix.read(query)?;
        postfix.read(".")?;
        let entries = entries_of(alloc, declared)?;
        let read = postfix.clauses.as_slice().last().ok_or("no query")?;
        let given = match query_entry(alloc, read, &entries) {
            Ok(place) => format!(in alloc; "{place}")?,
            Err(EntryFault::NotEntry) => format!(in alloc; "not entry")?,
            Err(EntryFault::Mode(argument)) => format!(in alloc; "mode {argument}")?,
            Err(EntryFault::Memory) => format!(in alloc; "out of memory")?,
        };
        assert_eq!(rt; given.as_str(), wanted, "{query} for {declared}");
    }
    Ok(())
}

#[test]
fn what_is_gathered(rt: HostRuntime) -> Result<(), Fail> {
    let alloc = rt.alloc();
    let mut postfix = Postfix::new(alloc)?;
    postfix.read("q . any p/1 entry/1 :-/1 . X p/1 Y q/1 :-/2 . Y X ./2 q/1 . q . a b -->/2 .")?;
    let program = gather(alloc, &postfix.clauses, postfix.atoms()).map_err(|_| "refused")?;
    let mut shown = String::new(alloc);
    for predicate in program.predicates.as_slice() {
        let name = postfix.atoms().text_or_empty(predicate.name);
        let arity = predicate.arity;
        write!(shown, "{name}/{arity}")?;
        for clause in predicate.clauses.as_slice() {
            let arguments = clause.head.len();
            let (number, variables, weight) = (clause.number, clause.variables, clause.weight);
            write!(shown, " {number}:{arguments},{variables},{weight}")?;
        }
        shown.push_str(". ")?;
    }
    assert_eq!(rt;
        shown.as_str(),
        "q/0 1:0,0,1 5:0,0,1. p/1 3:1,2,1. q/1 4:1,2,1. a/2 6:2,2,8. "
    );
    assert_eq!(rt; program.entries.len(), 1);
    Ok(())
}

//! Worked texts.
use crate::name::is_name;
use crate::read::read_rule_text;
use aq_term::memory::Memory;
use source_meaning::rule_program::RuleClause;
use std::alloc::{AllocError, Global};
use std::test::Fail;

/// How many rules the long text has.
const MANY: usize = 100_000;

/// The clause's head, and its goals in angle brackets with commas between.
fn push_clause(shown: &mut String, clause: &RuleClause<'_>) -> Result<(), AllocError> {
    shown.push(' ')?;
    shown.push_str(clause.head)?;
    shown.push('<')?;
    for goal in &clause.body {
        shown.push_str(goal)?;
        shown.push(',')?;
    }
    shown.push('>')?;
    Ok(())
}

/// The entry that the text gives and its clauses, or `none`.
fn read(alloc: Global, text: &[u8]) -> Result<String, AllocError> {
    let mut shown = String::new(alloc);
    match read_rule_text(alloc, text) {
        Err(Memory) => return Err(AllocError),
        Ok(None) => shown.push_str("none")?,
        Ok(Some(program)) => {
            shown.push_str(program.entry)?;
            for clause in &program.clauses {
                push_clause(&mut shown, clause)?;
            }
        }
    }
    Ok(shown)
}

/// How many clauses the text is read as, and how many goals they have.
fn counts(alloc: Global, text: &[u8]) -> Result<Option<(usize, usize)>, AllocError> {
    match read_rule_text(alloc, text) {
        Err(Memory) => Err(AllocError),
        Ok(None) => Ok(None),
        Ok(Some(program)) => {
            let mut goals: usize = 0;
            for clause in &program.clauses {
                goals = goals.saturating_add(clause.body.len());
            }
            Ok(Some((program.clauses.len(), goals)))
        }
    }
}

#[test]
fn texts_of_rules(rt: HostRuntime) -> Result<(), Fail> {
    for (text, want) in [
        (":- entry(p). p :- q, r. q. q. r.", "p p<q,r,> q<> q<> r<>"),
        (":- entry(p). p. q. p.", "p p<> q<> p<>"),
        (":- entry(p). p :- q.", "p p<q,>"),
        (
            ":- entry(aB_9).\n\naB_9 :- b, c_, d0, aB_9.\n",
            "aB_9 aB_9<b,c_,d0,aB_9,>",
        ),
        ("% a.\n :- entry(p).%\np.% q. r :- p.\n\nq.", "p p<> q<>"),
        (":- entry(p). % the entry\np :- p. % the last\n", "p p<p,>"),
        (":- entry(p). q :- r.", "p q<r,>"),
        (":- entry(p). truely :- failed.", "p truely<failed,>"),
        (":- entry(p).", "p"),
        (":- entry(p).\n", "p"),
    ] {
        let shown = read(rt.alloc(), text.as_bytes())?;
        assert_eq!(rt; shown.as_str(), want, "{text}");
    }
    Ok(())
}

#[test]
fn other_texts(rt: HostRuntime) -> Result<(), Fail> {
    for text in [
        "",
        "p.",
        "p :- q. q.",
        ":- entry(p)",
        ":- entry(p) .",
        ":-entry(p). p.",
        ":-  entry(p). p.",
        ":- entry (p). p.",
        ":- entry( p). p.",
        ":- entry(p).p.",
        ":- entry(p). :- entry(p). p.",
        ":- entry(p). p.q.",
        ":- entry(p). p",
        ":- entry(p). p :- q",
        ":- entry(p). p :- q, r",
        ":- entry(p). p q.",
        ":- entry(p). p .",
        ":- entry(p). p:-q.",
        ":- entry(p). p :-q.",
        ":- entry(p). p:- q.",
        ":- entry(p). p  :- q.",
        ":- entry(p). p :-  q.",
        ":- entry(p). p\t:- q.",
        ":- entry(p). p :-\tq.",
        ":- entry(p). p\n:- q.",
        ":- entry(p). p :- q,r.",
        ":- entry(p). p :- q , r.",
        ":- entry(p). p :- q,  r.",
        ":- entry(p). p :- q,\tr.",
        ":- entry(p). p :- q,\nr.",
        ":- entry(p). p :- q, .",
        ":- entry(p). p :- , q.",
        ":- entry(p). p :- .",
        ":- entry(p). p :- q; r.",
        ":- entry(p). p :- q(r).",
        ":- entry(p). p :- (q, r).",
        ":- entry(p). p(q).",
        ":- entry(p). 'p'.",
        ":- entry(p).\tp.",
        ":- entry(p). p.\tq.",
        ":- entry(p). p. % no end of the line",
        ":- entry(p). p. % \u{e9}\n",
        ":- entry(p). p\u{e9}.",
        ":- entry(p). /* a */ p.",
        ":- entry(P). p.",
        ":- entry(p). P.",
        ":- entry(p). p :- Q.",
        ":- entry(p). p :- q, _r.",
        ":- entry(p). 1.",
        ":- entry(). p.",
    ] {
        let shown = read(rt.alloc(), text.as_bytes())?;
        assert_eq!(rt; shown.as_str(), "none", "{text}");
    }
    Ok(())
}

#[test]
fn names_with_a_meaning_of_their_own(rt: HostRuntime) -> Result<(), Fail> {
    let alloc = rt.alloc();
    for name in ["true", "fail", "nl", "repeat", "halt", "is", "mod", "rem"] {
        assert!(rt; !is_name(name.as_bytes()), "{name}");
        for text in [
            format!(in alloc; ":- entry({name}). p.")?,
            format!(in alloc; ":- entry(p). {name}.")?,
            format!(in alloc; ":- entry(p). {name} :- p.")?,
            format!(in alloc; ":- entry(p). p :- {name}.")?,
            format!(in alloc; ":- entry(p). p :- {name}, p.")?,
            format!(in alloc; ":- entry(p). p :- p, {name}.")?,
        ] {
            let shown = read(alloc, text.as_str().as_bytes())?;
            assert_eq!(rt; shown.as_str(), "none", "{text}");
        }
    }
    Ok(())
}

#[test]
fn names(rt: HostRuntime) {
    for (name, want) in [
        ("p", true),
        ("pQ_0", true),
        ("nlx", true),
        ("", false),
        ("P", false),
        ("_p", false),
        ("0p", false),
        ("p q", false),
        ("p.", false),
        ("p\u{e9}", false),
    ] {
        assert_eq!(rt; is_name(name.as_bytes()), want, "{name}");
    }
}

#[test]
fn a_hundred_thousand_rules(rt: HostRuntime) -> Result<(), Fail> {
    let alloc = rt.alloc();
    let mut text = String::new(alloc);
    text.push_str(":- entry(p).\n")?;
    for _ in 0..MANY {
        text.push_str("p :- q, another_name, r. % a comment\n")?;
    }
    let found = counts(alloc, text.as_str().as_bytes())?;
    assert_eq!(rt; found, Some((MANY, 3 * MANY)));
    text.push_str("p :- q\n")?;
    let found = counts(alloc, text.as_str().as_bytes())?;
    assert_eq!(rt; found, None);
    Ok(())
}

use crate::clause::Clause;
use crate::fault::TokenFault;
use crate::scan::{next_clause, query_tokens};
use crate::token::Token;
use crate::tokens::Tokens;
use std::alloc::{AllocError, Global};
use std::test::Fail;

fn shown_token(alloc: Global, token: &Token) -> Result<String, AllocError> {
    match token {
        Token::Name { text, quoted } => {
            let text = text.as_str();
            if *quoted {
                format!(in alloc; "q<{text}>")
            } else {
                format!(in alloc; "{text}")
            }
        }
        Token::Variable(text) => {
            let text = text.as_str();
            format!(in alloc; "v<{text}>")
        }
        Token::Integer(value) => format!(in alloc; "{value}"),
        Token::WideInteger => format!(in alloc; "wide"),
        Token::Codes(text) => {
            let text = text.as_str();
            format!(in alloc; "c<{text}>")
        }
        Token::Punct(byte) => {
            let c = char::from(*byte);
            format!(in alloc; "{c}")
        }
        Token::End => format!(in alloc; "end"),
    }
}

/// The tokens with a space between, and a `~` before each that nothing stands before. A weight other
/// than 1 follows its token.
fn shown(alloc: Global, tokens: &Tokens) -> Result<String, AllocError> {
    let mut text = String::new(alloc);
    for placed in tokens.as_slice() {
        if !text.is_empty() {
            text.push(' ')?;
        }
        if placed.tight && placed.at > 0 {
            text.push('~')?;
        }
        let token = shown_token(alloc, &placed.token)?;
        text.push_str(token.as_str())?;
        if placed.weight != 1 {
            let weight = placed.weight;
            let count = format!(in alloc; "*{weight}")?;
            text.push_str(count.as_str())?;
        }
    }
    Ok(text)
}

fn shown_fault(alloc: Global, fault: TokenFault) -> Result<String, AllocError> {
    match fault {
        TokenFault::At(at) => format!(in alloc; "at {at}"),
        TokenFault::Memory => Err(AllocError),
    }
}

fn clause_of(alloc: Global, text: &[u8]) -> Result<String, AllocError> {
    match next_clause(alloc, text, 0) {
        Ok(Some(Clause { tokens, end })) => {
            let tokens = shown(alloc, &tokens)?;
            let tokens = tokens.as_str();
            format!(in alloc; "{tokens} {end}")
        }
        Ok(None) => format!(in alloc; "none"),
        Err(fault) => shown_fault(alloc, fault),
    }
}

fn query_of(alloc: Global, text: &[u8]) -> Result<String, AllocError> {
    match query_tokens(alloc, text) {
        Ok(tokens) => shown(alloc, &tokens),
        Err(fault) => shown_fault(alloc, fault),
    }
}

#[test]
fn reads_clauses(rt: HostRuntime) -> Result<(), Fail> {
    let cases = [
        // Only layout and comments.
        ("", "none"),
        (" \t\n\r\u{B}\u{C}", "none"),
        ("% a comment", "none"),
        ("% a\n/* b * / \n */ ", "none"),
        ("/**/%", "none"),
        ("% caf\u{E9} \u{1F600}\n", "none"),
        // Ends.
        ("p.", "p ~end 2"),
        ("p.\nq.", "p ~end 2"),
        (" p . ", "p end 4"),
        ("p.% more", "p ~end 2"),
        ("p./* more */", "at 12"),
        ("p.q.\n", "p ~. ~q ~end 4"),
        ("p..", "at 3"),
        ("X = +.", "at 6"),
        ("p", "at 1"),
        ("p /* q. */", "at 10"),
        (".", "end 1"),
        ("p\n.\n", "p end 3"),
        // A missing end is a fault behind all layout, and an earlier fault comes first.
        (":- entry(p).\np :- q('ab", ":- entry ~( ~p ~) ~end 12"),
        ("p :- q('ab", "at 7"),
        ("p :- `q`.", "at 5"),
        ("caf\u{E9}.", "at 3"),
        ("p \u{A0}.", "at 2"),
        ("p /* q.", "at 2"),
        ("p. /*", "p ~end 2"),
        ("/*/ p.", "at 0"),
        ("/*/*/ p.", "p ~end 8"),
        ("//* p.", "//* p ~end 6"),
        ("+/* p.", "+/* p ~end 6"),
        // Codes in a clause.
        ("p(\"ab\").", "p ~( ~c<ab>*5 ~) ~end 8"),
        ("\"\".", "c<> ~end 3"),
        ("p(0'.).", "p ~( ~46 ~) ~end 7"),
    ];
    for (text, expected) in cases {
        let found = clause_of(rt.alloc(), text.as_bytes())?;
        assert_eq!(rt; found.as_str(), expected, "{text:?}");
    }
    Ok(())
}

#[test]
fn reads_queries(rt: HostRuntime) -> Result<(), Fail> {
    let cases = [
        ("", ""),
        (".", ""),
        ("p", "p"),
        ("p.", "p"),
        ("p. % c", "p"),
        ("p. .", "p ~end"),
        ("p. q.", "p ~end q"),
        // Names and variables.
        ("aB_1 aB", "aB_1 aB"),
        ("X _ _a Y1_z", "v<X> v<_> v<_a> v<Y1_z>"),
        ("aX(Y)", "aX ~( ~v<Y> ~)"),
        ("! ;!;", "! ; ~! ~;"),
        ("a:-b", "a ~:- ~b"),
        ("+-*/\\^<>=~:.?@#&$", "+-*/\\^<>=~:.?@#&$"),
        ("p:-\\+q", "p ~:-\\+ ~q"),
        ("( )[]{},|", "( ) ~[ ~] ~{ ~} ~, ~|"),
        // Integers.
        ("0 7 0012 1a", "0 7 12 1 ~a"),
        ("-1 - 1", "- ~1 - 1"),
        ("0x1F 0xfF 0o17 0b101", "31 255 15 5"),
        ("0x 0xg 0o8 0b2", "0 ~x 0 ~xg 0 ~o8 0 ~b2"),
        ("0b12 0o78 0x1G", "1 ~2 7 ~8 1 ~v<G>"),
        ("0X1", "0 ~v<X1>"),
        ("00x1", "0 ~x1"),
        ("9223372036854775807", "9223372036854775807"),
        ("9223372036854775808", "9223372036854775808"),
        ("9223372036854775809", "wide"),
        ("0x8000000000000000", "9223372036854775808"),
        ("0x8000000000000001", "wide"),
        ("99999999999999999999999999999999", "wide"),
        ("00000000000000000000000000000001", "1"),
        // Characters.
        ("0'a 0'\" 0'  0'%", "97 34 32 37"),
        ("0'\n1", "10 ~1"),
        ("0'''", "39"),
        ("0'\\n 0'\\\\ 0'\\' 0'\\x41\\ 0'\\101\\", "10 92 39 65 65"),
        ("0'\u{E9}0'\u{20AC}0'\u{1F600}", "233 ~8364 ~128512"),
        ("0''a", "0 ~q<> ~a"),
        ("0''a'", "at 4"),
        ("0''", "0 ~q<>"),
        ("0'", "at 1"),
        ("0'\\\na'", "0 ~q<a>"),
        ("0'\\q", "at 1"),
        ("0'ab", "97 ~b"),
        // Quoted names and codes.
        ("'a b' '' 'don''t'", "q<a b> q<> q<don't>"),
        ("'a\"b' \"a'b\"", "q<a\"b> c<a'b>*7"),
        ("\"a\"\"b\"", "c<a\"b>*7"),
        ("'\\a\\b\\f\\n\\r\\t\\v'", "q<\u{7}\u{8}\u{C}\n\r\t\u{B}>"),
        ("'\\\\\\'\\\"'", "q<\\'\">"),
        ("'\\101\\\\x41\\\\x0061\\'", "q<AAa>"),
        ("'\\x10FFFF\\'", "q<\u{10FFFF}>"),
        ("'\\x110000\\'", "at 0"),
        ("'\\xD800\\'", "at 0"),
        ("'\\xFFFFFFFFFFFF41\\'", "at 0"),
        ("'\\x\\'", "at 0"),
        ("'\\x41'", "at 0"),
        ("'\\18\\'", "at 0"),
        ("'\\q'", "at 0"),
        ("'\\`'", "at 0"),
        ("'a\\\nb'", "q<ab>"),
        ("'a\nb'", "at 0"),
        ("'a\tb'", "q<a\tb>"),
        ("'caf\u{E9} \u{1F600}'", "q<caf\u{E9} \u{1F600}>"),
        ("\"caf\u{E9}\"", "c<caf\u{E9}>*9"),
        ("p 'ab", "at 2"),
        ("p \"ab'", "at 2"),
        // The longest token: where a doubled quote leads to no token, the quote before it closes one.
        ("'a''b", "at 3"),
        // A comment between.
        ("f/* c */(X)", "f ( ~v<X> ~)"),
        ("f /* c */(X)", "f ( ~v<X> ~)"),
        ("f%c\n(X)", "f ( ~v<X> ~)"),
        ("a,b|c", "a ~, ~b ~| ~c"),
    ];
    for (text, expected) in cases {
        let found = query_of(rt.alloc(), text.as_bytes())?;
        assert_eq!(rt; found.as_str(), expected, "{text:?}");
    }
    Ok(())
}

#[test]
fn refuses_bytes_that_are_no_text(rt: HostRuntime) -> Result<(), Fail> {
    let cases: [(&[u8], &str); 9] = [
        (b"p \xFF", "at 2"),
        (b"p % a \xC3\n", "at 2"),
        (b"p % a \xC3\xA9\n", "p"),
        (b"p /* \x80 */", "at 2"),
        (b"p '\xC3'", "at 2"),
        (b"p '\xED\xA0\x80'", "at 2"),
        (b"p '\xC0\xAF'", "at 2"),
        (b"p '\xF4\x90\x80\x80'", "at 2"),
        (b"0'\xC3", "at 1"),
    ];
    for (text, expected) in cases {
        let found = query_of(rt.alloc(), text)?;
        assert_eq!(rt; found.as_str(), expected, "{text:?}");
    }
    Ok(())
}

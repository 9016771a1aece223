ghost use Rattle.std.specs.Prelude.{◌≡◌, ◌≤◌};
ghost use Rattle.prolog_reader.specs.Brackets.{open_behind, open_after, too_many_open};

use crate::limits::DEEPEST;
use prolog_tokens::placed::Placed;
use prolog_tokens::token::Token;

/// How many brackets are open behind a byte of punctuation.
fn open_behind(opened: u64, byte: u8) -> u64
    requires { opened ≤ 4096 }
    ensures { result ≡ open_behind opened byte }
{
    if byte == b'(' || byte == b'[' || byte == b'{' {
        opened + 1
    } else if byte == b')' || byte == b']' || byte == b'}' {
        opened.saturating_sub(1)
    } else {
        opened
    }
}

/// How many brackets are open behind the token, of as many as before it.
fn open_after(opened: u64, token: &Token) -> u64
    requires { opened ≤ 4096 }
    ensures { result ≡ open_after opened token.now }
{
    match token {
        Token::Punct(byte) => open_behind(opened, *byte),
        Token::Name { .. } | Token::Variable(_) | Token::Codes(_) => opened,
        Token::Integer(_) | Token::WideInteger | Token::End => opened,
    }
}

/// Whether more than 4,096 brackets are open at a token.
pub fn are_too_deep(tokens: &[Placed]) -> bool
    ensures { result ≡ too_many_open 0 tokens.now }
{
    let mut opened = 0;
    for placed in tokens {
        opened = open_after(opened, &placed.token);
        if opened > DEEPEST {
            return true;
        }
    }
    false
}

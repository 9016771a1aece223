ghost use Rattle.std.specs.Prelude.{◌≡◌, ℕ, ◌+◌, ◌*◌, ◌<◌, ◌≤◌, OnOk, IfOk, length, sum_by};
ghost use Rattle.std.specs.Str.{chars};
ghost use Rattle.prolog_tokens.specs.Scan.{weight_of};
ghost use Rattle.prolog_reader.specs.Words.{IsBelow, AllBelow};

use crate::symbol::Symbol;
use crate::variables::Variables;
use crate::word::Word;
use aq_term::atom::Atom;
use aq_term::atoms::Atoms;
use aq_term::memory::Memory;
use aq_term::names::Names;
use prolog_tokens::placed::Placed;
use prolog_tokens::token::Token;
use std::alloc::Global;

/// What stands directly behind a token.
#[derive(Clone, Copy, Debug, PartialEq, Eq)]
enum Follower {
    Bracket,
    Integer,
    Other,
}

/// What stands at a place directly behind the token before.
fn follower_at(tokens: &[Placed], at: usize) -> Follower {
    let Some(placed) = tokens.get(at) else {
        return Follower::Other;
    };
    if !placed.tight {
        return Follower::Other;
    }
    match placed.token {
        Token::Punct(b'(') => Follower::Bracket,
        Token::Integer(_) | Token::WideInteger => Follower::Integer,
        _ => Follower::Other,
    }
}

/// The words of a clause, and the names of its variables by number.
#[derive(Drop)]
pub struct Lexed {
    pub words: Vec<Word>,
    pub names: Names,
}

/// The word of a name.
fn named(name: Atom, is_minus: bool, follower: Follower) -> Word
    ensures { (n : ℕ) → IsBelow n result }
{
    let symbol = Symbol::of(name);
    match follower {
        Follower::Bracket => Word::Functor(symbol),
        Follower::Integer => {
            if is_minus {
                Word::Sign(symbol)
            } else {
                Word::Name(symbol)
            }
        }
        Follower::Other => Word::Name(symbol),
    }
}

fn punctuation(byte: u8) -> Word
    ensures { (n : ℕ) → IsBelow n result }
{
    match byte {
        b'(' => Word::Open,
        b')' => Word::Close,
        b'[' => Word::OpenList,
        b']' => Word::CloseList,
        b'{' => Word::OpenCurly,
        b'}' => Word::CloseCurly,
        b',' => Word::Comma(Symbol::of(Atom::COMMA)),
        _ => Word::Bar,
    }
}

fn push_word(words: &mut Vec<Word>, word: Word) -> Result<(), Memory>
    ensures below { (n : ℕ) → AllBelow n words.old.items → IsBelow n word → AllBelow n words.new.items }
    ensures count { OnOk result (length words.new.items ≡ length words.old.items + 1) }
{
    words.push(word)?;
    Ok(())
}

/// The words of the list of a text's character codes.
fn push_codes(words: &mut Vec<Word>, text: &str) -> Result<(), Memory>
    ensures below { OnOk result ((n : ℕ) → AllBelow n words.old.items → AllBelow n words.new.items) }
    ensures count { OnOk result (length words.new.items ≤ length words.old.items + 2 * length (chars text.now) + 1) }
{
    if text.is_empty() {
        push_word(words, Word::Name(Symbol::of(Atom::NIL)))?;
        return Ok(());
    }
    let mut before = Word::OpenList;
    for c in text.chars() {
        push_word(words, before)?;
        push_word(words, Word::Integer(u64::from(u32::from(c))))?;
        before = Word::Comma(Symbol::of(Atom::COMMA));
    }
    push_word(words, Word::CloseList)?;
    Ok(())
}

/// The number of a name.
fn atom_of(atoms: &mut Atoms, text: &str) -> Result<Atom, Memory>
    requires { length atoms.old < 4294967295 }
    ensures { length atoms.new ≤ length atoms.old + 1 }
{
    atoms.number(text)
}

/// The word of a token, or the first one where it has several.
fn word_of<'a>(
    alloc: Global,
    token: &'a Token,
    follower: Follower,
    atoms: &mut Atoms,
    variables: &mut Variables<'a>,
) -> Result<Word, Memory>
    requires atoms { length atoms.old < 4294967295 }
    requires variables { length variables.old < 4294967295 }
    ensures below { IfOk result (λ w. IsBelow (length variables.new) w) }
    ensures table { length atoms.new ≤ length atoms.old + 1 }
    ensures grows { length variables.new ≤ length variables.old + 1 }
    ensures keeps { length variables.old ≤ length variables.new }
{
    match token {
        Token::Name { text, quoted } => {
            let is_minus = !*quoted && text.is_same("-");
            let name = atom_of(atoms, text.as_str())?;
            Ok(named(name, is_minus, follower))
        }
        Token::Variable(name) => {
            let number = variables.number(alloc, name.as_str())?;
            Ok(Word::Variable(number))
        }
        Token::Integer(value) => Ok(Word::Integer(*value)),
        Token::WideInteger => Ok(Word::WideInteger),
        Token::Codes(_) => Ok(Word::OpenList),
        Token::Punct(byte) => Ok(punctuation(*byte)),
        Token::End => Ok(Word::End),
    }
}

/// Puts the words of a token at the end.
fn push_token<'a>(
    alloc: Global,
    words: &mut Vec<Word>,
    token: &'a Token,
    follower: Follower,
    atoms: &mut Atoms,
    variables: &mut Variables<'a>,
) -> Result<(), Memory>
    requires atoms { length atoms.old < 4294967295 }
    requires variables { length variables.old < 4294967295 }
    ensures below { OnOk result (AllBelow (length variables.old) words.old.items → AllBelow (length variables.new) words.new.items) }
    ensures count { OnOk result (length words.new.items ≤ length words.old.items + weight_of token.now) }
    ensures table { length atoms.new ≤ length atoms.old + 1 }
    ensures grows { length variables.new ≤ length variables.old + 1 }
{
    if let Token::Codes(text) = token {
        push_codes(words, text.as_str())?;
        return Ok(());
    }
    let word = word_of(alloc, token, follower, atoms, variables)?;
    push_word(words, word)?;
    Ok(())
}

/// The words of the tokens. Names get their numbers in `atoms`.
pub fn words_of(alloc: Global, tokens: &[Placed], atoms: &mut Atoms) -> Result<Lexed, Memory>
    requires { length atoms.old + length tokens.now < 4294967295 }
    ensures below { IfOk result (λ l. AllBelow (length l.names) l.words.items) }
    ensures count { IfOk result (λ l. length l.words.items ≤ sum_by (λ p. weight_of p.token) tokens.now) }
    ensures names { IfOk result (λ l. length l.names ≤ length tokens.now) }
    ensures table { length atoms.new ≤ length atoms.old + length tokens.now }
{
    let mut words = Vec::new(alloc);
    let mut variables = Variables::new(alloc);
    for i in 0..tokens.len() {
        let follower = follower_at(tokens, i + 1);
        let token = &tokens[i].token;
        push_token(alloc, &mut words, token, follower, atoms, &mut variables)?;
    }
    Ok(Lexed {
        words,
        names: variables.into_names(),
    })
}

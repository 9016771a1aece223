ghost use Rattle.std.specs.Prelude.{◌≡◌, ◌+◌, ◌<◌, ◌≤◌, ◌^◌, Err, IsTrue, IfOk, All, length};
ghost use Rattle.prolog_tokens.specs.Scan.{total_weight, weight_of, without_end};
ghost use Rattle.prolog_reader.specs.Brackets.{too_many_open};
ghost use Rattle.prolog_reader.specs.Readable.{IsReadable};
ghost use Rattle.prolog_reader.specs.declared.fault.ReadFault.TheVariants as fault;

use crate::brackets::are_too_deep;
use crate::built::{Built, Measured};
use crate::fault::ReadFault;
use crate::machine::read_words;
use crate::words::{Lexed, words_of};
use aq_term::atoms::Atoms;
use aq_term::read_term::ReadTerm;
use prolog_tokens::placed::Placed;
use prolog_tokens::token::Token;
use prolog_tokens::tokens::Tokens;
use std::alloc::Global;

/// The tokens without an end at their end.
fn without_end(tokens: &[Placed]) -> &[Placed]
    ensures { result.now ≡ without_end tokens.now }
{
    match tokens.last() {
        Some(placed) => {
            if placed.token.is_end() {
                &tokens[..tokens.len() - 1]
            } else {
                tokens
            }
        }
        None => tokens,
    }
}

/// The weight of all tokens together.
fn weight_of(tokens: &[Placed]) -> u64
    requires { total_weight tokens.now < 2 ^ 64 }
    ensures { result ≡ total_weight tokens.now }
{
    let mut weight = 0;
    for placed in tokens {
        weight += placed.weight;
    }
    weight
}

/// The term that the tokens are.
fn read(
    alloc: Global,
    tokens: &[Placed],
    weight: u64,
    atoms: &mut Atoms,
) -> Result<ReadTerm, ReadFault>
    requires room { length atoms.old + length tokens.now < 4294967295 }
    requires weighed { All (λ p. p.weight ≡ weight_of p.token) tokens.now }
    ensures readable { IfOk result (λ r. IsReadable r (total_weight tokens.now)) }
    ensures weight { IfOk result (λ r. r.weight ≡ weight) }
    ensures table { length atoms.new ≤ length atoms.old + length tokens.now }
    ensures brackets { IsTrue (too_many_open 0 tokens.now) → result ≡ Err fault.Depth }
{
    if are_too_deep(tokens) {
        return Err(ReadFault::Depth);
    }
    let Lexed { words, names } = words_of(alloc, tokens, atoms)?;
    match read_words(alloc, words.as_slice())? {
        Built::Whole(Measured { term, depth: _ }) => Ok(ReadTerm {
            term,
            names,
            weight,
        }),
        Built::Faulty(fault) => Err(fault.of_clause()),
    }
}

/// The term of a clause. An end behind it may be there or not. The weight is that of all tokens, the
/// end among them. After a fault `atoms` may have grown.
pub fn read_clause(alloc: Global, tokens: &Tokens, atoms: &mut Atoms) -> Result<ReadTerm, ReadFault>
    requires weighed { All (λ p. p.weight ≡ weight_of p.token) tokens.now }
    requires light { total_weight tokens.now ≤ 536870912 }
    requires room { length atoms.old + length tokens.now < 4294967295 }
    ensures readable { IfOk result (λ r. IsReadable r (total_weight tokens.now)) }
    ensures weight { IfOk result (λ r. r.weight ≡ total_weight tokens.now) }
    ensures table { length atoms.new ≤ length atoms.old + length tokens.now }
    ensures brackets { IsTrue (too_many_open 0 (without_end tokens.now)) → result ≡ Err fault.Depth }
{
    let tokens = tokens.as_slice();
    read(alloc, without_end(tokens), weight_of(tokens), atoms)
}

/// The term of a query, whose tokens have no end: one that is left is a fault, `Syntax`.
pub fn read_query(alloc: Global, tokens: &Tokens, atoms: &mut Atoms) -> Result<ReadTerm, ReadFault>
    requires weighed { All (λ p. p.weight ≡ weight_of p.token) tokens.now }
    requires light { total_weight tokens.now ≤ 536870912 }
    requires room { length atoms.old + length tokens.now < 4294967295 }
    ensures readable { IfOk result (λ r. IsReadable r (total_weight tokens.now)) }
    ensures weight { IfOk result (λ r. r.weight ≡ total_weight tokens.now) }
    ensures table { length atoms.new ≤ length atoms.old + length tokens.now }
    ensures brackets { IsTrue (too_many_open 0 tokens.now) → result ≡ Err fault.Depth }
{
    let tokens = tokens.as_slice();
    read(alloc, tokens, weight_of(tokens), atoms)
}

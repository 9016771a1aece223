ghost use Rattle.std.specs.Prelude.{◌≡◌, ◌++◌, ◌∷◌, [], ◌↔◌, length, IsTrue, OnOk, OnErr};
ghost use Rattle.prolog_tokens.specs.Scan.{ends_with_end, without_end};

use crate::placed::Placed;
use aq_term::memory::Memory;
use std::alloc::Global;
use std::marker::Model;

/// Whether the last token is an end.
fn ends_with_end(tokens: &[Placed]) -> bool
    ensures { result ≡ ends_with_end tokens.now }
{
    match tokens.last() {
        Some(placed) => placed.token.is_end(),
        None => false,
    }
}

/// Tokens in order. Contracts see the list of them.
#[derive(Debug, Drop)]
pub struct Tokens {
    items: Vec<Placed>,
}

impl Model for Tokens {
    ghost use Rattle.std.specs.Prelude.{List};
    ghost use Rattle.prolog_tokens.specs.declared.placed.Placed.{Placed};

    ghost Value = { List Placed };

    ghost view = { λ t. t.items.items };
}

impl Tokens {
    pub fn new(alloc: Global) -> Tokens
        ensures { result ≡ [] }
    {
        Tokens {
            items: Vec::new(alloc),
        }
    }

    /// The list of these tokens, with no copy.
    pub fn from_vec(items: Vec<Placed>) -> Tokens
        ensures { result ≡ items.items }
    {
        Tokens { items }
    }

    pub fn as_slice(&self) -> &[Placed]
        ensures { result.now ≡ self.now }
    {
        self.items.as_slice()
    }

    pub fn len(&self) -> usize
        ensures { result ≡ length self.now }
    {
        self.items.len()
    }

    pub fn is_empty(&self) -> bool
        ensures { IsTrue result ↔ (self.now ≡ []) }
    {
        self.items.is_empty()
    }

    /// Puts a token at the end. After want of memory the list is as it was.
    pub fn push(&mut self, placed: Placed) -> Result<(), Memory>
        ensures ok { OnOk result (self.new ≡ self.old ++ placed ∷ []) }
        ensures err { OnErr result (self.new ≡ self.old) }
    {
        self.items.push(placed)?;
        Ok(())
    }

    /// Takes the last token off where it is an end.
    pub fn drop_end(&mut self)
        ensures { self.new ≡ without_end self.old }
    {
        if ends_with_end(self.items.as_slice()) {
            self.items.truncate(self.items.len() - 1);
        }
    }
}

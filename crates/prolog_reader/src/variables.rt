ghost use Rattle.std.specs.Prelude.{◌≡◌, ℕ, ◌+◌, ◌<◌, ◌≤◌, [], All, IfOk, length};
ghost use Rattle.std.specs.HashMap.{values};

use aq_term::memory::Memory;
use aq_term::names::Names;
use aq_term::text::Text;
use std::alloc::Global;
use std::collections::HashMap;
use std::marker::Model;

/// Keeps the number of a name.
fn note<'a>(numbers: &mut HashMap<&'a str, u32>, name: &'a str, number: u32) -> Result<(), Memory>
    ensures { (n : ℕ) → All (λ k. k < n) (values numbers.old) → number < n → All (λ k. k < n) (values numbers.new) }
{
    numbers.insert(name, number)?;
    Ok(())
}

/// The variables of a clause, numbered in the order of their first places. Each `_` is a new one.
/// Contracts see the list of their names.
#[derive(Drop)]
pub struct Variables<'a> {
    names: Names,
    numbers: HashMap<&'a str, u32>,
}

impl<'a> Model for Variables<'a> {
    ghost use Rattle.std.specs.Prelude.{List, ℕ, All, ◌<◌, length};
    ghost use Rattle.std.specs.HashMap.{values};

    ghost Value = { List (List ℕ) };

    ghost view = { λ v. v.names };

    ghost invariant = { λ v. All (λ n. n < length v.names) (values v.numbers) };
}

impl<'a> Variables<'a> {
    pub fn new(alloc: Global) -> Variables<'a>
        ensures { result ≡ [] }
    {
        Variables {
            names: Names::new(alloc),
            numbers: HashMap::new(alloc),
        }
    }

    /// The number of the variable of this name.
    pub fn number(&mut self, alloc: Global, name: &'a str) -> Result<u32, Memory>
        requires { length self.old < 4294967295 }
        ensures below { IfOk result (λ n. n < length self.new) }
        ensures grows { length self.new ≤ length self.old + 1 }
        ensures keeps { length self.old ≤ length self.new }
    {
        let known = if name == "_" {
            None
        } else {
            self.numbers.get(name).copied()
        };
        if let Some(number) = known {
            return Ok(number);
        }
        let number = self.names.len() as u32;
        let text = Text::from_str(alloc, name)?;
        self.names.push(text)?;
        note(&mut self.numbers, name, number)?;
        Ok(number)
    }

    /// The names by number.
    pub fn into_names(self) -> Names
        ensures { result ≡ self.entry }
    {
        let Variables { names, numbers: _ } = self;
        names
    }
}

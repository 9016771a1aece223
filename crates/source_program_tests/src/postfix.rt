ghost use Rattle.std.specs.Prelude.{◌≡◌};

use aq_term::args::Args;
use aq_term::atom::Atom;
use aq_term::atoms::Atoms;
use aq_term::names::Names;
use aq_term::read_term::ReadTerm;
use aq_term::read_terms::ReadTerms;
use aq_term::term::Term;
use aq_term::text::Text;
use std::alloc::Global;
use std::mem;
use std::test::Fail;

/// Terms that are read from words in postfix order: `X` and `_x` are variables, `7` is an integer, `f/2` takes the two terms before it,
/// another word is an atom, and `.` ends a clause. `X2..5` are the variables from `X2` to `X5`, and `a&f/2*3` are the words `a` and `f/2`
/// three times.
#[derive(Drop)]
pub struct Postfix {
    alloc: Global,
    atoms: Atoms,
    stack: Vec<Term>,
    names: Vec<Text>,
    pub clauses: ReadTerms,
}

impl Postfix {
    pub fn new(alloc: Global) -> Result<Postfix, Fail> {
        Ok(Postfix {
            alloc,
            atoms: Atoms::new(alloc)?,
            stack: Vec::new(alloc),
            names: Vec::new(alloc),
            clauses: ReadTerms::new(alloc),
        })
    }

    pub fn atoms(&self) -> &Atoms {
        &self.atoms
    }

    /// Reads the words.
    pub fn read(&mut self, text: &str) -> Result<(), Fail> {
        for word in text.split_whitespace() {
            self.word(word)?;
        }
        Ok(())
    }

    fn word(&mut self, word: &str) -> Result<(), Fail> {
        if let Some((words, count)) = word.rsplit_once('*') {
            if let Ok(count) = count.parse::<u32>() {
                return self.repeated(words, count);
            }
        }
        if let Some((first, last)) = word.split_once("..") {
            return self.variables(first, last);
        }
        self.plain_word(word)
    }

    /// Reads words that are joined by `&` this many times.
    fn repeated(&mut self, words: &str, count: u32) -> Result<(), Fail> {
        for _ in 0..count {
            for word in words.split('&') {
                self.plain_word(word)?;
            }
        }
        Ok(())
    }

    /// The variables from `X` with the first number up to the last number.
    fn variables(&mut self, first: &str, last: &str) -> Result<(), Fail> {
        let first = first.strip_prefix('X').ok_or("no X")?.parse::<u32>()?;
        let last = last.parse::<u32>()?;
        for number in first..=last {
            let name = format!(in self.alloc; "X{number}")?;
            self.plain_word(name.as_str())?;
        }
        Ok(())
    }

    fn plain_word(&mut self, word: &str) -> Result<(), Fail> {
        if word == "." {
            return self.end();
        }
        if let Some((name, count)) = word.rsplit_once('/') {
            if let Ok(count) = count.parse::<u16>() {
                return self.compound(name, count);
            }
        }
        let term = match word.parse::<i64>() {
            Ok(value) => Term::Int(value),
            Err(_) if begins_variable(word) => Term::Var(self.variable(word)?),
            Err(_) => Term::Atom(self.atom(word)?),
        };
        self.stack.push(term)?;
        Ok(())
    }

    fn end(&mut self) -> Result<(), Fail> {
        let term = self.stack.pop().ok_or("no term before the end")?;
        let names = mem::replace(&mut self.names, Vec::new(self.alloc));
        self.clauses.push(ReadTerm {
            term,
            names: Names::from_vec(names),
            weight: 1,
        })?;
        Ok(())
    }

    fn compound(&mut self, name: &str, count: u16) -> Result<(), Fail> {
        let mut arguments = Vec::new(self.alloc);
        for _ in 0..count {
            arguments.push(self.stack.pop().ok_or("too few terms")?)?;
        }
        arguments.reverse();
        let name = self.atom(name)?;
        self.stack
            .push(Term::Compound(name, Args::from_vec(arguments)))?;
        Ok(())
    }

    fn atom(&mut self, name: &str) -> Result<Atom, Fail> {
        if self.atoms.len() >= 4_000_000_000 {
            return Err("too many atoms".into());
        }
        Ok(self.atoms.number(name)?)
    }

    fn variable(&mut self, name: &str) -> Result<u32, Fail> {
        for (number, other) in self.names.as_slice().iter().enumerate() {
            if other.is_same(name) {
                return Ok(u32::try_from(number)?);
            }
        }
        let number = self.names.len();
        self.names.push(Text::from_str(self.alloc, name)?)?;
        Ok(u32::try_from(number)?)
    }
}

fn begins_variable(word: &str) -> bool {
    match word.as_bytes().first() {
        Some(byte) => byte.is_ascii_uppercase() || *byte == b'_',
        None => false,
    }
}

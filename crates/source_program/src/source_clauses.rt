ghost use Rattle.std.specs.Prelude.{◌≡◌, ◌++◌, ◌∷◌, [], OnOk, OnErr, length};

use crate::source_clause::SourceClause;
use aq_term::memory::Memory;
use std::alloc::Global;
use std::marker::Model;

/// The clauses of a predicate, in the order of the text. Contracts see the list of them.
#[derive(Debug, Drop)]
pub struct SourceClauses {
    items: Vec<SourceClause>,
}

impl Model for SourceClauses {
    ghost use Rattle.std.specs.Prelude.{List};
    ghost use Rattle.source_program.specs.declared.source_clause.SourceClause.{SourceClause};

    ghost Value = { List SourceClause };

    ghost use Rattle.source_program.specs.contracts.source_clause.SourceClause as item;
    ghost use Rattle.std.specs.Coded.{coded_list};

    ghost coded = { coded_list item.the_row.coded };

    ghost view = { λ a. a.items.items };
}

impl SourceClauses {
    pub fn new(alloc: Global) -> SourceClauses
        ensures { result ≡ [] }
    {
        SourceClauses {
            items: Vec::new(alloc),
        }
    }

    /// The list of these items, with no copy.
    pub fn from_vec(items: Vec<SourceClause>) -> SourceClauses
        ensures { result ≡ items.items }
    {
        SourceClauses { items }
    }

    /// The items, with no copy.
    pub fn into_vec(self) -> Vec<SourceClause>
        ensures { result.items ≡ self }
    {
        let SourceClauses { items } = self;
        items
    }

    pub fn as_slice(&self) -> &[SourceClause]
        ensures { result.now ≡ self.now }
    {
        self.items.as_slice()
    }

    pub fn len(&self) -> usize
        ensures { result ≡ length self.now }
    {
        self.items.len()
    }

    /// Puts an item at the end. After want of memory the list is as it was.
    pub fn push(&mut self, item: SourceClause) -> Result<(), Memory>
        ensures ok { OnOk result (self.new ≡ self.old ++ item ∷ []) }
        ensures err { OnErr result (self.new ≡ self.old) }
    {
        self.items.push(item)?;
        Ok(())
    }
}

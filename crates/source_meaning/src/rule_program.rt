/// A clause whose goals are names, lent from where it was read: the name of its head, and the names of its goals from
/// left to right. A fact has none.
#[derive(Debug, Drop)]
pub struct RuleClause<'a> {
    pub head: &'a str,
    pub body: Vec<&'a str>,
}

/// A program whose goals are names: the name that a query may call, and the clauses in text order.
#[derive(Debug, Drop)]
pub struct RuleProgram<'a> {
    pub entry: &'a str,
    pub clauses: Vec<RuleClause<'a>>,
}

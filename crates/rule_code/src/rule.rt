use crate::goals::Goals;
use aq_term::proc_name::ProcName;

/// A clause whose goals are names, as numbers of a table: the name of its head, and its goals.
#[derive(Debug, Drop)]
pub struct Rule {
    pub head: ProcName,
    pub goals: Goals,
}

ghost use Rattle.std.specs.Prelude.{◌≡◌, IfOk};
ghost use Rattle.std.specs.String.{string_bytes};
ghost use Rattle.aq_base.specs.Refusal.{line_of, of_clause, reason_of, read_word, form_word, limit_word};

use aq_term::memory::Memory;
use aq_term::rule::Rule;
use std::alloc::{AllocError, Global};

/// Why a clause's tokens are no term of the language, in the order in which it is tested. `Depth` comes for open
/// brackets before `Syntax`, and for the term's depth after `Arity`.
#[derive(Clone, Copy, Debug, PartialEq, Eq)]
pub enum ReadKind {
    Depth,
    Syntax,
    IntegerRange,
    Arity,
}

/// Which part of a clause has no form of the language.
#[derive(Clone, Copy, Debug, PartialEq, Eq)]
pub enum FormKind {
    Directive,
    Head,
    Body,
}

/// The limit that a clause passes, in the order in which a clause is tested.
#[derive(Clone, Copy, Debug, PartialEq, Eq)]
pub enum LimitKind {
    Arity,
    Branch,
    Variables,
    Slots,
    Nodes,
    Total,
}

/// Why a text or a query is refused. Clauses, procedures, lines, imports, arguments and parts are numbered from 1, but for
/// the procedure of the rule `entry`, which is 0; `at` is a byte offset from 0. Where parts are joined, a `proc` or an
/// `import` is counted over all parts, but in `PartReject`, where it is counted within its part.
#[derive(Clone, Copy, Debug, PartialEq, Eq)]
pub enum Refusal {
    InputLength,
    Token {
        clause: u64,
        at: u64,
    },
    Read {
        clause: u64,
        kind: ReadKind,
    },
    Form {
        clause: u64,
        kind: FormKind,
    },
    Limit {
        clause: u64,
        kind: LimitKind,
    },
    NoEntry,
    EntryUndefined {
        clause: u64,
    },
    QuerySyntax,
    NotEntry,
    QueryMode {
        argument: u8,
    },
    Text {
        line: u64,
    },
    Reject {
        proc: u64,
        line: u64,
        rule: Rule,
    },
    Undefined {
        import: u64,
    },
    PartText {
        part: u64,
        line: u64,
    },
    PartReject {
        part: u64,
        proc: u64,
        line: u64,
        rule: Rule,
    },
    JoinName {
        proc: u64,
    },
    JoinImport {
        import: u64,
    },
    Unsupported,
}

impl ReadKind {
    /// The words of this kind in a refusal.
    pub fn word(self) -> &'static str
        ensures { result.now ≡ read_word self }
    {
        match self {
            ReadKind::Depth => "depth",
            ReadKind::Syntax => "syntax",
            ReadKind::IntegerRange => "integer range",
            ReadKind::Arity => "arity",
        }
    }
}

impl FormKind {
    /// The word of this kind in a refusal.
    pub fn word(self) -> &'static str
        ensures { result.now ≡ form_word self }
    {
        match self {
            FormKind::Directive => "directive",
            FormKind::Head => "head",
            FormKind::Body => "body",
        }
    }
}

impl LimitKind {
    /// The word of this kind in a refusal.
    pub fn word(self) -> &'static str
        ensures { result.now ≡ limit_word self }
    {
        match self {
            LimitKind::Arity => "arity",
            LimitKind::Branch => "branch",
            LimitKind::Variables => "variables",
            LimitKind::Slots => "slots",
            LimitKind::Nodes => "nodes",
            LimitKind::Total => "total",
        }
    }
}

/// What is refused, without the front and the new line of its line.
fn reason(alloc: Global, refusal: &Refusal) -> Result<String, AllocError>
    ensures { IfOk result (λ text. string_bytes text ≡ reason_of refusal.now) }
{
    match refusal {
        Refusal::InputLength => format!(in alloc; "input length"),
        Refusal::Token { clause, at } => format!(in alloc; "clause {clause}: token at {at}"),
        Refusal::Read { clause, kind } => about_clause(alloc, *clause, kind.word()),
        Refusal::Form { clause, kind } => about_clause(alloc, *clause, kind.word()),
        Refusal::Limit { clause, kind } => {
            let word = kind.word();
            format!(in alloc; "clause {clause}: limit {word}")
        }
        Refusal::NoEntry => format!(in alloc; "no entry"),
        Refusal::EntryUndefined { clause } => about_clause(alloc, *clause, "entry undefined"),
        Refusal::QuerySyntax => format!(in alloc; "query syntax"),
        Refusal::NotEntry => format!(in alloc; "query not entry"),
        Refusal::QueryMode { argument } => format!(in alloc; "query mode {argument}"),
        Refusal::Text { line } => format!(in alloc; "line {line}"),
        Refusal::Reject { proc, line, rule } => {
            let word = rule.word();
            format!(in alloc; "proc {proc} line {line}: {word}")
        }
        Refusal::Undefined { import } => format!(in alloc; "import {import}: undefined"),
        Refusal::PartText { part, line } => format!(in alloc; "part {part} line {line}"),
        Refusal::PartReject {
            part,
            proc,
            line,
            rule,
        } => {
            let word = rule.word();
            format!(in alloc; "part {part} proc {proc} line {line}: {word}")
        }
        Refusal::JoinName { proc } => format!(in alloc; "join name {proc}"),
        Refusal::JoinImport { import } => format!(in alloc; "join import {import}"),
        Refusal::Unsupported => format!(in alloc; "unsupported"),
    }
}

fn about_clause(alloc: Global, clause: u64, word: &str) -> Result<String, AllocError>
    ensures { IfOk result (λ text. string_bytes text ≡ of_clause clause word.now) }
{
    format!(in alloc; "clause {clause}: {word}")
}

/// The whole line of a refusal, its new line included.
pub fn refusal_text(alloc: Global, refusal: &Refusal) -> Result<Vec<u8>, Memory>
    ensures { IfOk result (λ line. line.items ≡ line_of refusal.now) }
{
    let reason = reason(alloc, refusal)?;
    let line = format!(in alloc; "refused: {reason}\n")?;
    Ok(line.into_bytes())
}

ghost use Rattle.rule_code.specs.Law.{CodeKeepsRules, LimitedCodeKeepsRules};
ghost use Rattle.rule_code.specs.CompiledLaw.{CompiledCodeHasEntry, CompiledCodeKeepsRules, CompiledCodeRuns};

/// The law that the linked code of rules without arguments has the events of the rules, both ways, and is over where they
/// are. It does nothing when it runs.
pub fn code_keeps_rules()
    ensures { CodeKeepsRules }
{}

/// The law that the linked code of rules without arguments, run under limits, has the first events of the rules, is never
/// wrong, and has all their events where it is over by itself. It does nothing when it runs.
pub fn limited_code_keeps_rules()
    ensures { LimitedCodeKeepsRules }
{}

/// The law that the code of a program has one entry, and from its place the events of the program, both ways, and is over
/// where that is. It does nothing when it runs.
pub fn compiled_code_keeps_rules()
    ensures entry { CompiledCodeHasEntry }
    ensures keeps { CompiledCodeKeepsRules }
{}

/// The law that the code of a program, run under any limits from its entry's place, is never wrong, has the first events
/// of the program, and has them all where it is over by itself. It does nothing when it runs.
pub fn compiled_code_runs()
    ensures { CompiledCodeRuns }
{}

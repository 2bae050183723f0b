//! Laws above the definitions: each function's contract is one, and calling it does nothing.

ghost use Rattle.project_json.specs.Laws.{RefusalIsLeast, ProjectKeepsRules};

/// A rule that is reported is broken at that place, and no rule with a lesser number is broken, on the form or on the numbers.
pub fn refusal_is_least()
    ensures { RefusalIsLeast }
{}

/// What is read as a project breaks no rule, on the form or on the numbers, and is read as its plain parts.
pub fn project_keeps_rules()
    ensures { ProjectKeepsRules }
{}

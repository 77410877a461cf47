//! What holds of every scenario, as contracts of functions that do nothing.
ghost use Rattle.std.specs.Prelude.{◌≡◌, ◌≤◌, ◌∷◌, ◌++◌, ◌⊎◌, ℕ, List, [], Ok, Some, codes, length, map};
ghost use Rattle.scenario.specs.declared.form.Form.{Form};
ghost use Rattle.scenario.specs.declared.line.Line.{Line};
ghost use Rattle.scenario.specs.declared.rules.Rules.{Rules};
ghost use Rattle.scenario.specs.declared.line.Line.TheVariants as line;
ghost use Rattle.scenario.specs.Generate.{generated};
ghost use Rattle.scenario.specs.Rules.{rules_of_replay};
ghost use Rattle.scenario.specs.Words.{lines_of};
ghost use Rattle.scenario.specs.Grammar.{as_written, form_of, form_text};
ghost use Rattle.scenario.specs.Scenario.{scenario_of};
ghost use Rattle.scenario.specs.Texts.{written};
ghost use Rattle.scenario.specs.Valid.{AllAllowed, AllStand, IsScenario};

/// The lines of each valid text are a scenario: the set, the items, lines that fit them, and `end`;
/// and nothing is wrong with any line after those before it.
pub fn valid_lines()
    ensures shape { (rules : Rules) (bytes : List ℕ) (lines : List Line) → scenario_of rules bytes ≡ Ok lines →
        IsScenario rules lines }
    ensures order { (rules : Rules) (bytes : List ℕ) (lines : List Line) → scenario_of rules bytes ≡ Ok lines →
        AllAllowed rules [] lines }
{}

/// The language is canonical: a text has a form exactly where it is that form's one spelling.
pub fn grammar()
    ensures read_is_spelled { (text : List ℕ) (form : Form) → form_of text ≡ Some form → form_text form ≡ text }
    ensures spelled_is_read { (form : Form) → form_of (form_text form) ≡ Some form }
{}

/// Each list of lines that ends with `end` and of which each may stand after those before it is a scenario: it is read
/// from what is written of it. The lines of each valid text are such a list.
pub fn scenarios_are_read()
    ensures read { (rules : Rules) (body : List Line) → AllStand rules [] (body ++ line.End ∷ []) →
        length (body ++ line.End ∷ []) ≤ rules.lines →
        scenario_of rules (written (body ++ line.End ∷ [])) ≡ Ok (body ++ line.End ∷ []) }
    ensures no_others { (rules : Rules) (bytes : List ℕ) (lines : List Line) → scenario_of rules bytes ≡ Ok lines →
        AllStand rules [] lines }
{}

/// What is written of a scenario is read as the same lines. Line by line, what is written is what was read, without
/// picoseconds of 0. Where no line says these, the whole text is the same, but for a last line feed that may be
/// missing.
pub fn reads_what_was_written()
    ensures again { (rules : Rules) (bytes : List ℕ) (lines : List Line) → scenario_of rules bytes ≡ Ok lines →
        scenario_of rules (written lines) ≡ Ok lines }
    ensures lines { (rules : Rules) (bytes : List ℕ) (lines : List Line) → scenario_of rules bytes ≡ Ok lines →
        lines_of (written lines) ≡ map as_written (lines_of bytes) }
    ensures same { (rules : Rules) (bytes : List ℕ) (lines : List Line) → scenario_of rules bytes ≡ Ok lines →
        map as_written (lines_of bytes) ≡ lines_of bytes →
        (bytes ≡ written lines) ⊎ (bytes ++ codes "\n" ≡ written lines) }
{}

/// What `generate` makes is a scenario of so many lines, for a program that runs all modes: each line may stand after
/// those before it, and the lines are read from what is written of them.
pub fn generated_lines()
    ensures count { (seed lines : ℕ) → 3 ≤ lines → lines ≤ 200000 → length (generated seed lines) ≡ lines }
    ensures stand { (pool seed lines : ℕ) → 3 ≤ lines → lines ≤ 200000 →
        AllStand (rules_of_replay pool) [] (generated seed lines) }
    ensures read { (pool seed lines : ℕ) → 3 ≤ lines → lines ≤ 200000 →
        scenario_of (rules_of_replay pool) (written (generated seed lines)) ≡ Ok (generated seed lines) }
{}

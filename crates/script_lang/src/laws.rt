//! Laws of scripts. They speak of the definitions alone.

ghost use Rattle.std.specs.Prelude.{◌≡◌, ℕ, Some, List as Items, ◌∷◌, ◌⊎◌, filter, not};
ghost use Rattle.std.specs.List.{filter_map};
ghost use Rattle.init_machine.specs.declared.input.Input.TheVariants.{Boot};
ghost use Rattle.init_machine.specs.declared.limit.Limit.{Limit};
ghost use Rattle.script_lang.specs.Inputs.{InOrder, Parts, part_of};
ghost use Rattle.script_lang.specs.Laws.{IsPermitted, MeetsConditions, is_set, set_by, set_in, statement_words};
ghost use Rattle.script_lang.specs.Refusal.{IsBadAt, IsTooLarge};
ghost use Rattle.script_lang.specs.Script.{IsScript};
ghost use Rattle.script_lang.specs.Statements.{statement_of};
ghost use Rattle.script_lang.specs.declared.script.Script.{Script as Acts};
ghost use Rattle.script_lang.specs.declared.statement.Statement.{Statement as Spoken};

/// Each text is the text of one script, or passes one limit, or has one first bad line.
pub fn each_text_has_one_reading()
    ensures one_script { (bytes : Items ℕ) (script other : Acts) → IsScript bytes script → IsScript bytes other → script ≡ other }
    ensures one_limit { (bytes : Items ℕ) (limit other : Limit) (number count : ℕ) →
        IsTooLarge bytes limit number → IsTooLarge bytes other count → (limit ≡ other) × (number ≡ count) }
    ensures one_line { (bytes : Items ℕ) (line other : ℕ) → IsBadAt bytes line → IsBadAt bytes other → line ≡ other }
    ensures script_within { (bytes : Items ℕ) (script : Acts) (limit : Limit) (number : ℕ) → IsScript bytes script
        → ¬ IsTooLarge bytes limit number }
    ensures line_within { (bytes : Items ℕ) (line : ℕ) (limit : Limit) (number : ℕ) → IsBadAt bytes line
        → ¬ IsTooLarge bytes limit number }
    ensures script_or_line { (bytes : Items ℕ) (script : Acts) (line : ℕ) → IsScript bytes script → ¬ IsBadAt bytes line }
    ensures one_of_three { (bytes : Items ℕ) → ((script : Acts) × IsScript bytes script)
        ⊎ (((limit : Limit) × (number : ℕ) × IsTooLarge bytes limit number) ⊎ ((line : ℕ) × IsBadAt bytes line)) }
{}

/// A line says a statement exactly where its words are those of the statement, which is permitted: each text in q form,
/// each number in decimal.
pub fn statements_are_written_in_one_way()
    ensures read { (s : Spoken) → IsPermitted s → statement_of (statement_words s) ≡ Some s }
    ensures written { (words : Items (Items ℕ)) (s : Spoken) → statement_of words ≡ Some s
        → (words ≡ statement_words s) × IsPermitted s }
{}

/// A script meets what a run asks of it.
pub fn scripts_meet_conditions()
    ensures { (bytes : Items ℕ) (script : Acts) → IsScript bytes script → MeetsConditions script }
{}

/// The inputs in order begin with Boot. Without the sets they are Boot and the main actor's part, and the sets of a client
/// are those of its part, in order.
pub fn inputs_are_those_of_the_parts()
    ensures main { (script : Acts) → filter (λ input. not (is_set input)) (InOrder script) ≡ Boot ∷ (Parts script).main }
    ensures sets { (script : Acts) (who : ℕ) → filter_map (set_by who) (InOrder script) ≡ filter_map set_in (part_of who script) }
{}

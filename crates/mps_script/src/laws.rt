// A law of scripts.
ghost use Rattle.std.specs.Prelude.{ℕ, ◌≡◌, true, List, [], ◌∷◌, ◌++◌, is_ok};
ghost use Rattle.mps_script.specs.Line.{call_of_line};
ghost use Rattle.mps_script.specs.Script.{calls_of, in_turn, is_grammatical, is_some_call};

/// A script and one line more are a script exactly if that line has its turn.
pub fn a_script_grows_line_by_line()
    ensures { (lines : List (List ℕ)) (line : List ℕ) → is_grammatical lines ≡ true
        → is_grammatical (lines ++ line ∷ []) ≡ is_ok (in_turn (is_some_call (calls_of lines)) (call_of_line line)) }
{}

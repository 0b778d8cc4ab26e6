// Generated scripts and the script language.
ghost use Rattle.std.specs.Prelude.{ℕ, ◌≡◌, ◌≤◌, ◌^◌, true};
ghost use Rattle.mps_script.specs.Line.{lines_of};
ghost use Rattle.mps_script.specs.Script.{is_grammatical};
ghost use Rattle.mps_workload.specs.Script.{script};

/// The lines of every generated script are a script.
pub fn generated_scripts_are_grammatical()
    ensures { (seed count : ℕ) → count ≤ 2 ^ 64 → is_grammatical (lines_of (script seed count)) ≡ true }
{}

// Laws of a run, which follow from what it leaves.
ghost use Rattle.std.specs.Prelude.{◌≡◌, ◌≢◌, ◌≤◌, ℕ, Bool, List, Some, true, length};
ghost use Rattle.mps_desk.specs.Desk.{Outside, Files, HasRisen};
ghost use Rattle.mps_log_reader.specs.Ending.{is_input_verdict};
ghost use Rattle.mps_run.specs.Ending.{NoFaultRose};
ghost use Rattle.mps_model.specs.declared.call.Call.{Call};
ghost use Rattle.mps_model.specs.Log.{log_bytes};
ghost use Rattle.mps_model.specs.Step.{History};
ghost use Rattle.mps_run.specs.Script.{HasRun, Line, answers_of, max_lines};
ghost use Rattle.mps_script.specs.Line.{lines_of};
ghost use Rattle.mps_script.specs.Script.{is_grammatical};
ghost use Rattle.mps_run.specs.Following.{Answered, RanWhole, HoldsLog};
ghost use Rattle.mps_run.specs.Run.{RunsScript};

/// Unless a call that was to print failed, what was printed is the answer line of each step of a legal history of the first lines,
/// and nothing else: no answer was cut short. Such a call fails with status 4, and with 5 where the log fails as its bytes are
/// written before the answers.
pub fn answers_are_whole()
    ensures { (takes_memory : Call → Bool) (log script : List ℕ) (status : ℕ) (old new : Outside)
        → RunsScript takes_memory log script status old new
        → status ≢ 4 → (status ≡ 5 → ¬ HasRisen old.out_faults new.out_faults)
        → (bytes : List ℕ) → old.text script ≡ Some bytes → Answered bytes old new }
{}

/// Where the end of the script or one of its lines ends the run, what was printed and logged is that of a legal history of the
/// commands up to there, and nothing else.
pub fn a_whole_run_leaves_one_history()
    ensures { (takes_memory : Call → Bool) (log script : List ℕ) (status : ℕ) (old new : Outside)
        → (r : RunsScript takes_memory log script status old new)
        → is_input_verdict status ≡ true → (bytes : List ℕ) → old.text script ≡ Some bytes → RanWhole takes_memory r.ends bytes old new }
{}

/// Where a desk knows its files and what was logged, the file of the log's name then holds the header and the records of that
/// history, and nothing else; every other file is as it was.
pub fn the_file_of_the_log()
    ensures { (takes_memory : Call → Bool) (log script : List ℕ) (status : ℕ) (old new : Outside)
        → RunsScript takes_memory log script status old new
        → is_input_verdict status ≡ true → (files : Files) → old.files ≡ Some files → (before : List ℕ) → old.logged ≡ Some before
        → (bytes : List ℕ) → old.text script ≡ Some bytes → HoldsLog log bytes files new }
{}

/// A script that is grammatical and has fewer than 2^32 lines, run without a fault and with memory for what it makes, ends with
/// status 0.
pub fn a_good_script_ends_well()
    ensures { (takes_memory : Call → Bool) (log script : List ℕ) (status : ℕ) (old new : Outside)
        → RunsScript takes_memory log script status old new
        → (bytes : List ℕ) → old.text script ≡ Some bytes → is_grammatical (lines_of bytes) ≡ true
        → length (lines_of bytes) ≤ max_lines → NoFaultRose old new → status ≢ 8 → status ≡ 0 }
{}

/// A run is its output: two histories that were run over the same lines, with the same bytes printed and the same bytes logged,
/// are the same.
pub fn a_run_is_its_output()
    ensures { (ran : List Line) (these those : History) → HasRun ran these → HasRun ran those
        → answers_of these ≡ answers_of those → log_bytes these ≡ log_bytes those → these ≡ those }
{}

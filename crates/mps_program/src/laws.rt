// Laws of the program's run of a script, which hold of it as of a run on any machine.
ghost use Rattle.std.specs.Prelude.{◌≡◌, ◌≢◌, ◌≤◌, ℕ, List, Some, Ok, true, length};
ghost use Rattle.mps_desk.specs.Desk.{Outside, Files, HasRisen};
ghost use Rattle.mps_args.specs.Meaning.{Runs, Converts, Reads, Lists};
ghost use Rattle.mps_base.specs.Record.{Record};
ghost use Rattle.mps_tools.specs.Listed.{Lists as ListsAll};
ghost use Rattle.mps_event.specs.declared.version.Version.{Version};
ghost use Rattle.mps_run.specs.LogPrefix.{LogPrefix, LogEnds};
ghost use Rattle.mps_tools.specs.Text.{TextEndsWith};
ghost use Rattle.mps_session.specs.Memory.{call_takes_memory};
ghost use Rattle.mps_run.specs.LogReaderEnding.{is_input_verdict};
ghost use Rattle.mps_run.specs.Ending.{NoFaultRose};
ghost use Rattle.mps_run.specs.Line.{lines_of};
ghost use Rattle.mps_run.specs.ScriptScript.{is_grammatical};
ghost use Rattle.mps_run.specs.Following.{Answered, RanWhole, HoldsLog};
ghost use Rattle.mps_model.specs.Step.{History};
ghost use Rattle.mps_run.specs.Script.{HasRun, Line, max_lines};
ghost use Rattle.mps_program.specs.Asked.{DoesAsAsked};
ghost use Rattle.mps_program.specs.ReadBack.{IsReadBack};

/// What follows where the words ask for a run: the answers that stand printed are whole, unless a call that was to print failed; a
/// good script ends with status 0, without a fault and with memory; a run to its end, or to a line that ends it, leaves one history;
/// and its log is what the file of the log's name holds, where the desk knows its files.
pub fn a_run_by_its_words()
    ensures answered { (log script : List ℕ) (status : ℕ) (old new : Outside) → DoesAsAsked (Some (Runs log script)) status old new
        → status ≢ 4 → (status ≡ 5 → ¬ HasRisen old.out_faults new.out_faults) → (bytes : List ℕ) → old.text script ≡ Some bytes
        → Answered bytes old new }
    ensures good { (log script : List ℕ) (status : ℕ) (old new : Outside) → DoesAsAsked (Some (Runs log script)) status old new
        → (bytes : List ℕ) → old.text script ≡ Some bytes → is_grammatical (lines_of bytes) ≡ true
        → length (lines_of bytes) ≤ max_lines → NoFaultRose old new → status ≢ 8 → status ≡ 0 }
    ensures ran { (log script : List ℕ) (status : ℕ) (old new : Outside) → (does : DoesAsAsked (Some (Runs log script)) status old new)
        → is_input_verdict status ≡ true → (bytes : List ℕ) → old.text script ≡ Some bytes
        → RanWhole call_takes_memory does.ends bytes old new }
    ensures file { (log script : List ℕ) (status : ℕ) (old new : Outside) → DoesAsAsked (Some (Runs log script)) status old new
        → is_input_verdict status ≡ true → (files : Files) → old.files ≡ Some files → (before : List ℕ) → old.logged ≡ Some before
        → (bytes : List ℕ) → old.text script ≡ Some bytes → HoldsLog log bytes files new }
{}

/// What follows where the words ask for a reader of an input that is good to its end: without a fault and with memory the status
/// is 0.
pub fn a_good_input_is_read_to_its_end()
    ensures converted { (log : List ℕ) (kinds status : ℕ) (old new : Outside) → DoesAsAsked (Some (Converts log kinds)) status old new
        → NoFaultRose old new → status ≢ 8 → (bytes : List ℕ) → old.text log ≡ Some bytes
        → (prefix : LogPrefix bytes) → LogEnds {T = Unit {0}} prefix (Ok tt) → status ≡ 0 }
    ensures read { (text : List ℕ) (status : ℕ) (old new : Outside) → DoesAsAsked (Some (Reads text)) status old new
        → NoFaultRose old new → status ≢ 8 → (bytes : List ℕ) → old.text text ≡ Some bytes
        → (version : Version) (records : List Record) → TextEndsWith version records (Ok tt) bytes → status ≡ 0 }
    ensures listed { (log : List ℕ) (status : ℕ) (old new : Outside) → DoesAsAsked (Some (Lists log)) status old new
        → NoFaultRose old new → status ≢ 8 → (bytes : List ℕ) → old.text log ≡ Some bytes
        → (lines : List ℕ) → ListsAll bytes (Ok tt) lines → status ≡ 0 }
{}

/// A run's log can be read: after a run that ended with its script, or with a line of it, the file of the log's name holds the log of
/// a history (`HoldsLog`). On any desk that has those bytes, without a fault and with memory: `blocks` ends with status 0 and prints
/// exactly the blocks that live in the last world; `cnv` ends with 0 and prints the history's records; and `txt` reads that text to
/// its end.
pub fn a_runs_log_can_be_read()
    ensures run { (log script : List ℕ) (status : ℕ) (old new : Outside) → DoesAsAsked (Some (Runs log script)) status old new
        → is_input_verdict status ≡ true → (files : Files) → old.files ≡ Some files → (before : List ℕ) → old.logged ≡ Some before
        → (bytes : List ℕ) → old.text script ≡ Some bytes
        → (holds : HoldsLog log bytes files new) × IsReadBack holds.history }
    ensures history { (ran : List Line) (history : History) → HasRun ran history → IsReadBack history }
{}

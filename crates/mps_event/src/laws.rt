// A law of the grammar.

ghost use Rattle.std.specs.Prelude.{◌≡◌, ◌++◌, ℕ, List};
ghost use Rattle.mps_base.specs.Record.{Record, record_bytes};
ghost use Rattle.mps_event.specs.declared.version.Version.{Version as TheVersion};
ghost use Rattle.mps_event.specs.Grammar.{IsRecord};

/// No record's bytes begin another record's: if two records begin the same bytes, they are one record, and the same
/// follows them. So what was written is read again, whatever follows.
pub fn no_record_begins_another()
    ensures { (version : TheVersion) (a b : Record) (x y : List ℕ) → IsRecord version a → IsRecord version b
        → record_bytes a ++ x ≡ record_bytes b ++ y → (a ≡ b) × (x ≡ y) }
{}

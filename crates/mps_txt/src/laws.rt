// A law of the labels.

ghost use Rattle.std.specs.Prelude.{◌≡◌, ℕ, ◌==◌, if◌then◌else◌, Some, None};
ghost use Rattle.mps_txt.specs.Labels.{Naming, IsReached, id_at, with_label, without_label, moved};

/// The labels of a text are a map from addresses to names: a label is at its address alone, a label that is taken away is
/// at no address any more, and a label moves with its block. Every other address keeps its own.
pub fn labels_are_a_map()
    ensures labelled { (s : Naming) (address id other : ℕ)
        → id_at (with_label s address id) other ≡ (if address == other then Some id else id_at s other) }
    ensures unlabelled { (s : Naming) → IsReached s → (address other : ℕ)
        → id_at (without_label s address) other ≡ (if address == other then None else id_at s other) }
    ensures moved { (s : Naming) → IsReached s → (from to other : ℕ)
        → id_at (moved s from to) other ≡ (if from == other then None else (if to == other then id_at s from else id_at s other)) }
{}

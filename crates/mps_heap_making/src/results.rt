// What a call that makes a thing says of it.
ghost use Rattle.std.specs.Prelude.{◌≡◌};
ghost use Rattle.mps_heap_making.specs.Results.{without_key};

use mps_base::Refusal;

/// Whether something was made; its key is the heap's own affair.
pub fn without_key(made: Result<usize, Refusal>) -> Result<(), Refusal>
    ensures value { result ≡ without_key made }
{
    made?;
    Ok(())
}

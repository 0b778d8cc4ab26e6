// Checks of a count, of a point's pool and of its reservation.
#![tactic(auto)]

ghost use Rattle.std.specs.Prelude.{◌≡◌, ◌<◌, Some, OnOk, IfOk};
ghost use Rattle.mps_model.specs.Checked.{required};
ghost use Rattle.mps_model.specs.Making.{refuse_at_limit};
ghost use Rattle.mps_heap_spec.specs.Making.{may_have_point};

use mps_base::{Rank, Refusal};
use mps_buffer::{Held, Point};
use mps_format::{Format, Pool, is_automatic, is_weak};

/// Refuses one more if a limit is reached.
pub fn refuse_at_limit(count: usize, limit: u32) -> Result<(), Refusal>
    ensures value { result ≡ refuse_at_limit count limit }
    ensures few { OnOk result (count < limit) }
{
    if count >= limit as usize {
        return Err(Refusal::TooMany { limit });
    }
    Ok(())
}

/// Whether a pool may have a point of this rank.
pub fn may_have_point<F: Format>(pool: Pool<F>, rank: Rank) -> bool
    ensures { result ≡ may_have_point pool rank }
{
    let may_be = match rank {
        Rank::Exact => true,
        Rank::Weak => is_weak(pool),
    };
    is_automatic(pool) && may_be
}

/// The open reservation of a point. Refuses `NotOpen` where it has none.
pub fn reservation_of(point: Point) -> Result<Held, Refusal>
    ensures value { result ≡ required point.reservation Refusal.NotOpen }
    ensures open { IfOk result (λ held. point.reservation ≡ Some held) }
{
    match point.reservation {
        Some(held) => Ok(held),
        None => Err(Refusal::NotOpen),
    }
}

// Answers the call that makes an allocation cache.
ghost use Rattle.std.specs.Prelude.{◌≡◌, ◌≤◌, All, IfNone, IfSome, IsTrue, is_some, length, map, []};
ghost use Rattle.std.specs.List.{list_all};
ghost use Rattle.mps_commands.specs.Range.{IsInRange, are_cached};
ghost use Rattle.mps_model.specs.declared.call.Call.TheVariants as call;
ghost use Rattle.mps_session.specs.Groups.{is_on_caches};
ghost use Rattle.mps_session.specs.Standing.{IsAnswered};

use crate::replies::done;
use mps_base::Name;
use mps_format::AnyFormat;
use mps_heap::Heap;
use mps_model::{Call, Reply};
use mps_sac::ClassSize;

/// Answers a call that makes a cache; `None` if it is another.
pub fn answer(heap: &mut Heap<AnyFormat>, call: &Call) -> Option<Reply>
    requires range { IsInRange call.now }
    ensures right { IfSome result (λ reply. IsAnswered heap.old call.now [] reply heap.new) }
    ensures which { is_some result ≡ is_on_caches call.now }
    ensures unchanged { IfNone result (heap.new ≡ heap.old) }
{
    match *call {
        Call::Cache {
            cache,
            pool,
            count,
            sizes,
            limits,
        } => Some(make_cache(heap, cache, pool, count, sizes, limits)),
        _ => None,
    }
}

/// Makes a cache of the first of these classes.
fn make_cache(
    heap: &mut Heap<AnyFormat>,
    cache: Name,
    pool: Name,
    count: u8,
    sizes: [u32; 8],
    limits: [u8; 8],
) -> Reply
    requires nonempty { 1 ≤ count }
    requires at_most { count ≤ 8 }
    requires limits { IsTrue (list_all are_cached limits) }
    ensures { IsAnswered heap.old (call.Cache cache pool count sizes limits) [] result heap.new }
{
    let classes = class_sizes(sizes, limits);
    let first = &classes[..count as usize];
    done(heap.cache(cache, pool, first))
}

/// Classes of these sizes, of which each keeps at most so many blocks.
fn class_sizes(sizes: [u32; 8], limits: [u8; 8]) -> [ClassSize; 8]
    requires { IsTrue (list_all are_cached limits) }
    ensures sizes { map (λ class. class.words) result ≡ sizes }
    ensures limits { map (λ class. class.limit) result ≡ limits }
    ensures few { All (λ class. class.limit ≤ 64) result }
{
    let [a, b, c, d, e, f, g, h] = sizes;
    let [i, j, k, l, m, n, o, p] = limits;
    [
        class(a, i),
        class(b, j),
        class(c, k),
        class(d, l),
        class(e, m),
        class(f, n),
        class(g, o),
        class(h, p),
    ]
}

/// A class of blocks of this size, which keeps at most so many.
fn class(words: u32, limit: u8) -> ClassSize
    ensures size { result.words ≡ words }
    ensures limit { result.limit ≡ limit }
{
    ClassSize {
        words,
        limit: u32::from(limit),
    }
}

// Answers the calls that make things.
ghost use Rattle.std.specs.Prelude.{◌≡◌, ◌≤◌, IfOk, IsTrue, OnErr, [], true};
ghost use Rattle.std.specs.List.{list_all};
ghost use Rattle.mps_commands.specs.Range.{IsInRange, are_grains};
ghost use Rattle.mps_format.specs.AnyFormat.{any_layout};
ghost use Rattle.mps_model.specs.declared.call.Call.TheVariants as call;
ghost use Rattle.mps_refinement.specs.Making.{IsRightMaking};
ghost use Rattle.mps_session.specs.Groups.{makes_thing};
ghost use Rattle.mps_session.specs.Standing.{HeapStandsStill, IsAnswered};

use crate::replies::made;
use mps_base::{Name, Refusal};
use mps_format::AnyFormat;
use mps_heap::Heap;
use mps_model::{Call, Reply};
use std::alloc::AllocError;

/// Answers a call that makes a thing. An `Err` says that memory is out.
pub fn answer(heap: &mut Heap<AnyFormat>, call: &Call) -> Result<Reply, AllocError>
    requires which { makes_thing call.now ≡ true }
    requires range { IsInRange call.now }
    ensures right { IfOk result (λ reply. IsAnswered heap.old call.now [] reply heap.new) }
    ensures unchanged { OnErr result (HeapStandsStill heap.old heap.new) }
{
    match *call {
        Call::Pool { pool, kind, format } => made(heap.pool(
            pool,
            kind,
            AnyFormat::numbered(format as u32),
        )),
        Call::PoolMfs { pool, words } => made(heap.pool_mfs(pool, words)),
        Call::PoolMvff { pool } => made(heap.pool_mvff(pool)),
        Call::PoolFrames { pool } => made(heap.pool_snc(pool)),
        Call::Table { table, length } => made(heap.table(table, length as u32)),
        Call::Area { area, length } => made(heap.area(area, length as u32)),
        Call::Blocks { blocks, length } => made(heap.blocks(blocks, length as u32)),
        Call::Point { point, pool, rank } => made(heap.point(point, pool, rank)),
        Call::Dependency { dependency } => made(heap.ld(dependency)),
        Call::PoolOnChain {
            pool,
            kind,
            format,
            chain,
        } => made(heap.pool_on_chain(pool, kind, AnyFormat::numbered(format as u32), chain)),
        Call::Chain {
            chain,
            count,
            capacities,
        } => made(make_chain(heap, chain, count, capacities)),
        _ => unreachable!(),
    }
}

/// Makes a chain of the first of these capacities.
fn make_chain(
    heap: &mut Heap<AnyFormat>,
    chain: Name,
    count: u8,
    capacities: [u64; 8],
) -> Result<(), Refusal>
    requires nonempty { 1 ≤ count }
    requires at_most { count ≤ 8 }
    requires grains { IsTrue (list_all are_grains capacities) }
    ensures right { IsRightMaking any_layout heap.old (call.Chain chain count capacities) result heap.new }
{
    let grains = in_grains(capacities);
    let first = &grains[..count as usize];
    heap.chain(chain, first)
}

/// The capacities of a chain, each at most the grains of the largest arena.
fn in_grains(capacities: [u64; 8]) -> [u32; 8]
    requires { IsTrue (list_all are_grains capacities) }
    ensures { result ≡ capacities }
{
    let [a, b, c, d, e, f, g, h] = capacities;
    [
        a as u32, b as u32, c as u32, d as u32, e as u32, f as u32, g as u32, h as u32,
    ]
}

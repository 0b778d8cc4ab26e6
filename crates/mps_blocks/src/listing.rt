// Printing the live blocks.

ghost use Rattle.std.specs.Prelude.{◌≡◌, ◌≤◌, ◌+◌, ◌++◌, [], length, map, IfOk, OnOk, OnErr};
ghost use Rattle.mps_desk.specs.Desk.{NothingWaits};
ghost use Rattle.mps_report.specs.Streams.{Prints, PrintsPart, Gathers};
ghost use Rattle.mps_blocks.specs.Entries.{store_of, block_of};
ghost use Rattle.mps_blocks.specs.Listing.{block_line, listing};

use crate::replay::Extent;
use mps_address_map::AddressMap;
use mps_desk::{Desk, Failed};
use mps_report::Output;
use std::alloc::AllocError;

/// The live blocks, each with its address, in ascending order of their addresses.
pub(crate) fn sorted_blocks(live: AddressMap<Extent>) -> Result<Vec<(u64, Extent)>, AllocError>
    ensures { IfOk result (λ blocks. map block_of blocks.items ≡ store_of live) }
{
    live.into_sorted()
}

/// Prints a line for each of these blocks. `Failed` where a write failed, after a prefix of the lines was printed.
pub(crate) fn print_listing<D: Desk>(
    blocks: &[(u64, Extent)],
    output: &mut Output,
    desk: &mut D,
) -> Result<(), Failed>
    requires { output.old ≡ [] }
    ensures printed { OnOk result (Prints (D.outside desk.old) (D.outside desk.new) (listing (map block_of blocks.now))) }
    ensures part { OnErr result (PrintsPart (D.outside desk.old) (D.outside desk.new) (listing (map block_of blocks.now))) }
    ensures written { OnOk result (NothingWaits (D.outside desk.new)) }
{
    gather_blocks(blocks, output, desk)?;
    output.flush(desk)
}

fn gather_blocks<D: Desk>(
    blocks: &[(u64, Extent)],
    output: &mut Output,
    desk: &mut D,
) -> Result<(), Failed>
    requires { output.old ≡ [] }
    ensures gathered { OnOk result (Gathers (D.outside desk.old) (D.outside desk.new) output.old output.new
        (listing (map block_of blocks.now))) }
    ensures part { OnErr result (PrintsPart (D.outside desk.old) (D.outside desk.new) (listing (map block_of blocks.now))) }
{
    for block in blocks {
        gather_block(block.0, &block.1, output, desk)?;
    }
    Ok(())
}

fn gather_block<D: Desk>(
    at: u64,
    extent: &Extent,
    output: &mut Output,
    desk: &mut D,
) -> Result<(), Failed>
    ensures gathered { OnOk result (Gathers (D.outside desk.old) (D.outside desk.new) output.old output.new
        (block_line (block_of (at, extent.now)))) }
    ensures part { OnErr result (PrintsPart (D.outside desk.old) (D.outside desk.new) output.old) }
{
    output.make_room(desk)?;
    put_block(at, extent, output);
    Ok(())
}

fn put_block(at: u64, extent: &Extent, output: &mut Output)
    requires { length output.old + 512 ≤ 65536 }
    ensures { output.new ≡ output.old ++ block_line (block_of (at, extent.now)) }
{
    output.text(b"0x");
    output.hexadecimal(at);
    output.text(b" ");
    output.decimal(extent.words);
    output.text(b" ");
    output.decimal(extent.pool);
    output.text(b"\n");
}

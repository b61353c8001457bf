// Free by pointer: the fixed block becomes free, merged with free neighbours. No master changes.
ghost use Rattle.std.specs.Prelude.{◌≡◌, IfOk, IfErr};
ghost use Rattle.calls.specs.Calls.{free_pointer};
ghost use Rattle.calls.specs.Refusals.{done_of};
ghost use Rattle.zone.specs.Call.{result_of, call};
ghost use Rattle.call_laws.specs.Refused.{Refuses};
ghost use Rattle.free.specs.pointer.Ready.{Ready};

use access::{Zone, locate, row};
use block_type::BlockType;
use calls::Refusal;
use slide::blank;
use slide::blank::Extent;

// The block's extent in a well-formed zone.
fn plan_in(z: Zone<'_>, p: u32) -> Result<Extent, Refusal>
    ensures ok { IfOk result (Ready z.entry.bytes.now p) }
    ensures err { IfErr result (Refuses (free_pointer p) z.entry.bytes.now) }
{
    let place = p as usize;
    if place < BlockType::FIXED_HEADER || z.bytes.len() < place {
        return Err(Refusal::PointerNotFixed);
    }
    let stop = free_block::walk_to(z.bytes, z.first_block(), place - BlockType::FIXED_HEADER);
    if z.bytes.len() <= stop.at || !locate::is_pointer(z.bytes, stop.at, place) {
        return Err(Refusal::PointerNotFixed);
    }
    let end = stop.at + row::step(z.bytes, stop.at);
    Ok(free_block::find_extent(z.bytes, stop.prev, stop.at, end))
}

// Frees a pointer's block.
pub fn free_pointer(zone: &mut [u8], p: u32) -> Result<(), Refusal>
    ensures { result_of (done_of result) zone.new ≡ call (free_pointer p) zone.old }
{
    let z = Zone::open(zone)?;
    let extent = plan_in(z, p)?;
    let len = z.bytes.len();
    blank::write_free(&mut zone[..len], extent);
    Ok(())
}

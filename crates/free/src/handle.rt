// Free by handle: the block becomes free, merged with free neighbours, and its master goes to the chain's head.
ghost use Rattle.std.specs.Prelude.{◌≡◌, IfOk, IfErr};
ghost use Rattle.structure.specs.Structure.{encode, decode_zone};
ghost use Rattle.calls.specs.Calls.{free_handle};
ghost use Rattle.calls.specs.Refusals.{done_of};
ghost use Rattle.zone.specs.Call.{result_of, call};
ghost use Rattle.call_laws.specs.Refused.{Refuses};
ghost use Rattle.free_block.specs.Freed.{freed};
ghost use Rattle.free.specs.handle.Ready.{Ready};

use access::{Zone, locate};
use block_type::BlockType;
use calls::Refusal;
use slide::blank;
use slide::blank::Extent;

// The block's extent, and the chain's head.
#[derive(Clone, Copy)]
struct Plan {
    pub head: u32,
    pub extent: Extent,
}

// The plan in a well-formed zone.
fn plan_in(z: Zone<'_>, h: u32) -> Result<Plan, Refusal>
    ensures ok { IfOk result (Ready z.entry.bytes.now h) }
    ensures err { IfErr result (Refuses (free_handle h) z.entry.bytes.now) }
{
    match locate::by_handle(z, h) {
        Some(span) => {
            let at = span.at - BlockType::RELOCATABLE_HEADER;
            Ok(Plan {
                head: bigendian::get2(z.bytes, block_type::CHAIN_AT),
                extent: free_block::extent_of(z.bytes, at, span.at + span.size),
            })
        }
        None => Err(Refusal::HandleNotLive),
    }
}

// One free block over the block and its free neighbours; h is the chain's head then, with the old head behind it.
fn release(z: &mut [u8], h: usize, p: Plan)
    requires { Ready z.old h p }
    ensures { z.new ≡ encode (freed h (decode_zone z.old)) }
{
    blank::write_free(z, p.extent);
    bigendian::put2(z, block_type::CHAIN_AT, h as u32);
    bigendian::put4(z, h, p.head);
}

// Frees a handle's block.
pub fn free_handle(zone: &mut [u8], h: u32) -> Result<(), Refusal>
    ensures { result_of (done_of result) zone.new ≡ call (free_handle h) zone.old }
{
    let z = Zone::open(zone)?;
    let p = plan_in(z, h)?;
    let len = z.bytes.len();
    release(&mut zone[..len], h as usize, p);
    Ok(())
}

// Allocate fixed: a block at the high end of the highest bay whose sum reaches its size.
ghost use Rattle.std.specs.Prelude.{◌≡◌, ◌+◌, IfOk, IfErr};
ghost use Rattle.structure.specs.Structure.{encode, decode_zone};
ghost use Rattle.calls.specs.Calls.{allocate_fixed};
ghost use Rattle.calls.specs.Refusals.{answer_of};
ghost use Rattle.zone.specs.Call.{result_of, call};
ghost use Rattle.call_laws.specs.Refused.{Refuses};
ghost use Rattle.allocate.specs.fixed.Placed.{placed};
ghost use Rattle.allocate.specs.fixed.Ready.{SiteOf, Ready};

use access::Zone;
use bays::Bay;
use block_type::BlockType;
use calls::Refusal;
use room::bay_end;
use slide::header;

// Where the new block goes: to the last `need` bytes of the bay.
#[derive(Clone, Copy)]
struct Plan {
    pub need: usize,
    pub bay: Bay,
}

// The plan in a well-formed zone.
fn plan_in(z: Zone<'_>, c: u32) -> Result<Plan, Refusal>
    ensures ok { IfOk result (Ready z.entry.bytes.now c) }
    ensures err { IfErr result (Refuses (allocate_fixed c) z.entry.bytes.now) }
{
    if BlockType::FIXED_LIMIT < c {
        return Err(Refusal::TooLarge);
    }
    let need = BlockType::Fixed.need(c);
    match bays::find_high(z.bytes, z.first_block(), need) {
        Some(bay) => Ok(Plan { need, bay }),
        None => Err(Refusal::NoSpace),
    }
}

// The new block in its place. Its data are zero, also where a free block's header stood.
fn place(z: &mut [u8], p: Plan)
    requires { SiteOf z.old p }
    ensures { z.new ≡ encode (placed p.need (decode_zone z.old)) }
{
    bay_end::take_high(z, p.need, p.bay);
    header::put_header(z, p.bay.end - p.need, BlockType::Fixed, p.need);
}

// Allocates a fixed block for c data bytes. Answers the offset of its data, its pointer.
pub fn allocate_fixed(zone: &mut [u8], c: u32) -> Result<u32, Refusal>
    ensures { result_of (answer_of result) zone.new ≡ call (allocate_fixed c) zone.old }
{
    let z = Zone::open(zone)?;
    let p = plan_in(z, c)?;
    let len = z.bytes.len();
    place(&mut zone[..len], p);
    Ok((p.bay.end - p.need + BlockType::FIXED_HEADER) as u32)
}

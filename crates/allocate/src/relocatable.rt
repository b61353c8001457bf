// Allocate relocatable: a block with the chain's head as its handle, in the lowest bay whose sum reaches its size. Where the chain is empty,
// eight masters are added first.
ghost use Rattle.std.specs.Prelude.{◌≡◌, [], ◌∷◌, ◌-◌, ◌≤◌, IfOk, IfErr};
ghost use Rattle.block_type.specs.Limits.{zone_header, chain_at};
ghost use Rattle.bigendian.specs.BigEndian.{to_be, overwrite};
ghost use Rattle.structure.specs.Structure.{encode, decode_zone};
ghost use Rattle.bay.specs.Bay.{held, gap};
ghost use Rattle.slide.specs.ZoneBay.{settled};
ghost use Rattle.room.specs.place.Fit.{blank, Fit};
ghost use Rattle.calls.specs.Calls.{allocate_relocatable};
ghost use Rattle.calls.specs.Refusals.{answer_of};
ghost use Rattle.zone.specs.Call.{result_of, call};
ghost use Rattle.call_laws.specs.Refused.{Refuses};
ghost use Rattle.masters.specs.Grown.{grown_in};
ghost use Rattle.allocate.specs.growth.Grows.{GrowsIn};
ghost use Rattle.allocate.specs.relocatable.Ready.{allocated, with_master_in, RoomAt, Going, Way, need_in, handle_in, Ready};

use super::growth;
use super::growth::Growth;
use access::Zone;
use block_type::BlockType;
use calls::Refusal;
use room::place;
use room::place::Site;

// Where in a bay the new block goes; `next` is behind its handle in the chain.
#[derive(Clone, Copy)]
struct Spot {
    pub need: usize,
    pub handle: usize,
    pub next: u32,
    pub site: Site,
}

// What the call is to write.
#[derive(Clone, Copy)]
enum Plan {
    InBay(Spot),
    // Masters are added first; the block's handle is the first of them, which lies where the first block was.
    AfterGrowth(Growth),
}

impl Plan {
    // The handle that the new block gets.
    fn handle(self) -> usize
        ensures { result ≡ handle_in self }
    {
        match self {
            Plan::InBay(spot) => spot.handle,
            Plan::AfterGrowth(growth) => growth.first,
        }
    }
}

// The spot's handle leaves the chain for a new block, which is cut out of the hole. (create::carve writes a page and steps the
// clock: all that they share is room's, cut_block and cut_page.)
fn carve(z: &mut [u8], p: Spot)
    requires { Fit z.old p.site.hole.at p.site.hole.size p.need p.handle × (zone_header ≤ p.handle) }
    ensures { z.new ≡ settled (overwrite z.old chain_at (to_be 2 p.next)) p.site.hole.at (held (blank p.need p.handle) ∷ gap (p.site.hole.size - p.need) []) }
{
    bigendian::put2(z, block_type::CHAIN_AT, p.next);
    place::cut_block(z, p.site.hole, p.need, p.handle);
    bigendian::put4(
        z,
        p.handle,
        (p.site.hole.at + BlockType::RELOCATABLE_HEADER) as u32,
    );
}

// The new block in its bay, which is compacted first where the site says so.
fn allocate_in(z: &mut [u8], p: Spot)
    requires { Going z.old p }
    ensures { z.new ≡ encode (allocated p.need (decode_zone z.old)) }
{
    place::prepare(z, p.site);
    carve(z, p);
}

// The spot in a well-formed zone, in the room that has been found.
fn spot_in(z: &[u8], need: usize, handle: usize, site: Site) -> Spot
    requires { RoomAt z.now need handle site }
    ensures { (result.need ≡ need) × (result.handle ≡ handle) × Going z.now result }
{
    Spot {
        need,
        handle,
        next: bigendian::get4(z, handle),
        site,
    }
}

// The plan in a well-formed zone.
fn plan_in(z: Zone<'_>, c: u32) -> Result<Plan, Refusal>
    ensures ok { IfOk result (Ready z.entry.bytes.now c) }
    ensures err { IfErr result (Refuses (allocate_relocatable c) z.entry.bytes.now) }
{
    if BlockType::RELOCATABLE_LIMIT < c {
        return Err(Refusal::TooLarge);
    }
    let need = BlockType::Relocatable.need(c);
    let handle = z.chain_head();
    if handle == 0 {
        let growth = growth::plan_growth(z, c, need)?;
        return Ok(Plan::AfterGrowth(growth));
    }
    match place::find_room(z.bytes, z.first_block(), need) {
        Some(site) => Ok(Plan::InBay(spot_in(z.bytes, need, handle, site))),
        None => Err(Refusal::NoSpace),
    }
}

// Adds masters, then the new block, with the first of them.
fn allocate_grown(z: &mut [u8], growth: Growth)
    requires { GrowsIn z.old growth.need growth.first growth.end }
    ensures { z.new ≡ encode (allocated growth.need (grown_in (decode_zone z.old))) }
{
    masters::grow(z, growth.first, growth.end);
    let site = place::find_room(z, growth.first + block_type::ADDED_BYTES, growth.need).unwrap();
    let p = spot_in(z, growth.need, growth.first, site);
    allocate_in(z, p);
}

// What the plan says.
fn carry_out(z: &mut [u8], p: Plan)
    requires { Way z.old p }
    ensures { z.new ≡ encode (allocated (need_in p) (with_master_in (decode_zone z.old))) }
{
    match p {
        Plan::InBay(spot) => allocate_in(z, spot),
        Plan::AfterGrowth(growth) => allocate_grown(z, growth),
    }
}

// Allocates a relocatable block for c data bytes. Answers its handle.
pub fn allocate_relocatable(zone: &mut [u8], c: u32) -> Result<u32, Refusal>
    ensures { result_of (answer_of result) zone.new ≡ call (allocate_relocatable c) zone.old }
{
    let z = Zone::open(zone)?;
    let p = plan_in(z, c)?;
    let len = z.bytes.len();
    carry_out(&mut zone[..len], p);
    Ok(p.handle() as u32)
}

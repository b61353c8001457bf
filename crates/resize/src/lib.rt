// Resize: a block gets another data size, where it stands, in its own bay laid out anew, or in another bay.
#![tactic(auto)]

pub mod relocate;
pub mod reshape;

ghost use Rattle.std.specs.Prelude.{◌≡◌, IfOk, IfErr};
ghost use Rattle.structure.specs.Structure.{encode, decode_zone};
ghost use Rattle.calls.specs.Calls.{resize};
ghost use Rattle.calls.specs.Refusals.{done_of};
ghost use Rattle.zone.specs.Call.{result_of, call};
ghost use Rattle.call_laws.specs.Refused.{Refuses};
ghost use Rattle.resize.specs.Ready.{resized_to, Going, Lacks, Lacking, Chosen, Ready};

use access::{Zone, locate};
use bays::Bay;
use block_type::BlockType;
use calls::Refusal;
use room::place::{self, Site};

// The block of a live handle, with the number of data bytes that it has and of those that it gets.
#[derive(Clone, Copy)]
pub struct Resizing {
    pub handle: usize,
    pub old_len: usize,
    pub new_len: usize,
}

// How the block gets its new size.
#[derive(Clone, Copy)]
pub enum Way {
    // Its data stay at `at`, where `free` free bytes are behind them.
    InPlace { at: usize, free: usize },
    // Its own bay is laid out anew.
    OwnBay(Bay),
    // It goes to the free block of another bay.
    OtherBay(Site),
}

#[derive(Clone, Copy)]
pub struct Plan {
    pub block: Resizing,
    pub way: Way,
}

// The way where there is no room right behind the block, whose data lie at `at`.
fn way_to_bay(z: Zone<'_>, at: usize, block: Resizing) -> Result<Way, Refusal>
    requires { Lacking z.bytes.now at block }
    ensures ok { IfOk result (Chosen z.entry.bytes.now block) }
    ensures err { IfErr result (Lacks z.entry.bytes.now block) }
{
    let first = z.first_block();
    let own = bays::find_own(z.bytes, first, at - BlockType::RELOCATABLE_HEADER);
    if block.new_len - block.old_len <= own.sum {
        return Ok(Way::OwnBay(own));
    }
    let need = BlockType::RELOCATABLE_HEADER + block.new_len;
    match place::find_room(z.bytes, first, need) {
        Some(site) => Ok(Way::OtherBay(site)),
        None => Err(Refusal::NoSpace),
    }
}

// The plan for c data bytes.
fn plan_in(z: Zone<'_>, handle: u32, c: u32) -> Result<Plan, Refusal>
    ensures ok { IfOk result (Ready z.entry.bytes.now handle c) }
    ensures err { IfErr result (Refuses (resize handle c) z.entry.bytes.now) }
{
    let Some(span) = locate::by_handle(z, handle) else {
        return Err(Refusal::HandleNotLive);
    };
    if BlockType::RELOCATABLE_LIMIT < c {
        return Err(Refusal::TooLarge);
    }
    let block = Resizing {
        handle: handle as usize,
        old_len: span.size,
        new_len: BlockType::Relocatable.need(c) - BlockType::RELOCATABLE_HEADER,
    };
    let free = reshape::room_after(z, block.handle, span.at, block.old_len);
    if block.new_len <= block.old_len + free {
        return Ok(Plan {
            block,
            way: Way::InPlace { at: span.at, free },
        });
    }
    let way = way_to_bay(z, span.at, block)?;
    Ok(Plan { block, way })
}

// The plan is carried out.
fn act(z: &mut [u8], p: Plan)
    requires { Going z.old p }
    ensures { z.new ≡ encode (resized_to p.block.handle p.block.new_len (decode_zone z.old)) }
{
    match p.way {
        Way::InPlace { at, free } => reshape::resize_here(z, p.block, at, free),
        Way::OwnBay(bay) => reshape::lay_out(z, p.block, bay),
        Way::OtherBay(site) => relocate::relocate(z, p.block, site),
    }
}

// Gives the block of a handle c data bytes.
pub fn resize(zone: &mut [u8], handle: u32, c: u32) -> Result<(), Refusal>
    ensures { result_of (done_of result) zone.new ≡ call (resize handle c) zone.old }
{
    let z = Zone::open(zone)?;
    let p = plan_in(z, handle, c)?;
    let len = z.bytes.len();
    act(&mut zone[..len], p);
    Ok(())
}

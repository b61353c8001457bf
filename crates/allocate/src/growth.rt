// Where no master is free: whether eight more can be had from the first bay, and whether a new block then finds a bay.
ghost use Rattle.std.specs.Prelude.{◌≡◌, ◌<◌, ◌≤◌, length, IfOk, IfErr};
ghost use Rattle.block_type.specs.Limits.{longest_zone, reloc_limit, reloc_need};
ghost use Rattle.format.specs.WellFormed.{chain_field};
ghost use Rattle.bays.specs.Read.{Begins, next_in};
ghost use Rattle.calls.specs.Calls.{allocate_relocatable};
ghost use Rattle.call_laws.specs.Refused.{Refuses};
ghost use Rattle.allocate.specs.growth.Grows.{room_from};
ghost use Rattle.allocate.specs.growth.Ready.{Ready};

use access::Zone;
use calls::Refusal;
use room::place;

// Masters are added from the first bay, which gives up bytes for them; then the new block needs `need` bytes.
#[derive(Clone, Copy)]
pub struct Growth {
    pub need: usize,
    pub first: usize,
    pub end: usize,
}

// Whether `left`, or the sum of a bay behind the first, reaches need; `next` is where the second begins.
fn has_room(z: &[u8], left: usize, next: Option<usize>, need: usize) -> bool
    requires { Begins z.now next × (length z.now ≤ longest_zone) × (0 < need) }
    ensures { result ≡ room_from z.now left (next_in z.now next) need }
{
    if need <= left {
        return true;
    }
    match next {
        Some(second) => place::find_room(z, second, need).is_some(),
        None => false,
    }
}

// The plan of the growth, for a new block of c data bytes, which needs `need`. Nothing is written yet: a refused call changes no byte.
pub fn plan_growth(z: Zone<'_>, c: u32, need: usize) -> Result<Growth, Refusal>
    requires { (c ≤ reloc_limit) × (need ≡ reloc_need c) × (chain_field z.bytes.now ≡ 0) }
    ensures ok { IfOk result (Ready z.entry.bytes.now c) }
    ensures err { IfErr result (Refuses (allocate_relocatable c) z.entry.bytes.now) }
{
    if block_type::MOST_MASTERS < z.masters() + block_type::ADDED_MASTERS {
        return Err(Refusal::NoFreeHandle);
    }
    let first = z.first_block();
    let read = bays::read_bay(z.bytes, first);
    if read.bay.sum < block_type::ADDED_BYTES {
        return Err(Refusal::NoFreeHandle);
    }
    if has_room(
        z.bytes,
        read.bay.sum - block_type::ADDED_BYTES,
        read.next,
        need,
    ) {
        return Ok(Growth {
            need,
            first,
            end: read.bay.end,
        });
    }
    Err(Refusal::NoSpace)
}

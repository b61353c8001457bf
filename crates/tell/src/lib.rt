// The calls that only tell: the sums of the bays, the length of the zone, and whether it is well-formed.
#![tactic(auto)]

pub mod roster;

ghost use Rattle.std.specs.Prelude.{◌≡◌};
ghost use Rattle.zone.specs.Call.{call};
ghost use Rattle.calls.specs.Calls.{sums, length_of, check};
ghost use Rattle.calls.specs.Refusals.{answer_of};
ghost use Rattle.tell.specs.Sums.{SumsIn};
ghost use Rattle.tell.specs.Told.{sums_of, checked_of};

use access::Zone;
use calls::Refusal;

/// Free bytes, in all and of the bay that has most of them.
#[derive(Clone, Copy, Debug, PartialEq, Eq)]
pub struct Sums {
    pub total: usize,
    pub largest: usize,
}

// The sums of the bays.
fn sums_in(z: Zone<'_>) -> Sums
    ensures { SumsIn z.entry.bytes.now result }
{
    let mut total = 0;
    let mut largest = 0;
    for bay in bays::bays_from(z.bytes, z.first_block()) {
        total += bay.sum;
        largest = largest.max(bay.sum);
    }
    Sums { total, largest }
}

// The total of free bytes and the largest bay's sum.
pub fn sum(zone: &[u8]) -> Result<Sums, Refusal>
    ensures { sums_of result ≡ (call sums zone.now).answer }
{
    let z = Zone::open(zone)?;
    Ok(sums_in(z))
}

// The length of the zone.
pub fn length(zone: &[u8]) -> Result<u32, Refusal>
    ensures { answer_of result ≡ (call length_of zone.now).answer }
{
    let z = Zone::open(zone)?;
    Ok(z.bytes.len() as u32)
}

// The number of live handles, where the buffer holds a well-formed zone.
pub fn check(zone: &[u8]) -> Option<usize>
    ensures { checked_of result ≡ (call check zone.now).answer }
{
    let k = zone_check::check_for(zone, 0)?;
    Some(k.count)
}

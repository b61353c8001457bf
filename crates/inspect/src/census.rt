// The census: how many free blocks there are in each of nineteen strata.
ghost use Rattle.std.specs.Prelude.{◌≡◌, OnErr};
ghost use Rattle.zone.specs.Census.{census};
ghost use Rattle.inspect.specs.strata.Limits.{limits_by};
ghost use Rattle.inspect.specs.census.Tally.{CountsIn};
ghost use Rattle.inspect.specs.census.Told.{counted_of, with_counts};

use super::strata::Limits;
use access::{Zone, row};
use calls::Refusal;

// The counts of a zone.
// A `while`: over the iterator of blocks a census takes 5 % more instructions, since size and type are then read apart.
fn count_in(z: Zone<'_>, limits: Limits<'_>) -> [u32; block_type::STRATA]
    ensures { CountsIn (limits_by limits.entry) z.entry.bytes.now result }
{
    let mut counts = [0u32; block_type::STRATA];
    let mut p = z.first_block();
    while p < z.bytes.len() {
        let n = row::step(z.bytes, p);
        if block_check::is_free(z.bytes, p) {
            let i = limits.stratum((n / 2) as u32);
            counts[i] += 1;
        }
        p += n;
    }
    counts
}

// A census whose counts go where the caller wants them; refused it leaves these as they were. The library for C calls this: counts in a `Result` would be copied once
// more, from stack to stack.
pub fn census_to(
    zone: &[u8],
    limits: &[u8],
    counts: &mut [u32; block_type::STRATA],
) -> Result<(), Refusal>
    ensures counted { counted_of (with_counts result counts.new) ≡ census zone.now limits.now }
    ensures kept { OnErr result (counts.new ≡ counts.old) }
{
    let z = Zone::open(zone)?;
    match Limits::lent(limits) {
        Some(limits) => {
            *counts = count_in(z, limits);
            Ok(())
        }
        None => Err(Refusal::BadLimits),
    }
}

/// How many free blocks each of the nineteen strata has. The limits are lent in 76 bytes: for each stratum the least size in words of 2 bytes, 4 bytes each,
/// high byte first. They rise strictly, the first is 1 or 2, and the last is at most `block_type::HIGHEST_LIMIT`. Where no byte is lent, the formula of
/// docs/ZONE.md holds. Refused with `NotWellFormed`, or else with `BadLimits`.
pub fn census(zone: &[u8], limits: &[u8]) -> Result<[u32; block_type::STRATA], Refusal>
    ensures { counted_of result ≡ census zone.now limits.now }
{
    let mut counts = [0; block_type::STRATA];
    census_to(zone, limits, &mut counts)?;
    Ok(counts)
}

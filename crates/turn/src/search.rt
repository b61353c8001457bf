// The search for the pages that go: nothing is written, and no walk but those over all blocks is made. In ascending rank pages go until some bay's
// sum reaches the need, so that those that go are the unlocked ones of rank below some limit; the least limit that is enough is found by halving.
// Each walk tells too which ranks of pages lie next to its limit, and the halving goes on from those: some ten walks for a thousand pages.
ghost use Rattle.std.specs.Prelude.{◌≡◌, ◌<◌, ◌≤◌, IfOk, IfErr};
ghost use Rattle.format.specs.WellFormed.{clock_field};
ghost use Rattle.structure.specs.Structure.{decode_zone};
ghost use Rattle.calls.specs.Bays.{concat_s, max_s};
ghost use Rattle.bay.specs.Bay.{items, bay_sum};
ghost use Rattle.access.specs.row.Row.{block_at, Stepped};
ghost use Rattle.bays.specs.Places.{bays_of};
ghost use Rattle.turn.specs.Rank.{rank_range, limit_range, rank_found, least_dirty};
ghost use Rattle.turn.specs.Walk.{Past};
ghost use Rattle.turn.specs.Limit.{Weighed, Least, Between, Nearer};
ghost use Rattle.calls.specs.Refusals.{code_of, beside_of};
ghost use Rattle.turn.specs.Turn.{InTurn};

use super::rank;
use access::Zone;
use access::rows::Placed;
use block_type::BlockType;
use calls::Refusal;

// What a walk with a limit has seen: the largest sum of the bays that it has passed, the sum of the bay it is in, the least limit with which the same
// pages go, and the least with which more go. LIMIT_RANGE where none has: it is above every limit, so that min needs no case.
#[derive(Clone, Copy)]
struct Sums {
    best: usize,
    sum: usize,
    under: u64,
    over: u64,
}

// One block more of the walk: the unlocked pages of rank below the limit count as free.
fn pass(z: &[u8], block: Placed, clock: u8, limit: u64, w: Sums) -> Sums
    requires { Stepped z.now block.at block.size × (w.sum ≤ block.at) × (limit ≤ rank_range) × (w.over ≤ limit_range) }
    ensures { Past clock limit (block_at z.now block.at) block.size w.best w.sum w.under w.over result.best result.sum result.under result.over }
{
    let kind = block_check::block_type_at(z, block.at);
    if kind == BlockType::Fixed {
        return Sums {
            best: w.best.max(w.sum),
            sum: 0,
            ..w
        };
    }
    if kind == BlockType::Free {
        return Sums {
            sum: w.sum + block.size,
            ..w
        };
    }
    match rank::rank_at(z, block, clock) {
        Some(page) if page.rank < limit => Sums {
            sum: w.sum + block.size,
            under: w.under.max(page.rank + 1),
            ..w
        },
        Some(page) => Sums {
            over: w.over.min(page.rank + 1),
            ..w
        },
        None => w,
    }
}

// What a walk with a limit tells: the largest sum of a bay, were the pages below the limit gone, the least limit with which the same pages go, and the
// least with which more go.
#[derive(Clone, Copy)]
struct Weight {
    sum: usize,
    under: u64,
    over: u64,
}

// One walk over all blocks.
fn weigh(zone: Zone<'_>, clock: u8, limit: u64) -> Weight
    requires { limit ≤ rank_range }
    ensures { Weighed clock limit (bays_of (decode_zone zone.entry.bytes.now)) result.sum result.under result.over }
{
    let mut w = Sums {
        best: 0,
        sum: 0,
        under: 0,
        over: rank::LIMIT_RANGE,
    };
    for block in zone.blocks() {
        w = pass(zone.bytes, block, clock, limit, w);
    }
    Weight {
        sum: w.best.max(w.sum),
        under: w.under,
        over: w.over,
    }
}

// The least rank of an unlocked dirty page.
fn first_dirty(zone: Zone<'_>, clock: u8) -> Option<u64>
    ensures { rank_found result ≡ least_dirty clock (concat_s items (bays_of (decode_zone zone.entry.bytes.now))) }
{
    let mut least = None;
    for block in zone.blocks() {
        if let Some(page) = rank::rank_at(zone.bytes, block, clock)
            && page.dirty
        {
            least = match least {
                Some(rank) if rank <= page.rank => least,
                _ => Some(page.rank),
            };
        }
    }
    least
}

// Two limits between which the least one that is enough lies.
#[derive(Clone, Copy)]
struct Limits {
    low: u64,
    high: u64,
}

// Two at most half as far from each other.
fn halve(zone: Zone<'_>, clock: u8, need: usize, between: Limits) -> Limits
    requires { (between.low < between.high) × Between clock need between.low between.high (bays_of (decode_zone zone.bytes.now)) }
    ensures { Nearer clock need between.low between.high result.low result.high (bays_of (decode_zone zone.entry.bytes.now)) }
{
    let w = weigh(zone, clock, (between.low + between.high) / 2);
    if need <= w.sum {
        Limits {
            high: w.under,
            ..between
        }
    } else {
        Limits {
            low: w.over,
            ..between
        }
    }
}

// The least limit that is enough, from two between which it lies; 41 walks at most. No list is searched, so this is no partition_point: each step is
// a walk over the zone, which tells the next two limits.
fn least_limit(zone: Zone<'_>, clock: u8, need: usize, from: Limits) -> u64
    requires { Between clock need from.low from.high (bays_of (decode_zone zone.bytes.now)) }
    ensures { Least clock need result (bays_of (decode_zone zone.entry.bytes.now)) }
{
    let mut between = from;
    while between.low < between.high {
        between = halve(zone, clock, need, between);
    }
    between.low
}

// The clock.
fn clock_of(zone: Zone<'_>) -> u8
    ensures { result ≡ clock_field zone.entry.bytes.now }
{
    zone.bytes[block_type::CLOCK_AT]
}

// Which pages go for need bytes, which no bay has free: every unlocked one of rank below the limit that is answered.
pub fn find_turn(zone: Zone<'_>, need: usize) -> Result<u64, Refusal>
    requires { max_s bay_sum (bays_of (decode_zone zone.bytes.now)) < need }
    ensures ok { IfOk result (InTurn zone.entry.bytes.now need 0 0) }
    ensures err { IfErr result (λ e. InTurn zone.entry.bytes.now need (code_of e) (beside_of e) 0) }
{
    let clock = clock_of(zone);
    let all = weigh(zone, clock, rank::RANK_RANGE);
    if all.sum < need {
        return Err(Refusal::NoSpace);
    }
    // with the limit 0 no page goes, which is not enough
    let from = Limits {
        low: 1,
        high: all.under,
    };
    let limit = least_limit(zone, clock, need, from);
    match first_dirty(zone, clock) {
        Some(rank) if rank < limit => Err(Refusal::DirtyPage(rank::name_of(rank))),
        _ => Ok(limit),
    }
}

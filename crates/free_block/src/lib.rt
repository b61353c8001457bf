// A block that becomes free: its extent, in which it coalesces with its free neighbours.
#![tactic(auto)]

ghost use Rattle.std.specs.Prelude.{◌<◌, ◌≤◌, length, drop, ◌≡◌, cond, ◌+◌};
ghost use Rattle.format.specs.WellFormed.{is_free};
ghost use Rattle.access.specs.row.Row.{Row, blocks_of};
ghost use Rattle.free_block.specs.Around.{first_part};
ghost use Rattle.free_block.specs.Extends.{BlockIn, Extends};
ghost use Rattle.free_block.specs.Walk.{Stopped, Extended};

use access::row;
use slide::blank::Extent;

// Where a walk stops, and where the block before that starts, there too where no block is before.
#[derive(Clone, Copy)]
pub struct Stop {
    pub prev: usize,
    pub at: usize,
}

// The walk to the first block that starts at t or above. (An iterator over the blocks does not tell where the one before starts.)
pub fn walk_to(z: &[u8], first: usize, t: usize) -> Stop
    requires { Row (drop first z.now) × (first ≤ length z.now) × (t ≤ length z.now) }
    ensures { Stopped z.now first t result.prev result.at }
{
    let mut prev = first;
    let mut at = first;
    while at < t {
        let n = row::step(z, at);
        prev = at;
        at += n;
    }
    Stop { prev, at }
}

// Where the free block that ends at `at` starts, where the block before that starts at prev; `at` where that is not free.
fn start_before(z: &[u8], prev: usize, at: usize) -> usize
    requires { prev < length z.now }
    ensures { result ≡ cond (is_free (drop prev z.now)) prev at }
{
    if block_check::is_free(z, prev) {
        prev
    } else {
        at
    }
}

// Where the free block that starts at `end` ends; `end` where there is none.
pub fn end_behind(z: &[u8], end: usize) -> usize
    requires { Row (drop end z.now) × (end ≤ length z.now) }
    ensures { result ≡ end + first_part (blocks_of (drop end z.now)) }
{
    if z.len() <= end {
        end
    } else if block_check::is_free(z, end) {
        end + row::step(z, end)
    } else {
        end
    }
}

// The extent of a block from `at` up to `end`, where the block before it starts at prev.
pub fn find_extent(z: &[u8], prev: usize, at: usize, end: usize) -> Extent
    requires { (prev < length z.now) × Row (drop end z.now) × (end ≤ length z.now) }
    ensures { Extended z.now prev at end result.from result.to × (result.at ≡ at) × (result.end ≡ end) }
{
    Extent {
        from: start_before(z, prev, at),
        at,
        end,
        to: end_behind(z, end),
    }
}

// The extent of the block of a zone from `at` up to `end`.
pub fn extent_of(z: &[u8], at: usize, end: usize) -> Extent
    requires { BlockIn z.now at end }
    ensures { Extends z.now at end result }
{
    let first = bigendian::get4(z, block_type::FIRST_AT) as usize;
    let stop = walk_to(z, first, at);
    find_extent(z, stop.prev, at, end)
}

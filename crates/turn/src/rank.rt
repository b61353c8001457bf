// A page's rank: of two pages the one of lesser rank goes first.
ghost use Rattle.std.specs.Prelude.{◌≡◌, ◌+◌, ◌-◌, ◌*◌, ◌%◌, ◌<◌, nat_le, IfSome};
ghost use Rattle.block_type.specs.Limits.{stamp_range, argument_range, lock_bit, dirty_bit};
ghost use Rattle.access.specs.row.Row.{block_at, Stepped};
ghost use Rattle.turn.specs.Rank.{rank_range, goes_b, ranked_b};

use access::rows::Placed;
use block_type::BlockType;

// Every rank is below.
pub const RANK_RANGE: u64 = BlockType::STAMP_RANGE as u64 * block_type::ARGUMENT_RANGE;

// Every limit is below: the pages that go are the unlocked ones of rank below a limit.
pub const LIMIT_RANGE: u64 = RANK_RANGE + 1;

// A page that may go, by its rank, and whether it is dirty.
#[derive(Clone, Copy)]
pub struct Ranked {
    pub rank: u64,
    pub dirty: bool,
}

// The rank of a page of that stamp and name: greatest age first, then the smaller name. One number, since the search for the limit halves it.
fn rank_of(clock: u8, stamp: u8, name: u32) -> u64
    ensures { result ≡ (stamp_range - 1 - (clock + stamp_range - stamp) % stamp_range) * argument_range + name }
{
    let age = clock.wrapping_sub(stamp);
    u64::from(BlockType::STAMP_RANGE - 1 - u32::from(age)) * block_type::ARGUMENT_RANGE
        + u64::from(name)
}

// The name that a rank tells.
pub fn name_of(r: u64) -> u32
    ensures { result ≡ r % argument_range }
{
    (r % block_type::ARGUMENT_RANGE) as u32
}

// Whether a page of that status word is locked.
fn is_locked(status: u32) -> bool
    ensures { result ≡ nat_le lock_bit (status % dirty_bit) }
{
    BlockType::LOCK_BIT <= status % BlockType::DIRTY_BIT
}

// The block as a page that may go; none where it is no page, or a locked one.
pub fn rank_at(z: &[u8], block: Placed, clock: u8) -> Option<Ranked>
    requires { Stepped z.now block.at block.size }
    ensures is { result ≡ ranked_b clock (block_at z.now block.at) }
    ensures below { IfSome result (λ page. page.rank < rank_range) }
{
    if !block_check::is_page(z, block.at) {
        return None;
    }
    let status = bigendian::get2(z, block.at + BlockType::STATUS_AT);
    if is_locked(status) {
        return None;
    }
    let name = bigendian::get4(z, block.at + BlockType::TAG_AT);
    Some(Ranked {
        rank: rank_of(clock, (status % BlockType::STAMP_RANGE) as u8, name),
        dirty: BlockType::DIRTY_BIT <= status,
    })
}

// Whether the block is an unlocked page of rank below the limit.
pub fn goes(z: &[u8], block: Placed, clock: u8, limit: u64) -> bool
    requires { Stepped z.now block.at block.size }
    ensures { result ≡ goes_b clock limit (block_at z.now block.at) }
{
    match rank_at(z, block, clock) {
        Some(page) => page.rank < limit,
        None => false,
    }
}

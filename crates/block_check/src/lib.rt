// One block of a zone: its type, its size, and whether it obeys the rules.
#![tactic(auto)]

ghost use Rattle.std.specs.Prelude.{◌≡◌, Bool, ◌+◌, ◌*◌, ◌/◌, ◌%◌, ◌<◌, ◌≤◌, length, take, drop, MatchOption, IfSome};
ghost use Rattle.block_type.specs.Limits.{longest_zone, reloc_code, master_size, type_unit, handle_range, smallest_block, argument_range};
ghost use Rattle.block_type.specs.Types.{type_code};
ghost use Rattle.bigendian.specs.BigEndian.{from_be, slice};
ghost use Rattle.format.specs.WellFormed.{type_of, size_of, handle_of, is_free, is_page, is_master};
ghost use Rattle.format.specs.OneWalk.{free_rule, reloc_rule, page_rule, rule_of};
ghost use Rattle.format.specs.Steps.{Turn};
ghost use Rattle.block_check.specs.Word.{IsWord, IsHeader, held, IsBadBlock, GoodBlock};

use block_type::BlockType;

// A block's word is the number in its first four bytes: of a relocatable block the type, its size in 2-byte words, the handle.
const TYPE_UNIT: u32 = BlockType::TYPE_UNIT as u32;

pub fn is_master(first: usize, h: usize) -> bool
    requires { h < argument_range }
    ensures { result ≡ is_master first h }
{
    block_type::ZONE_HEADER <= h && h + block_type::MASTER_SIZE <= first && h % 4 == 0
}

// The type of the block at `at`.
pub fn block_type_at(z: &[u8], at: usize) -> BlockType
    requires { at < length z.now }
    ensures { type_code result ≡ type_of (drop at z.now) }
{
    BlockType::of_byte(z[at])
}

// The size of the block at `at`, in bytes.
pub fn size_at(z: &[u8], at: usize) -> usize
    requires { at + smallest_block ≤ length z.now }
    ensures { result ≡ size_of (drop at z.now) }
{
    if block_type_at(z, at) == BlockType::Free {
        bigendian::get4(z, at) as usize * 2
    } else {
        bigendian::get2(z, at) as usize % BlockType::TYPE_UNIT * 2
    }
}

// Two functions, since the format has a definition for each: with a type as a parameter each caller would say as much.
pub fn is_page(z: &[u8], at: usize) -> bool
    requires { at < length z.now }
    ensures { result ≡ is_page (drop at z.now) }
{
    block_type_at(z, at) == BlockType::Page
}

pub fn is_free(z: &[u8], at: usize) -> bool
    requires { at < length z.now }
    ensures { result ≡ is_free (drop at z.now) }
{
    block_type_at(z, at) == BlockType::Free
}

fn free_ok(z: &[u8], at: usize, n: usize, prev: bool) -> bool
    requires { (smallest_block ≤ n) × (at + n ≤ length z.now) × (length z.now ≤ longest_zone) }
    ensures { result ≡ free_rule prev (take n (drop at z.now)) }
{
    !prev && memory::all_zero(z, at + BlockType::FREE_HEADER, at + n)
}

fn reloc_ok(z: &[u8], first: usize, at: usize) -> bool
    requires { (at + smallest_block ≤ length z.now) × (first ≤ length z.now) × (length z.now ≤ longest_zone) }
    ensures { result ≡ reloc_rule z.now first at (handle_of (drop at z.now)) }
{
    let h = bigendian::get2(z, at + BlockType::TAG_AT) as usize;
    is_master(first, h) && bigendian::get4(z, h) as usize == at + BlockType::RELOCATABLE_HEADER
}

// Whether a page of n bytes at `at` has room for its header, and in its status nothing but the two flags and the stamp.
fn page_ok(z: &[u8], at: usize, n: usize) -> bool
    requires { (n ≡ size_of (drop at z.now)) × (at + n ≤ length z.now) × (length z.now ≤ longest_zone) }
    ensures { result ≡ page_rule (drop at z.now) }
{
    BlockType::PAGE_HEADER <= n
        && bigendian::get2(z, at + BlockType::STATUS_AT) % BlockType::LOCK_BIT
            < BlockType::STAMP_RANGE
}

// Whether a block of n bytes at `at`, as its header says, obeys the rule of its type.
fn rule_ok(z: &[u8], first: usize, prev: bool, at: usize, n: usize) -> bool
    requires { (n ≡ size_of (drop at z.now)) × (smallest_block ≤ n) × (at + n ≤ length z.now) × (first ≤ length z.now) × (length z.now ≤ longest_zone) }
    ensures { result ≡ rule_of (type_of (drop at z.now)) z.now first prev at (take n (drop at z.now)) (drop at z.now) }
{
    match block_type_at(z, at) {
        BlockType::Free => free_ok(z, at, n, prev),
        BlockType::Fixed => bigendian::get2(z, at + BlockType::TAG_AT) == 0,
        BlockType::Relocatable => reloc_ok(z, first, at),
        BlockType::Page => page_ok(z, at, n),
    }
}

// The size of the block at `at` where it obeys the rules.
fn good_size(z: &[u8], first: usize, prev: bool, at: usize) -> Option<usize>
    requires { (at + smallest_block ≤ length z.now) × (first ≤ length z.now) × (length z.now ≤ longest_zone) }
    ensures { MatchOption result (IsBadBlock z.now first prev at) (λ n. Turn z.now first prev at n) }
{
    let n = size_at(z, at);
    if BlockType::SMALLEST <= n
        && n % 4 == 0
        && n <= z.len() - at
        && rule_ok(z, first, prev, at, n)
    {
        return Some(n);
    }
    None
}

// The number in the four bytes at `at`; 0 where the zone ends there: no Option, since 0 is no relocatable block's word, and good_block asks nothing else of it.
pub fn word_at(z: &[u8], at: usize) -> u32
    requires { (at % 4 ≡ 0) × (length z.now % 4 ≡ 0) }
    ensures { (result ≡ from_be (slice z.now at 4)) × (0 < result → IsWord z.now at result) }
{
    if at < z.len() {
        bigendian::get4(z, at)
    } else {
        0
    }
}

// The word of the block at `at`, of any type.
pub fn header_at(z: &[u8], at: usize) -> u32
    requires { at + smallest_block ≤ length z.now }
    ensures { IsHeader z.now at result }
{
    bigendian::load4(z, at)
}

// The size of a block whose word is w, where it is free, and where it is not.
pub fn free_size(w: u32) -> usize
    ensures { result ≡ w * 2 }
{
    w as usize * 2
}

pub fn used_size(w: u32) -> usize
    ensures { result ≡ w / handle_range % type_unit * 2 }
{
    (w / BlockType::HANDLE_RANGE % TYPE_UNIT) as usize * 2
}

// The size and the handle of the relocatable block at `at`, from its word w.
fn word_size(z: &[u8], at: usize, w: u32) -> usize
    requires { (IsWord z.now at w) × (type_of (drop at z.now) ≡ reloc_code) }
    ensures { (result ≡ size_of (drop at z.now)) × (result ≡ w / handle_range % type_unit * 2) }
{
    used_size(w)
}

fn word_handle(z: &[u8], at: usize, w: u32) -> usize
    requires { IsWord z.now at w }
    ensures { (result ≡ handle_of (drop at z.now)) × (result ≡ w % handle_range) }
{
    (w % BlockType::HANDLE_RANGE) as usize
}

// Whether the master at h holds the data offset of a relocatable block at `at`, and the block's n bytes are there.
fn is_held(z: &[u8], at: usize, n: usize, h: usize) -> bool
    requires { (h + master_size ≤ length z.now) × (at ≤ length z.now) × (length z.now ≤ longest_zone) }
    ensures { result ≡ held z.now at n h }
{
    bigendian::get4(z, h) as usize == at + BlockType::RELOCATABLE_HEADER && n <= z.len() - at
}

// The size of the relocatable block at `at`, whose word is w, where it obeys the rules. None says nothing: so a test that fails has nothing to set.
// That size and handle are multiples of 4 is asked of the word: together that is one mask.
fn reloc_size(z: &[u8], first: usize, at: usize, w: u32) -> Option<usize>
    requires { (at + smallest_block ≤ length z.now) × (first ≤ length z.now) × (first % 4 ≡ 0) × (length z.now ≤ longest_zone) × (IsWord z.now at w) × (type_of (drop at z.now) ≡ reloc_code) × (w % 4 ≡ 0) × (w / handle_range % 2 ≡ 0) }
    ensures { IfSome result (λ n. (prev : Bool) → Turn z.now first prev at n) }
{
    let n = word_size(z, at, w);
    let h = word_handle(z, at, w);
    if block_type::ZONE_HEADER <= h && h < first && is_held(z, at, n, h) && 0 < n {
        return Some(n);
    }
    None
}

// A block that obeys the rules.
#[derive(Clone, Copy)]
pub struct Block {
    pub kind: BlockType,
    pub size: usize,
}

// The block at `at`, where it obeys the rules. w is its word, or 0. A good relocatable block is known by its word; any other is judged by its bytes.
pub fn good_block(z: &[u8], first: usize, prev: bool, at: usize, w: u32) -> Option<Block>
    requires { (at + smallest_block ≤ length z.now) × (first ≤ length z.now) × (first % 4 ≡ 0) × (length z.now ≤ longest_zone) × (0 < w → IsWord z.now at w) }
    ensures { MatchOption result (IsBadBlock z.now first prev at) (λ b. GoodBlock z.now first prev at b.kind b.size) }
{
    if BlockType::of_word(w) == BlockType::Relocatable
        && w % 4 == 0
        && w / BlockType::HANDLE_RANGE % 2 == 0
    {
        if let Some(size) = reloc_size(z, first, at, w) {
            return Some(Block {
                kind: BlockType::Relocatable,
                size,
            });
        }
    }
    let size = good_size(z, first, prev, at)?;
    Some(Block {
        kind: block_type_at(z, at),
        size,
    })
}

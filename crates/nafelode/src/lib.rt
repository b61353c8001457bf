// The zone's calls. Each takes any buffer and any numbers, and promises its answer and every byte that it leaves: `Promise` is what
// the list theorem asks of a call. Census and walker, which the ledger does not know, promise equations to their definitions.
// A refused call changes no byte of any buffer. It answers the one `Refusal` that comes first in the order of docs/ZONE.md, "Refusals and their order".
// All lengths, sizes and offsets are in bytes; offsets count from the zone's first byte, but a stretch's, which counts from its block's first data byte. Arguments are
// of 32 bits, and handles, pointers, names and data offsets are numbers of that size.
// Passed on: `Refusal`; `Target`, which names a block, and `Stretch`, which is a part of its data; `Sums` of free bytes; `Walker`, which goes from block to block,
// `Moved` and `Described`, with the block's `BlockType`, which are what its step answers; `census`, which counts free blocks by size; and the numbers that these texts name.
#![tactic(auto)]

ghost use Rattle.std.specs.Prelude.{◌≡◌, ◌+◌, length};
ghost use Rattle.calls.specs.Calls.{allocate_relocatable, allocate_fixed, free_handle, free_pointer, resize, size, read, write, view, compact, sums, check, length_of, enlarge, shrink, roster, on_page, create_page, use_page, mark_page, drop_page, set_dirty, clear_dirty, set_lock, clear_lock, told, shows};
ghost use Rattle.calls.specs.Refusals.{answer_by, beside_of, answer_of, done_of, shown_of};
ghost use Rattle.tell.specs.Told.{sums_of, checked_of};
ghost use Rattle.zone.specs.Promise.{Promise, InitPromise};
ghost use Rattle.access.specs.locate.Named.{target_of};
ghost use Rattle.zone.specs.View.{view_start, view_length};

pub use access::locate::Target;
pub use block_type::{
    BlockType, HIGHEST_LIMIT, LIMITS_LENGTH, LONGEST_ZONE, MASTER_SIZE, MOST_MASTERS, RECORD_SIZE,
    STRATA, ZONE_HEADER,
};
pub use calls::Refusal;
pub use inspect::census::census;
pub use inspect::walker::{Described, Moved, Walker};
use pages::status::Mark;
pub use stretch::Stretch;
pub use tell::Sums;

/// Makes a zone of `length` bytes with so many masters at the start of the buffer (docs/ZONE.md, "Bytes of a zone"); bytes beyond `length` stay.
///
/// Refused with `BadInitialize` where the length is no multiple of 4, below `ZONE_HEADER + MASTER_SIZE * masters`, above the buffer's or `LONGEST_ZONE`, or the masters are above
/// `MOST_MASTERS`.
pub fn initialize(zone: &mut [u8], length: u32, masters: u32) -> Result<(), Refusal>
    ensures { InitPromise length masters zone.old (done_of result) zone.new }
{
    initialize::initialize(zone, length, masters)
}

/// Allocates a relocatable block for `c` data bytes, which are zero, and answers its handle. Where no master is free, eight are added first (docs/ZONE.md, "Where a block goes").
///
/// Refused with `NotWellFormed`, `TooLarge` where c is above `BlockType::RELOCATABLE_LIMIT`, `NoFreeHandle` or `NoSpace`.
pub fn allocate_relocatable(zone: &mut [u8], c: u32) -> Result<u32, Refusal>
    ensures { Promise (allocate_relocatable c) zone.old (answer_of result) zone.new }
{
    allocate::relocatable::allocate_relocatable(zone, c)
}

/// Allocates a fixed block for `c` data bytes, which are zero, and answers its pointer: the offset of its first data byte, in bytes from the zone's first. It never moves.
///
/// Refused with `NotWellFormed`, `TooLarge` where c is above `BlockType::FIXED_LIMIT`, or `NoSpace`.
pub fn allocate_fixed(zone: &mut [u8], c: u32) -> Result<u32, Refusal>
    ensures { Promise (allocate_fixed c) zone.old (answer_of result) zone.new }
{
    allocate::fixed::allocate_fixed(zone, c)
}

/// Frees the relocatable block of a handle; its bytes coalesce with free neighbours.
///
/// Refused with `NotWellFormed` or `HandleNotLive`.
pub fn free_handle(zone: &mut [u8], handle: u32) -> Result<(), Refusal>
    ensures { Promise (free_handle handle) zone.old (done_of result) zone.new }
{
    free::handle::free_handle(zone, handle)
}

/// Frees the fixed block of a pointer; the bays on its two sides become one.
///
/// Refused with `NotWellFormed` or `PointerNotFixed`.
pub fn free_pointer(zone: &mut [u8], pointer: u32) -> Result<(), Refusal>
    ensures { Promise (free_pointer pointer) zone.old (done_of result) zone.new }
{
    free::pointer::free_pointer(zone, pointer)
}

/// Gives the block of a handle room for `c` data bytes: the handle and the common first bytes stay, added bytes are zero.
///
/// Refused with `NotWellFormed`, `HandleNotLive`, `TooLarge` where c is above `BlockType::RELOCATABLE_LIMIT`, or `NoSpace`.
pub fn resize(zone: &mut [u8], handle: u32, c: u32) -> Result<(), Refusal>
    ensures { Promise (resize handle c) zone.old (done_of result) zone.new }
{
    resize::resize(zone, handle, c)
}

/// Creates a page of this name for `c` data bytes, which are zero, and answers its data offset in bytes, valid until the next call that changes the zone. Where no bay's sum is
/// enough, pages that are not locked are evicted, in the order of docs/ZONE.md, "create_page".
///
/// Refused with `NotWellFormed`, `NamePresent`, `TooLarge` where c is above `BlockType::PAGE_LIMIT`, `NoSpace`, or `DirtyPage` with the name of the dirty page that would have to go.
pub fn create_page(zone: &mut [u8], name: u32, c: u32) -> Result<u32, Refusal>
    ensures { Promise (on_page name (create_page c)) zone.old (answer_of result) zone.new }
{
    create::create_page(zone, name, c)
}

/// Steps the clock, modulo 256, and stamps the page of this name with it. Answers its data offset in bytes, valid until the next call that changes the zone.
///
/// Refused with `NotWellFormed` or `NameAbsent`.
pub fn use_page(zone: &mut [u8], name: u32) -> Result<u32, Refusal>
    ensures { Promise (on_page name use_page) zone.old (answer_of result) zone.new }
{
    pages::status::use_page(zone, name)
}

/// Makes the page of this name dirty: a create that would have to evict it is refused.
///
/// Refused with `NotWellFormed` or `NameAbsent`.
pub fn set_dirty(zone: &mut [u8], name: u32) -> Result<(), Refusal>
    ensures { Promise (on_page name (mark_page set_dirty)) zone.old (done_of result) zone.new }
{
    pages::status::mark_page(zone, name, Mark::SetDirty)
}

/// Makes the page of this name dirty no longer.
///
/// Refused with `NotWellFormed` or `NameAbsent`.
pub fn clear_dirty(zone: &mut [u8], name: u32) -> Result<(), Refusal>
    ensures { Promise (on_page name (mark_page clear_dirty)) zone.old (done_of result) zone.new }
{
    pages::status::mark_page(zone, name, Mark::ClearDirty)
}

/// Locks the page of this name, which pins it: no create evicts it.
///
/// Refused with `NotWellFormed` or `NameAbsent`.
pub fn set_lock(zone: &mut [u8], name: u32) -> Result<(), Refusal>
    ensures { Promise (on_page name (mark_page set_lock)) zone.old (done_of result) zone.new }
{
    pages::status::mark_page(zone, name, Mark::SetLock)
}

/// Unlocks the page of this name: a create may evict it again.
///
/// Refused with `NotWellFormed` or `NameAbsent`.
pub fn clear_lock(zone: &mut [u8], name: u32) -> Result<(), Refusal>
    ensures { Promise (on_page name (mark_page clear_lock)) zone.old (done_of result) zone.new }
{
    pages::status::mark_page(zone, name, Mark::ClearLock)
}

/// Frees the page of this name, dirty and locked or not.
///
/// Refused with `NotWellFormed` or `NameAbsent`.
pub fn drop_page(zone: &mut [u8], name: u32) -> Result<(), Refusal>
    ensures { Promise (on_page name drop_page) zone.old (done_of result) zone.new }
{
    pages::drop::drop_page(zone, name)
}

/// Compacts every bay: relocatable blocks and pages slide to its start. Answers the largest bay's sum of free bytes.
///
/// Refused with `NotWellFormed`.
pub fn compact(zone: &mut [u8]) -> Result<u32, Refusal>
    ensures { Promise compact zone.old (answer_of result) zone.new }
{
    compact::compact(zone)
}

/// Lets the zone grow by `k` bytes of the buffer, which become free.
///
/// Refused with `NotWellFormed`, or `BadEnlarge` where k is no multiple of 4, or the new length is above the buffer's or `LONGEST_ZONE`.
pub fn enlarge(zone: &mut [u8], k: u32) -> Result<(), Refusal>
    ensures { Promise (enlarge k) zone.old (done_of result) zone.new }
{
    zone_end::enlarge::enlarge(zone, k)
}

/// Strips at most `k` bytes, a multiple of 4, off the zone's end, and zeroes them. Answers how many.
///
/// Refused with `NotWellFormed`.
pub fn shrink(zone: &mut [u8], k: u32) -> Result<u32, Refusal>
    ensures { Promise (shrink k) zone.old (answer_of result) zone.new }
{
    zone_end::shrink::shrink(zone, k)
}

/// The data size of a block in bytes, which may exceed what was asked for.
///
/// Refused with `NotWellFormed`, or as no block is so named: `HandleNotLive`, `PointerNotFixed`, `NameAbsent`.
pub fn size(zone: &[u8], block: Target) -> Result<u32, Refusal>
    ensures { Promise (size (target_of block)) zone.now (answer_of result) zone.now }
{
    stretch::size(zone, block)
}

/// Copies a stretch of a block's data to the start of `out`; later bytes of `out` stay.
///
/// Refused as `size` is, with `PastBlockEnd` where the stretch goes past the data, or `ShortBuffer` where `out` is shorter than it.
pub fn read(zone: &[u8], s: Stretch, out: &mut [u8]) -> Result<(), Refusal>
    ensures { Promise (read (target_of s.block) s.offset s.count out.old) zone.now (shown_of result out.new) zone.now }
{
    stretch::read(zone, s, out)
}

/// Copies bytes from the start of `src` to a stretch of a block's data. It makes no page dirty.
///
/// Refused as `size` is, with `PastBlockEnd` where the stretch goes past the data, or `ShortBuffer` where `src` is shorter than it.
pub fn write(zone: &mut [u8], s: Stretch, src: &[u8]) -> Result<(), Refusal>
    ensures { Promise (write (target_of s.block) s.offset s.count src.now) zone.old (shown_of result src.now) zone.new }
{
    stretch::write::write(zone, s, src)
}

/// A stretch of a block's data, as the part of the zone that it is. Refused as `read` is, it is the empty part at the zone's first byte, since a view carries no reason: ask `size` for
/// the reason. Where that answers a size, the stretch goes past it, or `count` is 0.
pub fn view<'a>(zone: &'a [u8], s: Stretch) -> &'a [u8]
    ensures promise { Promise (view (target_of s.block) s.offset s.count) zone.now (shows 0 result.now) zone.now }
    ensures ref_ptr_value { result.ref_ptr ≡ (zone.entry.ref_ptr.0, zone.entry.ref_ptr.1 + view_start (target_of s.block) s.offset s.count zone.now) }
    ensures result_len { length result.now ≡ view_length (target_of s.block) s.offset s.count zone.now }
{
    stretch::view(zone, s)
}

/// The free bytes of all bays, and of the bay that has most.
///
/// Refused with `NotWellFormed`.
pub fn sum(zone: &[u8]) -> Result<Sums, Refusal>
    ensures { Promise sums zone.now (sums_of result) zone.now }
{
    tell::sum(zone)
}

/// The number of live handles, where the buffer holds a well-formed zone (docs/ZONE.md, "Well-formed"); `None` where it holds none. So `check(zone).is_some()` asks whether there is a zone.
pub fn check(zone: &[u8]) -> Option<usize>
    ensures { Promise check zone.now (checked_of result) zone.now }
{
    tell::check(zone)
}

/// The length of the zone in bytes.
///
/// Refused with `NotWellFormed`.
pub fn length(zone: &[u8]) -> Result<u32, Refusal>
    ensures { Promise length_of zone.now (answer_of result) zone.now }
{
    tell::length(zone)
}

/// Writes `RECORD_SIZE` bytes for each live handle to the start of `out`, by rising handle: the handle and its data size in bytes, 4 bytes each, high byte first. Answers how many there are.
///
/// Refused with `NotWellFormed`, or `ShortBuffer` where `out` is too short for them.
pub fn roster(zone: &[u8], out: &mut [u8]) -> Result<u32, Refusal>
    ensures { Promise (roster out.old) zone.now (answer_by (λ v. v) beside_of out.new result) zone.now }
{
    tell::roster::roster(zone, out)
}

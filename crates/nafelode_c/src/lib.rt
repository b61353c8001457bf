// The library for C: every call of document 01, and of document 02 those on pages, under a C name, thin over crate nafelode (a view over crate stretch, since C gets its
// offset and not a slice; a census over crate inspect, since the counts lie where C has them). In C a slice is a pointer and a length. Numbers and pointers alone go in
// and out, so that one declaration is right for every target: a call answers the refusal number (but check: yes or no; view: an offset; walker_start: a walker), and its
// values go through pointers, which are always written.
// nafelode.h is made from this file: its declarations, and the comments of the exported functions.
#![tactic(auto)]

ghost use Rattle.std.specs.Prelude.{◌≡◌, ◌+◌, ◌≤◌, ℕ, List};
ghost use Rattle.std.proofs.Math.ListN as ListN;
ghost use Rattle.format.specs.WellFormed.{length_field};
ghost use Rattle.calls.specs.Calls as Calls;
ghost use Rattle.calls.specs.Calls.{told, shows, told_two, told_with, allocate_relocatable, allocate_fixed, free_handle, free_pointer, resize, read, write, view, compact, sums, check, length_of, enlarge, shrink, roster, on_page, create_page, use_page, mark_page, drop_page, set_dirty, clear_dirty, set_lock, clear_lock};
ghost use Rattle.calls.specs.Refusals.{answer_by, beside_of, answer_of, done_of, shown_of};
ghost use Rattle.bigendian.specs.BigEndian.{slice};
ghost use Rattle.zone.specs.Promise.{Promise, InitPromise};
ghost use Rattle.zone.specs.Census.{counted, census};
ghost use Rattle.zone.specs.Walker.{walked, start_of_walk, walk_step};
ghost use Rattle.access.specs.locate.Named.{target_of};
ghost use Rattle.zone.specs.View.{view_start, view_length};
ghost use Rattle.nafelode_c.specs.Named.{named};

use nafelode::{Refusal, Stretch, Target, Walker};

// The block that a number names, as a handle, a page's name or a pointer.
fn block_of(by: u32, block: u32) -> Target
    ensures { target_of result ≡ named by block }
{
    if by == 0 {
        return Target::Handle(block);
    }
    if by == 2 {
        return Target::Name(block);
    }
    Target::Pointer(block)
}

// The refusal number, 0 if the call is done; the value, or what stands beside the refusal, goes to `value`.
fn give(answer: Result<u32, Refusal>, value: &mut u32) -> u32
    ensures alone { told result value.new ≡ answer_of answer }
    ensures second { (bs : List ℕ) → told_with result value.new bs ≡ answer_by (λ v. v) beside_of bs answer }
{
    match answer {
        Ok(v) => {
            *value = v;
            0
        }
        Err(refusal) => {
            *value = refusal.beside();
            refusal.number()
        }
    }
}

// The same of a call that has no value.
fn number(answer: Result<(), Refusal>) -> u32
    ensures none { told result 0 ≡ done_of answer }
    ensures second { (bs : List ℕ) → shows result bs ≡ shown_of answer bs }
{
    match answer {
        Ok(()) => 0,
        Err(refusal) => refusal.number(),
    }
}

// Makes a zone of `length` bytes with so many masters at the start of the buffer; bytes beyond `length` stay.
// Refused: 2 where length is no multiple of 4, below NAFELODE_ZONE_HEADER + NAFELODE_MASTER_SIZE * masters, above the buffer's length
// or above NAFELODE_LONGEST_ZONE, or masters is above NAFELODE_MOST_MASTERS.
#[unsafe(no_mangle)]
pub extern "C" fn nafelode_initialize(zone: &mut [u8], length: u32, masters: u32) -> u32
    ensures { InitPromise length masters zone.old (told result 0) zone.new }
{
    number(nafelode::initialize(zone, length, masters))
}

// Allocates a relocatable block for c data bytes, which are zero. The block may slide; its handle stays.
// Takes the smallest free block of its bay that is big enough, the lowest of equals; for that, the blocks of that bay slide only where none is.
// Where no master is free, NAFELODE_ADDED_MASTERS are added first: the first bay gives up NAFELODE_ADDED_BYTES bytes at its start, and its blocks stand
// right behind those without gaps.
// *handle becomes its handle.
// Refused: 1 zone not well-formed, 3 c above NAFELODE_LARGEST_RELOCATABLE, 4 no master free, and none can be added: there would be more than
// NAFELODE_MOST_MASTERS, or the first bay has less than those bytes free, 5 no space (after those bytes are taken, where masters would be added).
#[unsafe(no_mangle)]
pub extern "C" fn nafelode_allocate_relocatable(zone: &mut [u8], c: u32, handle: &mut u32) -> u32
    ensures { Promise (allocate_relocatable c) zone.old (told result handle.new) zone.new }
{
    give(nafelode::allocate_relocatable(zone, c), handle)
}

// Allocates a fixed block for c data bytes, which are zero. It never moves until it is freed.
// *pointer becomes its pointer, which is the offset of its first data byte from the zone's first byte, a multiple of 4. Of a block without data it
// is the block's end, which may be L.
// Refused: 1 zone not well-formed, 3 c above NAFELODE_LARGEST_FIXED, 5 no space.
#[unsafe(no_mangle)]
pub extern "C" fn nafelode_allocate_fixed(zone: &mut [u8], c: u32, pointer: &mut u32) -> u32
    ensures { Promise (allocate_fixed c) zone.old (told result pointer.new) zone.new }
{
    give(nafelode::allocate_fixed(zone, c), pointer)
}

// Frees the block of a handle.
// Refused: 1 zone not well-formed, 6 handle not live.
#[unsafe(no_mangle)]
pub extern "C" fn nafelode_free_handle(zone: &mut [u8], handle: u32) -> u32
    ensures { Promise (free_handle handle) zone.old (told result 0) zone.new }
{
    number(nafelode::free_handle(zone, handle))
}

// Frees the fixed block of a pointer.
// Refused: 1 zone not well-formed, 7 pointer not that of a fixed block.
#[unsafe(no_mangle)]
pub extern "C" fn nafelode_free_pointer(zone: &mut [u8], pointer: u32) -> u32
    ensures { Promise (free_pointer pointer) zone.old (told result 0) zone.new }
{
    number(nafelode::free_pointer(zone, pointer))
}

// Gives the block of a handle room for c data bytes. The handle and the common first bytes stay, added bytes are zero.
// Where it moves to another bay, it takes its place there as a new block does.
// Refused: 1 zone not well-formed, 6 handle not live, 3 c above NAFELODE_LARGEST_RELOCATABLE, 5 no space.
#[unsafe(no_mangle)]
pub extern "C" fn nafelode_resize(zone: &mut [u8], handle: u32, c: u32) -> u32
    ensures { Promise (resize handle c) zone.old (told result 0) zone.new }
{
    number(nafelode::resize(zone, handle, c))
}

// The data size of a block, which may exceed what was asked for.
// `by` is NAFELODE_HANDLE where block is a handle, NAFELODE_NAME where it is a page's name; NAFELODE_POINTER, or any other number, where it is a pointer.
// *data_size becomes the data size in bytes.
// Refused: 1 zone not well-formed, 6 handle not live, 13 no page has this name, 7 pointer not that of a fixed block.
#[unsafe(no_mangle)]
pub extern "C" fn nafelode_size(zone: &[u8], by: u32, block: u32, data_size: &mut u32) -> u32
    ensures { Promise (Calls.size (named by block)) zone.now (told result data_size.new) zone.now }
{
    let b = block_of(by, block);
    give(nafelode::size(zone, b), data_size)
}

// Copies count bytes of a block from an offset on to the start of out; later bytes of out stay.
// `by` is NAFELODE_HANDLE where block is a handle, NAFELODE_NAME where it is a page's name; NAFELODE_POINTER, or any other number, where it is a pointer.
// Refused: 1 zone not well-formed, 6 handle not live, 13 no page has this name, 7 pointer not that of a fixed block, 8 offset + count
// above the data size, 10 out shorter than count.
#[unsafe(no_mangle)]
pub extern "C" fn nafelode_read(
    zone: &[u8],
    by: u32,
    block: u32,
    offset: u32,
    count: u32,
    out: &mut [u8],
) -> u32
    ensures { Promise (read (named by block) offset count out.old) zone.now (shows result out.new) zone.now }
{
    let stretch = Stretch {
        block: block_of(by, block),
        offset,
        count,
    };
    number(nafelode::read(zone, stretch, out))
}

// Copies count bytes from the start of src to a block, from an offset on.
// `by` is NAFELODE_HANDLE where block is a handle, NAFELODE_NAME where it is a page's name; NAFELODE_POINTER, or any other number, where it is a pointer.
// A write by name makes no page dirty: nafelode_set_dirty does.
// Refused: 1 zone not well-formed, 6 handle not live, 13 no page has this name, 7 pointer not that of a fixed block, 8 offset + count
// above the data size, 10 src shorter than count.
#[unsafe(no_mangle)]
pub extern "C" fn nafelode_write(
    zone: &mut [u8],
    by: u32,
    block: u32,
    offset: u32,
    count: u32,
    src: &[u8],
) -> u32
    ensures { Promise (write (named by block) offset count src.now) zone.old (shows result src.now) zone.new }
{
    let stretch = Stretch {
        block: block_of(by, block),
        offset,
        count,
    };
    number(nafelode::write(zone, stretch, src))
}

// Where count bytes of a block from an offset on lie in the zone. They lie there until the next call that changes the zone.
// `by` is NAFELODE_HANDLE where block is a handle, NAFELODE_NAME where it is a page's name; NAFELODE_POINTER, or any other number, where it is a pointer.
// Answers no refusal number but the offset of that part from the zone's first byte (the argument `offset` counts from the block's first data byte), and
// *length becomes its length. When refused both are 0, and the answer is 0 only then: no block's data lie where the zone's header does.
// Refused, though it carries no number: zone not well-formed, handle not live, no page of this name, pointer not that of a fixed block,
// offset + count above the data size.
#[unsafe(no_mangle)]
pub extern "C" fn nafelode_view(
    zone: &[u8],
    by: u32,
    block: u32,
    offset: u32,
    count: u32,
    length: &mut u32,
) -> u32
    ensures promise { Promise (view (named by block) offset count) zone.now (shows 0 (slice zone.now result length.new)) zone.now }
    ensures value { result ≡ view_start (named by block) offset count zone.now }
    ensures length_after { length.new ≡ view_length (named by block) offset count zone.now }
    ensures length_in_bounds { (result + length.new ≤ length_field zone.now) × (result + length.new ≤ ListN.length zone.now) }
{
    let b = block_of(by, block);
    let p = stretch::shown(
        zone,
        Stretch {
            block: b,
            offset,
            count,
        },
    );
    let n = p.end - p.start;
    let start = p.start as u32;
    *length = n as u32;
    start
}

// Creates a page: a block that is found by a name, here for c data bytes, which are zero; neither dirty nor locked.
// It is placed as a relocatable block is, and slides as one does.
// Where no bay's sum is enough, pages that are not locked are dropped, greatest age first, the smaller name among equals, until one is.
// Age is clock minus stamp, modulo 256, before this call.
// Then the clock steps by one, modulo 256, and stamps the page.
// *value becomes the offset of its first data byte, which is valid until the next call that changes the zone; when refused with 12, the name of the dirty
// page that the dropping would reach, where nothing is dropped.
// Refused: 1 zone not well-formed, 11 a page has this name, 3 c above NAFELODE_LARGEST_PAGE, 5 no space even without all pages that are not locked,
// 12 a dirty page would be dropped.
#[unsafe(no_mangle)]
pub extern "C" fn nafelode_create_page(zone: &mut [u8], name: u32, c: u32, value: &mut u32) -> u32
    ensures { Promise (on_page name (create_page c)) zone.old (told result value.new) zone.new }
{
    give(nafelode::create_page(zone, name, c), value)
}

// Uses a page: the clock steps by one, modulo 256, and stamps it.
// *data_offset becomes the offset of its first data byte, which is valid until the next call that changes the zone.
// Refused: 1 zone not well-formed, 13 no page has this name.
#[unsafe(no_mangle)]
pub extern "C" fn nafelode_use_page(zone: &mut [u8], name: u32, data_offset: &mut u32) -> u32
    ensures { Promise (on_page name use_page) zone.old (told result data_offset.new) zone.new }
{
    give(nafelode::use_page(zone, name), data_offset)
}

// Makes a page dirty: it has changes that are saved nowhere else, and a create that would have to drop it is refused.
// Refused: 1 zone not well-formed, 13 no page has this name.
#[unsafe(no_mangle)]
pub extern "C" fn nafelode_set_dirty(zone: &mut [u8], name: u32) -> u32
    ensures { Promise (on_page name (mark_page set_dirty)) zone.old (told result 0) zone.new }
{
    number(nafelode::set_dirty(zone, name))
}

// Makes a page dirty no longer: it is saved.
// Refused: 1 zone not well-formed, 13 no page has this name.
#[unsafe(no_mangle)]
pub extern "C" fn nafelode_clear_dirty(zone: &mut [u8], name: u32) -> u32
    ensures { Promise (on_page name (mark_page clear_dirty)) zone.old (told result 0) zone.new }
{
    number(nafelode::clear_dirty(zone, name))
}

// Locks a page: no create drops it.
// Refused: 1 zone not well-formed, 13 no page has this name.
#[unsafe(no_mangle)]
pub extern "C" fn nafelode_set_lock(zone: &mut [u8], name: u32) -> u32
    ensures { Promise (on_page name (mark_page set_lock)) zone.old (told result 0) zone.new }
{
    number(nafelode::set_lock(zone, name))
}

// Locks a page no longer.
// Refused: 1 zone not well-formed, 13 no page has this name.
#[unsafe(no_mangle)]
pub extern "C" fn nafelode_clear_lock(zone: &mut [u8], name: u32) -> u32
    ensures { Promise (on_page name (mark_page clear_lock)) zone.old (told result 0) zone.new }
{
    number(nafelode::clear_lock(zone, name))
}

// Drops a page: its block is free. Neither dirty nor lock prevents that.
// Refused: 1 zone not well-formed, 13 no page has this name.
#[unsafe(no_mangle)]
pub extern "C" fn nafelode_drop_page(zone: &mut [u8], name: u32) -> u32
    ensures { Promise (on_page name drop_page) zone.old (told result 0) zone.new }
{
    number(nafelode::drop_page(zone, name))
}

// Compacts every bay: relocatable blocks and pages slide to its start.
// *largest becomes the largest bay's sum of free bytes.
// Refused: 1 zone not well-formed.
#[unsafe(no_mangle)]
pub extern "C" fn nafelode_compact(zone: &mut [u8], largest: &mut u32) -> u32
    ensures { Promise compact zone.old (told result largest.new) zone.new }
{
    give(nafelode::compact(zone), largest)
}

// The total of free bytes and the largest bay's sum.
// *total becomes the one, *largest the other.
// Refused: 1 zone not well-formed.
#[unsafe(no_mangle)]
pub extern "C" fn nafelode_sum(zone: &[u8], total: &mut u32, largest: &mut u32) -> u32
    ensures { Promise sums zone.now (told_two result total.new largest.new) zone.now }
{
    match nafelode::sum(zone) {
        Ok(sums) => {
            *total = sums.total as u32;
            *largest = sums.largest as u32;
            0
        }
        Err(refusal) => {
            *total = 0;
            *largest = 0;
            refusal.number()
        }
    }
}

// Whether the buffer holds a well-formed zone, and how many handles are live. Never refused.
// Answers 1 for yes and 0 for no, and no refusal number: do not compare it with NAFELODE_DONE, which is 0, or with NAFELODE_NOT_WELL_FORMED, which is 1.
// *live becomes the number of live handles, 0 for no.
#[unsafe(no_mangle)]
pub extern "C" fn nafelode_check(zone: &[u8], live: &mut u32) -> u32
    ensures { Promise check zone.now (told_two 0 result live.new) zone.now }
{
    match nafelode::check(zone) {
        Some(count) => {
            *live = count as u32;
            1
        }
        None => {
            *live = 0;
            0
        }
    }
}

// The zone's length L.
// *length becomes L.
// Refused: 1 zone not well-formed.
#[unsafe(no_mangle)]
pub extern "C" fn nafelode_length(zone: &[u8], length: &mut u32) -> u32
    ensures { Promise length_of zone.now (told result length.new) zone.now }
{
    give(nafelode::length(zone), length)
}

// The zone grows by k bytes of the buffer, which become free.
// Refused: 1 zone not well-formed, 9 k no multiple of 4, or L + k above the buffer's length or NAFELODE_LONGEST_ZONE.
#[unsafe(no_mangle)]
pub extern "C" fn nafelode_enlarge(zone: &mut [u8], k: u32) -> u32
    ensures { Promise (enlarge k) zone.old (told result 0) zone.new }
{
    number(nafelode::enlarge(zone, k))
}

// Strips at most k bytes, a multiple of 4, off the zone's end; they are zeroed.
// *stripped becomes how many bytes were stripped.
// Refused: 1 zone not well-formed.
#[unsafe(no_mangle)]
pub extern "C" fn nafelode_shrink(zone: &mut [u8], k: u32, stripped: &mut u32) -> u32
    ensures { Promise (shrink k) zone.old (told result stripped.new) zone.new }
{
    give(nafelode::shrink(zone, k), stripped)
}

// Writes NAFELODE_ROSTER_RECORD bytes for each live handle to the start of out, by rising handle: the handle and its data size, 4 bytes each, high
// byte first; later bytes of out stay.
// *live becomes how many live handles there are.
// Refused: 1 zone not well-formed, 10 out too short.
#[unsafe(no_mangle)]
pub extern "C" fn nafelode_roster(zone: &[u8], out: &mut [u8], live: &mut u32) -> u32
    ensures { Promise (roster out.old) zone.now (told_with result live.new out.new) zone.now }
{
    give(nafelode::roster(zone, out), live)
}

// Counts the free blocks by size. With limits of length 0 (the pointer may be NULL then) stratum i has the free blocks of 2^i to 2^(i+1) - 1 words of
// 2 bytes. Else limits are NAFELODE_STRATA numbers of 4 bytes, high byte first, in words: the first 1 or 2, each above the one before it, the last at most
// NAFELODE_HIGHEST_LIMIT; and a free block is of the last stratum whose limit does not exceed its words.
// counts[i] becomes the number of free blocks of stratum i, for each i below NAFELODE_STRATA.
// Refused: 1 zone not well-formed, 14 limits of a length that is neither 0 nor NAFELODE_LIMITS_LENGTH, or against a rule.
#[unsafe(no_mangle)]
pub extern "C" fn nafelode_census(
    zone: &[u8],
    limits: &[u8],
    counts: &mut [u32; block_type::STRATA],
) -> u32
    ensures { counted result counts.new ≡ census zone.now limits.now }
{
    match inspect::census::census_to(zone, limits, counts) {
        Ok(()) => 0,
        Err(refusal) => {
            *counts = [0; block_type::STRATA];
            refusal.number()
        }
    }
}

// Where a walker starts: at the first block.
// Answers that block's offset, and no refusal number; 0, where no block starts, tells a zone that is not well-formed.
#[unsafe(no_mangle)]
pub extern "C" fn nafelode_walker_start(zone: &[u8]) -> u32
    ensures { result ≡ start_of_walk zone.now }
{
    let w = Walker::start(zone);
    w.at as u32
}

// Moves the caller's own walker to the end of the block that starts at its offset, and describes that block.
// *block_type becomes its type (NAFELODE_TYPE_FREE, .. NAFELODE_TYPE_PAGE), *offset its offset, *size its size. At any other offset, and when refused, the
// walker stays and each of the three becomes 0: there the size alone tells, since a free block's type is 0, too.
// Refused: 1 zone not well-formed.
#[unsafe(no_mangle)]
pub extern "C" fn nafelode_walker_step(
    zone: &[u8],
    walker: &mut u32,
    block_type: &mut u32,
    offset: &mut u32,
    size: &mut u32,
) -> u32
    ensures { walked result block_type.new offset.new size.new walker.new ≡ walk_step zone.now walker.old }
{
    let w = Walker {
        at: *walker as usize,
    };
    let m = w.go(zone);
    let next = m.next.at as u32;
    *walker = next;
    *block_type = 0;
    *offset = 0;
    *size = 0;
    match m.block {
        Ok(Some(block)) => {
            *block_type = u32::from(block.kind.code());
            *offset = block.offset as u32;
            *size = block.size as u32;
            0
        }
        Ok(None) => 0,
        Err(refusal) => refusal.number(),
    }
}

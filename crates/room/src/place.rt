// A movable block's place: the lowest bay whose sum reaches its size, the free block that is chosen in it, and the writes that cut the block out
// of that.
ghost use Rattle.std.specs.Prelude.{◌≡◌, [], ◌∷◌, ◌+◌, ◌-◌, ◌%◌, ◌<◌, ◌≤◌, length, drop};
ghost use Rattle.bigendian.specs.BigEndian.{overwrite};
ghost use Rattle.block_type.specs.Limits.{page_header, longest_zone};
ghost use Rattle.access.specs.row.Row.{Row};
ghost use Rattle.bay.specs.Bay.{held, gap};
ghost use Rattle.bay.specs.Sound.{bytes_of};
ghost use Rattle.bays.specs.Places.{bays_at};
ghost use Rattle.room.specs.place.Hole.{hole_if, tighter_n};
ghost use Rattle.room.specs.place.Fit.{blank, blank_page, with_rest, Fit};
ghost use Rattle.room.specs.place.Room.{site_by, low_site};
ghost use Rattle.slide.specs.ZoneBay.{ZoneBay};
ghost use Rattle.room.specs.place.Prepared.{prepared};
ghost use Rattle.room.specs.place.Found.{hole_found, site_of, site_found, RoomFrom};

use access::row;
use block_type::BlockType;
use slide::header;

// A free block of a bay.
#[derive(Clone, Copy)]
pub struct Hole {
    pub at: usize,
    pub size: usize,
}

// The hole in the place of `best`, where it is at least need bytes and tighter than that.
fn tighter(best: Option<Hole>, need: usize, hole: Hole) -> Option<Hole>
    ensures { hole_found result ≡ tighter_n (hole_found best) (hole_if need hole.size hole.at) }
{
    if hole.size < need {
        return best;
    }
    match best {
        Some(tightest) if tightest.size <= hole.size => best,
        _ => Some(hole),
    }
}

// A bay that has been walked over, as by bays::read_bay, with the free block of it that is chosen.
#[derive(Clone, Copy)]
struct RoomRead {
    pub end: usize,
    pub sum: usize,
    pub next: Option<usize>,
    pub hole: Option<Hole>,
}

// The walk over the bay that begins at `start`, by words as in bays::read_bay: one pass for its sum and for the free block that is chosen for need
// bytes.
fn read_room(z: &[u8], start: usize, need: usize) -> RoomRead
    requires { Row (drop start z.now) × (start ≤ length z.now) × (length z.now ≤ longest_zone) × (0 < need) }
    ensures { RoomFrom z.now start need result }
{
    let mut best = None;
    let mut at = start;
    let mut sum = 0;
    while at < z.len() {
        let w = row::word(z, at);
        let kind = BlockType::of_word(w);
        // as most blocks are: a match of three arms cost such a walk a third
        if kind.is_movable() {
            at += row::step_used(z, at, w);
        } else if kind == BlockType::Fixed {
            let n = row::step_used(z, at, w);
            return RoomRead {
                end: at,
                sum,
                next: Some(at + n),
                hole: best,
            };
        } else {
            let size = row::step_free(z, at, w);
            best = tighter(best, need, Hole { at, size });
            sum += size;
            at += size;
        }
    }
    RoomRead {
        end: at,
        sum,
        next: None,
        hole: best,
    }
}

// A bay, and the free block in it for a new block: after compacting where `tidy` says so. (An enum of the two would hold the same three fields in each
// of its cases: only `prepare` tells them apart.)
#[derive(Clone, Copy)]
pub struct Site {
    pub start: usize,
    pub end: usize,
    pub hole: Hole,
    pub tidy: bool,
}

// In the bay that begins at `start`: the free block that is chosen, or else the one that compacting leaves.
fn site_in(start: usize, read: RoomRead) -> Site
    requires { read.sum ≤ read.end }
    ensures { site_of result ≡ site_by start read.end read.sum (hole_found read.hole) }
{
    match read.hole {
        Some(hole) => Site {
            start,
            end: read.end,
            hole,
            tidy: false,
        },
        None => Site {
            start,
            end: read.end,
            hole: Hole {
                at: read.end - read.sum,
                size: read.sum,
            },
            tidy: true,
        },
    }
}

// The lowest bay whose sum reaches need, and where need bytes go in it. It goes by read_room, which tells the hole in the same pass, and not by
// bays::Bays, whose bay would have to be walked over once more. (Why it asks for a Row and takes no access::Zone: above bays::read_bay.)
pub fn find_room(z: &[u8], first: usize, need: usize) -> Option<Site>
    requires { Row (drop first z.now) × (first ≤ length z.now) × (length z.now ≤ longest_zone) × (0 < need) }
    ensures { site_found result ≡ low_site need first (bays_at z.now first) }
{
    let mut next = Some(first);
    while let Some(start) = next {
        let read = read_room(z, start, need);
        if need <= read.sum {
            return Some(site_in(start, read));
        }
        next = read.next;
    }
    None
}

// The site's hole is there: the bay is compacted first where the site says so.
pub fn prepare(z: &mut [u8], site: Site)
    requires { ZoneBay z.old site.start site.end }
    ensures { z.new ≡ prepared site.tidy site.start site.end z.old }
{
    if site.tidy {
        slide::compact_bay(z, site.start, site.end);
    }
}

// Behind a new block of need bytes at the hole's low end, what is left of the hole stays free.
fn leave_rest(z: &mut [u8], hole: Hole, need: usize)
    requires { (hole.at + hole.size ≤ length z.old) × (hole.size ≤ longest_zone) × (need % 4 ≡ 0) × (hole.size % 4 ≡ 0) }
    ensures { z.new ≡ with_rest z.old hole.at hole.size need }
{
    if need < hole.size {
        header::put_free_header(z, hole.at + need, hole.size - need);
    }
}

// A block of need bytes with handle h in the hole.
pub fn cut_block(z: &mut [u8], hole: Hole, need: usize, h: usize)
    requires { Fit z.old hole.at hole.size need h }
    ensures { z.new ≡ overwrite z.old hole.at (bytes_of (held (blank need h) ∷ gap (hole.size - need) [])) }
{
    header::put_header(z, hole.at, BlockType::Relocatable, need);
    bigendian::put2(z, hole.at + BlockType::TAG_AT, h as u32);
    leave_rest(z, hole, need);
}

// A page of need bytes with that name and stamp in the hole.
pub fn cut_page(z: &mut [u8], hole: Hole, need: usize, name: u32, stamp: u32)
    requires { Fit z.old hole.at hole.size need 0 × (page_header ≤ need) }
    ensures { z.new ≡ overwrite z.old hole.at (bytes_of (held (blank_page need name stamp) ∷ gap (hole.size - need) [])) }
{
    header::put_header(z, hole.at, BlockType::Page, need);
    bigendian::put4(z, hole.at + BlockType::TAG_AT, name);
    bigendian::put2(z, hole.at + BlockType::STATUS_AT, stamp);
    leave_rest(z, hole, need);
}

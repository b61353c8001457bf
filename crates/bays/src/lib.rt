// The bays of a zone's bytes: one walk over a bay, the walk from bay to bay, and the searches for a bay.
#![tactic(auto)]

ghost use Rattle.std.specs.Prelude.{◌≡◌, ◌≤◌, length, drop};
ghost use Rattle.block_type.specs.Limits.{longest_zone};
ghost use Rattle.format.specs.WellFormed.{first_field};
ghost use Rattle.structure.specs.IsZone.{IsZone};
ghost use Rattle.access.specs.row.Row.{Row};
ghost use Rattle.bays.specs.Places.{bays_at, bay_of, bay_found, high_bay, own_bay};
ghost use Rattle.bays.specs.Read.{ReadFrom};

use access::row;
use block_type::BlockType;

// A bay by its first offset, its end, its sum, and the free bytes at its end.
#[derive(Clone, Copy)]
pub struct Bay {
    pub start: usize,
    pub end: usize,
    pub sum: usize,
    pub tail: usize,
}

// A bay that has been walked over, and where the next one begins, none behind the last.
#[derive(Clone, Copy)]
pub struct BayRead {
    pub bay: Bay,
    pub next: Option<usize>,
}

// The walks below ask the same three facts of `z` and `first`, and no type carries them: a growth asks in a zone that is half written (allocate_grown),
// or from behind its first bay on (has_room), and neither is an access::Zone; and a Row, which is data, can't be the type of a ghost field.

// The walk over the bay that begins at `start`: by words, each of which tells a block's type and its size in one load. By access::rows it takes three
// quarters more instructions, and a call of it costs a zone of small bays a fifth.
#[inline(always)]
pub fn read_bay(z: &[u8], start: usize) -> BayRead
    requires { Row (drop start z.now) × (start ≤ length z.now) × (length z.now ≤ longest_zone) }
    ensures { ReadFrom z.now start result }
{
    let mut at = start;
    let mut sum = 0;
    let mut tail = 0;
    while at < z.len() {
        let w = row::word(z, at);
        let kind = BlockType::of_word(w);
        // as most blocks are
        if kind.is_movable() {
            tail = 0;
            at += row::step_used(z, at, w);
        } else if kind == BlockType::Fixed {
            let n = row::step_used(z, at, w);
            return BayRead {
                bay: Bay {
                    start,
                    end: at,
                    sum,
                    tail,
                },
                next: Some(at + n),
            };
        } else {
            tail = row::step_free(z, at, w);
            sum += tail;
            at += tail;
        }
    }
    BayRead {
        bay: Bay {
            start,
            end: at,
            sum,
            tail,
        },
        next: None,
    }
}

// The bays of a row of blocks, from the one on that begins at `next`; none where the last one has been given.
#[derive(Clone, Copy)]
pub struct Bays<'a> {
    pub bytes: &'a [u8],
    pub next: Option<usize>,
}

impl<'a> Iterator for Bays<'a> {
    ghost use Rattle.bays.specs.Given.{CanRead, GivesBay, bays_left};

    type Item = Bay;

    ghost can_next = { CanRead };

    ghost next_gives = { GivesBay };

    ghost remaining = { bays_left };

    #[inline(always)]
    fn next(&mut self) -> Option<Bay> {
        let start = self.next?;
        let read = read_bay(self.bytes, start);
        self.next = read.next;
        Some(read.bay)
    }
}

// The bays of a row of blocks that begins at `first`.
pub fn bays_from(z: &[u8], first: usize) -> Bays<'_>
    requires { Row (drop first z.now) × (first ≤ length z.now) × (length z.now ≤ longest_zone) }
    ensures bytes { result.bytes.now ≡ z.now }
    ensures next { result.next ≡ Some first }
{
    Bays {
        bytes: z,
        next: Some(first),
    }
}

// The highest bay whose sum reaches need.
pub fn find_high(z: &[u8], first: usize, need: usize) -> Option<Bay>
    requires { Row (drop first z.now) × (first ≤ length z.now) × (length z.now ≤ longest_zone) }
    ensures { bay_found result ≡ high_bay need first (bays_at z.now first) }
{
    let mut best = None;
    for bay in bays_from(z, first) {
        if need <= bay.sum {
            best = Some(bay);
        }
    }
    best
}

// The bay of the block at offset t: the first that ends above t, or else the last. There is always one, which an iterator would answer as an Option.
pub fn find_own(z: &[u8], first: usize, t: usize) -> Bay
    requires { Row (drop first z.now) × (first ≤ length z.now) × (length z.now ≤ longest_zone) }
    ensures { bay_of result ≡ own_bay t first (bays_at z.now first) }
{
    let mut read = read_bay(z, first);
    while let Some(next) = read.next {
        if t < read.bay.end {
            return read.bay;
        }
        read = read_bay(z, next);
    }
    read.bay
}

// The last bay of a zone, no block of which lies beyond the bytes. Every bay's sum reaches 0, so it is the highest whose sum does.
pub fn last_bay(z: &[u8], first: usize) -> Bay
    requires { IsZone z.now × (first ≡ first_field z.now) }
    ensures { bay_of result ≡ high_bay 0 first (bays_at z.now first) }
{
    find_own(z, first, z.len())
}

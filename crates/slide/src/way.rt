// A bay gives up bytes at its start, in place: blocks at its front go up, blocks behind holes come down.
ghost use Rattle.std.specs.Prelude.{◌≡◌, ◌%◌, ◌<◌, ◌≤◌, length, drop};
ghost use Rattle.block_type.specs.Limits.{longest_zone};
ghost use Rattle.bay.specs.Bay.{bay_sum};
ghost use Rattle.bay.specs.Sound.{cells_of, IsBay, Stepped};
ghost use Rattle.slide.specs.way.Gathered.{Passed, PassedOne, Gathered};
ghost use Rattle.slide.specs.way.Way.{FrontGathered, GaveUp};

use super::blank;
use block_type::BlockType;

// One turn: the block of n bytes at `at` goes to `to`, unless it is free or stands there. The place after what is kept.
fn keep(s: &mut [u8], to: usize, at: usize, n: usize) -> usize
    requires { (at < length s.old) × (to ≤ at) × (to % 4 ≡ 0) × IsBay (drop at s.old) × Stepped s.old at n }
    ensures { Passed s.old to at n s.new result }
{
    if block_check::block_type_at(s, at) == BlockType::Free {
        return to;
    }
    if to < at {
        memory::slide_down(s, to, at, n);
        return to + n;
    }
    to + n
}

// The held blocks that have been passed end at `to`, and the next block stands at `at`.
#[derive(Clone, Copy)]
struct Front {
    pub to: usize,
    pub at: usize,
}

// One turn: the next block is passed.
fn pass(s: &mut [u8], f: Front) -> Front
    requires { (f.at < length s.old) × (f.to ≤ f.at) × (f.to % 4 ≡ 0) × IsBay (drop f.at s.old) }
    ensures { PassedOne s.old f s.new result }
{
    let n = super::step(s, f.at);
    let to = keep(s, f.to, f.at, n);
    Front { to, at: f.at + n }
}

// The held blocks from `first` on go to `from` and behind it, in old order. The place after them. (An iterator would borrow what is written.)
fn gather(s: &mut [u8], from: usize, first: usize) -> usize
    requires { (from ≤ first) × (first ≤ length s.old) × (from % 4 ≡ 0) × (first % 4 ≡ 0) × IsBay (drop first s.old) }
    ensures { Gathered s.old from first s.new result }
{
    let mut f = Front {
        to: from,
        at: first,
    };
    while f.at < s.len() {
        f = pass(s, f);
    }
    f.to
}

// The held blocks at the front go to the start, in old order, until n bytes or more lie between them and the next block. (No iterator, as in gather.)
fn gather_front(s: &mut [u8], n: usize) -> Front
    requires { IsBay s.old × (n ≤ bay_sum (cells_of s.old)) }
    ensures { FrontGathered s.old n s.new result.to result.at }
{
    let mut f = Front { to: 0, at: 0 };
    while f.at - f.to < n {
        f = pass(s, f);
    }
    f
}

// The bay gives up its first n bytes: its held blocks stand behind them in old order without gaps, one free block holds the rest.
pub fn make_way(s: &mut [u8], n: usize)
    requires { IsBay s.old × (length s.old ≤ longest_zone) × (n ≤ bay_sum (cells_of s.old)) × (n % 4 ≡ 0) }
    ensures { GaveUp s.old n s.new }
{
    let f = gather_front(s, n);
    memory::slide_up(s, n, 0, f.to);
    let end = gather(s, n + f.to, f.at);
    let rest = s.len() - end;
    blank::write_free_all(&mut s[end..], rest);
}

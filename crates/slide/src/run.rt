// Held blocks that stand side by side go down as one: the run that a walk over a bay has passed and has not moved yet.
ghost use Rattle.std.specs.Prelude.{◌≡◌, cond, [], ◌++◌, ◌+◌, ◌-◌, ◌≤◌, length, drop, ltb};
ghost use Rattle.block_type.specs.Limits.{longest_zone, master_size};
ghost use Rattle.bigendian.specs.BigEndian.{slice, overwrite};
ghost use Rattle.format.specs.WellFormed.{size_of};
ghost use Rattle.bay.specs.Bay.{gap};
ghost use Rattle.bay.specs.Sound.{bytes_of, cell_at};
ghost use Rattle.slide.specs.ZoneBay.{owner_of};
ghost use Rattle.slide.specs.Masters.{CellHere};
ghost use Rattle.slide.specs.run.Run.{BayAhead, run_down, RunPassed, RunEnds};

use super::blank;
use block_type::BlockType;

// The run stands from `from` on and goes to `to`; before it stands a free block from `hole` on, or nothing.
#[derive(Clone, Copy)]
pub struct Run {
    pub to: usize,
    pub from: usize,
    pub hole: usize,
}

// The size of the block at `at`, with which a bay begins or goes on.
pub fn cell_size(z: &[u8], at: usize) -> usize
    requires { BayAhead z.now at }
    ensures { (result ≡ size_of (drop at z.now)) × CellHere z.now at }
{
    block_check::size_at(z, at)
}

// The bytes from `from` up to `end` go down to `to`.
fn move_down(z: &mut [u8], to: usize, from: usize, end: usize)
    requires { (to ≤ from) × (from ≤ end) × (end ≤ length z.old) }
    ensures { z.new ≡ overwrite z.old to (slice z.old from (end - from)) }
{
    if to < from {
        memory::slide_down(&mut z[to..end], 0, from - to, end - from);
    }
}

// One turn, over the block of n bytes at `at`: at a free one the run goes down, a held one belongs to it, and its master holds where it will be.
pub fn pass(z: &mut [u8], run: Run, at: usize, n: usize) -> Run
    requires { (run.to ≤ run.from) × (run.from ≤ at) × (at + n ≤ length z.old) × (length z.old ≤ longest_zone) × CellHere z.old at × (owner_of (cell_at z.old at) + master_size ≤ length z.old) }
    ensures { RunPassed z.old run.to run.from run.hole at n z.new result.to result.from result.hole }
{
    let end = run.to + (at - run.from);
    if block_check::block_type_at(z, at) == BlockType::Free {
        move_down(z, run.to, run.from, at);
        Run {
            to: end,
            from: at + n,
            hole: at,
        }
    } else {
        super::set_master(z, at, end);
        run
    }
}

// Up to where the bay that stops at `end` is not free: a run stands at its end, or the free block at `hole`.
fn used_to(from: usize, hole: usize, end: usize) -> usize
    ensures { result ≡ cond (ltb from end) end hole }
{
    if from < end { end } else { hole }
}

// At the bay's end the run goes down, and one free block holds the rest. Where that begins.
pub fn close(z: &mut [u8], run: Run, end: usize) -> usize
    requires { RunEnds z.old run.to run.from run.hole end }
    ensures { (result ≡ run.to + (end - run.from)) × (z.new ≡ run_down z.old run.to run.from end ++ (bytes_of (gap (run.from - run.to) []) ++ drop end z.old)) }
{
    let rest = run.to + (end - run.from);
    let used = used_to(run.from, run.hole, end);
    move_down(z, run.to, run.from, end);
    blank::write_free_all(&mut z[rest..end], used - rest);
    rest
}

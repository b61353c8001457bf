// Compacts a bay in place: its held blocks go to its start in old order, one free block holds the rest, and its masters follow.
#![tactic(auto)]

pub mod blank;
pub mod header;
pub mod run;
pub mod way;

ghost use Rattle.std.specs.Prelude.{◌≡◌, ◌+◌, ◌-◌, ◌<◌, ◌≤◌, length, take, drop, MatchOption};
ghost use Rattle.block_type.specs.Limits.{longest_zone, master_size};
ghost use Rattle.bay.specs.Bay.{compact_bay};
ghost use Rattle.bay.specs.Sound.{cells_of, cell_at, IsBay, Stepped};
ghost use Rattle.slide.specs.ZoneBay.{owner_of, set_one, set_all, IsLow, ZoneBay, bay_cells, settled};
ghost use Rattle.slide.specs.Masters.{CellHere, IsOwner, Turned};

use block_type::BlockType;
use run::Run;

// The size of the block at p, with what a walk relies on (access::row::step is of a walk over blocks that stay).
fn step(s: &[u8], p: usize) -> usize
    requires { IsBay (drop p s.now) × (p < length s.now) }
    ensures { Stepped s.now p result }
{
    block_check::size_at(s, p)
}

// The master of the block at `at`, if it has one.
fn owner_at(z: &[u8], at: usize) -> Option<usize>
    requires { CellHere z.now at }
    ensures { MatchOption result (owner_of (cell_at z.now at) ≡ 0) (IsOwner (cell_at z.now at)) }
{
    if block_check::block_type_at(z, at) == BlockType::Relocatable {
        match bigendian::get2(z, at + BlockType::TAG_AT) {
            0 => None,
            h => Some(h as usize),
        }
    } else {
        None
    }
}

// The master of the block at `at`, where it has one, holds the first data byte that the block has at p.
fn set_master(z: &mut [u8], at: usize, p: usize)
    requires { CellHere z.old at × (owner_of (cell_at z.old at) + master_size ≤ length z.old) × (p ≤ longest_zone) }
    ensures { z.new ≡ set_one p (cell_at z.old at) z.old }
{
    if let Some(h) = owner_at(z, at) {
        bigendian::put4(z, h, (p + BlockType::RELOCATABLE_HEADER) as u32);
    }
}

// One turn: the master of the block at `at` holds its first data byte, where it has one. The block's size.
fn turn(z: &mut [u8], to: usize, at: usize) -> usize
    requires { (at < to) × (to ≤ length z.old) × (length z.old ≤ longest_zone) × IsBay (drop at (take to z.old)) × IsLow at (cells_of (drop at (take to z.old))) }
    ensures { Turned z.old to at z.new result }
{
    let n = step(&z[..to], at);
    set_master(z, at, at);
    n
}

// The masters of the blocks from `from` up to `to` hold their first data bytes. An iterator would borrow what is written.
pub fn set_masters(z: &mut [u8], from: usize, to: usize)
    requires { (from ≤ to) × (to ≤ length z.old) × (length z.old ≤ longest_zone) × IsBay (drop from (take to z.old)) × IsLow from (cells_of (drop from (take to z.old))) }
    ensures { z.new ≡ set_all from (cells_of (drop from (take to z.old))) z.old }
{
    let mut at = from;
    while at < to {
        let n = turn(z, to, at);
        at += n;
    }
}

// Compacts the bay from `start` to `end`, in one walk. It writes as it goes, so no iterator over the blocks can lend them. compact::compact_next
// is the same walk where the end is not known: a test handed in as a closure would need a contract over all the bytes in between.
pub fn compact_bay(z: &mut [u8], start: usize, end: usize)
    requires { ZoneBay z.old start end }
    ensures { z.new ≡ settled z.old start (compact_bay (bay_cells z.old start end)) }
{
    let mut run = Run {
        to: start,
        from: start,
        hole: start,
    };
    let mut at = start;
    while at < end {
        let n = run::cell_size(z, at);
        run = run::pass(z, run, at, n);
        at += n;
    }
    run::close(z, run, end);
}

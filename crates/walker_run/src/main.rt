// A walk by a walker that is lent: over the zone on standard input, a line for each step to standard output. Nobody else runs
// `Walker::advance`, so this program is its test.
#![tactic(auto)]

ghost use Rattle.std.specs.Prelude.{◌≡◌, ◌≤◌, length, OnOk};
ghost use Rattle.std.specs.Io.KnownBytes.{Appends};
ghost use Rattle.zone.specs.Walker.{walk_step};
ghost use Rattle.inspect.specs.walker.Told.{walked_by};
ghost use Rattle.walker_run.specs.Lines.{line, walk_lines};

use inspect::walker::{Moved, Walker};
use std::io;
use std::io::{Read, Write};

const LONGEST: usize = 65536;

const MOST_STEPS: usize = 16384;

// A walker at `at` is lent for a step. It comes back as the step left it.
fn step(zone: &[u8], at: usize) -> Moved
    ensures { walked_by result.block result.next.at ≡ walk_step zone.now at }
{
    let mut w = Walker { at };
    let block = w.advance(zone);
    Moved { next: w, block }
}

// The refusal number, the block's type, offset and size, 0 for each where there is none, and where the walker is then.
#[tactic(auto, unfolding(crate::specs::Lines::line))]
fn show<W: Write>(m: &Moved, out: &mut W) -> io::Result<()>
    ensures { OnOk result (Appends (W.contents out.old) (W.contents out.new) (line (walked_by m.now.block m.now.next.at))) }
{
    let (number, kind, offset, size) = match m.block {
        Ok(Some(block)) => (0, block.kind.code(), block.offset, block.size),
        Ok(None) => (0, 0, 0, 0),
        Err(refusal) => (refusal.number(), 0, 0, 0),
    };
    writeln!(out, "{number} {kind} {offset} {size} {}", m.next.at)
}

// A step at 17, where no block starts, and then from the start on until a step leaves the walker where it is. A zone of 65,536 bytes
// has fewer than 16,384 blocks.
fn walk<W: Write>(zone: &[u8], out: &mut W) -> io::Result<()>
    ensures { OnOk result (Appends (W.contents out.old) (W.contents out.new) (walk_lines zone.now)) }
{
    show(&step(zone, 17), out)?;
    let mut at = Walker::start(zone).at;
    for _ in 0..MOST_STEPS {
        let m = step(zone, at);
        show(&m, out)?;
        if m.next.at == at {
            return Ok(());
        }
        at = m.next.at;
    }
    Ok(())
}

// Reads until the zone is full, the input ends or a read fails. Answers how many bytes it put at its start.
// By `read`, again and again: std's `read_exact` does not say how much was read once it fails, as it does at the input's end.
fn read_zone(reader: &mut impl Read, zone: &mut [u8]) -> (usize, io::Result<()>)
    ensures { result.0 ≤ length zone.new }
{
    let mut got = 0;
    while got < zone.len() {
        match reader.read(&mut zone[got..]) {
            Ok(0) => return (got, Ok(())),
            Ok(n) => got += n,
            Err(e) => return (got, Err(e)),
        }
    }
    (got, Ok(()))
}

// What was read before a read failed is walked, too.
fn main(rt: HostRuntime) -> io::Result<()> {
    let mut zone = [0; LONGEST];
    let (got, read) = read_zone(&mut rt.stdin(), &mut zone);
    walk(&zone[..got], &mut rt.stdout())?;
    read
}

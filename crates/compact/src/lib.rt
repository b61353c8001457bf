// Compact: every bay, its relocatable blocks and pages at its start and one free block behind them.
#![tactic(auto)]

ghost use Rattle.std.specs.Prelude.{◌≡◌};
ghost use Rattle.format.specs.WellFormed.{first_field};
ghost use Rattle.compact.specs.Next.{goes_on, next_after, Ended, BayNext, BayCompacted};
ghost use Rattle.structure.specs.Structure.{encode, decode_zone};
ghost use Rattle.compact.specs.Compacted.{compacted, largest};
ghost use Rattle.calls.specs.Calls.{compact};
ghost use Rattle.calls.specs.Refusals.{answer_of};
ghost use Rattle.zone.specs.Call.{result_of, call};
ghost use Rattle.structure.specs.IsZone.{IsZone};

use access::Zone;
use block_type::BlockType;
use calls::Refusal;
use slide::run;
use slide::run::Run;

// Whether a bay that has come to `at` goes on there: neither the bytes' end nor a fixed block ends it.
fn goes_on(z: &[u8], at: usize) -> bool
    ensures { result ≡ goes_on z.now at }
{
    at < z.len() && block_check::block_type_at(z, at) != BlockType::Fixed
}

// Where the next bay begins, behind a bay that ends at `at`, or one more than the bytes' number behind the last.
fn next_after(z: &[u8], at: usize) -> usize
    requires { Ended z.now at }
    ensures { result ≡ next_after z.now at }
{
    if at < z.len() {
        return at + block_check::size_at(z, at);
    }
    at + 1
}

// A bay that has been compacted, by its sum, and where the next one begins.
#[derive(Clone, Copy)]
struct BayDone {
    sum: usize,
    next: usize,
}

// Compacts the bay that begins at a, in one walk, which finds the bay's end as it goes (and writes, so it can't be an iterator). slide::compact_bay is
// the same walk up to an end that is known: as one function, with a test that is handed in, its contract would have to speak of all the bytes between.
fn compact_next(z: &mut [u8], a: usize) -> BayDone
    requires { BayNext z.old a }
    ensures { BayCompacted z.old a z.new result.sum result.next }
{
    let mut w = Run {
        to: a,
        from: a,
        hole: a,
    };
    let mut at = a;
    while goes_on(z, at) {
        let n = run::cell_size(z, at);
        w = run::pass(z, w, at, n);
        at += n;
    }
    let next = next_after(z, at);
    let end = run::close(z, w, at);
    let sum = at - end;
    BayDone { sum, next }
}

// Compacts every bay of a well-formed zone. The largest sum.
fn compact_all(z: &mut [u8], first: usize) -> usize
    requires { IsZone z.old × (first ≡ first_field z.old) }
    ensures { (result ≡ largest (decode_zone z.old)) × (z.new ≡ encode (compacted (decode_zone z.old))) }
{
    let mut at = first;
    let mut best = 0;
    while at <= z.len() {
        let done = compact_next(z, at);
        best = best.max(done.sum);
        at = done.next;
    }
    best
}

// Compacts every bay. Answers the largest sum.
pub fn compact(zone: &mut [u8]) -> Result<u32, Refusal>
    ensures { result_of (answer_of result) zone.new ≡ call compact zone.old }
{
    let z = Zone::open(zone)?;
    let first = z.first_block();
    let len = z.bytes.len();
    let best = compact_all(&mut zone[..len], first);
    Ok(best as u32)
}

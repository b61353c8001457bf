// Initialize: header, masters chained upwards, and one free block or none. Each byte of the zone is written once.
#![tactic(auto)]

ghost use Rattle.std.specs.Prelude.{◌≡◌, cond, ◌<◌, length, eqb};
ghost use Rattle.block_type.specs.Limits.{zone_header, first_block, argument_range};
ghost use Rattle.bigendian.specs.BigEndian.{overwrite};
ghost use Rattle.calls.specs.Refusals.{done_of};
ghost use Rattle.zone.specs.Call.{result_of, initialize};
ghost use Rattle.initialize.specs.Fresh.{size_bytes, head_bytes, fresh_bytes, accepts, Fresh};

use calls::Refusal;
use masters::chain;
use slide::blank;

// Whether a zone of n bytes with m masters can be made in a buffer of `buf` bytes. Enlarge tests two of these bounds: one function for both would
// be no plainer, since what else is tested differs.
fn is_accepted(buf: usize, n: usize, m: usize) -> bool
    requires { m < argument_range }
    ensures { result ≡ accepts buf n m }
{
    n % 4 == 0
        && first_block(m) <= n
        && n <= buf
        && n <= block_type::LONGEST_ZONE
        && m <= block_type::MOST_MASTERS
}

// Where the first block begins behind m masters.
fn first_block(m: usize) -> usize
    requires { m < argument_range }
    ensures { result ≡ first_block m }
{
    block_type::ZONE_HEADER + block_type::MASTER_SIZE * m
}

// The first master; 0 where there is none, as the zone's bytes say it.
fn head_of(m: usize) -> u32
    ensures { result ≡ cond (eqb m 0) 0 zone_header }
{
    if m == 0 {
        0
    } else {
        block_type::ZONE_HEADER as u32
    }
}

// The zone's length, its first block and the number of its masters.
fn put_sizes(z: &mut [u8], m: usize)
    requires { Fresh (length z.old) m }
    ensures { z.new ≡ overwrite z.old 0 (size_bytes (length z.old) m) }
{
    let n = z.len();
    bigendian::put4(z, block_type::LENGTH_AT, n as u32);
    bigendian::put4(z, block_type::FIRST_AT, first_block(m) as u32);
    bigendian::put4(z, block_type::MASTERS_AT, m as u32);
}

fn put_header(z: &mut [u8], m: usize)
    requires { Fresh (length z.old) m }
    ensures { z.new ≡ overwrite z.old 0 (head_bytes (length z.old) m) }
{
    put_sizes(z, m);
    bigendian::put2(z, block_type::CHAIN_AT, head_of(m));
    // the clock starts at 0, and the header ends in a zero byte
    bigendian::put2(z, block_type::CLOCK_AT, 0);
}

// Makes a zone of all these bytes with m masters, which are free.
fn make(z: &mut [u8], m: usize)
    requires { Fresh (length z.old) m }
    ensures { z.new ≡ fresh_bytes (length z.old) m }
{
    put_header(z, m);
    chain::put_chain(z, block_type::ZONE_HEADER, m);
    let first = first_block(m);
    let size = z.len() - first;
    blank::write_free_all(&mut z[first..], size);
}

// Makes a zone of `length` bytes with m masters at the start of the buffer.
pub fn initialize(zone: &mut [u8], length: u32, m: u32) -> Result<(), Refusal>
    ensures { result_of (done_of result) zone.new ≡ initialize length m zone.old }
{
    let n = length as usize;
    if is_accepted(zone.len(), n, m as usize) {
        make(&mut zone[..n], m as usize);
        Ok(())
    } else {
        Err(Refusal::BadInitialize)
    }
}

// Enlarge: the zone grows by k bytes of its buffer, which become zero and free, merged with a free last block.
ghost use Rattle.std.specs.Prelude.{◌≡◌, ◌-◌, length};
ghost use Rattle.bigendian.specs.BigEndian.{to_be, overwrite};
ghost use Rattle.block_type.specs.Limits.{length_at};
ghost use Rattle.structure.specs.Structure.{encode_block, decode_zone, cell};
ghost use Rattle.bay.specs.Bay.{free};
ghost use Rattle.slide.specs.blank.Between.{Between};
ghost use Rattle.calls.specs.Calls.{enlarge};
ghost use Rattle.calls.specs.Refusals.{done_of};
ghost use Rattle.zone.specs.Call.{result_of, call};
ghost use Rattle.zone_end.specs.enlarge.Enlarge.{accepts, last_free};

use access::Zone;
use calls::Refusal;
use slide::blank::{self, Extent};

// Whether a zone of n bytes, k of them new, is possible in a buffer of `buf` bytes.
fn is_accepted(buf: usize, n: usize, k: usize) -> bool
    ensures { result ≡ accepts buf n k }
{
    k % 4 == 0 && n <= buf && n <= block_type::LONGEST_ZONE
}

// Where the last block starts if it is free, else where the blocks end.
fn last_free(z: Zone<'_>) -> usize
    ensures { result ≡ last_free (decode_zone z.entry.bytes.now) }
{
    let last = bays::last_bay(z.bytes, z.first_block());
    last.end - last.tail
}

// The zone's length is that of z, and from `from` on z is one free block, of which the bytes from `old` on are new.
fn extend(z: &mut [u8], from: usize, old: usize)
    requires { Between z.old from old (length z.old) (length z.old) }
    ensures { z.new ≡ overwrite (overwrite z.old from (encode_block (cell (free (length z.old - from))))) length_at (to_be 4 (length z.old)) }
{
    let to = z.len();
    blank::write_free(
        z,
        Extent {
            from,
            at: old,
            end: to,
            to,
        },
    );
    bigendian::put4(z, block_type::LENGTH_AT, to as u32);
}

// Lengthens the zone by k bytes.
pub fn enlarge(zone: &mut [u8], k: u32) -> Result<(), Refusal>
    ensures { result_of (done_of result) zone.new ≡ call (enlarge k) zone.old }
{
    let z = Zone::open(zone)?;
    let old = z.bytes.len();
    let n = old + k as usize;
    if !is_accepted(zone.len(), n, k as usize) {
        return Err(Refusal::BadEnlarge);
    }
    if k != 0 {
        let from = last_free(z);
        extend(&mut zone[..n], from, old);
    }
    Ok(())
}

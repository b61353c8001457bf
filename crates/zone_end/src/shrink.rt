// Shrink: bytes off the end of the zone, as many as its last bay has free.
ghost use Rattle.std.specs.Prelude.{◌≡◌, ◌++◌, replicate};
ghost use Rattle.structure.specs.Structure.{encode, decode_zone};
ghost use Rattle.calls.specs.Calls.{shrink};
ghost use Rattle.calls.specs.Refusals.{answer_of};
ghost use Rattle.zone.specs.Call.{result_of, call};
ghost use Rattle.zone_end.specs.shrink.Stripped.{stripped};
ghost use Rattle.zone_end.specs.shrink.Ready.{SiteOf, Ready};

use access::Zone;
use bays::Bay;
use calls::Refusal;
use room::bay_end;

// How many bytes are stripped, and the last bay, which they are taken off.
#[derive(Clone, Copy)]
pub struct Plan {
    pub strip: usize,
    pub bay: Bay,
}

// The plan in a well-formed zone.
fn plan_in(z: Zone<'_>, k: u32) -> Plan
    ensures { Ready z.entry.bytes.now k result }
{
    let bay = bays::last_bay(z.bytes, z.first_block());
    Plan {
        strip: (k as usize / 4 * 4).min(bay.sum),
        bay,
    }
}

// The bytes go off the last bay; they are zero then, and the length falls by their number.
fn strip(z: &mut [u8], p: Plan)
    requires { SiteOf z.old p }
    ensures { z.new ≡ encode (stripped p.strip (decode_zone z.old)) ++ replicate p.strip 0 }
{
    bay_end::take_high(z, p.strip, p.bay);
    bigendian::put4(z, block_type::LENGTH_AT, (p.bay.end - p.strip) as u32);
}

// Strips k bytes off the zone's end, rounded down to a multiple of 4, or as many as the last bay has free. Answers how many.
pub fn shrink(zone: &mut [u8], k: u32) -> Result<u32, Refusal>
    ensures { result_of (answer_of result) zone.new ≡ call (shrink k) zone.old }
{
    let z = Zone::open(zone)?;
    let p = plan_in(z, k);
    let len = z.bytes.len();
    let stripped = p.strip as u32;
    if p.strip != 0 {
        strip(&mut zone[..len], p);
    }
    Ok(stripped)
}

// The roster: a record of 8 bytes for each live handle, into a second buffer.
ghost use Rattle.std.specs.Prelude.{◌≡◌, [], ◌∷◌, ◌++◌, ◌+◌, ◌*◌, ◌≤◌, length};
ghost use Rattle.bigendian.specs.BigEndian.{to_be, overwrite};
ghost use Rattle.block_type.specs.Limits.{record_size};
ghost use Rattle.calls.specs.Calls.{roster};
ghost use Rattle.calls.specs.Refusals.{answer_by, beside_of};
ghost use Rattle.calls.specs.Roster.{card_bytes};
ghost use Rattle.zone.specs.Call.{call};
ghost use Rattle.tell.specs.roster.Listed.{live_cards, all_cards, Entered};

use access::{Zone, locate};
use calls::Refusal;

fn put_record(out: &mut [u8], at: usize, handle: u32, size: u32)
    requires { at + record_size ≤ length out.old }
    ensures { out.new ≡ overwrite out.old at (to_be 4 handle ++ to_be 4 size) }
{
    bigendian::put4(out, at, handle);
    bigendian::put4(out, at + block_type::AMOUNT_AT, size);
}

// The record of a handle goes to `at`, if it is live. Where the next record goes.
fn enter(z: Zone<'_>, out: &mut [u8], at: usize, handle: u32) -> usize
    requires { at + record_size * length (live_cards z.bytes.now (handle ∷ [])) ≤ length out.old }
    ensures { Entered z.entry.bytes.now out.old at handle out.new result }
{
    match locate::by_handle(z, handle) {
        Some(span) => {
            put_record(out, at, handle, span.size as u32);
            at + block_type::RECORD_SIZE
        }
        None => at,
    }
}

// The records of all live handles, through the masters in ascending order. `at` is counted: `chunks_exact_mut` would be asked for a chunk with each live
// handle, and for what to do where it has none, which is no plainer.
fn fill(z: Zone<'_>, out: &mut [u8])
    requires { record_size * length (all_cards z.bytes.now) ≤ length out.old }
    ensures { out.new ≡ overwrite out.old 0 (card_bytes (all_cards z.entry.bytes.now)) }
{
    let masters = z.masters();
    let mut at = 0;
    for i in 0..masters {
        let handle = block_type::ZONE_HEADER + block_type::MASTER_SIZE * i;
        at = enter(z, out, at, handle as u32);
    }
}

// Handle and data size of each live handle, 4 bytes each, high byte first, by rising handle, to the start of the second buffer. Answers how many.
pub fn roster(zone: &[u8], out: &mut [u8]) -> Result<u32, Refusal>
    ensures { answer_by (λ v. v) beside_of out.new result ≡ (call (roster out.old) zone.now).answer }
{
    let Some(k) = zone_check::check_for(zone, 0) else {
        return Err(Refusal::NotWellFormed);
    };
    if out.len() / block_type::RECORD_SIZE < k.count {
        return Err(Refusal::ShortBuffer);
    }
    let z = Zone {
        bytes: &zone[..k.len],
    };
    fill(z, out);
    Ok(k.count as u32)
}

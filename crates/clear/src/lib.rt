// Pages that make room: in one walk every unlocked page of rank below a limit becomes free, merged with its free neighbours.
#![tactic(auto)]

ghost use Rattle.std.specs.Prelude.{◌≡◌};
ghost use Rattle.format.specs.WellFormed.{first_field};
ghost use Rattle.structure.specs.Structure.{encode, decode_zone};
ghost use Rattle.structure.specs.IsZone.{IsZone};
ghost use Rattle.clear.specs.Cleared.{cleared};

use access::row;
use access::rows::Placed;
use slide::blank;
use turn::rank;

// Frees them in a well-formed zone. prev is where the block before `at` starts, a free one that was just made too. An iterator over the blocks would
// borrow the bytes that the loop writes.
pub fn clear(z: &mut [u8], first: usize, clock: u8, limit: u64)
    requires { IsZone z.old × (first ≡ first_field z.old) }
    ensures { z.new ≡ encode (cleared clock limit (decode_zone z.old)) }
{
    let mut prev = first;
    let mut at = first;
    while at < z.len() {
        let size = row::step(z, at);
        let end = at + size;
        if rank::goes(z, Placed { at, size }, clock, limit) {
            let extent = free_block::find_extent(z, prev, at, end);
            blank::write_free(z, extent);
            prev = extent.from;
            at = extent.to;
        } else {
            prev = at;
            at = end;
        }
    }
}

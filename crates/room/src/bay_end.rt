// Bytes taken off the end of a bay.
ghost use Rattle.std.specs.Prelude.{◌≡◌};
ghost use Rattle.bay.specs.Bay.{take_high};
ghost use Rattle.slide.specs.ZoneBay.{bay_cells};
ghost use Rattle.room.specs.bay_end.Taken.{trimmed, FreeEnd, before_zeros, CanTake};

use bays::Bay;
use slide::header;

// The last n bytes of the free block of k bytes that ends at e, all zero then; the rest of that block stays free.
fn trim(z: &mut [u8], e: usize, k: usize, n: usize)
    requires { FreeEnd z.old e k n }
    ensures { z.new ≡ trimmed z.old e k n }
{
    header::put_free_header(z, e - k, k - n);
}

// Takes n bytes off the end of the bay: off its last block, which is free and has `tail` bytes, or else after compacting. Those n bytes are zero then.
pub fn take_high(z: &mut [u8], n: usize, bay: Bay)
    requires { CanTake z.old n bay.start bay.end bay.sum bay.tail }
    ensures { z.new ≡ before_zeros z.old bay.start (take_high n (bay_cells z.old bay.start bay.end)) n }
{
    if n <= bay.tail {
        trim(z, bay.end, bay.tail, n);
    } else {
        slide::compact_bay(z, bay.start, bay.end);
        trim(z, bay.end, bay.sum, n);
    }
}

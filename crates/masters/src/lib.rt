// A zone's masters: how they are made, and eight more where none is free, from the first bay's bytes.
#![tactic(auto)]

pub mod chain;

ghost use Rattle.std.specs.Prelude.{◌≡◌, ◌≤◌, length};
ghost use Rattle.block_type.specs.Limits.{zone_header, longest_zone, added_bytes};
ghost use Rattle.bay.specs.Bay.{bay_sum};
ghost use Rattle.structure.specs.Structure.{encode, decode_zone};
ghost use Rattle.slide.specs.ZoneBay.{ZoneBay, bay_cells};
ghost use Rattle.masters.specs.Grown.{grown_in, Growing, with_masters, with_fields};

// The bay from `first` to `end` gives up its first bytes, and eight masters lie there.
fn make_masters(z: &mut [u8], first: usize, end: usize)
    requires { ZoneBay z.old first end × (added_bytes ≤ bay_sum (bay_cells z.old first end)) }
    ensures { z.new ≡ with_masters z.old first end }
{
    slide::way::make_way(&mut z[first..end], block_type::ADDED_BYTES);
    chain::put_chain(z, first, block_type::ADDED_MASTERS);
}

// The header, once eight masters lie from `first` on, where the first block was: the first block, the number of masters before it, the first free one.
fn put_fields(z: &mut [u8], first: usize)
    requires { (zone_header ≤ length z.old) × (zone_header ≤ first) × (first ≤ longest_zone) }
    ensures { z.new ≡ with_fields z.old first }
{
    let start = first + block_type::ADDED_BYTES;
    bigendian::put4(z, block_type::FIRST_AT, start as u32);
    bigendian::put4(
        z,
        block_type::MASTERS_AT,
        ((start - block_type::ZONE_HEADER) / block_type::MASTER_SIZE) as u32,
    );
    bigendian::put2(z, block_type::CHAIN_AT, first as u32);
}

// Eight masters more, from the first bay, which lies from `first` to `end`: they are chained upwards, the bay's blocks stand behind them without gaps,
// and their masters follow.
pub fn grow(z: &mut [u8], first: usize, end: usize)
    requires { Growing z.old first end }
    ensures { z.new ≡ encode (grown_in (decode_zone z.old)) }
{
    make_masters(z, first, end);
    put_fields(z, first);
    slide::set_masters(z, first + block_type::ADDED_BYTES, end);
}

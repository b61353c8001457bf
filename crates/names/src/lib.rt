// The names of a zone's pages, and whether they are distinct: `seen` is certain of it in most zones where they are distinct, `rounds` tells it of any zone.
#![tactic(auto)]

ghost use Rattle.std.specs.Prelude.{◌≡◌, ◌+◌, ◌<◌, ◌≤◌, length, drop};
ghost use Rattle.block_type.specs.Limits.{page_header, argument_range};
ghost use Rattle.format.specs.WellFormed.{name_of};
ghost use Rattle.names.specs.Mix.{head_range, mixed, head_of};

use block_type::BlockType;

pub mod rounds;
pub mod seen;
mod trees;

// 2 ^ 32 divided by the golden ratio.
const SPREAD: u64 = 2654435769;

pub fn name_at(z: &[u8], at: usize) -> u32
    requires { at + page_header ≤ length z.now }
    ensures { result ≡ name_of (drop at z.now) }
{
    bigendian::get4(z, at + BlockType::TAG_AT)
}

// The name x with its bits mixed.
fn mix(x: u32) -> u64
    ensures { (result ≡ mixed x) × (result < argument_range) }
{
    u64::from(x) * SPREAD % block_type::ARGUMENT_RANGE
}

// The place of a name whose mixed bits are m, one of `heads`: a product and a shift.
fn head(m: u64, heads: usize) -> usize
    requires { (m < argument_range) × (0 < heads) × (heads ≤ head_range) }
    ensures { (result ≡ head_of heads m) × (result < heads) }
{
    (m * heads as u64 / block_type::ARGUMENT_RANGE) as usize
}

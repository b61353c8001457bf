// One free block over bytes of which some are free already: its header, and zeros where there are none yet.
ghost use Rattle.std.specs.Prelude.{◌≡◌, cond, [], ◌+◌, ◌-◌, ◌%◌, ◌≤◌, length, ltb};
ghost use Rattle.block_type.specs.Limits.{free_header, longest_zone};
ghost use Rattle.bigendian.specs.BigEndian.{overwrite};
ghost use Rattle.structure.specs.Structure.{encode_block, cell};
ghost use Rattle.bay.specs.Bay.{free, gap};
ghost use Rattle.bay.specs.Sound.{bytes_of};
ghost use Rattle.slide.specs.blank.Between.{Hole, Between};

use super::header;
use block_type::BlockType;

// An extent that becomes one free block, and where in it the bytes lie that are not free yet: from `at` up to `end`.
#[derive(Clone, Copy)]
pub struct Extent {
    pub from: usize,
    pub at: usize,
    pub end: usize,
    pub to: usize,
}

// Where zeros are to be written from: a free block ahead has its own zeros, and else they start behind the new header.
fn zeros_from(from: usize, at: usize) -> usize
    requires { from ≤ longest_zone }
    ensures { result ≡ cond (ltb from at) at (from + free_header) }
{
    if from < at {
        at
    } else {
        from + BlockType::FREE_HEADER
    }
}

// Where zeros are to be written up to: of a free block behind only the header is not zero.
fn zeros_to(end: usize, to: usize) -> usize
    requires { end ≤ longest_zone }
    ensures { result ≡ cond (ltb end to) (end + free_header) end }
{
    if end < to {
        end + BlockType::FREE_HEADER
    } else {
        end
    }
}

// One free block over f: the zeros of free neighbours are not written again.
pub fn write_free(z: &mut [u8], f: Extent)
    requires { Between z.old f.from f.at f.end f.to }
    ensures { z.new ≡ overwrite z.old f.from (encode_block (cell (free (f.to - f.from)))) }
{
    let low = zeros_from(f.from, f.at);
    let high = zeros_to(f.end, f.to);
    header::put_free_header(z, f.from, f.to - f.from);
    memory::fill_zero(z, low, high);
}

// One free block over all of s, or none for no bytes, where behind `end` all is free.
pub fn write_free_all(s: &mut [u8], end: usize)
    requires { (end ≤ length s.old) × (length s.old % 4 ≡ 0) × (length s.old ≤ longest_zone) × Hole s.old end (length s.old) }
    ensures { s.new ≡ bytes_of (gap (length s.old) []) }
{
    let to = s.len();
    if 0 < to {
        write_free(
            s,
            Extent {
                from: 0,
                at: 0,
                end,
                to,
            },
        );
    }
}

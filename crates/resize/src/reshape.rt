// A block gets another size in its own bay: where it stands, or in the bay laid out as compacted.
ghost use Rattle.std.specs.Prelude.{◌≡◌, ◌+◌, ◌-◌, ◌≤◌, length};
ghost use Rattle.block_type.specs.Limits.{reloc_header, longest_zone};
ghost use Rattle.bay.specs.Sound.{cells_of};
ghost use Rattle.structure.specs.Structure.{encode, decode_zone};
ghost use Rattle.access.specs.Edit.{place_in, data_in};
ghost use Rattle.slide.specs.ZoneBay.{part_of, ZoneBay, settled};
ghost use Rattle.resize.specs.reshape.Own.{reshaped, Known};
ghost use Rattle.resize.specs.reshape.Here.{Here};
ghost use Rattle.resize.specs.reshape.Grow.{grown_bytes, Room, GrowsTo, Laid};

use super::Resizing;
use access::Zone;
use bays::Bay;
use block_type::BlockType;
use slide::header;

// How many bytes are free right behind the block of the live handle h, whose n data bytes lie at `at`.
pub fn room_after(z: Zone<'_>, h: usize, at: usize, n: usize) -> usize
    requires { (at ≡ place_in z.bytes.now h) × (at ≡ 0 → ⊥) × (n ≡ length (data_in z.bytes.now h)) }
    ensures { Known z.entry.bytes.now h at n result }
{
    let end = at + n;
    free_block::end_behind(z.bytes, end) - end
}

// The block, whose data lie at `at` with `free` free bytes behind them, gets its new size there. The master stays.
pub fn resize_here(z: &mut [u8], block: Resizing, at: usize, free: usize)
    requires { Here z.old block.handle at block.old_len free block.new_len }
    ensures { z.new ≡ encode (reshaped block.handle block.new_len (decode_zone z.old)) }
{
    let keep = block.new_len.min(block.old_len);
    memory::fill_zero(z, at + keep, at + block.old_len + free);
    header::put_header(
        z,
        at - BlockType::RELOCATABLE_HEADER,
        BlockType::Relocatable,
        BlockType::RELOCATABLE_HEADER + block.new_len,
    );
    if block.new_len < block.old_len + free {
        header::put_free_header(z, at + block.new_len, block.old_len + free - block.new_len);
    }
}

// ---- in the bay laid out as compacted

// A block in its compacted bay, from `at` up to `end`, with `run` bytes of other blocks behind it; offsets in the bay.
#[derive(Clone, Copy)]
struct InBay {
    at: usize,
    end: usize,
    run: usize,
}

// Where a block with n data bytes at `at` lies in its compacted bay.
fn place_in_bay(at: usize, n: usize, bay: Bay) -> InBay
    requires { (bay.start + reloc_header ≤ at) × (at + n + bay.sum ≤ bay.end) × (bay.end ≤ longest_zone) }
    ensures { (result.at ≡ at - reloc_header - bay.start) × (result.end ≡ at + n - bay.start) × (result.run ≡ bay.end - bay.sum - (at + n)) }
{
    InBay {
        at: at - BlockType::RELOCATABLE_HEADER - bay.start,
        end: at + n - bay.start,
        run: bay.end - bay.sum - (at + n),
    }
}

// The block of the compacted bay s gets `more` zero bytes at its end; the blocks behind it slide up, the rest stays free.
fn grow_part(s: &mut [u8], p: InBay, more: usize)
    requires { Room s.old p.at p.end p.run more }
    ensures { s.new ≡ grown_bytes s.old p.at p.end p.run more }
{
    let end = s.len();
    let top = p.end + more;
    memory::slide_up(s, top, p.end, p.run);
    memory::fill_zero(s, p.end, top);
    header::put_header(s, p.at, BlockType::Relocatable, top - p.at);
    let rest = top + p.run;
    if rest < end {
        header::put_free_header(s, rest, end - rest);
    }
}

// The same in the zone, where the bay lies from `from` up to `end`; the masters follow.
fn grow_block(z: &mut [u8], from: usize, end: usize, p: InBay, more: usize)
    requires { ZoneBay z.old from end × Room (part_of z.old from end) p.at p.end p.run more × GrowsTo z.old from end p.at p.end p.run more }
    ensures { z.new ≡ settled z.old from (cells_of (grown_bytes (part_of z.old from end) p.at p.end p.run more)) }
{
    grow_part(&mut z[from..end], p, more);
    slide::set_masters(z, from, end);
}

// The block grows in its bay. The masters follow.
pub fn lay_out(z: &mut [u8], block: Resizing, bay: Bay)
    requires { Laid z.old block.handle bay.start bay.end bay.sum block.old_len block.new_len }
    ensures { z.new ≡ encode (reshaped block.handle block.new_len (decode_zone z.old)) }
{
    slide::compact_bay(z, bay.start, bay.end);
    let at = bigendian::get4(z, block.handle) as usize;
    let p = place_in_bay(at, block.old_len, bay);
    grow_block(z, bay.start, bay.end, p, block.new_len - block.old_len);
}

// A block moves to another bay, which is compacted first where none of its free blocks is big enough.
ghost use Rattle.std.specs.Prelude.{◌≡◌, ◌+◌, ◌≤◌, length};
ghost use Rattle.bigendian.specs.BigEndian.{slice, overwrite};
ghost use Rattle.structure.specs.Structure.{encode, decode_zone};
ghost use Rattle.block_type.specs.Limits.{reloc_header};
ghost use Rattle.resize.specs.relocate.Move.{MoveAt, moved_bytes};
ghost use Rattle.resize.specs.relocate.Relocate.{relocated, LiveIn, OldPlace, CarryIn, Carried, RelocateIn};

use super::Resizing;
use block_type::BlockType;
use room::place::{self, Hole, Site};
use slide::blank::{self, Extent};

// Moves the n bytes at src to dst, up or down. Only this call doesn't know the direction, and `copy_within`, which finds it, costs twice: 14,396 instructions
// against 6,859 for 64 KiB.
fn slide(z: &mut [u8], dst: usize, src: usize, n: usize)
    requires { (dst + n ≤ length z.old) × (src + n ≤ length z.old) }
    ensures { z.new ≡ overwrite z.old dst (slice z.old src n) }
{
    if dst <= src {
        memory::slide_down(z, dst, src, n);
    } else {
        memory::slide_up(z, dst, src, n);
    }
}

// Where a block's data lie, and its extent.
#[derive(Clone, Copy)]
pub struct Old {
    pub place: usize,
    pub extent: Extent,
}

// Where the live handle h, with n data bytes, has its block, by its master: after a write the bytes are a zone by the contract, and not by their type.
fn find_old(z: &[u8], h: usize, n: usize) -> Old
    requires { LiveIn z.now h n }
    ensures { OldPlace z.now h n result }
{
    let place = bigendian::get4(z, h) as usize;
    let end = place + n;
    Old {
        place,
        extent: free_block::extent_of(z, place - BlockType::RELOCATABLE_HEADER, end),
    }
}

// The block goes from its old place to the hole.
fn move_block(z: &mut [u8], block: Resizing, old: Old, hole: Hole)
    requires { MoveAt z.old block.handle old.place block.old_len hole.at hole.size (reloc_header + block.new_len) old.extent.from old.extent.to }
    ensures { z.new ≡ moved_bytes z.old block.handle old.extent.from old.extent.to hole.at hole.size (reloc_header + block.new_len) (slice z.old old.place block.old_len) }
{
    let need = BlockType::RELOCATABLE_HEADER + block.new_len;
    place::cut_block(z, hole, need, block.handle);
    let data = hole.at + BlockType::RELOCATABLE_HEADER;
    slide(z, data, old.place, block.old_len);
    bigendian::put4(z, block.handle, data as u32);
    let Extent { from, to, .. } = old.extent;
    blank::write_free(
        z,
        Extent {
            from,
            at: from,
            end: to,
            to,
        },
    );
}

// The block goes to the hole.
fn carry(z: &mut [u8], block: Resizing, hole: Hole)
    requires { CarryIn z.old block.handle block.old_len block.new_len hole.at hole.size }
    ensures { Carried z.old block.handle block.old_len block.new_len hole.at hole.size z.new }
{
    let old = find_old(z, block.handle, block.old_len);
    move_block(z, block, old, hole);
}

// The block goes to that place of another bay, whose free block is there after compacting where the place says so.
pub fn relocate(z: &mut [u8], block: Resizing, site: Site)
    requires { RelocateIn z.old block.handle block.old_len block.new_len site.start site.end site.hole.at site.hole.size site.tidy }
    ensures { z.new ≡ encode (relocated block.handle block.new_len (decode_zone z.old)) }
{
    place::prepare(z, site);
    carry(z, block, site.hole);
}

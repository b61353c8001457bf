// Headers as they are written: a block's type is in its first two bits, and its size is counted in 2-byte words.
ghost use Rattle.std.specs.Prelude.{◌≡◌, ◌+◌, ◌*◌, ◌/◌, ◌≤◌, length};
ghost use Rattle.block_type.specs.Limits.{free_header, longest_zone, tag_at, type_unit};
ghost use Rattle.block_type.specs.Types.{type_code};
ghost use Rattle.bigendian.specs.BigEndian.{to_be, overwrite};

use block_type::BlockType;

// The type and the size of a block that is not free, of `size` bytes, at `at`; what stands behind them stays.
pub fn put_header(z: &mut [u8], at: usize, kind: BlockType, size: usize)
    requires { (at + tag_at ≤ length z.old) × (size ≤ longest_zone) }
    ensures { z.new ≡ overwrite z.old at (to_be 2 (type_code kind * type_unit + size / 2)) }
{
    bigendian::put2(
        z,
        at,
        (usize::from(kind.code()) * BlockType::TYPE_UNIT + size / 2) as u32,
    );
}

// The header of a free block of `size` bytes at `at`; what stands behind it stays.
pub fn put_free_header(z: &mut [u8], at: usize, size: usize)
    requires { (at + free_header ≤ length z.old) × (size ≤ longest_zone) }
    ensures { z.new ≡ overwrite z.old at (to_be 4 (size / 2)) }
{
    bigendian::put4(z, at, (size / 2) as u32);
}

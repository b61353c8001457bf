// New masters, all of them free: a chain in the order of their offsets.
ghost use Rattle.std.specs.Prelude.{◌≡◌, ◌+◌, ◌*◌, ◌≤◌, length};
ghost use Rattle.block_type.specs.Limits.{longest_zone, master_size};
ghost use Rattle.bigendian.specs.BigEndian.{overwrite};
ghost use Rattle.masters.specs.chain.Chain.{chain_bytes};

// n masters from offset `from` on, chained upwards: each with the offset of the one after it, and 0 in the last.
pub fn put_chain(z: &mut [u8], from: usize, n: usize)
    requires { (from + master_size * n ≤ length z.old) × (from + master_size * n ≤ longest_zone) }
    ensures { z.new ≡ overwrite z.old from (chain_bytes from n) }
{
    if n == 0 {
        return;
    }
    let last = from + block_type::MASTER_SIZE * (n - 1);
    // by offset: a `for` over the masters takes 0.4 instructions a master more, 2.4 % of an initialize with 4,000 of them
    let mut at = from;
    while at < last {
        bigendian::put4(z, at, (at + block_type::MASTER_SIZE) as u32);
        at += block_type::MASTER_SIZE;
    }
    bigendian::put4(z, last, 0);
}

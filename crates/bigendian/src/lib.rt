// Numbers of 2 and 4 bytes in a part, high byte first.
#![tactic(auto)]

ghost use Rattle.std.specs.Prelude.{◌≡◌, ◌+◌, ◌/◌, ◌%◌, ◌<◌, ◌≤◌, length};
ghost use Rattle.bigendian.specs.BigEndian.{from_be, to_be, slice, overwrite};

// Two sizes and two functions, here and below: generic over the size each would take the number's type by a trait of its own, and a caller names the size either way.
pub fn get2(s: &[u8], at: usize) -> u32
    requires { at + 2 ≤ length s.now }
    ensures { result ≡ from_be (slice s.now at 2) }
{
    u32::from(u16::from_be_bytes([s[at], s[at + 1]]))
}

// The last byte first, which is the same number: so a processor without an instruction that turns bytes round puts them together as they are. By from_be_bytes the check of
// 4,000 blocks takes a third more instructions on RISC-V 64.
pub fn get4(s: &[u8], at: usize) -> u32
    requires { at + 4 ≤ length s.now }
    ensures { result ≡ from_be (slice s.now at 4) }
{
    u32::from_le_bytes([s[at + 3], s[at + 2], s[at + 1], s[at]])
}

// The same by from_be_bytes: one load whatever is asked of the number, so it is for walks that ask a header's word for all they need. By get4 a sum of 4,000 blocks' bays takes
// 9 % more instructions on x86-64.
pub fn load4(s: &[u8], at: usize) -> u32
    requires { at + 4 ≤ length s.now }
    ensures { result ≡ from_be (slice s.now at 4) }
{
    u32::from_be_bytes([s[at], s[at + 1], s[at + 2], s[at + 3]])
}

// By hand: the low two bytes of any v are put, and a cast to u16, which to_be_bytes would take, may lose nothing.
pub fn put2(s: &mut [u8], at: usize, v: u32)
    requires { at + 2 ≤ length s.old }
    ensures { s.new ≡ overwrite s.old at (to_be 2 v) }
{
    s[at] = (v / 256 % 256) as u8;
    s[at + 1] = (v % 256) as u8;
}

// The number whose bytes are those of v, the last one first.
fn swapped(v: u32) -> u32
    ensures { (result % 256 ≡ v / 16777216 % 256) × (result / 256 % 256 ≡ v / 65536 % 256) × (result / 65536 % 256 ≡ v / 256 % 256) × (result / 16777216 % 256 ≡ v % 256) }
{
    v % 256 * 16777216 + v / 256 % 256 * 65536 + v / 65536 % 256 * 256 + v / 16777216
}

// Low byte of the swapped number first, by products: so the compiler sees one store of four bytes, and makes vectors of a loop of them. By `to_be_bytes` byte by byte it doesn't, nor by
// `swap_bytes`, and an initialize with 4,000 masters takes 1.46 times as long. An array that is lent (`as_mut_array`) does, but comes as a pointer behind a byte, which the library for processors
// of 32 bits may not have; `copy_from_slice` asks there whether the two places overlap.
pub fn put4(s: &mut [u8], at: usize, v: u32)
    requires { at + 4 ≤ length s.old }
    ensures { s.new ≡ overwrite s.old at (to_be 4 v) }
{
    let w = swapped(v);
    s[at] = (w % 256) as u8;
    s[at + 1] = (w / 256 % 256) as u8;
    s[at + 2] = (w / 65536 % 256) as u8;
    s[at + 3] = (w / 16777216 % 256) as u8;
}

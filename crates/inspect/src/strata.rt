// The stratum of a free block: by the formula, or by the limits that a mill lends; and whether these are within their rules.
ghost use Rattle.std.specs.Prelude.{◌≡◌, true, false, ◌<◌, get_or, MatchOption};
ghost use Rattle.block_type.specs.Limits.{strata};
ghost use Rattle.calls.specs.LentLimits.{limits_in, rising, limits_ok, lent_ok};
ghost use Rattle.zone.specs.Formula.{FreeSize, stratum_of};
ghost use Rattle.inspect.specs.strata.Stratum.{InStratum};

use block_type::{LIMITS_LENGTH, STRATA};

// Nineteen limits in words, 4 bytes each, high byte first, within their rules.
#[derive(Clone, Copy)]
pub struct LentLimits<'a> {
    pub bytes: &'a [u8; LIMITS_LENGTH],
    pub ghost within: { limits_ok (limits_in strata bytes.now) ≡ true },
}

// What tells a free block's stratum.
#[derive(Clone, Copy)]
pub enum Limits<'a> {
    Formula,
    Lent(LentLimits<'a>),
}

// Limit i, in words.
fn limit(limits: &[u8; LIMITS_LENGTH], i: usize) -> u32
    requires { i < strata }
    ensures { result ≡ get_or (limits_in strata limits.now) i 0 }
{
    bigendian::get4(limits, block_type::LIMIT_SIZE * i)
}

// Whether the limits rise strictly.
fn rises(limits: &[u8; LIMITS_LENGTH]) -> bool
    ensures { result ≡ rising (limits_in strata limits.now) }
{
    let mut last = limit(limits, 0);
    for i in 1..STRATA {
        let next = limit(limits, i);
        if next <= last {
            return false;
        }
        last = next;
    }
    true
}

// Whether nineteen limits are within their rules.
fn within(limits: &[u8; LIMITS_LENGTH]) -> bool
    ensures { result ≡ limits_ok (limits_in strata limits.now) }
{
    let first = limit(limits, 0);
    let last = limit(limits, STRATA - 1);
    let rise = rises(limits);
    ((first == 1) | (first == 2)) & (rise & (last <= block_type::HIGHEST_LIMIT))
}

// By the number of words: the place of the highest bit that is set, counted from 0. Of 32 bits that is 31 less the leading zeros. A free block has
// 2 words at least, so there is such a bit; 0 words would have 32 leading zeros.
fn by_formula(words: u32) -> usize
    requires { FreeSize words }
    ensures { result ≡ stratum_of words }
{
    (31 - words.leading_zeros()) as usize
}

// The last whose limit does not exceed the number of words, by halving: std's `partition_point` wants a slice of what it compares, and these bytes are
// read where they lie.
fn by_limits(lent: LentLimits<'_>, words: u32) -> usize
    requires { FreeSize words }
    ensures { InStratum (limits_in strata lent.entry.bytes.now) words result }
{
    let limits = lent.bytes;
    let mut low = 0;
    let mut high = STRATA;
    while low + 1 < high {
        let mid = (low + high) / 2;
        if limit(limits, mid) <= words {
            low = mid;
        } else {
            high = mid;
        }
    }
    low
}

impl<'a> Limits<'a> {
    ghost use Rattle.inspect.specs.strata.Limits.{limits_by, Lends};

    // The limits that hold where these bytes are lent: none, or limits within their rules.
    pub fn lent(bytes: &'a [u8]) -> Option<Limits<'a>>
        ensures { MatchOption result (lent_ok bytes.now ≡ false) (Lends bytes.now) }
    {
        if bytes.is_empty() {
            return Some(Limits::Formula);
        }
        if bytes.len() != LIMITS_LENGTH {
            return None;
        }
        // As the one chunk that there is: an array that std lends where there may be none (`as_array`, `try_from`) comes as a pointer behind a byte, which the
        // library for processors of 32 bits may not have.
        let (chunks, _) = bytes.as_chunks::<LIMITS_LENGTH>();
        let limits = &chunks[0];
        if within(limits) {
            Some(Limits::Lent(LentLimits { bytes: limits }))
        } else {
            None
        }
    }

    // The stratum of a free block of so many words.
    pub fn stratum(self, words: u32) -> usize
        requires { FreeSize words }
        ensures { (result < strata) × InStratum (limits_by self.entry) words result }
    {
        match self {
            Limits::Formula => by_formula(words),
            Limits::Lent(lent) => by_limits(lent, words),
        }
    }
}

// The blocks of a zone's bytes, one after the other.
ghost use Rattle.std.specs.Prelude.{◌≡◌, ◌≤◌, length, drop};
ghost use Rattle.access.specs.row.Row.{Row};

use super::row;

// A block by the offset where it starts and its size.
#[derive(Clone, Copy)]
pub struct Placed {
    pub at: usize,
    pub size: usize,
}

// The blocks from `at` on.
#[derive(Clone, Copy)]
pub struct Rows<'a> {
    pub bytes: &'a [u8],
    pub at: usize,
}

impl<'a> Iterator for Rows<'a> {
    ghost use Rattle.access.specs.rows.Rows.{CanStep, GivesRow, rows_left};

    type Item = Placed;

    ghost can_next = { CanStep };

    ghost next_gives = { GivesRow };

    ghost remaining = { rows_left };

    #[inline(always)]
    fn next(&mut self) -> Option<Placed> {
        let at = self.at;
        if at < self.bytes.len() {
            let size = row::step(self.bytes, at);
            self.at = at + size;
            return Some(Placed { at, size });
        }
        None
    }
}

// The blocks of a row of blocks, from `first` on.
pub fn rows_from(z: &[u8], first: usize) -> Rows<'_>
    requires { Row (drop first z.now) × (first ≤ length z.now) }
    ensures bytes { result.bytes.now ≡ z.now }
    ensures at { result.at ≡ first }
{
    Rows {
        bytes: z,
        at: first,
    }
}

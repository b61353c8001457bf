// A stretch of blocks: a list of bytes that blocks tile.
ghost use Rattle.std.specs.Prelude.{◌≡◌, ◌/◌, ◌<◌, length, drop};
ghost use Rattle.block_type.specs.Limits.{free_code};
ghost use Rattle.block_check.specs.Word.{type_word, IsHeader};
ghost use Rattle.access.specs.row.Row.{Row, Stepped};

// The size of the block at p, with what a walk relies on. Other walks have such a function of one line too: what they go on with is another thing in each, of a row,
// of a bay that is rewritten, of pages before there is a row, and a generic one would take that fact as a parameter.
pub fn step(s: &[u8], p: usize) -> usize
    requires { Row (drop p s.now) × (p < length s.now) }
    ensures { Stepped s.now p result }
{
    block_check::size_at(s, p)
}

// The word of the block at p.
pub fn word(s: &[u8], p: usize) -> u32
    requires { Row (drop p s.now) × (p < length s.now) }
    ensures { IsHeader s.now p result }
{
    block_check::header_at(s, p)
}

// The size of the block at p, which is free, from its word w, with what a walk relies on.
pub fn step_free(s: &[u8], p: usize, w: u32) -> usize
    requires { Row (drop p s.now) × (p < length s.now) × IsHeader s.now p w × (w / type_word ≡ free_code) }
    ensures { Stepped s.now p result }
{
    block_check::free_size(w)
}

// Of any other block.
pub fn step_used(s: &[u8], p: usize, w: u32) -> usize
    requires { Row (drop p s.now) × (p < length s.now) × IsHeader s.now p w × (free_code < w / type_word) }
    ensures { Stepped s.now p result }
{
    block_check::used_size(w)
}

// A walker over the blocks of a zone: it holds an offset, and a step gives back the next walker and the block's description.
ghost use Rattle.std.specs.Prelude.{◌≡◌, ◌+◌, ◌<◌, ◌≤◌, max, IfOk, IfSome};
ghost use Rattle.block_type.specs.Limits.{longest_zone};
ghost use Rattle.zone.specs.Walker.{start_of_walk, walk_step};
ghost use Rattle.inspect.specs.walker.Found.{Found, size_in, Seen};
ghost use Rattle.inspect.specs.walker.Told.{walked_by, Sized};

use access::Zone;
use block_type::BlockType;
use calls::Refusal;

/// The place in a zone that a walk has come to: an offset in bytes, which may be any number.
#[derive(Clone, Copy, Debug, PartialEq, Eq)]
pub struct Walker {
    pub at: usize,
}

/// A block: its type, the offset where it starts and its size with its header, in bytes.
#[derive(Clone, Copy, Debug, PartialEq, Eq)]
pub struct Described {
    pub kind: BlockType,
    pub offset: usize,
    pub size: usize,
}

/// What a step answers: the walker after it, and the block that it went past, `None` where no block starts.
#[derive(Clone, Copy, Debug, PartialEq, Eq)]
pub struct Moved {
    pub next: Walker,
    pub block: Result<Option<Described>, Refusal>,
}

// The block that starts at `at`.
fn find(z: Zone<'_>, at: usize) -> Option<Described>
    ensures found { Found z.entry.bytes.now at result × (at + size_in result ≤ max at longest_zone) }
    ensures sized { IfSome result (λ block. 0 < block.size) }
{
    for block in z.blocks() {
        if block.at == at {
            return Some(Described {
                kind: block_check::block_type_at(z.bytes, at),
                offset: at,
                size: block.size,
            });
        }
    }
    None
}

// The block that starts at `at` in any buffer.
fn see(zone: &[u8], at: usize) -> Result<Option<Described>, Refusal>
    ensures seen { Seen zone.now at result }
    ensures sized { IfOk result Sized }
{
    let z = Zone::open(zone)?;
    Ok(find(z, at))
}

impl Walker {
    /// A walker at the zone's first block; at 0, where no block starts, if the zone is not well-formed. It is never refused.
    pub fn start(zone: &[u8]) -> Walker
        ensures { result.at ≡ start_of_walk zone.now }
    {
        let at = match Zone::open(zone) {
            Ok(z) => z.first_block(),
            Err(_) => 0,
        };
        Walker { at }
    }

    /// The walker moved to the end of the block that starts at its offset, and that block, with offset and size in bytes. At any other offset it stays, and
    /// the block is `None`. Refused with `NotWellFormed`: it stays, too.
    pub fn go(self, zone: &[u8]) -> Moved
        ensures walks { walked_by result.block result.next.at ≡ walk_step zone.now self.at }
        ensures sized { IfOk result.block Sized }
    {
        let mut next = self;
        let block = next.advance(zone);
        Moved { next, block }
    }

    /// Moves the caller's own walker, as `go` does, and answers the block. Refused with `NotWellFormed`: the walker stays.
    pub fn advance(&mut self, zone: &[u8]) -> Result<Option<Described>, Refusal>
        ensures walks { walked_by result self.new.at ≡ walk_step zone.now self.old.at }
        ensures sized { IfOk result Sized }
    {
        let block = see(zone, self.at);
        if let Ok(Some(b)) = block {
            self.at += b.size;
        }
        block
    }
}

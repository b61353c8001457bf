// A page's status: use a page, set or clear its flags. Only the status word is written, and by a use the clock.
ghost use Rattle.std.specs.Prelude.{◌≡◌, ℕ, ◌-◌, ◌<◌, ◌≤◌, length};
ghost use Rattle.bigendian.specs.BigEndian.{to_be, overwrite};
ghost use Rattle.block_type.specs.Limits.{clock_at};
ghost use Rattle.format.specs.WellFormed.{clock_field};
ghost use Rattle.calls.specs.Calls.{on_page, use_page, mark_page};
ghost use Rattle.calls.specs.Refusals.{answer_of, done_of};
ghost use Rattle.calls.specs.Pages.{tick, stamped, marked};
ghost use Rattle.zone.specs.Call.{result_of, call};
ghost use Rattle.pages.specs.status.Status.{mark_of, status_length, word_before, Reworded};

use access::locate::{self, Target};
use block_type::BlockType;
use calls::Refusal;

// What is done to a flag.
#[derive(Clone, Copy)]
pub enum Mark {
    SetDirty,
    ClearDirty,
    SetLock,
    ClearLock,
}

// A status word with a flag set or cleared.
fn marked_word(w: u32, m: Mark) -> u32
    ensures { Reworded (marked (mark_of m)) w result }
{
    match m {
        Mark::SetDirty => BlockType::DIRTY_BIT + w % BlockType::DIRTY_BIT,
        Mark::ClearDirty => w % BlockType::DIRTY_BIT,
        Mark::SetLock => w / BlockType::DIRTY_BIT * BlockType::DIRTY_BIT
            + (BlockType::LOCK_BIT + w % BlockType::LOCK_BIT),
        Mark::ClearLock => w / BlockType::DIRTY_BIT * BlockType::DIRTY_BIT
            + w % BlockType::LOCK_BIT,
    }
}

// A status word with another stamp.
fn stamped_word(w: u32, clock: u8) -> u32
    ensures { Reworded (stamped clock) w result }
{
    w / BlockType::LOCK_BIT * BlockType::LOCK_BIT + u32::from(clock)
}

// The status of the page whose data lie at `place` becomes what `change` makes of it.
fn reword<F: Fn(u32) -> u32>(zone: &mut [u8], place: usize, change: F)
    requires place { (status_length ≤ place) × (place ≤ length zone.old) }
    requires may { F.IsAlwaysCallable change }
    ensures { (w : ℕ) × F.post change (word_before zone.old place) w × (zone.new ≡ overwrite zone.old (place - status_length) (to_be 2 w)) }
{
    let at = place - (BlockType::PAGE_HEADER - BlockType::STATUS_AT);
    let word = change(bigendian::get2(zone, at));
    bigendian::put2(zone, at, word);
}

// Sets or clears a flag of a page.
pub fn mark_page(zone: &mut [u8], name: u32, m: Mark) -> Result<(), Refusal>
    ensures { result_of (done_of result) zone.new ≡ call (on_page name (mark_page (mark_of m))) zone.old }
{
    let page = locate::find(zone, Target::Name(name))?;
    reword(zone, page.at, |word| marked_word(word, m));
    Ok(())
}

// The clock's next value.
pub fn next_clock(z: &[u8]) -> u8
    requires { clock_at < length z.now }
    ensures { result ≡ tick (clock_field z.now) }
{
    z[block_type::CLOCK_AT].wrapping_add(1)
}

// Steps the clock and stamps the page with it. Answers the data offset.
pub fn use_page(zone: &mut [u8], name: u32) -> Result<u32, Refusal>
    ensures { result_of (answer_of result) zone.new ≡ call (on_page name use_page) zone.old }
{
    let page = locate::find(zone, Target::Name(name))?;
    let clock = next_clock(zone);
    reword(zone, page.at, |word| stamped_word(word, clock));
    zone[block_type::CLOCK_AT] = clock;
    Ok(page.at as u32)
}

// Size, read and view of a block that is named by handle, by pointer or by name.
#![tactic(auto)]

pub mod write;

ghost use Rattle.std.specs.Prelude.{◌≡◌, ◌+◌, ◌≤◌, length, IfOk, IfErr};
ghost use Rattle.block_type.specs.Limits.{longest_zone};
ghost use Rattle.calls.specs.Calls.{size, read, view};
ghost use Rattle.calls.specs.Refusals.{answer_of, shown_of};
ghost use Rattle.zone.specs.Call.{call};
ghost use Rattle.access.specs.locate.Named.{target_of};
ghost use Rattle.stretch.specs.Stretch.{view_start, view_length};
ghost use Rattle.stretch.specs.Part.{Reaches, IsShort, IsGranted, IsRefused, Shows};

use access::locate;
use access::locate::{Span, Target};
use calls::Refusal;
use std::ops::Range;

/// A part of a block's data: `count` bytes from `offset` on.
#[derive(Clone, Copy, Debug, PartialEq, Eq)]
pub struct Stretch {
    /// The block.
    pub block: Target,
    /// Where the part starts, in bytes from the block's first data byte.
    pub offset: u32,
    /// How long it is, in bytes.
    pub count: u32,
}

// The data size of a block.
pub fn size(zone: &[u8], block: Target) -> Result<u32, Refusal>
    ensures { answer_of result ≡ (call (size (target_of block)) zone.now).answer }
{
    let span = locate::find(zone, block)?;
    Ok(span.size as u32)
}

// The stretch of a block whose data are given, as a range of the zone's bytes, for a second buffer of `have` bytes.
fn reach(span: Span, s: Stretch, have: usize) -> Result<Range<usize>, Refusal>
    requires { span.at ≤ longest_zone }
    ensures ok { IfOk result (Reaches span s.offset s.count have) }
    ensures err { IfErr result (IsShort span s.offset s.count have) }
{
    let count = s.count as usize;
    if span.size < s.offset as usize + count {
        return Err(Refusal::PastBlockEnd);
    }
    if have < count {
        return Err(Refusal::ShortBuffer);
    }
    let start = span.at + s.offset as usize;
    Ok(start..start + count)
}

// The bytes of the zone that a stretch is, for a second buffer of `have` bytes.
pub fn part_of(zone: &[u8], s: Stretch, have: usize) -> Result<Range<usize>, Refusal>
    ensures ok { IfOk result (IsGranted zone.now (target_of s.block) s.offset s.count have) }
    ensures err { IfErr result (IsRefused zone.now (target_of s.block) s.offset s.count have) }
{
    let span = locate::find(zone, s.block)?;
    reach(span, s, have)
}

// Copies a stretch to the start of out.
pub fn read(zone: &[u8], s: Stretch, out: &mut [u8]) -> Result<(), Refusal>
    ensures { shown_of result out.new ≡ (call (read (target_of s.block) s.offset s.count out.old) zone.now).answer }
{
    let part = part_of(zone, s, out.len())?;
    memory::copy_in(out, 0, &zone[part]);
    Ok(())
}

// Where a stretch lies that is viewed, which needs no second buffer; refused, the empty part at the zone's first byte.
pub fn shown(zone: &[u8], s: Stretch) -> Range<usize>
    ensures { Shows zone.now (target_of s.block) s.offset s.count result }
{
    part_of(zone, s, s.count as usize).unwrap_or(0..0)
}

// A stretch, as the part of the zone that it is; refused, the empty part at the zone's first byte.
pub fn view<'a>(zone: &'a [u8], s: Stretch) -> &'a [u8]
    ensures result_value { result.now ≡ (call (view (target_of s.block) s.offset s.count) zone.now).answer.bytes }
    ensures ref_ptr_value { result.ref_ptr ≡ (zone.entry.ref_ptr.0, zone.entry.ref_ptr.1 + view_start (target_of s.block) s.offset s.count zone.now) }
    ensures result_len { length result.now ≡ view_length (target_of s.block) s.offset s.count zone.now }
{
    &zone[shown(zone, s)]
}

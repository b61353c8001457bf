// Write to a stretch of a block. All tests are made by a plan on `&[u8]`; the call then only copies.
ghost use Rattle.std.specs.Prelude.{◌≡◌};
ghost use Rattle.calls.specs.Calls.{write};
ghost use Rattle.calls.specs.Refusals.{shown_of};
ghost use Rattle.zone.specs.Call.{result_of, call};
ghost use Rattle.access.specs.locate.Named.{target_of};

use super::Stretch;
use calls::Refusal;

// Copies bytes from the start of src to a stretch.
pub fn write(zone: &mut [u8], s: Stretch, src: &[u8]) -> Result<(), Refusal>
    ensures { result_of (shown_of result src.now) zone.new ≡ call (write (target_of s.block) s.offset s.count src.now) zone.old }
{
    let part = super::part_of(zone, s, src.len())?;
    memory::copy_in(zone, part.start, &src[..s.count as usize]);
    Ok(())
}

// Drop a page: the block becomes free, merged with free neighbours, whatever its flags. No master changes.
ghost use Rattle.std.specs.Prelude.{◌≡◌, IfOk, IfErr};
ghost use Rattle.calls.specs.Calls.{on_page, drop_page};
ghost use Rattle.calls.specs.Refusals.{done_of};
ghost use Rattle.zone.specs.Call.{result_of, call};
ghost use Rattle.zone_check.specs.Sought.{unless_zero, page_in};
ghost use Rattle.call_laws.specs.Refused.{Refuses};
ghost use Rattle.pages.specs.drop.Ready.{Ready};

use access::{Zone, locate};
use block_type::BlockType;
use calls::Refusal;
use slide::blank;
use slide::blank::Extent;

// The page's extent in a well-formed zone, in which the page of that name starts at `page`, if there is one.
fn plan_in(z: Zone<'_>, name: u32, page: Option<usize>) -> Result<Extent, Refusal>
    requires { page ≡ unless_zero (page_in name z.bytes.now) }
    ensures ok { IfOk result (Ready z.entry.bytes.now name) }
    ensures err { IfErr result (Refuses (on_page name drop_page) z.entry.bytes.now) }
{
    match locate::by_page(z, name, page) {
        Some(span) => {
            let at = span.at - BlockType::PAGE_HEADER;
            Ok(free_block::extent_of(z.bytes, at, span.at + span.size))
        }
        None => Err(Refusal::NameAbsent),
    }
}

// Drops a page.
pub fn drop_page(zone: &mut [u8], name: u32) -> Result<(), Refusal>
    ensures { result_of (done_of result) zone.new ≡ call (on_page name drop_page) zone.old }
{
    let k = Zone::open_for(zone, name)?;
    let extent = plan_in(k.zone, name, k.page)?;
    let len = k.zone.bytes.len();
    blank::write_free(&mut zone[..len], extent);
    Ok(())
}

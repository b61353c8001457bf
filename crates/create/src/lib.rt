// Create a page: a block with a name, in the lowest bay whose sum reaches its size. Where none does, unlocked pages go first, in their turn.
#![tactic(auto)]

ghost use Rattle.std.specs.Prelude.{◌≡◌, [], ◌∷◌, ◌-◌, ◌<◌, ◌≤◌, length, IfOk, IfErr};
ghost use Rattle.block_type.specs.Limits.{page_header, clock_at};
ghost use Rattle.bigendian.specs.BigEndian.{overwrite};
ghost use Rattle.bay.specs.Bay.{held, gap};
ghost use Rattle.bay.specs.Sound.{bytes_of};
ghost use Rattle.structure.specs.Structure.{encode, decode_zone};
ghost use Rattle.structure.specs.IsZone.{IsZone};
ghost use Rattle.calls.specs.Calls.{on_page, create_page};
ghost use Rattle.calls.specs.Refusals.{answer_of};
ghost use Rattle.calls.specs.Pages.{tick};
ghost use Rattle.zone.specs.Work.{data_offset};
ghost use Rattle.zone.specs.Call.{in_line, result_of, call};
ghost use Rattle.room.specs.place.Fit.{blank_page, Fit};
ghost use Rattle.room.specs.place.Room.{Stands};
ghost use Rattle.zone_check.specs.Sought.{unless_zero, page_in};
ghost use Rattle.call_laws.specs.Refused.{Refuses};
ghost use Rattle.clear.specs.Cleared.{cleared};
ghost use Rattle.create.specs.Created.{created, made, Searched, SiteFor, limit_in, RoomFor, Ready};

use access::Zone;
use block_type::BlockType;
use calls::Refusal;
use pages::status;
use room::place;
use room::place::{Hole, Site};
use turn::search;

// Where there is room for the page.
#[derive(Clone, Copy)]
enum CreatePlan {
    // In the zone as it is.
    AtSite(Site),
    // Once the unlocked pages of rank below the limit have gone.
    AfterPages(u64),
}

// The lowest bay that has room for need bytes, and where.
fn find_site(z: &[u8], need: usize) -> Option<Site>
    requires { IsZone z.now × (0 < need) }
    ensures { Searched z.now need result }
{
    let first = bigendian::get4(z, block_type::FIRST_AT) as usize;
    place::find_room(z, first, need)
}

// The plan in a well-formed zone, in which the page of that name stands at `page`, if there is one.
fn plan_in(z: Zone<'_>, name: u32, page: Option<usize>, c: u32) -> Result<CreatePlan, Refusal>
    requires { page ≡ unless_zero (page_in name z.bytes.now) }
    ensures ok { IfOk result (Ready z.entry.bytes.now name c) }
    ensures err { IfErr result (Refuses (on_page name (create_page c)) z.entry.bytes.now) }
{
    if page.is_some() {
        return Err(Refusal::NamePresent);
    }
    if BlockType::PAGE_LIMIT < c {
        return Err(Refusal::TooLarge);
    }
    let need = BlockType::Page.need(c);
    // mostly there is room, and no page has to go
    match find_site(z.bytes, need) {
        Some(site) => Ok(CreatePlan::AtSite(site)),
        None => {
            let limit = search::find_turn(z, need)?;
            Ok(CreatePlan::AfterPages(limit))
        }
    }
}

// The unlocked pages of rank below the limit go.
fn clear_pages(z: &mut [u8], limit: u64)
    requires { IsZone z.old }
    ensures { z.new ≡ encode (cleared (decode_zone z.old).clock limit (decode_zone z.old)) }
{
    let first = bigendian::get4(z, block_type::FIRST_AT) as usize;
    let clock = z[block_type::CLOCK_AT];
    clear::clear(z, first, clock, limit);
}

// Where the page goes: there is room at that place, after pages have gone where the plan says so.
fn make_room(z: &mut [u8], need: usize, plan: CreatePlan) -> Site
    requires { RoomFor z.old need plan }
    ensures { (z.new ≡ encode (cleared (decode_zone z.old).clock (limit_in plan) (decode_zone z.old))) × SiteFor z.new need result }
{
    match plan {
        CreatePlan::AtSite(site) => site,
        CreatePlan::AfterPages(limit) => {
            clear_pages(z, limit);
            find_site(z, need).unwrap()
        }
    }
}

// The page's bytes in the hole, and the clock, which is its stamp. (allocate::relocatable::carve takes a
// master off the chain where this steps the clock: all that they share is room's, cut_block and cut_page.)
fn carve(z: &mut [u8], hole: Hole, need: usize, name: u32, stamp: u8)
    requires { Fit z.old hole.at hole.size need 0 × (page_header ≤ need) × (clock_at < length z.old) }
    ensures { z.new ≡ overwrite (overwrite z.old hole.at (bytes_of (held (blank_page need name stamp) ∷ gap (hole.size - need) []))) clock_at (stamp ∷ []) }
{
    place::cut_page(z, hole, need, name, stamp as u32);
    z[block_type::CLOCK_AT] = stamp;
}

// The new page at the site, in a bay that is compacted first where the site says so; the clock steps. Answers the data offset.
fn place_page(z: &mut [u8], need: usize, name: u32, site: Site) -> u32
    requires { SiteFor z.old need site }
    ensures { Stands (blank_page need name (tick (decode_zone z.old).clock)) (created need name (decode_zone z.old)) result × (z.new ≡ encode (created need name (decode_zone z.old))) }
{
    let stamp = status::next_clock(z);
    place::prepare(z, site);
    carve(z, site.hole, need, name, stamp);
    (site.hole.at + BlockType::PAGE_HEADER) as u32
}

// What the plan says, in the zone's bytes. Answers the data offset.
fn create_in(z: &mut [u8], name: u32, c: u32, plan: CreatePlan) -> u32
    requires { Ready z.old name c plan }
    ensures { (result ≡ data_offset name (made name c z.old)) × (z.new ≡ encode (in_line (made name c z.old))) }
{
    let need = BlockType::Page.need(c);
    let site = make_room(z, need, plan);
    place_page(z, need, name, site)
}

// A new page of c data bytes. Answers the data offset.
pub fn create_page(zone: &mut [u8], name: u32, c: u32) -> Result<u32, Refusal>
    ensures { result_of (answer_of result) zone.new ≡ call (on_page name (create_page c)) zone.old }
{
    let sought = Zone::open_for(zone, name)?;
    let plan = plan_in(sought.zone, name, sought.page, c)?;
    let len = sought.zone.bytes.len();
    Ok(create_in(&mut zone[..len], name, c, plan))
}

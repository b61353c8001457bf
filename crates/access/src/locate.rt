// Where the data of a block lie that is named by handle, by pointer or by name, and how many bytes they are.
ghost use Rattle.std.specs.Prelude.{◌≡◌, ◌&&◌, ◌+◌, ◌<◌, ◌≤◌, length, drop, eqb, IfOk, IfErr, MatchOption};
ghost use Rattle.block_type.specs.Limits.{fixed_code, fixed_header, smallest_block};
ghost use Rattle.format.specs.WellFormed.{type_of};
ghost use Rattle.calls.specs.Calls.{by_pointer, by_name};
ghost use Rattle.zone_check.specs.Sought.{unless_zero, page_in};
ghost use Rattle.access.specs.locate.Locate.{name_in};
ghost use Rattle.access.specs.locate.Found.{absence, NoData, IsData, NoSpan, IsSpan, IsFound, IsLost};
ghost use Rattle.access.specs.locate.Named.{target_of};

use super::Zone;
use block_type::BlockType;
use calls::Refusal;

/// Which block is meant: each block that is not free has one of these three.
#[derive(Clone, Copy, Debug, PartialEq, Eq)]
pub enum Target {
    /// A relocatable block by its handle, the number that `allocate_relocatable` answers: the place of its master, in bytes from the zone's first byte.
    Handle(u32),
    /// A fixed block by its pointer, the number that `allocate_fixed` answers: the place of its first data byte, in bytes from the zone's first byte.
    Pointer(u32),
    /// A page by its name, any number.
    Name(u32),
}

impl Target {
    // The name that the check looks for. No page is sought by handle or pointer: whatever page it finds for 0 then, nobody asks for it.
    fn name(self) -> u32
        ensures { result ≡ name_in (target_of self) }
    {
        match self {
            Target::Handle(_) | Target::Pointer(_) => 0,
            Target::Name(n) => n,
        }
    }

    // The refusal where no block is so named.
    fn absence(self) -> Refusal
        ensures { result ≡ absence (target_of self) }
    {
        match self {
            Target::Handle(_) => Refusal::HandleNotLive,
            Target::Pointer(_) => Refusal::PointerNotFixed,
            Target::Name(_) => Refusal::NameAbsent,
        }
    }
}

// Where a block's data begin, and how many bytes they are.
#[derive(Clone, Copy)]
pub struct Span {
    pub at: usize,
    pub size: usize,
}

// The data of a handle.
pub fn by_handle(z: Zone<'_>, handle: u32) -> Option<Span>
    ensures { MatchOption result (NoData z.entry.bytes.now handle) (IsData z.entry.bytes.now handle) }
{
    let first = z.first_block();
    let master = handle as usize;
    if !block_check::is_master(first, master) {
        return None;
    }
    let at = bigendian::get4(z.bytes, master) as usize;
    if at < first {
        return None;
    }
    let size = block_check::size_at(z.bytes, at - BlockType::RELOCATABLE_HEADER);
    Some(Span {
        at,
        size: size - BlockType::RELOCATABLE_HEADER,
    })
}

// Whether the block at `at` is fixed and has the pointer p.
pub fn is_pointer(z: &[u8], at: usize, p: usize) -> bool
    requires { at + smallest_block ≤ length z.now }
    ensures { result ≡ (eqb (type_of (drop at z.now)) fixed_code && eqb p (at + fixed_header)) }
{
    p == at + BlockType::FIXED_HEADER && block_check::block_type_at(z, at) == BlockType::Fixed
}

// The data of a pointer, found from block to block: only the start of a fixed block counts.
fn by_pointer(z: Zone<'_>, p: u32) -> Option<Span>
    ensures { MatchOption result (NoSpan z.entry.bytes.now (by_pointer p)) (IsSpan z.entry.bytes.now (by_pointer p)) }
{
    let place = p as usize;
    for block in z.blocks() {
        if is_pointer(z.bytes, block.at, place) {
            return Some(Span {
                at: place,
                size: block.size - BlockType::FIXED_HEADER,
            });
        }
    }
    None
}

// The data of a page, where the check says that it starts, if there is one. Its name is there for the contract alone.
pub fn by_page(z: Zone<'_>, name: u32, page: Option<usize>) -> Option<Span>
    requires { page ≡ unless_zero (page_in name z.bytes.now) }
    ensures { MatchOption result (NoSpan z.entry.bytes.now (by_name name)) (IsSpan z.entry.bytes.now (by_name name)) }
{
    let at = page?;
    Some(Span {
        at: at + BlockType::PAGE_HEADER,
        size: block_check::size_at(z.bytes, at) - BlockType::PAGE_HEADER,
    })
}

// The data of a block; `page` is where the page starts that is sought.
fn span_of(z: Zone<'_>, block: Target, page: Option<usize>) -> Option<Span>
    requires { page ≡ unless_zero (page_in (name_in (target_of block)) z.bytes.now) }
    ensures { MatchOption result (NoSpan z.entry.bytes.now (target_of block)) (IsSpan z.entry.bytes.now (target_of block)) }
{
    match block {
        Target::Handle(h) => by_handle(z, h),
        Target::Pointer(p) => by_pointer(z, p),
        Target::Name(n) => by_page(z, n, page),
    }
}

// The data of a block in any buffer.
pub fn find(zone: &[u8], block: Target) -> Result<Span, Refusal>
    ensures ok { IfOk result (IsFound zone.now (target_of block)) }
    ensures err { IfErr result (IsLost zone.now (target_of block)) }
{
    let sought = Zone::open_for(zone, block.name())?;
    span_of(sought.zone, block, sought.page).ok_or(block.absence())
}

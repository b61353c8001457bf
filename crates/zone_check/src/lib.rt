// Whether a zone is well-formed, and where in it the page of a name starts.
#![tactic(auto)]

ghost use Rattle.std.specs.Prelude.{◌≡◌, true, false, cond, eqb, ◌%◌, ◌<◌, ◌≤◌, length, is_some, MatchOption};
ghost use Rattle.std.specs.Option.{option_or, option_copied_mut};
ghost use Rattle.block_type.specs.Limits.{longest_zone, argument_range};
ghost use Rattle.format.specs.WellFormed.{header_ok, distinct, well_formed};
ghost use Rattle.format.specs.OneWalk.{links, body_ok};
ghost use Rattle.zone_check.specs.Body.{Walked, Found, Unseen, IsBad, Gone, Blocks};
ghost use Rattle.zone_check.specs.Table.{table_of};
ghost use Rattle.zone_check.specs.Checked.{IsBody, IsChecked};
ghost use Rattle.zone_check.specs.Header.{IsHeader};
ghost use Rattle.names.specs.Pages.{Pages, names_at};

use block_type::BlockType;
use names::seen::Seen;

// How far a walk has come that has met no block against the rules, and what it has met: whether the block before is free, how many blocks are relocatable, and
// whether it is certain that pages' names are distinct.
#[derive(Clone, Copy)]
struct Tally {
    at: usize,
    after_free: bool,
    count: usize,
    certain: bool,
}

// The name that is sought, and where the first page of that name starts, once it is met.
#[derive(Clone, Copy)]
struct Search {
    name: u32,
    page: Option<usize>,
}

impl Search {
    // Notes the page at `at`, whose name is x, if it is the first of the name sought.
    fn meet(&mut self, at: usize, x: u32)
        ensures { (self.new.name ≡ self.old.name) × (self.new.page ≡ option_or self.old.page (cond (eqb x self.old.name) (Some at) None)) }
    {
        if x == self.name && self.page.is_none() {
            self.page = Some(at);
        }
    }
}

// Goes on from block to block: None where a block breaks a rule. Pages' names are noted in `seen` as they are met, up to one that is not certainly new; without a
// table the walk ends before the first page. No iterator gives these blocks: there is no Row of access::rows before they are tested.
// `search` is lent: in the tally the page would take a register from every block, two instructions more a block, 5 % of the check.
// What is relocatable is asked first, since most blocks are: asked behind the others it takes five instructions more a block, 13 % of the check. A page takes two
// more for it, 2.6 % of the check of 1,000 pages.
// A block's word is read in the turn before, and is 0 in the first: so it stays one load, whatever is asked of it. It is read before a name is
// written, since a load behind a store may have to wait for it.
fn walk(
    z: &[u8],
    first: usize,
    begun: Tally,
    search: &mut Search,
    mut seen: Option<&mut Seen>,
) -> Option<Tally>
    requires { Walked z.now first begun.at begun.after_free begun.count
        × Unseen z.now (table_of (option_copied_mut seen)) first begun.at begun.certain
        × Found search.old.name z.now first begun.at search.old.page }
    ensures { MatchOption result (IsBad z.now first) (λ t. (search.new.name ≡ search.old.name) × Gone search.old.name z.now first (is_some seen.entry) t.at t.after_free t.count t.certain search.new.page) }
{
    let mut t = begun;
    let mut word = 0;
    while t.at < z.len() {
        let block = block_check::good_block(z, first, t.after_free, t.at, word)?;
        if block.kind == BlockType::Relocatable {
            t.after_free = false;
            t.count += 1;
            t.at += block.size;
            word = block_check::word_at(z, t.at);
        } else if block.kind == BlockType::Page {
            let Some(table) = &mut seen else {
                return Some(t);
            };
            let x = names::name_at(z, t.at);
            search.meet(t.at, x);
            t.after_free = false;
            t.at += block.size;
            word = block_check::word_at(z, t.at);
            t.certain = t.certain && table.is_new(x);
        } else {
            t.after_free = block.kind == BlockType::Free;
            t.at += block.size;
            word = block_check::word_at(z, t.at);
        }
    }
    Some(t)
}

// The walk over all blocks. As long as there is no page no table is made for names.
fn blocks_ok(z: &[u8], first: usize, search: &mut Search) -> Option<Tally>
    requires { (search.old.page ≡ None) × (0 < first) × (first ≤ length z.now) × (first % 4 ≡ 0) × (length z.now % 4 ≡ 0) × (length z.now ≤ longest_zone) }
    ensures { MatchOption result (IsBad z.now first) (λ t. Blocks search.old.name z.now first t.count t.certain search.new.page) }
{
    let begun = Tally {
        at: first,
        after_free: false,
        count: 0,
        certain: true,
    };
    let t = walk(z, first, begun, search, None)?;
    if t.at < z.len() {
        let mut seen = Seen::new();
        return walk(z, first, t, search, Some(&mut seen));
    }
    Some(t)
}

// Whether n masters are visited from `head` on, and the last holds 0. Inlined, its loop would keep its numbers on the stack.
#[inline(never)]
fn chain_ok(z: &[u8], first: usize, n: usize, head: usize) -> bool
    requires { (first ≤ length z.now) × (head < argument_range) }
    ensures { result ≡ links z.now first n head }
{
    let mut h = head;
    for _ in 0..n {
        if !block_check::is_master(first, h) {
            return false;
        }
        h = bigendian::get4(z, h) as usize;
    }
    h == 0
}

#[derive(Clone, Copy)]
struct Header {
    len: usize,
    first: usize,
    masters: usize,
    chain: usize,
}

// The fields of a header that passes its test. By & and not &&: seven tests are one value, as header_ok computes it; by && the answer would have eight ends to prove.
fn header_of(s: &[u8]) -> Option<Header>
    ensures { MatchOption result (header_ok s.now ≡ false) (IsHeader s.now) }
{
    if s.len() < block_type::ZONE_HEADER {
        return None;
    }
    let h = Header {
        len: bigendian::get4(s, block_type::LENGTH_AT) as usize,
        first: bigendian::get4(s, block_type::FIRST_AT) as usize,
        masters: bigendian::get4(s, block_type::MASTERS_AT) as usize,
        chain: bigendian::get2(s, block_type::CHAIN_AT) as usize,
    };
    let good = (s[block_type::ZERO_AT] == 0)
        & (h.len % 4 == 0)
        & (h.len <= s.len())
        & (h.len <= block_type::LONGEST_ZONE)
        & (h.masters <= block_type::MOST_MASTERS)
        & (h.first == block_type::ZONE_HEADER + block_type::MASTER_SIZE * h.masters)
        & (h.first <= h.len);
    if good { Some(h) } else { None }
}

// Whether no two pages have the same name. Where the walk was certain of it, nobody need look.
fn names_ok(z: &[u8], first: usize, certain: bool) -> bool
    requires { (Pages z.now first) × (certain ≡ true → distinct (names_at z.now first) ≡ true) }
    ensures { result ≡ distinct (names_at z.now first) }
{
    certain || names::rounds::names_distinct(z, first)
}

// A well-formed zone in a buffer: its length, the number of its relocatable blocks, and where the page of the name sought starts.
#[derive(Clone, Copy)]
pub struct Checked {
    pub len: usize,
    pub count: usize,
    pub page: Option<usize>,
}

// The test of what follows the header h, of a zone z with no bytes beyond.
fn body(z: &[u8], h: Header, name: u32) -> Option<Checked>
    requires { (0 < h.first) × (h.first ≤ length z.now) × (h.first % 4 ≡ 0) × (length z.now % 4 ≡ 0) × (length z.now ≤ longest_zone) × (h.chain < argument_range) }
    ensures { MatchOption result (body_ok z.now h.first h.masters h.chain ≡ false) (IsBody name z.now h.first h.masters h.chain) }
{
    let mut search = Search { name, page: None };
    let t = blocks_ok(z, h.first, &mut search)?;
    if t.count <= h.masters
        && chain_ok(z, h.first, h.masters - t.count, h.chain)
        && names_ok(z, h.first, t.certain)
    {
        return Some(Checked {
            len: z.len(),
            count: t.count,
            page: search.page,
        });
    }
    None
}

// The zone in the buffer, with the page of that name, where it is well-formed.
pub fn check_for(zone: &[u8], name: u32) -> Option<Checked>
    ensures { MatchOption result (well_formed zone.now ≡ false) (IsChecked name zone.now) }
{
    let h = header_of(zone)?;
    body(&zone[..h.len], h, name)
}

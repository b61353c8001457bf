// Whether the names of a zone's pages are distinct. The trees hold a part of them at a time: those behind are looked up, and the next round begins there.
ghost use Rattle.std.specs.Prelude.{◌≡◌, true, false, ◌&&◌, ◌+◌, ◌<◌, ◌≤◌, length, drop, MatchOption};
ghost use Rattle.block_type.specs.Limits.{page_header};
ghost use Rattle.format.specs.WellFormed.{split_blocks, is_page, name_of, names, distinct};
ghost use Rattle.names.specs.Pages.{Pages, Step, names_at, some};
ghost use Rattle.names.specs.Steps.{has_name, Taken, Filled, Round};

use super::trees::Trees;

// The size of the block at `at`, with what a walk over names relies on. The walks of this file are no `for` over access::rows: there is no Row before a zone is known.
fn step(z: &[u8], at: usize) -> usize
    requires { Pages z.now at × (at < length z.now) }
    ensures { Step z.now at result }
{
    block_check::size_at(z, at)
}

// Puts the name of the block at `at` into the trees, if it is a page; false where the name is there, or no place for it.
fn take(z: &[u8], at: usize, trees: &mut Trees) -> bool
    requires { (at < length z.now) × (is_page (drop at z.now) ≡ true → at + page_header ≤ length z.now) }
    ensures { Taken z.now trees.old trees.new at result }
{
    !block_check::is_page(z, at) || trees.insert(super::name_at(z, at))
}

// Puts the names from `from` on into trees that are empty, as far as they can be put there: up to the place that is told.
// A block's size is read before anything is written, so that the walk to the next block waits for no write.
fn fill(z: &[u8], from: usize, trees: &mut Trees) -> usize
    requires { Pages z.now from × (trees.old.free ≡ 1) }
    ensures { Filled z.now trees.new from result }
{
    let mut at = from;
    while at < z.len() {
        let n = step(z, at);
        if !take(z, at, trees) {
            return at;
        }
        at += n;
    }
    at
}

// Whether the block at `at` is a page whose name is in the trees.
fn is_met(z: &[u8], at: usize, trees: &Trees) -> bool
    requires { Pages z.now at × (at < length z.now) }
    ensures { result ≡ (is_page (drop at z.now) && has_name trees.now (name_of (drop at z.now))) }
{
    block_check::is_page(z, at) && trees.contains(super::name_at(z, at))
}

// Whether a name from `from` on is in the trees.
fn look(z: &[u8], from: usize, trees: &Trees) -> bool
    requires { Pages z.now from }
    ensures { result ≡ some (has_name trees.now) (names_at z.now from) }
{
    let mut at = from;
    while at < z.len() {
        if is_met(z, at, trees) {
            return true;
        }
        at += step(z, at);
    }
    false
}

// Goes on from `from` to where the trees are full, and looks up the names from there on. Tells that place; None where a name stands twice.
fn round(z: &[u8], from: usize) -> Option<usize>
    requires { Pages z.now from × (from < length z.now) }
    ensures { MatchOption result (distinct (names_at z.now from) ≡ false) (Round z.now from) }
{
    let mut trees = Trees::new();
    let at = fill(z, from, &mut trees);
    if look(z, at, &trees) { None } else { Some(at) }
}

// Whether no two pages from `first` on have the same name. (A round goes as far as the trees have room, so no iterator gives these rounds.)
pub fn names_distinct(z: &[u8], first: usize) -> bool
    requires { Pages z.now first }
    ensures { result ≡ distinct (names (split_blocks (drop first z.now))) }
{
    let mut at = first;
    while at < z.len() {
        let Some(next) = round(z, at) else {
            return false;
        };
        at = next;
    }
    true
}

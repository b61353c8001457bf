// Names in digital search trees, where a search takes at most as many steps as a name has bits, whatever the names are.
ghost use Rattle.std.specs.Prelude.{◌≡◌, ◌<◌, length};
ghost use Rattle.block_type.specs.Limits.{argument_range};
ghost use Rattle.names.specs.Tree.{many_heads, turned, below_of, end_of, has, Tree};

// A bit of a name decides between two branches.
const BRANCHES: usize = 2;

const NAME_BITS: usize = 32;

const HALF_RANGE: usize = block_type::ARGUMENT_RANGE as usize / BRANCHES;

// The trees of a round: roots, and one node more than there is room for names, since nodes count from 1. With two roots a name many names are alone.
const HEADS: usize = 1024;

const KEYS: usize = 513;

const LINKS: usize = HEADS + KEYS * BRANCHES;

// The bits of m in the order in which a search goes by them, lowest first: the lowest of m comes last.
fn turn(m: u64) -> usize
    requires { m < argument_range }
    ensures { result ≡ turned m }
{
    let bits = m as usize;
    bits / BRANCHES + bits % BRANCHES * HALF_RANGE
}

// Each node's name, the nodes that roots and branches lead to, 0 for none, since an Option<u16> has four bytes, and the first node that is not in use. They have
// 6 KiB of stack, and are lent and never copied.
#[derive(Drop)]
pub struct Trees {
    links: [u16; LINKS],
    keys: [u32; KEYS],
    free: usize,
    ghost grown: { Tree links keys many_heads free },
}

impl Trees {
    ghost use Rattle.names.specs.Steps.{Put};

    // No name.
    pub fn new() -> Trees
        ensures { result.free ≡ 1 }
    {
        Trees {
            links: [0; LINKS],
            keys: [0; KEYS],
            free: 1,
        }
    }

    // Where a search for x goes on that has met the node i at the place p: it stays there where there is no node, or x's.
    fn below(&self, x: u32, bits: usize, p: usize, i: usize) -> usize
        requires { i < length self.now.keys }
        ensures { result ≡ below_of self.now.keys many_heads x bits p i }
    {
        if i == 0 || self.keys[i] == x {
            p
        } else {
            HEADS + i * BRANCHES + bits % BRANCHES
        }
    }

    // Where a search for x ends: at the place of its node, or where that could be linked. After as many branches as x has bits only x's own node can stand.
    // The step from the root is made by itself, since whether a root has a node cannot be foreseen: behind it there is seldom another.
    fn seek(&self, x: u32) -> usize
        ensures { (result ≡ end_of self.now.links self.now.keys many_heads x) × (result < length self.now.links) }
    {
        let m = super::mix(x);
        let all = turn(m);
        let root = super::head(m, HEADS);
        let first = usize::from(self.links[root]);
        let mut p = self.below(x, all, root, first);
        let mut bits = all / BRANCHES;
        for _ in 1..NAME_BITS {
            let i = usize::from(self.links[p]);
            if i == 0 || self.keys[i] == x {
                return p;
            }
            p = HEADS + i * BRANCHES + bits % BRANCHES;
            bits = bits / BRANCHES;
        }
        p
    }

    // Whether the name x is in the trees.
    pub fn contains(&self, x: u32) -> bool
        ensures { result ≡ has self.now.links self.now.keys many_heads x }
    {
        let i = usize::from(self.links[self.seek(x)]);
        0 < i && self.keys[i] == x
    }

    // Puts x into the trees, and tells whether it did: not where x is there, or no node is left.
    pub fn insert(&mut self, x: u32) -> bool
        ensures { Put self.old self.new x result }
    {
        let node = self.free;
        if node == KEYS {
            return false;
        }
        let p = self.seek(x);
        if self.links[p] != 0 {
            return false;
        }
        self.keys[node] = x;
        self.links[p] = node as u16;
        self.free = node + 1;
        true
    }
}

// The names that a walk has met, a fingerprint of each, in a table with linear probing. That a name is new can be told for certain, that it was met cannot:
// another may have the same fingerprint.
ghost use Rattle.std.specs.Prelude.{◌≡◌, ◌≤◌, length, replicate};
ghost use Rattle.names.specs.Seen.{table_size, Noted};

const SLOTS: usize = 2048;

// So many slots are tried from a name's home on.
const PROBES: usize = 32;

// The last home, too, has that many: nothing goes round to the first slot.
pub const TABLE: usize = SLOTS + PROBES;

const PRINT_RANGE: u64 = 65536;

// Puts the name x into the table, and tells whether it is certain that it was not there. After a `false` the table says nothing more.
pub fn is_new(table: &mut [u16], x: u32) -> bool
    requires { table_size ≤ length table.old }
    ensures { Noted table.old table.new x result }
{
    let m = super::mix(x);
    let home = super::head(m, SLOTS);
    // It is odd: 0 is a slot that is empty.
    let print = (m % PRINT_RANGE / 2 * 2 + 1) as u16;
    for p in home..home + PROBES {
        let v = table[p];
        if v == 0 {
            table[p] = print;
            return true;
        }
        if v == print {
            return false;
        }
    }
    false
}

// The table of a walk. It has 4 KiB, and is lent and never copied.
#[derive(Drop)]
pub struct Seen {
    slots: [u16; TABLE],
}

impl Seen {
    // A table with no name.
    pub fn new() -> Seen
        ensures { result.slots ≡ replicate table_size 0 }
    {
        Seen { slots: [0; TABLE] }
    }

    pub fn is_new(&mut self, x: u32) -> bool
        ensures { Noted self.old.slots self.new.slots x result }
    {
        is_new(&mut self.slots, x)
    }
}

// The bytes of a well-formed zone, known by their type.
ghost use Rattle.std.specs.Prelude.{◌≡◌, true};
ghost use Rattle.bigendian.specs.BigEndian.{Bytes};
ghost use Rattle.format.specs.WellFormed.{well_formed, zone_of};

use super::rows;
use super::rows::Rows;
use calls::Refusal;

// The bytes of a well-formed zone, with none beyond its length. What changes a zone takes `&mut [u8]`, since the facts do not hold halfway.
#[derive(Clone, Copy)]
pub struct Zone<'a> {
    pub bytes: &'a [u8],
    pub ghost fits: { Bytes bytes.now },
    pub ghost well_formed: { well_formed bytes.now ≡ true },
    pub ghost whole: { zone_of bytes.now ≡ bytes.now },
}

// A well-formed zone, and where in it the page begins that is sought, if there is one.
#[derive(Clone, Copy)]
pub struct Sought<'a> {
    pub zone: Zone<'a>,
    pub page: Option<usize>,
}

impl<'a> Zone<'a> {
    ghost use Rattle.std.specs.Prelude.{IfOk, IfErr};
    ghost use Rattle.format.specs.WellFormed.{masters_field, chain_field};
    ghost use Rattle.access.specs.Checked.{Opened, OpenedFor, IsIll};
    ghost use Rattle.access.specs.row.Begins.{Begins};

    // The zone in a buffer.
    pub fn open(buffer: &'a [u8]) -> Result<Zone<'a>, Refusal>
        ensures ok { IfOk result (Opened buffer.now) }
        ensures err { IfErr result (IsIll buffer.now) }
    {
        let sought = Zone::open_for(buffer, 0)?;
        Ok(sought.zone)
    }

    // The zone in a buffer, with the page of that name.
    pub fn open_for(buffer: &'a [u8], name: u32) -> Result<Sought<'a>, Refusal>
        ensures ok { IfOk result (OpenedFor name buffer.now) }
        ensures err { IfErr result (IsIll buffer.now) }
    {
        let Some(k) = zone_check::check_for(buffer, name) else {
            return Err(Refusal::NotWellFormed);
        };
        Ok(Sought {
            zone: Zone {
                bytes: &buffer[..k.len],
            },
            page: k.page,
        })
    }

    // Where the first block begins.
    pub fn first_block(self) -> usize
        ensures { Begins self.entry.bytes.now result }
    {
        bigendian::get4(self.bytes, block_type::FIRST_AT) as usize
    }

    // The blocks, one after the other.
    pub fn blocks(self) -> Rows<'a>
        ensures bytes { result.bytes.now ≡ self.entry.bytes.now }
        ensures begins { Begins self.entry.bytes.now result.at }
    {
        let first = self.first_block();
        rows::rows_from(self.bytes, first)
    }

    // The number of masters, which lie before the first block.
    pub fn masters(self) -> usize
        ensures { result ≡ masters_field self.entry.bytes.now }
    {
        bigendian::get4(self.bytes, block_type::MASTERS_AT) as usize
    }

    // The first free master, the head of the chain; 0 where none is free, as the zone's bytes say it (`chain_field`).
    pub fn chain_head(self) -> usize
        ensures { result ≡ chain_field self.entry.bytes.now }
    {
        bigendian::get2(self.bytes, block_type::CHAIN_AT) as usize
    }
}

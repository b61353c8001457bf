// What the blocks of a zone are, with the type's numbers as its own constants; and the zone's own numbers beside them.
// A type's code, header and limit are tied to the definitions by the methods' clauses, every other number by its theorem in proofs/Constants.antt.
#![tactic(auto)]

ghost use Rattle.std.specs.Prelude.{◌≡◌, ◌≤◌, ◌*◌, ◌/◌};
ghost use Rattle.block_type.specs.Limits.{page_code, type_byte_unit, type_unit, handle_range};
ghost use Rattle.block_type.specs.Types.{type_code, type_header, type_limit, type_need, movable};

/// What a block is: its first two bits say it.
#[derive(Clone, Copy, Debug, PartialEq, Eq)]
pub enum BlockType {
    Free,
    Fixed,
    Relocatable,
    Page,
}

impl BlockType {
    pub const FREE_CODE: u8 = 0;

    pub const FIXED_CODE: u8 = 1;

    pub const RELOCATABLE_CODE: u8 = 2;

    // "A named block has type 3"
    pub const PAGE_CODE: u8 = 3;

    pub const FREE_HEADER: usize = 4;

    // "A fixed block's header becomes 4 bytes"
    pub const FIXED_HEADER: usize = 4;

    pub const RELOCATABLE_HEADER: usize = 4;

    pub const PAGE_HEADER: usize = 8;

    // "Relocatable: the same 14 bits, then the handle (2 bytes)"; of a fixed block "the second word"; of a page "a 4-byte name, a status word"
    pub const TAG_AT: usize = 2;

    pub const STATUS_AT: usize = 6;

    // "the top bit is dirty, the next is lock, the low byte a stamp": what each bit adds, and what a stamp is below
    pub const DIRTY_BIT: u32 = 32768;

    pub const LOCK_BIT: u32 = 16384;

    pub const STAMP_RANGE: u32 = 256;

    // "the handle (2 bytes)": handles are below
    pub const HANDLE_RANGE: u32 = 65536;

    // "A block's first two bits are its type": what stands above 6 bits of its first byte
    pub const TYPE_BYTE_UNIT: u8 = 64;

    // "14-bit size in words": the type is what stands above 14 bits of its first two bytes
    pub const TYPE_UNIT: usize = 16384;

    // of its first four bytes, behind the size the handle
    pub const TYPE_WORD: u32 = BlockType::TYPE_UNIT as u32 * BlockType::HANDLE_RANGE;

    // "Sizes include the header, are multiples of 4 and at least 4"
    pub const SMALLEST: usize = 4;

    // "(3 for fixed blocks: c above 32,760.)"
    pub const FIXED_LIMIT: u32 = 32760;

    pub const RELOCATABLE_LIMIT: u32 = 32760;

    pub const PAGE_LIMIT: u32 = 32756;

    /// The type of a block whose first byte this is.
    pub fn of_byte(byte: u8) -> BlockType
        ensures { type_code result ≡ byte / type_byte_unit }
    {
        BlockType::of_code(byte / BlockType::TYPE_BYTE_UNIT)
    }

    /// The type of a block whose first four bytes are this number.
    pub fn of_word(word: u32) -> BlockType
        ensures { type_code result ≡ word / (type_unit * handle_range) }
    {
        BlockType::of_code((word / BlockType::TYPE_WORD) as u8)
    }

    // Two bits say nothing else.
    fn of_code(code: u8) -> BlockType
        requires { code ≤ page_code }
        ensures { type_code result ≡ code }
    {
        // by halves, and no match: that costs a walk three instructions a block more, a tenth
        if code <= BlockType::FIXED_CODE {
            if code == BlockType::FREE_CODE {
                BlockType::Free
            } else {
                BlockType::Fixed
            }
        } else if code == BlockType::RELOCATABLE_CODE {
            BlockType::Relocatable
        } else {
            BlockType::Page
        }
    }

    /// The number in a block's first two bits.
    pub fn code(self) -> u8
        ensures { result ≡ type_code self }
    {
        match self {
            BlockType::Free => BlockType::FREE_CODE,
            BlockType::Fixed => BlockType::FIXED_CODE,
            BlockType::Relocatable => BlockType::RELOCATABLE_CODE,
            BlockType::Page => BlockType::PAGE_CODE,
        }
    }

    /// Whether blocks of this type slide.
    pub fn is_movable(self) -> bool
        ensures { result ≡ movable self }
    {
        matches!(self, BlockType::Relocatable | BlockType::Page)
    }

    /// How many bytes stand before a block's data.
    pub fn header(self) -> usize
        ensures { result ≡ type_header self }
    {
        match self {
            BlockType::Free => BlockType::FREE_HEADER,
            BlockType::Fixed => BlockType::FIXED_HEADER,
            BlockType::Relocatable => BlockType::RELOCATABLE_HEADER,
            BlockType::Page => BlockType::PAGE_HEADER,
        }
    }

    /// The largest data size that may be asked for: 0 for free blocks, which nobody asks for.
    pub fn limit(self) -> u32
        ensures { result ≡ type_limit self }
    {
        match self {
            BlockType::Free => 0,
            BlockType::Fixed => BlockType::FIXED_LIMIT,
            BlockType::Relocatable => BlockType::RELOCATABLE_LIMIT,
            BlockType::Page => BlockType::PAGE_LIMIT,
        }
    }

    /// How many bytes a block of c data bytes has, its header with them.
    pub fn need(self, c: u32) -> usize
        ensures { result ≡ type_need self c }
    {
        (self.header() + c as usize + 3) / 4 * 4
    }
}

// ---- the zone

// "Header, 16 bytes"
pub const ZONE_HEADER: usize = 16;

// "Masters follow, 4 bytes each"
pub const MASTER_SIZE: usize = 4;

// "L is a multiple of 4, at most the buffer's length and 1,048,576"
pub const LONGEST_ZONE: usize = 1048576;

// "m ≤ 8,188"
pub const MOST_MASTERS: usize = 8188;

// "Arguments are unsigned 32-bit": every argument, a name too, is below
pub const ARGUMENT_RANGE: u64 = 4294967296;

// "eight masters are added", for which the first bay gives up "32 bytes"
pub const ADDED_MASTERS: usize = 8;

pub const ADDED_BYTES: usize = 32;

// "at 0 the length L (4 bytes)"
pub const LENGTH_AT: usize = 0;

// "at 4 bkFst, offset of the first block (4)"
pub const FIRST_AT: usize = 4;

// "at 8 m, the number of master pointers (4)"
pub const MASTERS_AT: usize = 8;

// "at 12 hFstFree, offset of the first free master, 0 for none (2)"
pub const CHAIN_AT: usize = 12;

// "Header byte 14 becomes a clock, byte 15 remains zero"
pub const CLOCK_AT: usize = 14;

pub const ZERO_AT: usize = 15;

// a roster: "8 bytes a live handle (handle, data size; 4 bytes each)"
pub const RECORD_SIZE: usize = 8;

pub const AMOUNT_AT: usize = 4;

// a census: "i from 0 to 18"; "76 bytes: nineteen 4-byte limits in words", "the last is at most 524,288"
pub const STRATA: usize = 19;

pub const LIMIT_SIZE: usize = 4;

pub const LIMITS_LENGTH: usize = 76;

pub const HIGHEST_LIMIT: u32 = 524288;

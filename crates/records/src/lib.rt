// A run of call records: each record of 16 bytes is a call on the zone, and each prints a line.
#![tactic(auto)]

ghost use Rattle.std.specs.Prelude.{◌≡◌, [], ◌∷◌, ◌+◌, ◌<◌, ◌≤◌, ◌%◌, length};
ghost use Rattle.calls.specs.Calls.{by_handle, write};
ghost use Rattle.calls.specs.Refusals.{done_of};
ghost use Rattle.access.specs.locate.Named.{target_of};
ghost use Rattle.records.specs.Records.{act, read_byte, call, ran, run_record, decimal, text, line as shownLine, skip as shownSkip};
ghost use Rattle.records.specs.Shown.{line_of, Run};
ghost use Rattle.records.specs.Code.{asked};
ghost use Rattle.records.specs.Putting.{Put, Step};

use nafelode::{Refusal, Stretch, Target};

// "16-byte records: byte 0 code, 1 to 3 zero, then a, b, d of 4 bytes, high byte first"
const RECORD_LENGTH: usize = 16;

const A_AT: usize = 4;

const B_AT: usize = 8;

const D_AT: usize = 12;

/// The line of a record: `skip`, or the refusal number, 0 if done, and the value.
#[derive(Clone, Copy, Debug, PartialEq, Eq)]
pub enum Line {
    Skip,
    Said { number: u32, value: u32 },
}

impl From<Result<u32, Refusal>> for Line {
    ghost use Rattle.records.specs.Shown.{SaysValue};

    ghost from_gives = { SaysValue };

    fn from(answer: Result<u32, Refusal>) -> Line {
        match answer {
            Ok(value) => Line::Said { number: 0, value },
            Err(refusal) => Line::Said {
                number: refusal.number(),
                value: refusal.beside(),
            },
        }
    }
}

// A call without a value says 0 for it.
impl From<Result<(), Refusal>> for Line {
    ghost use Rattle.records.specs.Shown.{SaysDone};

    ghost from_gives = { SaysDone };

    fn from(answer: Result<(), Refusal>) -> Line {
        Line::Said {
            number: number(answer),
            value: 0,
        }
    }
}

// The refusal number of a call without a value, 0 if it is done.
fn number(answer: Result<(), Refusal>) -> u32
    ensures { result ≡ (done_of answer).number }
{
    match answer {
        Ok(()) => 0,
        Err(refusal) => refusal.number(),
    }
}

// What a record's code asks for.
#[derive(Clone, Copy, Debug, PartialEq, Eq)]
enum Code {
    Initialize,
    AllocateRelocatable,
    AllocateFixed,
    FreeHandle,
    FreePointer,
    Resize,
    WriteByte,
    ReadByte,
    Compact,
    Enlarge,
    Shrink,
}

// A code that no call has: its record is skipped.
#[derive(Clone, Copy, Debug, PartialEq, Eq)]
struct UnknownCode;

impl TryFrom<u8> for Code {
    type Error = UnknownCode;

    ghost use Rattle.records.specs.Code.{Decodes};

    ghost try_from_gives = { Decodes };

    fn try_from(code: u8) -> Result<Code, UnknownCode> {
        match code {
            0 => Ok(Code::Initialize),
            1 => Ok(Code::AllocateRelocatable),
            2 => Ok(Code::AllocateFixed),
            3 => Ok(Code::FreeHandle),
            4 => Ok(Code::FreePointer),
            5 => Ok(Code::Resize),
            6 => Ok(Code::WriteByte),
            7 => Ok(Code::ReadByte),
            8 => Ok(Code::Compact),
            9 => Ok(Code::Enlarge),
            10 => Ok(Code::Shrink),
            _ => Err(UnknownCode),
        }
    }
}

// The byte of handle h at offset i.
fn byte_at(h: u32, i: u32) -> Stretch
    ensures { (target_of result.block ≡ by_handle h) × (result.offset ≡ i) × (result.count ≡ 1) }
{
    Stretch {
        block: Target::Handle(h),
        offset: i,
        count: 1,
    }
}

// Writes the low byte of d to handle h at offset i.
fn write_byte(zone: &mut [u8], h: u32, i: u32, d: u32) -> Line
    ensures { ran (line_of result) zone.new ≡ act (call (write (by_handle h) i 1 (d % 256 ∷ []))) zone.old }
{
    let byte = [(d % 256) as u8; 1];
    Line::from(nafelode::write(zone, byte_at(h, i), &byte))
}

// Reads a byte of handle h at offset i: the byte is the value.
fn read_byte(zone: &[u8], h: u32, i: u32) -> Line
    ensures { ran (line_of result) zone.now ≡ act (read_byte h i) zone.now }
{
    let mut byte = [0u8; 1];
    let number = number(nafelode::read(zone, byte_at(h, i), &mut byte));
    Line::Said {
        number,
        value: u32::from(byte[0]),
    }
}

// Does what a code asks, with the record's three numbers.
fn run_code(zone: &mut [u8], code: Code, a: u32, b: u32, d: u32) -> Line
    ensures { ran (line_of result) zone.new ≡ act (asked code a b d) zone.old }
{
    match code {
        Code::Initialize => Line::from(nafelode::initialize(zone, a, b)),
        Code::AllocateRelocatable => Line::from(nafelode::allocate_relocatable(zone, a)),
        Code::AllocateFixed => Line::from(nafelode::allocate_fixed(zone, a)),
        Code::FreeHandle => Line::from(nafelode::free_handle(zone, a)),
        Code::FreePointer => Line::from(nafelode::free_pointer(zone, a)),
        Code::Resize => Line::from(nafelode::resize(zone, a, b)),
        Code::WriteByte => write_byte(zone, a, b, d),
        Code::ReadByte => read_byte(zone, a, b),
        Code::Compact => Line::from(nafelode::compact(zone)),
        Code::Enlarge => Line::from(nafelode::enlarge(zone, a)),
        Code::Shrink => Line::from(nafelode::shrink(zone, a)),
    }
}

// Does what a record asks of the zone.
pub fn run_record(zone: &mut [u8], bytes: &[u8]) -> Line
    ensures { ran (line_of result) zone.new ≡ run_record bytes.now zone.old }
{
    if bytes.len() != RECORD_LENGTH {
        return Line::Skip;
    }
    if !memory::all_zero(bytes, 1, A_AT) {
        return Line::Skip;
    }
    let Ok(code) = Code::try_from(bytes[0]) else {
        return Line::Skip;
    };
    let a = bigendian::get4(bytes, A_AT);
    let b = bigendian::get4(bytes, B_AT);
    let d = bigendian::get4(bytes, D_AT);
    run_code(zone, code, a, b, d)
}

// How many digits n has.
fn count_digits(n: u32) -> usize
    ensures { result ≡ length (decimal n) }
{
    let mut count = 1;
    let mut rest = n;
    while 10 <= rest {
        rest /= 10;
        count += 1;
    }
    count
}

fn digit(d: u32) -> u8
    requires { d < 10 }
    ensures { result ≡ 48 + d }
{
    (48 + d) as u8
}

// Puts the digits of n at `at`, the last one first.
fn put_decimal(out: &mut [u8], at: usize, n: u32) -> usize
    requires { at + length (decimal n) ≤ length out.old }
    ensures { Put (decimal n) at out.old out.new result }
{
    let end = at + count_digits(n);
    let mut i = end - 1;
    let mut rest = n;
    while 10 <= rest {
        out[i] = digit(rest % 10);
        i -= 1;
        rest /= 10;
    }
    out[i] = digit(rest);
    end
}

fn put_byte(out: &mut [u8], at: usize, x: u8) -> usize
    requires { at < length out.old }
    ensures { Put (x ∷ []) at out.old out.new result }
{
    out[at] = x;
    at + 1
}

fn put_numbers(out: &mut [u8], at: usize, number: u32, value: u32) -> usize
    requires { at + (length (decimal number) + (length (decimal value) + 2)) ≤ length out.old }
    ensures { Put (text (shownLine number value)) at out.old out.new result }
{
    let space = put_decimal(out, at, number);
    let second = put_byte(out, space, b' ');
    let end = put_decimal(out, second, value);
    put_byte(out, end, b'\n')
}

fn put_skip(out: &mut [u8], at: usize) -> usize
    requires { at + 5 ≤ length out.old }
    ensures { Put (text shownSkip) at out.old out.new result }
{
    memory::copy_in(out, at, b"skip\n");
    at + 5
}

// Puts a line's text at `at`. Answers where the next goes.
fn print_line(line: Line, out: &mut [u8], at: usize) -> usize
    requires { at + length (text (line_of line)) ≤ length out.old }
    ensures { Put (text (line_of line)) at out.old out.new result }
{
    match line {
        Line::Skip => put_skip(out, at),
        Line::Said { number, value } => put_numbers(out, at, number, value),
    }
}

// One record: the zone changes and the line is put at `at`. Answers where the next goes.
fn run_one(zone: &mut [u8], bytes: &[u8], out: &mut [u8], at: usize) -> usize
    requires { at + 22 ≤ length out.old }
    ensures { Step (run_record bytes.now zone.old) at out.old zone.new out.new result }
{
    let line = run_record(zone, bytes);
    print_line(line, out, at)
}

// All whole records of the input, their lines one after the other from the start of out. Answers how many bytes they are. A line has
// at most 22 bytes.
pub fn run_chunk(zone: &mut [u8], input: &[u8], out: &mut [u8]) -> usize
    requires { length input.now + length input.now ≤ length out.old }
    ensures { Run input.now zone.old zone.new out.new result }
{
    let mut i = 0;
    let mut at = 0;
    while RECORD_LENGTH <= input.len() - i {
        let end = i + RECORD_LENGTH;
        at = run_one(zone, &input[i..end], out, at);
        i = end;
    }
    at
}

// zone-run: call records from standard input, a line for each to standard output.
#![tactic(auto)]

ghost use Rattle.std.specs.Prelude.{◌≡◌, ◌+◌, ◌*◌, ◌<◌, ◌≤◌, length, take, is_ok, OnOk, OnErr, IfSome};
ghost use Rattle.std.specs.Counts.{IsPrefixLen};
ghost use Rattle.std.specs.Io.KnownBytes.{Consumes, Appends, IsAtEnd};
ghost use Rattle.zone_run.specs.Loop.{fresh_buffer, chunk_size, longest_input, Seen, Continues, Turned, goes_on, Ended, Wrote, Served, ledger_lines, Faithful};

use std::io;
use std::io::{Read, Write};

const ZONE: usize = 65536;
// A chunk is a whole number of records, and prints at most twice its length.
const CHUNK: usize = 65536;

const LINES: usize = 131072;

// How many bytes a turn read and how many they print, and what became of the reading and of the writing.
#[derive(Drop)]
struct Turn {
    got: usize,
    printed: usize,
    read: io::Result<()>,
    written: io::Result<()>,
}

// How the loop ended: the last turn, and how many full chunks came before it.
#[derive(Drop)]
struct End {
    full: u64,
    last: Turn,
}

#[tactic(auto, unfolding(crate::specs::Loop::fresh_buffer))]
fn fresh_buffer() -> [u8; ZONE]
    ensures { result ≡ fresh_buffer }
{
    [0; ZONE]
}

// Reads what comes next until the chunk is full, the input ends or a read fails. Answers how many bytes it put at the start of the chunk.
// By `read`, again and again: std's `read_exact` says nothing of what was read once it fails, as it does at the input's end.
fn read_chunk<R: Read>(reader: &mut R, chunk: &mut [u8]) -> (usize, io::Result<()>)
    requires { length chunk.old ≡ chunk_size }
    ensures counts { IsPrefixLen result.0 chunk.new }
    ensures taken { Consumes (R.remaining reader.old) (R.remaining reader.new) (take result.0 chunk.new) }
    ensures end { OnOk result.1 (result.0 < chunk_size → IsAtEnd (R.remaining reader.new)) }
    ensures cut { OnErr result.1 (result.0 < chunk_size) }
{
    let mut got = 0;
    while got < chunk.len() {
        match reader.read(&mut chunk[got..]) {
            Ok(0) => return (got, Ok(())),
            Ok(n) => got += n,
            Err(e) => return (got, Err(e)),
        }
    }
    (got, Ok(()))
}

// Writes the lines of a chunk that comes after `full` full ones: whoever calls it shows that they are those.
// By `write`, again and again: std's `write_all` says nothing of what was written once it fails.
fn write_lines<W: Write>(writer: &mut W, full: u64, chunk: &[u8], lines: &[u8]) -> io::Result<()>
    requires { Continues (full * chunk_size) chunk.now lines.now }
    ensures { Wrote (W.contents writer.old) (W.contents writer.new) lines.now (is_ok result) }
{
    let mut done = 0;
    while done < lines.len() {
        let n = writer.write(&lines[done..])?;
        if n == 0 {
            return Err(io::Error::from(io::ErrorKind::WriteZero));
        }
        done += n;
    }
    Ok(())
}

// A turn: reads a chunk that comes after `full` full ones, runs it and writes what it prints.
fn run_some<R: Read, W: Write>(
    reader: &mut R,
    writer: &mut W,
    zone: &mut [u8],
    chunk: &mut [u8],
    out: &mut [u8],
    full: u64,
) -> Turn
    requires seen { Seen (full * chunk_size) zone.old }
    requires chunk_len { (length chunk.old ≡ chunk_size) × (length out.old ≡ chunk_size + chunk_size) }
    ensures turned { Turned chunk.new out.new zone.old zone.new result.got result.printed }
    ensures taken { Consumes (R.remaining reader.old) (R.remaining reader.new) (take result.got chunk.new) }
    ensures wrote { Wrote (W.contents writer.old) (W.contents writer.new) (take result.printed out.new) (is_ok result.written) }
    ensures end { OnOk result.read (result.got < chunk_size → IsAtEnd (R.remaining reader.new)) }
    ensures cut { OnErr result.read (result.got < chunk_size) }
{
    let (got, read) = read_chunk(reader, chunk);
    let printed = records::run_chunk(zone, &chunk[..got], out);
    let written = write_lines(writer, full, &chunk[..got], &out[..printed]);
    Turn {
        got,
        printed,
        read,
        written,
    }
}

// Whether there is another turn after one that `full` full chunks precede.
#[tactic(auto, unfolding(crate::specs::Loop::goes_on))]
fn goes_on(turn: &Turn, full: u64) -> bool
    ensures { result ≡ goes_on turn.now.got (is_ok turn.now.written) full }
{
    if turn.got < CHUNK {
        return false;
    }
    if full < u64::MAX {
        return turn.written.is_ok();
    }
    false
}

// A proved loop has to end, and nothing says that the input does. So the full chunks are counted, up to a number that no run reaches.
fn run_all<R: Read, W: Write>(reader: &mut R, writer: &mut W, zone: &mut [u8]) -> End
    requires { zone.old ≡ fresh_buffer }
    ensures ended { Ended zone.new result.full result.last.got (is_ok result.last.written) }
    ensures served { Served (R.remaining reader.old) (R.remaining reader.new) (W.contents writer.old) (W.contents writer.new)
        (result.full * chunk_size + result.last.got) zone.new (is_ok result.last.written) }
    ensures end { OnOk result.last.read (result.last.got < chunk_size → IsAtEnd (R.remaining reader.new)) }
    ensures cut { OnErr result.last.read (result.last.got < chunk_size) }
{
    let mut chunk = [0; CHUNK];
    let mut out = [0; LINES];
    let mut full: u64 = 0;
    loop {
        let last = run_some(reader, writer, zone, &mut chunk, &mut out, full);
        if goes_on(&last, full) {
            full += 1;
        } else {
            return End { full, last };
        }
    }
}

// Runs the records that the reader gives on a buffer of zeros, and writes a line for each, which is the ledger's.
fn run<R: Read, W: Write>(reader: &mut R, writer: &mut W) -> io::Result<()>
    ensures all { OnOk result (IfSome (R.remaining reader.old) (λ input. length input ≤ longest_input
        → Appends (W.contents writer.old) (W.contents writer.new) (ledger_lines input))) }
    ensures faithful { Faithful (R.remaining reader.old) (R.remaining reader.new) (W.contents writer.old) (W.contents writer.new) (is_ok result) }
{
    let mut zone = fresh_buffer();
    let end = run_all(reader, writer, &mut zone);
    end.last.read?;
    end.last.written
}

fn main(rt: HostRuntime) -> io::Result<()> {
    run(&mut rt.stdin(), &mut rt.stdout())
}

#[cfg(test)]
mod tests {
    use super::*;
    use std::test::Fail;

    // Gives its bytes one read after the other, a few at a time, and then fails.
    #[derive(Drop)]
    struct Broken<'a> {
        rest: &'a [u8],
        most: usize,
    }

    impl Read for Broken<'_> {
        fn read(&mut self, buf: &mut [u8]) -> io::Result<usize> {
            if self.rest.is_empty() {
                return Err(io::Error::from(io::ErrorKind::ConnectionReset));
            }
            let most = buf.len().min(self.most);
            self.rest.read(&mut buf[..most])
        }
    }

    // Takes a few bytes a write, so many in all, and then fails.
    #[derive(Drop)]
    struct Full {
        bytes: Vec<u8>,
        left: usize,
    }

    impl Write for Full {
        fn write(&mut self, buf: &[u8]) -> io::Result<usize> {
            if self.left == 0 {
                return Err(io::Error::from(io::ErrorKind::StorageFull));
            }
            self.left -= 1;
            self.bytes.write(&buf[..buf.len().min(3)])
        }

        fn flush(&mut self) -> io::Result<()> {
            Ok(())
        }
    }

    // A zone of 64 bytes with 4 masters, a relocatable block for 6 bytes, a fixed one for none, and a handle that is no block's; and a
    // record that is cut off.
    const RECORDS: [u8; 72] =
        *b"\0\0\0\0\0\0\0\x40\0\0\0\x04\0\0\0\0\x01\0\0\0\0\0\0\x06\0\0\0\0\0\0\0\0\x02\0\0\0\0\0\0\0\0\0\0\0\0\0\0\0\x03\0\0\0\0\0\0\x14\0\0\0\0\0\0\0\0\x01\0\0\0\0\0\0\x06";

    const LINES: [u8; 18] = *b"0 0\n0 16\n0 64\n6 0\n";

    #[test]
    fn lines_of_records(rt: HostRuntime) -> Result<(), Fail> {
        let mut out = Vec::new(rt.alloc());
        run(&mut RECORDS.as_slice(), &mut out)?;
        assert_eq!(rt; out.as_slice(), LINES.as_slice());
        Ok(())
    }

    #[test]
    fn a_read_that_fails(rt: HostRuntime) -> Result<(), Fail> {
        let mut input = Broken {
            rest: &RECORDS,
            most: 7,
        };
        let mut out = Vec::new(rt.alloc());
        let error = run(&mut input, &mut out).err().ok_or("an answer")?;
        assert_eq!(rt; error.kind(), io::ErrorKind::ConnectionReset);
        assert_eq!(rt; out.as_slice(), LINES.as_slice());
        Ok(())
    }

    #[test]
    fn a_write_that_fails(rt: HostRuntime) -> Result<(), Fail> {
        let mut out = Full {
            bytes: Vec::new(rt.alloc()),
            left: 4,
        };
        let error = run(&mut RECORDS.as_slice(), &mut out)
            .err()
            .ok_or("an answer")?;
        assert_eq!(rt; error.kind(), io::ErrorKind::StorageFull);
        assert_eq!(rt; out.bytes.as_slice(), b"0 0\n0 16\n0 6".as_slice());
        Ok(())
    }
}

// Answers a batch on standard input: for each block what is asked of its text, and a line `.`; a batch that breaks the form ends
// with the line `bad batch`.
#![tactic(auto)]

ghost use Rattle.std.specs.Prelude.{◌<◌, IfOk, IfSome, length};

use answers::Way;
use batch::Header;
use std::io;
use std::io::{Read, Write};

// The longest header line, the most bytes of a text, and the most blocks.
const LONGEST: usize = 64;

const MOST: usize = 65536;

const BLOCKS: u64 = 0xffff_ffff_ffff_ffff;

// Why a batch stops: it breaks the form, an answer is too long, or a stream failed.
#[derive(Drop)]
enum Stop {
    Bad,
    Long,
    Failed(io::Error),
}

impl From<io::Error> for Stop {
    fn from(e: io::Error) -> Stop {
        Stop::Failed(e)
    }
}

// The next byte of the input, if there is one.
fn next_byte<R: Read>(input: &mut R) -> io::Result<Option<u8>> {
    let mut b = [0u8; 1];
    let n = stream::read_full(input, &mut b)?;
    Ok(if n == 0 { None } else { Some(b[0]) })
}

// Reads a header line up to its new line, and tells how long it is; none where the input ends before it.
fn read_line<R: Read>(input: &mut R, line: &mut [u8]) -> Result<Option<usize>, Stop>
    ensures { IfOk result (λ o. IfSome o (λ n. n < length line.new)) }
{
    for i in 0..line.len() {
        match next_byte(input)? {
            Some(b'\n') => return Ok(Some(i)),
            Some(b) => line[i] = b,
            None if i == 0 => return Ok(None),
            None => return Err(Stop::Bad),
        }
    }
    Err(Stop::Bad)
}

// Reads a text, and the new line behind it.
fn read_text<R: Read>(input: &mut R, text: &mut [u8]) -> Result<(), Stop> {
    let n = stream::read_full(input, text)?;
    if n < text.len() {
        return Err(Stop::Bad);
    }
    match next_byte(input)? {
        Some(b'\n') => Ok(()),
        _ => Err(Stop::Bad),
    }
}

// Prints what is asked of a text, by way of room for it, and a line `.`. It is never inlined: only a batch with a text needs the stack of an
// answer.
#[inline(never)]
fn put<W: Write>(output: &mut W, text: &[u8], way: Way, out: &mut [u8]) -> Result<(), Stop> {
    let Some(end) = answers::answer(text, way, out) else {
        return Err(Stop::Long);
    };
    output.write_all(&out[..end])?;
    output.write_all(b".\n")?;
    Ok(())
}

// How long the text of a block is, and what is asked of it.
fn asked(header: Header) -> (usize, Way) {
    match header {
        Header::Case(n) => (n, Way::Plain),
        Header::List(n) => (n, Way::Whole),
        Header::Check(n) => (n, Way::Check),
        Header::Rows(n) => (n, Way::Rows),
    }
}

// Answers the next block, by way of room for its text and for its answer; tells whether there was one.
fn block<R: Read, W: Write>(
    input: &mut R,
    output: &mut W,
    text: &mut [u8],
    out: &mut [u8],
) -> Result<bool, Stop> {
    let mut line = [0u8; LONGEST];
    let Some(len) = read_line(input, &mut line)? else {
        return Ok(false);
    };
    let Some(header) = batch::read_header(&line[..len]) else {
        return Err(Stop::Bad);
    };
    let (n, way) = asked(header);
    if text.len() < n {
        return Err(Stop::Bad);
    }
    read_text(input, &mut text[..n])?;
    put(output, &text[..n], way, out)?;
    Ok(true)
}

// Answers all blocks.
fn answer_all<R: Read, W: Write>(input: &mut R, output: &mut W) -> Result<(), Stop> {
    let mut text = [0u8; MOST];
    let mut out = [0u8; answers::LONGEST];
    for _ in 0..BLOCKS {
        if !block(input, output, &mut text, &mut out)? {
            return Ok(());
        }
    }
    Ok(())
}

fn main(rt: HostRuntime) -> io::Result<()> {
    let mut output = rt.stdout();
    match answer_all(&mut rt.stdin(), &mut output) {
        Ok(()) => Ok(()),
        Err(Stop::Bad) => output.write_all(b"bad batch\n"),
        Err(Stop::Long) => output.write_all(b"answer too long\n"),
        Err(Stop::Failed(e)) => Err(e),
    }
}

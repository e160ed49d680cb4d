// Lowers pages with what the lines on standard input lend, and prints what is told and whether everything lent stayed as it was. A line goes by its first
// letter: `PAGE`, behind which a page stands, up to a `;`; `LOWER NEXT IDS VALUES BYTES I`, with so much lent, and with the byte of its records at place I
// damaged, if there is one; `SAY`, which prints the rest of the line.
#![tactic(auto)]

ghost use Rattle.std.specs.Prelude.{◌≤◌};

use batch::line::{number, until};
use layout::IDS_END;
use lowering::Lowered;
use rail::Rail;
use reader::Reading;
use record::{ROOM, SIZE};
use refusal::Refusal;
use std::io;
use std::io::Write;

// The most bytes of input.
const MOST: usize = 65536;

// The most slots and the most bytes of rows that are lent here.
const SLOTS: usize = 32;

const BYTES: usize = 600;

// What stands in the lent slices and in the lent buffer before.
const ID: u32 = 7;

const BYTE: u8 = 9;

// How many ids there can be: those that are given, and the one past them.
const IDS: u64 = (IDS_END as u64) + 1;

// Prints what lowering told, by way of a buffer.
fn put_lowered<W: Write>(out: &mut W, told: Result<Lowered, Refusal>) -> io::Result<()> {
    let mut room = [0u8; 200];
    let mut rail = Rail {
        buf: &mut room,
        write: true,
        place: Some(0),
    };
    lines::lowered_line(told, &mut rail);
    match rail.place {
        Some(n) if n <= room.len() => out.write_all(&room[..n]),
        _ => Ok(()),
    }
}

// Prints whether everything lent is as it was, where the plate's first and last slots and rows are.
fn put_kept<W: Write>(
    out: &mut W,
    ids: [u32; SLOTS],
    values: [f64; SLOTS],
    rows: [u8; BYTES],
) -> io::Result<()> {
    if (ids[0] == ID)
        & (ids[12] == ID)
        & (values[0] == 0.5)
        & (values[12] == 0.5)
        & (rows[0] == BYTE)
        & (rows[219] == BYTE)
    {
        out.write_all(b"everything lent is as it was\n")
    } else {
        out.write_all(b"ids, values and rows are written\n")
    }
}

// A number of a line, the most where it is larger.
fn up_to(line: &[u8], k: usize, most: usize) -> usize
    ensures { result ≤ most }
{
    (number(line, k) as usize).min(most)
}

// Lowers records with so much lent as a line says, and prints what is told.
fn lower<W: Write>(out: &mut W, text: &[u8], records: &[u8], line: &[u8]) -> io::Result<()> {
    let next = (number(line, 1) % IDS) as u32;
    let i = up_to(line, 2, SLOTS);
    let v = up_to(line, 3, SLOTS);
    let b = up_to(line, 4, BYTES);
    let mut ids = [ID; SLOTS];
    let mut values = [0.5; SLOTS];
    let mut rows = [BYTE; BYTES];
    let r = lowering::lower(
        text,
        records,
        next,
        &mut ids[..i],
        &mut values[..v],
        &mut rows[..b],
    );
    put_lowered(out, r)?;
    put_kept(out, ids, values, rows)
}

// How many bytes the records of a reading take.
fn bytes_of(r: Result<Reading, Refusal>) -> usize {
    let Ok(read) = r else {
        return 0;
    };
    let count = read.instructions.wrapping_add(read.guesses);
    if ROOM / SIZE < count {
        return 0;
    }
    count * SIZE
}

// Damages the byte at a place, if there is one.
fn damage(records: &mut [u8], at: usize) {
    if at < records.len() {
        records[at] = 255;
    }
}

// Reads a page, damages a byte of its records, and lowers it.
fn read_and_lower<W: Write>(
    out: &mut W,
    text: &[u8],
    line: &[u8],
    records: &mut [u8],
) -> io::Result<()> {
    let r = reader::parse_whole(text, records);
    damage(records, number(line, 5) as usize);
    let n = bytes_of(r);
    if records.len() < n {
        return Ok(());
    }
    lower(out, text, &records[..n], line)
}

// Does so with a page, if there is one.
fn lower_page<W: Write>(out: &mut W, page: Option<&[u8]>, line: &[u8]) -> io::Result<()> {
    match page {
        Some(text) => {
            let mut records = [0u8; ROOM];
            read_and_lower(out, text, line, &mut records)
        }
        None => Ok(()),
    }
}

// Prints what stands behind `SAY` and a blank.
fn say<W: Write>(out: &mut W, line: &[u8]) -> io::Result<()> {
    if 4 <= line.len() {
        out.write_all(&line[4..])?;
        out.write_all(b"\n")?;
    }
    Ok(())
}

// Answers a line of a text, behind which the text goes on at a place, and hands on the page.
fn answer<'a, W: Write>(
    out: &mut W,
    text: &'a [u8],
    line: &[u8],
    then: usize,
    page: Option<&'a [u8]>,
) -> io::Result<Option<&'a [u8]>> {
    match text::byte_at(line, 0) {
        b'P' => return Ok(text.get(then..until(text, then, b';'))),
        b'L' => lower_page(out, page, line)?,
        b'S' => say(out, line)?,
        _ => {}
    }
    Ok(page)
}

// Answers all lines. A `while`, since a page begins behind its line, and may span lines.
fn answer_all<W: Write>(out: &mut W, text: &[u8]) -> io::Result<()> {
    let mut page = Some(&text[..0]);
    let mut at = 0;
    while at < text.len() {
        let end = until(text, at, b'\n');
        page = answer(out, text, &text[at..end], end + 1, page)?;
        at = end + 1;
    }
    Ok(())
}

fn main(rt: HostRuntime) -> io::Result<()> {
    let mut input = [0u8; MOST];
    let n = stream::read_full(&mut rt.stdin(), &mut input)?;
    answer_all(&mut rt.stdout(), &input[..n])
}

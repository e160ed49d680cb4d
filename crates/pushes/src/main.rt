// Answers the lines on standard input, which say what a layout is and what is lent, and ask for pushes, `done`s, lookups and readouts by the exported
// functions. A line goes by its first letter, and its numbers stand behind its first word. tests/pushes.py writes the lines and says what each asks.
#![tactic(auto)]

ghost use Rattle.std.specs.Prelude.{◌≤◌};

use batch::line::number;
use bridge::{PARTS, shapes};
use layout::{IDS_END, SLOTS};
use std::io;
use std::io::Write;

// The most bytes of input.
const MOST: usize = 65536;

// How many ids there can be: those that are given, and the one past them.
const IDS: u64 = (IDS_END as u64) + 1;

// A layout by its counts and the number of its stage, the next id, and how much of each slice is lent.
#[derive(Clone, Copy)]
struct Now {
    points: usize,
    circles: usize,
    arcs: usize,
    stage: usize,
    next: u32,
    ids: usize,
    values: usize,
}

// What is told: 0 or a refusal's number, and six numbers, as C is told.
#[derive(Clone, Copy)]
struct Told {
    code: u64,
    parts: [u64; PARTS],
}

// Prints a number after a blank: an id by its digits, a value by its bits, whole: `{:016x}` would write the zeros before it by themselves.
fn put_number<W: Write>(out: &mut W, n: u64, is_id: bool) -> io::Result<()> {
    if is_id {
        write!(out, " {n}")
    } else {
        out.write_all(b" ")?;
        out.write_all(&print::hex(n))
    }
}

// Prints numbers.
fn put_parts<W: Write>(out: &mut W, parts: &[u64], are_ids: bool) -> io::Result<()> {
    for part in parts {
        put_number(out, *part, are_ids)?;
    }
    out.write_all(b"\n")
}

// Prints a refusal's number and place.
fn put_refusal<W: Write>(out: &mut W, number: u64, place: u64) -> io::Result<()> {
    out.write_all(b" refused")?;
    put_number(out, number, true)?;
    put_number(out, place, true)?;
    out.write_all(b"\n")
}

// Prints what a lookup or a readout tells, under its name: a refusal, or so many of the numbers.
fn put_told<W: Write>(
    out: &mut W,
    name: &[u8],
    code: u64,
    parts: [u64; PARTS],
    count: usize,
    are_ids: bool,
) -> io::Result<()>
    requires { count ≤ 6 }
{
    out.write_all(name)?;
    if code != 0 {
        return put_refusal(out, code, parts[0]);
    }
    put_parts(out, &parts[..count], are_ids)
}

// Prints the counts and the stage.
fn put_layout<W: Write>(out: &mut W, parts: [u64; PARTS]) -> io::Result<()> {
    put_number(out, parts[0], true)?;
    put_number(out, parts[1], true)?;
    put_number(out, parts[2], true)?;
    match parts[3] {
        0 => out.write_all(b" points"),
        1 => out.write_all(b" circles"),
        2 => out.write_all(b" arcs"),
        _ => out.write_all(b" done"),
    }
}

// Prints what a push or `done` tells; after a push the next id too.
fn put_step<W: Write>(out: &mut W, letter: u8, t: Told) -> io::Result<()> {
    match letter {
        b'P' => out.write_all(b"point")?,
        b'C' => out.write_all(b"circle")?,
        b'A' => out.write_all(b"arc")?,
        _ => out.write_all(b"done")?,
    }
    let parts = t.parts;
    if t.code != 0 {
        return put_refusal(out, t.code, parts[0]);
    }
    put_layout(out, parts)?;
    if letter != b'D' {
        put_number(out, parts[4], true)?;
    }
    out.write_all(b"\n")
}

// Prints all ids.
fn put_ids<W: Write>(out: &mut W, ids: &[u32]) -> io::Result<()> {
    out.write_all(b"ids")?;
    for id in ids {
        put_number(out, *id as u64, true)?;
    }
    out.write_all(b"\n")
}

// Prints all values.
fn put_values<W: Write>(out: &mut W, values: &[f64]) -> io::Result<()> {
    out.write_all(b"values")?;
    for value in values {
        put_number(out, bits::to_bits(*value), false)?;
    }
    out.write_all(b"\n")
}

// Prints how many ids rise by one from a first one.
fn put_rising<W: Write>(out: &mut W, ids: &[u32], first: u64) -> io::Result<()> {
    out.write_all(b"rising")?;
    put_number(out, rising(ids, first), true)?;
    out.write_all(b"\n")
}

// How many ids rise by one from a first one.
fn rising(ids: &[u32], first: u64) -> u64 {
    ids.iter()
        .enumerate()
        .take_while(|(i, id)| **id as u64 == first.wrapping_add(*i as u64))
        .count() as u64
}

// Looks up and reads out the shapes with a number, and prints the answers.
fn look<W: Write>(out: &mut W, now: Now, ids: &[u32], values: &[f64], i: usize) -> io::Result<()> {
    let p = now.points;
    let c = now.circles;
    let a = now.arcs;
    let s = now.stage;
    let mut parts = [0u64; PARTS];
    out.write_all(b"number")?;
    put_number(out, i as u64, true)?;
    out.write_all(b"\n")?;
    let code = shapes::hunposeto_point_ids(p, c, a, s, ids, i, &mut parts);
    put_told(out, b"point_ids", code, parts, 2, true)?;
    let code = shapes::hunposeto_circle_ids(p, c, a, s, ids, i, &mut parts);
    put_told(out, b"circle_ids", code, parts, 3, true)?;
    let code = shapes::hunposeto_arc_ids(p, c, a, s, ids, i, &mut parts);
    put_told(out, b"arc_ids", code, parts, 6, true)?;
    let code = shapes::hunposeto_arc_slot_ids(p, c, a, s, ids, i, &mut parts);
    put_told(out, b"arc_slot_ids", code, parts, 6, true)?;
    let code = shapes::hunposeto_point(p, c, a, s, values, i, &mut parts);
    put_told(out, b"point", code, parts, 2, false)?;
    let code = shapes::hunposeto_circle(p, c, a, s, values, i, &mut parts);
    put_told(out, b"circle", code, parts, 3, false)?;
    let code = shapes::hunposeto_arc(p, c, a, s, values, i, &mut parts);
    put_told(out, b"arc", code, parts, 6, false)
}

// Steps the layout where the letter is that of `done`, and else pushes a shape of the letter's kind, whose components rise by a quarter from v.
fn step(letter: u8, now: Now, ids: &mut [u32], values: &mut [f64], v: f64) -> Told {
    let p = now.points;
    let c = now.circles;
    let a = now.arcs;
    let s = now.stage;
    let n = now.next;
    let w = v + 0.25;
    let x = v + 0.5;
    let y = v + 0.75;
    let z = v + 1.0;
    let u = v + 1.25;
    let mut out = [0u64; PARTS];
    let code = match letter {
        b'P' => shapes::hunposeto_push_point(p, c, a, s, n, ids, values, v, w, &mut out),
        b'C' => shapes::hunposeto_push_circle(p, c, a, s, n, ids, values, v, w, x, &mut out),
        b'A' => shapes::hunposeto_push_arc(p, c, a, s, n, ids, values, v, w, x, y, z, u, &mut out),
        _ => shapes::hunposeto_done(p, c, a, s, &mut out),
    };
    Told { code, parts: out }
}

// What stands after an answer: a refusal changes nothing, and `done` no id.
fn after(letter: u8, now: Now, t: Told) -> Now {
    if t.code != 0 {
        return now;
    }
    let parts = t.parts;
    let next = if letter == b'D' {
        now.next
    } else {
        id(parts[4])
    };
    Now {
        points: parts[0] as usize,
        circles: parts[1] as usize,
        arcs: parts[2] as usize,
        stage: parts[3] as usize,
        next,
        ..now
    }
}

// A number as an id.
fn id(n: u64) -> u32 {
    (n % IDS) as u32
}

// Steps, and steps so many times more, each time with components larger by one; prints the last answer.
fn steps<W: Write>(
    out: &mut W,
    line: &[u8],
    now: Now,
    ids: &mut [u32],
    values: &mut [f64],
) -> io::Result<Now> {
    let letter = text::byte_at(line, 0);
    let last = number(line, 2) % IDS;
    let mut now = now;
    let mut v = std::num::nearest_u64_to_f64(number(line, 1));
    for k in 0..last + 1 {
        let told = step(letter, now, ids, values, v);
        now = after(letter, now, told);
        if k == last {
            put_step(out, letter, told)?;
        }
        v += 1.0;
    }
    Ok(now)
}

// Prints what stands behind `SAY` and a blank.
fn say<W: Write>(out: &mut W, line: &[u8]) -> io::Result<()> {
    if 4 <= line.len() {
        out.write_all(&line[4..])?;
        out.write_all(b"\n")?;
    }
    Ok(())
}

// What stands after a line that gives a layout, the next id, or how much of each slice is lent.
fn given(line: &[u8], now: Now) -> Now {
    let mut then = now;
    match text::byte_at(line, 0) {
        b'L' => {
            then.points = number(line, 1) as usize;
            then.circles = number(line, 2) as usize;
            then.arcs = number(line, 3) as usize;
            then.stage = number(line, 4) as usize;
        }
        b'N' => then.next = id(number(line, 1)),
        b'R' => {
            then.ids = number(line, 1) as usize;
            then.values = number(line, 2) as usize;
        }
        _ => {}
    }
    then
}

// Answers a line over what is lent, and hands on what stands after it.
fn answer<W: Write>(
    out: &mut W,
    line: &[u8],
    now: Now,
    ids: &mut [u32],
    values: &mut [f64],
) -> io::Result<Now> {
    match text::byte_at(line, 0) {
        b'P' | b'C' | b'A' | b'D' => return steps(out, line, now, ids, values),
        b'S' => say(out, line)?,
        b'F' => look(out, now, ids, values, number(line, 1) as usize)?,
        b'I' => put_ids(out, ids)?,
        b'V' => put_values(out, values)?,
        b'U' => put_rising(out, ids, number(line, 1))?,
        _ => {}
    }
    Ok(given(line, now))
}

// Answers a line over the part of each slice that is lent.
fn answer_in<W: Write>(
    out: &mut W,
    line: &[u8],
    now: Now,
    ids: &mut [u32],
    values: &mut [f64],
) -> io::Result<Now> {
    let n = now.ids;
    let m = now.values;
    if ids.len() < n {
        return Ok(now);
    }
    if values.len() < m {
        return Ok(now);
    }
    answer(out, line, now, &mut ids[..n], &mut values[..m])
}

// Answers all lines.
fn answer_all<W: Write>(
    out: &mut W,
    text: &[u8],
    ids: &mut [u32],
    values: &mut [f64],
) -> io::Result<()> {
    let mut now = Now {
        points: 0,
        circles: 0,
        arcs: 0,
        stage: 0,
        next: 0,
        ids: 0,
        values: 0,
    };
    for line in text.split(|b| *b == b'\n') {
        now = answer_in(out, line, now, ids, values)?;
    }
    Ok(())
}

fn main(rt: HostRuntime) -> io::Result<()> {
    let mut input = [0u8; MOST];
    let n = stream::read_full(&mut rt.stdin(), &mut input)?;
    let mut ids = [7u32; SLOTS];
    let mut values = [9.5f64; SLOTS];
    answer_all(&mut rt.stdout(), &input[..n], &mut ids, &mut values)
}

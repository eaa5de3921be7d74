// The calls on takes: opening, one word, reading, the listing, and the strip.
use crate::fields::Line;
use crate::print;
use receiver::Soft;
use refusal::Refusal;
use std::io::{self, Write};

// The longest take that a record may have, and the longest of its buffers: a take that is too long for takelist has 65,537 bytes.
const TAKE: usize = 66000;

// The longest codeword that a record may have.
const WORD: usize = 1024;

// The longest strip that a record may have: a take of 66,000 bytes has fewer than 11,000 words.
const STRIP: usize = 300000;

// The record `open TAKE`.
pub fn open(out: &mut impl Write, line: Line) -> io::Result<()> {
    let mut take = [0; TAKE];
    match takes::open_take(line.bytes(1, &mut take)) {
        Ok(h) => writeln!(
            out,
            "opened {} {} {} {} {} {} {}",
            h.words, h.m, h.t, h.n, h.depth, h.offset, h.label
        ),
        Err(refusal) => writeln!(out, "{refusal}"),
    }
}

// Opens a take and decodes one of its words into the buffer.
fn decode(take: &[u8], index: usize, codeword: &mut [u8]) -> Result<Soft, Refusal> {
    takes::decode_word(take, takes::open_take(take)?, index, codeword)
}

// The record `word TAKE INDEX ROOM`.
pub fn word(out: &mut impl Write, line: Line) -> io::Result<()> {
    let mut take = [0; TAKE];
    let mut codeword = [7; WORD];
    let take = line.bytes(1, &mut take);
    let codeword = line.lend(3, &mut codeword);
    print::soft(out, decode(take, line.number(2), codeword))?;
    print::last(out, codeword)
}

// The record `take TAKE MESSAGES MARKS`.
pub fn read(out: &mut impl Write, line: Line) -> io::Result<()> {
    let mut take = [0; TAKE];
    let mut messages = [7; TAKE];
    let mut marks = [7; TAKE];
    let take = line.bytes(1, &mut take);
    let messages = line.lend(2, &mut messages);
    let marks = line.lend(3, &mut marks);
    print::totals(out, "read", takes::read_take(take, messages, marks))?;
    print::buffer(out, messages)?;
    print::last(out, marks)
}

// Prints the text of a program for the take that is word 1 of the line.
fn text<F: FnOnce(&[u8], &mut [u8; 900000]) -> usize>(
    out: &mut impl Write,
    line: Line,
    program: F,
) -> io::Result<()>
    requires { F.IsAlwaysCallable program }
{
    let mut take = [0; TAKE];
    let mut output = [0; 900000];
    let length = program(line.bytes(1, &mut take), &mut output).min(900000);
    out.write_all(&output[..length])
}

// The record `list TAKE`.
pub fn list(out: &mut impl Write, line: Line) -> io::Result<()> {
    text(out, line, listing::list)
}

// The record `length TAKE`.
pub fn strip_length(out: &mut impl Write, line: Line) -> io::Result<()> {
    let mut take = [0; TAKE];
    match printing::strip_length(line.bytes(1, &mut take)) {
        Ok(length) => writeln!(out, "length {length}"),
        Err(refusal) => writeln!(out, "{refusal}"),
    }
}

// The record `print TAKE ROOM`.
pub fn lay(out: &mut impl Write, line: Line) -> io::Result<()> {
    let mut take = [0; TAKE];
    let mut strip = [7; STRIP];
    let take = line.bytes(1, &mut take);
    let strip = line.lend(2, &mut strip);
    print::totals(out, "printed", printing::print_take(take, strip))?;
    print::last(out, strip)
}

// The record `strip TAKE`.
pub fn strip(out: &mut impl Write, line: Line) -> io::Result<()> {
    text(out, line, printing::print)
}

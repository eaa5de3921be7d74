// The calls on one word: the encoder, the hard stage and the soft stage.
use crate::fields::{Line, Setting};
use crate::print;
use receiver::Totals;
use std::io::{self, Write};

// The longest word that a record may have.
const ROOM: usize = 1024;

// The record `encode M T N MESSAGE ROOM`.
pub fn encode(out: &mut impl Write, line: Line) -> io::Result<()> {
    let mut message = [0; ROOM];
    let mut codeword = [7; ROOM];
    let Setting { m, t, n } = line.setting();
    let message = line.bytes(4, &mut message);
    let codeword = line.lend(5, &mut codeword);
    print::done(out, "written", encoder::encode(m, t, n, message, codeword))?;
    print::last(out, codeword)
}

// The record `hard M T N BITS ROOM`.
pub fn hard(out: &mut impl Write, line: Line) -> io::Result<()> {
    let mut bits = [0; ROOM];
    let mut codeword = [7; ROOM];
    let Setting { m, t, n } = line.setting();
    let bits = line.bytes(4, &mut bits);
    let codeword = line.lend(5, &mut codeword);
    print::hard(out, receiver::decode_hard(m, t, n, bits, codeword))?;
    print::last(out, codeword)
}

// The record `soft M T N DEPTH SYMBOLS ROOM`: the totals with its answer.
pub fn soft(out: &mut impl Write, line: Line, totals: Totals) -> io::Result<Totals> {
    let mut symbols = [0; ROOM];
    let mut codeword = [7; ROOM];
    let Setting { m, t, n } = line.setting();
    let depth = line.number(4);
    let symbols = line.bytes(5, &mut symbols);
    let codeword = line.lend(6, &mut codeword);
    let answer = receiver::decode_soft(m, t, n, depth, symbols, codeword);
    print::soft(out, answer)?;
    print::last(out, codeword)?;
    Ok(totals.counted(answer))
}

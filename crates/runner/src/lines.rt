// The input line by line.
ghost use Rattle.std.specs.Prelude.{◌≤◌, length, IfOk};

use crate::fields::Line;
use crate::{print, samples, take_calls, weights, word_calls};
use receiver::Totals;
use std::io::{self, Read, Write};

// How often the buffer is filled at most, so that the program ends whatever it reads.
const FILLS: usize = 1000000;

// Runs one record, and answers the totals of the soft records then.
fn run(out: &mut impl Write, line: Line, totals: Totals) -> io::Result<Totals> {
    if line.0.starts_with(b"#") {
        out.write_all(line.0)?;
        writeln!(out, "")?;
        return Ok(totals);
    }
    match line.word(0) {
        b"soft" => return word_calls::soft(out, line, totals),
        b"totals" => {
            print::totals(out, "totals", Ok(totals))?;
            writeln!(out, "")?;
            return Ok(Totals::NONE);
        }
        b"encode" => word_calls::encode(out, line),
        b"hard" => word_calls::hard(out, line),
        b"ladder" => samples::ladder(out, line),
        b"quantise" => samples::quantise(out, line),
        b"weights" => weights::weights(out, line),
        b"open" => take_calls::open(out, line),
        b"word" => take_calls::word(out, line),
        b"take" => take_calls::read(out, line),
        b"list" => take_calls::list(out, line),
        b"print" => take_calls::lay(out, line),
        b"length" => take_calls::strip_length(out, line),
        b"strip" => take_calls::strip(out, line),
        _ => writeln!(out, "unknown"),
    }?;
    Ok(totals)
}

// Runs each line that ends within the text, and answers the totals then and where the next line begins. (A `while`: `split` also gives a last
// line that does not end, and not where it begins.)
fn run_lines(out: &mut impl Write, text: &[u8], before: Totals) -> io::Result<(Totals, usize)>
    ensures { IfOk result (λ r. r.1 ≤ length text.now) }
{
    let mut totals = before;
    let mut at = 0;
    while let Some(long) = text[at..].iter().position(|byte| *byte == b'\n') {
        totals = run(out, Line(&text[at..at + long]), totals)?;
        at += long + 1;
    }
    Ok((totals, at))
}

// Reads on behind the first `kept` bytes, and answers how many bytes the buffer then holds.
fn fill(input: &mut impl Read, buffer: &mut [u8], kept: usize) -> io::Result<usize>
    requires { kept ≤ length buffer.old }
    ensures { IfOk result (λ have. (kept ≤ have) × (have ≤ length buffer.new)) }
{
    Ok(kept + filter::read_full(input, &mut buffer[kept..])?)
}

// Runs all records, with a buffer that has room for the longest line. A last line that does not end is not run.
pub fn run_all(input: &mut impl Read, out: &mut impl Write, buffer: &mut [u8]) -> io::Result<()> {
    let mut totals = Totals::NONE;
    let mut kept = 0;
    for _ in 0..FILLS {
        let have = fill(input, buffer, kept)?;
        if have == kept {
            break;
        }
        let (after, done) = run_lines(out, &buffer[..have], totals)?;
        totals = after;
        buffer.copy_within(done..have, 0);
        kept = have - done;
    }
    Ok(())
}

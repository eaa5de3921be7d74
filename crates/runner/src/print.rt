// Answers to a writer: a word first, then numbers and buffers, each behind a space.
use receiver::{Flips, Found, Soft, Totals};
use refusal::Refusal;
use std::io::{self, Write};

// Writes what a buffer holds.
pub fn buffer(out: &mut impl Write, bytes: &[u8]) -> io::Result<()> {
    if bytes.is_empty() {
        return write!(out, " -");
    }
    write!(out, " ")?;
    for byte in bytes {
        write!(out, "{byte:02x}")?;
    }
    Ok(())
}

// Writes what a buffer holds, and ends the line.
pub fn last(out: &mut impl Write, bytes: &[u8]) -> io::Result<()> {
    buffer(out, bytes)?;
    writeln!(out, "")
}

// Writes a word where a call did what it was asked, or its refusal.
pub fn done(out: &mut impl Write, word: &str, answer: Result<(), Refusal>) -> io::Result<()> {
    match answer {
        Ok(()) => write!(out, "{word}"),
        Err(refusal) => write!(out, "{refusal}"),
    }
}

// Writes the hard stage's answer: found, lost or the refusal, how many positions it flipped, and three places.
pub fn hard(out: &mut impl Write, answer: Result<Option<Flips>, Refusal>) -> io::Result<()> {
    match answer {
        Ok(Some(flips)) => {
            let [first, second, third] = flips.at;
            write!(out, "found {} {first} {second} {third}", flips.count)
        }
        Ok(None) => write!(out, "lost 0 0 0 0"),
        Err(refusal) => write!(out, "{refusal} 0 0 0 0"),
    }
}

// Writes a mark and the numbers of a codeword that was found.
fn found(out: &mut impl Write, mark: &str, found: Found) -> io::Result<()> {
    write!(
        out,
        "{mark} {} {} {} {} {}",
        found.distance, found.margin, found.flips, found.place, found.tries
    )
}

// Writes the soft stage's answer.
pub fn soft(out: &mut impl Write, answer: Result<Soft, Refusal>) -> io::Result<()> {
    match answer {
        Ok(Soft::Lost { tries }) => write!(out, "lost {tries}"),
        Ok(Soft::Fair(numbers)) => found(out, "fair", numbers),
        Ok(Soft::Sure(numbers)) => found(out, "sure", numbers),
        Err(refusal) => write!(out, "{refusal}"),
    }
}

// Writes a word and totals, or the refusal.
pub fn totals(out: &mut impl Write, word: &str, answer: Result<Totals, Refusal>) -> io::Result<()> {
    match answer {
        Ok(k) => write!(
            out,
            "{word} {} {} {} {} {}",
            k.words, k.sure, k.fair, k.lost, k.tries
        ),
        Err(refusal) => write!(out, "{refusal}"),
    }
}

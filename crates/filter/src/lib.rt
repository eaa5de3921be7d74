// What the programs share: a text that is made of the whole of standard input (a filter, in the Unix term).
#![tactic(auto)]

ghost use Rattle.std.specs.Prelude.{ℕ, ◌≡◌, ◌<◌, ◌≤◌, List, ◌++◌, take, drop, length, IfOk, OnOk, OnErr, IfSome};
ghost use Rattle.std.specs.Io.KnownBytes.{Appends, Consumes, IsAtEnd};

use std::io::{self, Read, Write};

// What a program prints for its input.
pub trait Filter {
    // Writes it to the front of a buffer, and answers how far.
    fn print(input: &[u8], text: &mut [u8; 900000]) -> usize
        ensures { result ≤ length text.new };
}

// The same, of a program whose output is known: it says by `output` what it prints.
pub trait KnownFilter {
    ghost output: { List ℕ → List ℕ };

    // Writes it to the front of a buffer, and answers how far.
    fn print(input: &[u8], text: &mut [u8; 900000]) -> usize
        ensures value { result ≡ length (output input.now) }
        ensures text { text.new ≡ output input.now ++ drop (length (output input.now)) text.old }
        ensures upper_bound { result ≤ length text.new };
}

// Reads until the buffer is full or the input ends, and answers how many bytes that are. Where the reader's bytes are known, those that it loses
// stand at the front of the buffer, after a failure too. (A `while`: a turn reads as many as there are. The library reads to the end only into
// a `Vec`, and what allocates nothing is not to begin.)
pub fn read_full<R: Read>(input: &mut R, buffer: &mut [u8]) -> io::Result<usize>
    ensures upper_bound { IfOk result (λ count. count ≤ length buffer.new) }
    ensures bytes { IfOk result (λ count. Consumes (R.remaining input.old) (R.remaining input.new) (take count buffer.new)) }
    ensures end { IfOk result (λ count. count < length buffer.new → IsAtEnd (R.remaining input.new)) }
    ensures failed { OnErr result ((n : ℕ) × (n ≤ length buffer.new) × Consumes (R.remaining input.old) (R.remaining input.new) (take n buffer.new)) }
    ensures room { length buffer.new ≡ length buffer.old }
{
    let mut done = 0;
    while done < buffer.len() {
        let count = input.read(&mut buffer[done..])?;
        if count == 0 {
            break;
        }
        done += count;
    }
    Ok(done)
}

// Prints what the program prints for the whole of standard input. One byte more is read than the programs accept, so that longer input is told
// apart. (No clause says what is printed: the library says nothing of the bytes that a runtime reads and prints. Nor can this call `run_known`,
// which asks for an `output`.)
pub fn run<F: Filter>(rt: &(impl Input + Print)) -> io::Result<()> {
    let mut input = [0; 65537];
    let mut text = [0; 900000];
    let count = read_full(&mut rt.reader(), &mut input)?;
    let length = F::print(&input[..count], &mut text);
    rt.write_all(&text[..length])
}

// Writes what the program prints for its input, and nothing else, where nothing fails. It reads as much as `run`. (The clauses speak where the
// reader's bytes are known, as a slice's are; those of a file or a terminal are not.)
pub fn run_known<F: KnownFilter, R: Read, W: Write>(
    reader: &mut R,
    writer: &mut W,
) -> io::Result<()>
    ensures read { OnOk result (IfSome (R.remaining reader.old) (λ bytes. Consumes (R.remaining reader.old) (R.remaining reader.new) (take 65537 bytes))) }
    ensures written { OnOk result (IfSome (R.remaining reader.old) (λ bytes. Appends (W.contents writer.old) (W.contents writer.new) (F.output (take 65537 bytes)))) }
{
    let mut input = [0; 65537];
    let mut text = [0; 900000];
    let got = read_full(reader, &mut input)?;
    let length = F::print(&input[..got], &mut text);
    writer.write_all(&text[..length])
}

#[cfg(test)]
mod tests;

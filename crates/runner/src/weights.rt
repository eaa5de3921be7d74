// The weights of all codewords of a code.
ghost use Rattle.std.specs.Prelude.{◌≤◌, length};

use crate::fields::{Line, Setting};
use refusal::Code;
use std::io::{self, Write};

// The longest codeword, and one more.
const ROOM: usize = 256;

// The most message bits of a code that is counted.
const MOST: usize = 24;

// Makes the message whose bit i is bit i of the number. (The encoder's `write_parity` is like it, and private.)
fn spread(number: u32, message: &mut [u8]) {
    let mut rest = number;
    for bit in message.iter_mut() {
        *bit = (rest % 2) as u8;
        rest /= 2;
    }
}

// How many positions of the codeword are not 0. (A sum: a filter's branch takes twice as long.)
fn weight(codeword: &[u8]) -> usize {
    codeword.iter().fold(
        0,
        |sum: usize, bit| sum.wrapping_add(usize::from(*bit != 0)),
    )
}

// Encodes one message and counts its codeword at its weight. No count wraps: there are at most 2^24 codewords.
fn count_message(c: Code, message: &[u8], codeword: &mut [u8], counts: &mut [usize]) {
    if encoder::encode(c.m, c.t, c.n, message, codeword).is_ok() {
        if let Some(count) = counts.get_mut(weight(codeword)) {
            *count = count.wrapping_add(1);
        }
    }
}

// Counts the codewords of all messages.
fn count_all(c: Code, message: &mut [u8], codeword: &mut [u8], counts: &mut [usize])
    requires { length message.old ≤ 24 }
{
    for number in 0..1 << message.len() {
        spread(number, message);
        count_message(c, message, codeword, counts);
    }
}

// Prints each weight that occurs.
fn print_counts(out: &mut impl Write, counts: &[usize]) -> io::Result<()> {
    write!(out, "weights")?;
    for (weight, count) in counts.iter().enumerate() {
        if 0 < *count {
            write!(out, " {weight}:{count}")?;
        }
    }
    Ok(())
}

// Prints the weights of a code.
fn print_weights(out: &mut impl Write, c: Code) -> io::Result<()> {
    let k = c.message_length();
    let n = c.length();
    if MOST < k {
        return write!(out, "too many messages");
    }
    if ROOM < n {
        return write!(out, "too long");
    }
    let mut message = [0; MOST];
    let mut codeword = [0; ROOM];
    let mut counts = [0; ROOM];
    count_all(c, &mut message[..k], &mut codeword[..n], &mut counts);
    print_counts(out, &counts)
}

// The record `weights M T N`.
pub fn weights(out: &mut impl Write, line: Line) -> io::Result<()> {
    let Setting { m, t, n } = line.setting();
    match refusal::settings(m, t, n) {
        Ok(c) => print_weights(out, c),
        Err(refusal) => write!(out, "{refusal}"),
    }?;
    writeln!(out, "")
}

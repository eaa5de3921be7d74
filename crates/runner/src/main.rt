// Makes the calls that standard input asks for, a line each, and prints what they answer and what the lent buffers then hold.
//
// The words of a line stand one space apart. A number is decimal. Bytes are two hex digits each and floats eight, the highest first, with
// nothing between; a hyphen stands for none. ROOM, MESSAGES and MARKS are the lengths of the lent buffers, which hold 7s before a call.
//
//     encode M T N MESSAGE ROOM           written, the codeword
//     hard M T N BITS ROOM                found or lost, the number of flips, three positions, the codeword
//     soft M T N DEPTH SYMBOLS ROOM       sure or fair, distance, margin, flips, place, tries, the codeword; or lost, tries
//     totals                              totals of the soft records since the last such line: words, sure, fair, lost, tries
//     ladder EDGES                        ladder
//     quantise EDGES KINDS LEVELS ROOM    written, the symbols
//     open TAKE                           opened, words, m, t, n, depth, offset, label
//     word TAKE INDEX ROOM                what soft prints, of one word of a take that is opened first
//     take TAKE MESSAGES MARKS            read, words, sure, fair, lost, tries, the messages, the marks
//     list TAKE                           the text of takelist
//     print TAKE ROOM                     printed, words, sure, fair, lost, tries, the strip
//     length TAKE                         length, the strip's bytes
//     strip TAKE                          the text of strip
//     weights M T N                       weights, WEIGHT:COUNT for each weight that occurs among all codewords
//
// A refusal is printed as `refused`, its number and its place; the hard stage's flips and positions stand behind that too. Behind every answer
// stand the buffers, also behind a refusal. A line that begins with # is printed as it stands, and of another kind of line is said that it is
// unknown. What is no digit counts as 0; what has no room in the program's own arrays is cut, and the answer then shows it.
// (Arrays, and a length beside each: nothing is allocated.)
#![tactic(auto)]

mod fields;
mod lines;
mod print;
mod samples;
mod take_calls;
mod weights;
mod word_calls;

use std::io;

fn main(rt: HostRuntime) -> io::Result<()> {
    let mut buffer = [0u8; 200000];
    lines::run_all(&mut rt.reader(), &mut io::writer(&rt), &mut buffer)
}

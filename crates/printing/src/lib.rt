// The strip of a take (document 02, §3): pages of lines of 24 characters, on a buffer that the caller lends.
//
//     let length = printing::strip_length(&take)?;    // lend so many bytes
//     match printing::print_take(&take, &mut strip) {
//         Ok(totals) => { .. }                           // the strip is in the buffer
//         Err(r) => { .. }                               // r.cause, r.place: the buffer is as it was
//     }
//
// What has a `requires` is in the private modules `line` (its fields) and `pages` (the lines of a take).
#![tactic(auto)]

ghost use Rattle.std.specs.Prelude.{◌≤◌, ◌≡◌, length};
ghost use Rattle.receiver.specs.Answer.{words_of};
ghost use Rattle.listing.specs.Takelist.{over};
ghost use Rattle.printing.specs.Answer.{length_of};
ghost use Rattle.printing.specs.Calls.{length_answer, strip_answer, strip_buffer, strip_output};

use listing::{Take, Text};
use receiver::Totals;
use refusal::{Cause, Refusal};

mod line;
mod pages;

// How long the strip of a take is: 25 bytes for each of its words and for each page's heading. Any bytes may be handed in: what can't be opened
// is refused.
pub fn strip_length(take: &[u8]) -> Result<usize, Refusal>
    ensures { length_of result ≡ length_answer take.now }
{
    let take = Take::open(take)?;
    Ok(pages::length_of(take.header.words))
}

// Reads a take, writes its strip and answers the totals. The strip is lent for exactly its length; any bytes and buffer may be handed in.
pub fn print_take(take: &[u8], strip: &mut [u8]) -> Result<Totals, Refusal>
    ensures answer { words_of result ≡ strip_answer take.now strip.old }
    ensures strip { strip.new ≡ strip_buffer take.now strip.old }
{
    let header = takes::read_header(take)?;
    if strip.len() != pages::length_of(header.words) {
        return Err(Cause::OutputLength.into());
    }
    let take = Take::open(take)?;
    Ok(pages::lay_whole(take, strip))
}

// Writes the whole output of the program `strip` for its input, and answers its length: the strip of a take, or what `takelist` prints where
// that is refused or too long. The buffer has room for every output. (A lent array and no `String`: nothing is allocated.)
pub fn print(input: &[u8], text: &mut [u8; 900000]) -> usize
    ensures value { result ≡ length (strip_output input.now) }
    ensures text { text.new ≡ over (strip_output input.now) text.old }
    ensures upper_bound { result ≤ length text.new }
{
    if 65536 < input.len() {
        return listing::list(input, text);
    }
    match Take::open(input) {
        Err(_) => listing::list(input, text),
        Ok(take) => {
            let mut out = Text::new(text);
            pages::lay(take, &mut out);
            out.len()
        }
    }
}

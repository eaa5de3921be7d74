// The text of the program `takelist` (document 01): its whole output for an input, on a buffer that the caller lends.
//
//     let length = listing::list(&input, &mut text);  // text[..length] is the output
//
// It is written from what another crate can use too, each for any input:
//
//     let mut text = listing::Text::new(&mut buffer);  // text that is put on a buffer, as far as there is room
//     let take = listing::Take::open(&bytes)?;         // a take that is opened
//     let totals = take.write::<MyRow>(&mut text);     // its words, each as the type's `Row` has it
#![tactic(auto)]

ghost use Rattle.std.specs.Prelude.{◌≤◌, ◌≡◌, length};
ghost use Rattle.listing.specs.Takelist.{takelist, over};

mod lines;
mod take;
mod text;

pub use take::{Row, Shown, Take, name_of};
pub use text::Text;

// Writes the program's whole output for its input, and answers its length. The buffer has room for every output.
// (A lent array and no `String`: nothing is allocated.)
pub fn list(input: &[u8], text: &mut [u8; 900000]) -> usize
    ensures value { result ≡ length (takelist input.now) }
    ensures text { text.new ≡ over (takelist input.now) text.old }
    ensures upper_bound { result ≤ length text.new }
{
    let mut out = Text::new(text);
    lines::output(input, &mut out);
    out.len()
}

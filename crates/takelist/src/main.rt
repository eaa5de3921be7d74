// takelist: lists the words of a take that is read from standard input, and their totals (document 01). All that is printed is the text that
// `listing::list` writes.
#![tactic(auto)]

ghost use Rattle.listing.specs.Takelist.{takelist};

use filter::KnownFilter;
use std::io;

struct Takelist;

impl KnownFilter for Takelist {
    ghost output = { takelist };

    fn print(input: &[u8], text: &mut [u8; 900000]) -> usize {
        listing::list(input, text)
    }
}

fn main(rt: HostRuntime) -> io::Result<()> {
    filter::run_known::<Takelist, _, _>(&mut rt.reader(), &mut io::writer(&rt))
}

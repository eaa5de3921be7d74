// strip: prints the strip of a take that is read from standard input (document 02, §3). All that is printed is the text that `printing::print`
// writes.
#![tactic(auto)]

ghost use Rattle.printing.specs.Calls.{strip_output};

use filter::KnownFilter;
use std::io;

struct Strip;

impl KnownFilter for Strip {
    ghost output = { strip_output };

    fn print(input: &[u8], text: &mut [u8; 900000]) -> usize {
        printing::print(input, text)
    }
}

fn main(rt: HostRuntime) -> io::Result<()> {
    filter::run_known::<Strip, _, _>(&mut rt.reader(), &mut io::writer(&rt))
}

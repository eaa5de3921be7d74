// The lines of a take that is opened, and the headings of its pages.
ghost use Rattle.std.specs.Prelude.{◌≡◌, ◌++◌, length};
ghost use Rattle.take_format.specs.Take.{totals as Take·totals};
ghost use Rattle.receiver.specs.Answer.{totals_told};
ghost use Rattle.listing.specs.Written.{Written};
ghost use Rattle.printing.specs.Layout.{answer_row, heading_at, strip_length};
ghost use Rattle.printing.specs.Calls.{take_strip};

use crate::line::Line;
use listing::{Row, Shown, Take, Text, name_of};
use receiver::Totals;

const HEADING: &[u8] = b"INDEX MARK DIST MARGN TR\n";

// The length of a strip of so many words.
pub fn length_of(words: u16) -> usize
    ensures { result ≡ strip_length words }
{
    let words = usize::from(words);
    25 * (words + words.div_ceil(40).max(1))
}

// The heading where a page starts.
fn page(text: &mut Text<'_>, w: usize)
    ensures { Written text.old (heading_at w) text.new }
{
    if w % 40 == 0 {
        text.characters(HEADING);
    }
}

// The line of a word, with the heading of its page before the first.
struct Strip;

impl Row for Strip {
    ghost form = { λ i a bits. heading_at i ++ answer_row i a };

    fn put(text: &mut Text<'_>, index: usize, shown: Shown, _message: &mut [u8]) {
        page(text, index);
        let mut line = Line::EMPTY;
        line.number(2, shown.tries, b'\n');
        line.signed(5, shown.margin, b' ');
        line.number(4, shown.distance, b' ');
        line.characters(4, name_of(shown.mark), b' ');
        line.number(5, index, b' ');
        text.characters(line.text());
    }
}

// All words, or the heading alone.
pub fn lay(take: Take<'_>, text: &mut Text<'_>) -> Totals
    ensures text { Written text.old (take_strip take.entry.bytes.now) text.new }
    ensures totals { totals_told result ≡ Take·totals take.entry.bytes.now }
{
    if take.words() == 0 {
        text.characters(HEADING);
    }
    take.write::<Strip>(text)
}

// The same on a buffer of the strip's length.
pub fn lay_whole(take: Take<'_>, strip: &mut [u8]) -> Totals
    requires { length strip.old ≡ strip_length take.header.words }
    ensures strip { strip.new ≡ take_strip take.entry.bytes.now }
    ensures totals { totals_told result ≡ Take·totals take.entry.bytes.now }
{
    let mut text = Text::new(strip);
    lay(take, &mut text)
}

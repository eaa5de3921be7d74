// The lines of a listing.
ghost use Rattle.std.specs.Prelude.{◌≤◌, ◌≡◌, length};
ghost use Rattle.bch.specs.Words.{Bits};
ghost use Rattle.refusal.specs.Checked.{refusal_of};
ghost use Rattle.receiver.specs.Answer.{totals_told};
ghost use Rattle.listing.specs.Text.{bits_text, word_line, totals_line, refusal_line};
ghost use Rattle.listing.specs.Takelist.{takelist};
ghost use Rattle.listing.specs.Written.{Written};

use crate::{Row, Shown, Take, Text, name_of};
use receiver::{Mark, Totals};
use refusal::Refusal;

// Bits as characters, in their place. (`wrapping_add`, so that nothing is required of them.)
fn bits(bits: &mut [u8])
    ensures { Bits bits.old → bits.new ≡ bits_text bits.old }
{
    for b in bits {
        *b = b.wrapping_add(48);
    }
}

// The line of a word: index, mark, L, margin, tries, message.
struct Line;

impl Row for Line {
    ghost form = { word_line };

    fn put(text: &mut Text<'_>, index: usize, shown: Shown, message: &mut [u8]) {
        text.number(index, b' ');
        text.characters(name_of(shown.mark));
        text.character(b' ');
        text.number(shown.distance, b' ');
        text.signed(shown.margin, b' ');
        text.number(shown.tries, b' ');
        match shown.mark {
            Mark::Lost => text.character(b'-'),
            Mark::Fair | Mark::Sure => {
                bits(message);
                text.characters(message);
            }
        }
        text.character(b'\n');
    }
}

// `refused`, number, place.
fn refused(text: &mut Text<'_>, r: Refusal)
    ensures { Written text.old (refusal_line (refusal_of r)) text.new }
{
    text.characters(b"refused ");
    text.number(r.cause.number(), b' ');
    text.number(r.place, b'\n');
}

// Words, sure, fair, lost, tries.
fn totals(text: &mut Text<'_>, k: Totals)
    ensures { Written text.old (totals_line (totals_told k)) text.new }
{
    text.number(k.words, b' ');
    text.number(k.sure, b' ');
    text.number(k.fair, b' ');
    text.number(k.lost, b' ');
    text.number(k.tries, b'\n');
}

// The program's whole output for its input.
pub fn output(input: &[u8], text: &mut Text<'_>)
    ensures text { Written text.old (takelist input.now) text.new }
    ensures upper_bound { length (takelist input.now) ≤ 900000 }
{
    if 65536 < input.len() {
        return text.characters(b"too long\n");
    }
    match Take::open(input) {
        Ok(take) => {
            let k = take.write::<Line>(text);
            totals(text, k);
        }
        Err(r) => refused(text, r),
    }
}

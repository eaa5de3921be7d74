// The receiver of a BCH word (document 01, "Hard stage" and "Soft stage"; bounded-distance and soft-decision decoding).
//
//     match receiver::decode_hard(6, 2, 63, &bits, &mut codeword) {
//         Ok(Some(flips)) => { .. }    // the codeword is in the buffer, and flips.at has the flips.count flipped positions
//         Ok(None) => { .. }           // lost: no codeword within t flips, and the buffer is as it was
//         Err(r) => { .. }             // r.cause, r.place: the buffer is as it was
//     }
//
//     match receiver::decode_soft(6, 2, 63, 4, &symbols, &mut codeword) {
//         Ok(Soft::Sure(found)) => { .. }      // no codeword of the whole code is nearer: found.distance, found.margin
//         Ok(Soft::Fair(found)) => { .. }      // the nearest of those that the search found
//         Ok(Soft::Lost { tries }) => { .. }   // it found none: the buffer is as it was
//         Err(r) => { .. }
//     }
//
//     match receiver::decode_words(6, 2, 63, 4, 20, &symbols, &mut messages, &mut marks) {
//         Ok(totals) => { .. }     // 20 words: their messages and marks are in the buffers
//         Err(r) => { .. }
//     }
//
// A call checks its settings and what else it is given, which names a code (`refusal`), and fills that code's tables (`tables`). The hard stage
// adds up the syndromes S1, S3, S5 (`hard_stage`), finds the positions to flip (`locate`) and only then writes. The soft stage ranks the
// symbols (by the crate `ranking`; `least_keys`), has the syndromes and the weights of test words without writing them out (`test_words`),
// locates and weighs one test word after the other (`search`, `weighing`) and only then writes (`soft_stage`). Several words share their tables
// (`all_words`). What has a `requires` is in private modules, so that this is one crate: to split it would make such functions public. What the
// check has made sure of is handed on as clauses, up to the types that hold it (`Field`, `Ranked`): `Code` has public fields, and a type around
// it would be made in one place and taken apart in the next.
//
// (Modules `hard`, `soft` and `words` would differ only in case from the enums, which is refused. Numbers are cast by `as` where no `From`
// goes: from 32 bits to usize, to fewer bits, and of an enum. The public calls take m, t and n as three numbers, and bytes of marks, as C hands them over.)
#![tactic(auto)]

ghost use Rattle.std.specs.Prelude.{◌≡◌};
ghost use Rattle.bch.specs.Code.{code};
ghost use Rattle.take_format.specs.Calls.{hard_answer, hard_buffer, soft_answer, soft_buffer, words_answer, messages_buffer, marks_buffer};
ghost use Rattle.take_format.specs.Batch.{counted_of, capped};
ghost use Rattle.receiver.specs.Answer.{hard_of, soft_of, totals_told, with_answer, words_of, byte_of};

pub use flips::Flips;
use refusal::Refusal;

mod all_words;
mod flips;
mod hard_stage;
mod least_keys;
mod locate;
mod search;
mod soft_stage;
mod tables;
mod test_words;
mod weighing;

// Writes the codeword within t flips of n bits, where there is one, and answers the flipped positions; a word that is lost has none. Any m, t,
// n, bits and buffer may be handed in.
#[tactic(auto, using(crate::proofs::Called::hard_called))]
pub fn decode_hard(
    m: usize,
    t: usize,
    n: usize,
    bits: &[u8],
    codeword: &mut [u8],
) -> Result<Option<Flips>, Refusal>
    ensures answer { hard_of result ≡ hard_answer (code m t n) bits.now codeword.old }
    ensures codeword { codeword.new ≡ hard_buffer (code m t n) bits.now codeword.old }
{
    let c = refusal::of_word(m, t, n, bits, codeword.len())?;
    Ok(hard_stage::decode(c, bits, codeword))
}

// A codeword that the soft stage found. Distance is L, margin A - L, flips q, place the test word j that gave it, and tries the hard
// decodings made.
#[derive(Clone, Copy, Debug, PartialEq, Eq)]
pub struct Found {
    pub distance: usize,
    pub margin: i32,
    pub flips: usize,
    pub place: usize,
    pub tries: usize,
}

// The soft stage's answer: a word that is lost; or a codeword, the best of those found (fair) or one that no codeword of the whole code is
// nearer than (sure).
#[derive(Clone, Copy, Debug, PartialEq, Eq)]
pub enum Soft {
    Lost { tries: usize },
    Fair(Found),
    Sure(Found),
}

// Writes the codeword that the search of the given depth finds for n symbols, where it finds one. Any m, t, n, depth, symbols and
// buffer may be handed in.
pub fn decode_soft(
    m: usize,
    t: usize,
    n: usize,
    depth: usize,
    symbols: &[u8],
    codeword: &mut [u8],
) -> Result<Soft, Refusal>
    ensures answer { soft_of result codeword.new ≡ soft_answer (code m t n) depth symbols.now codeword.old }
    ensures codeword { codeword.new ≡ soft_buffer (code m t n) depth symbols.now codeword.old }
{
    let c = refusal::of_symbols(m, t, n, depth, symbols, codeword.len())?;
    Ok(soft_stage::decode(c, depth, symbols, codeword))
}

// The mark of a word's answer; its number is the mark's byte.
#[derive(Clone, Copy, Debug, PartialEq, Eq)]
pub enum Mark {
    Lost = 0,
    Fair = 1,
    Sure = 2,
}

// What the words of a call add up to: how many there are, how many have each mark, and the tries of all.
#[derive(Clone, Copy, Debug, PartialEq, Eq)]
pub struct Totals {
    pub words: usize,
    pub sure: usize,
    pub fair: usize,
    pub lost: usize,
    pub tries: usize,
}

impl Totals {
    // Those of no words.
    pub const NONE: Totals = Totals {
        words: 0,
        sure: 0,
        fair: 0,
        lost: 0,
        tries: 0,
    };

    // With one more word, of that mark and tries; no total goes beyond the largest number.
    fn add(self, mark: Mark, tries: usize) -> Totals
        ensures { totals_told result ≡ capped (counted_of (totals_told self) (byte_of mark) tries) }
    {
        Totals {
            words: self.words.saturating_add(1),
            sure: self.sure.saturating_add(usize::from(mark == Mark::Sure)),
            fair: self.fair.saturating_add(usize::from(mark == Mark::Fair)),
            lost: self.lost.saturating_add(usize::from(mark == Mark::Lost)),
            tries: self.tries.saturating_add(tries),
        }
    }

    // With one more answer, for whoever decodes word by word. A refusal, of whatever type, leaves them as they are, and no total goes beyond the
    // largest number, so that nothing is required of them. (A take's totals are far below: `few_capped`, in take_format.)
    pub fn counted<E: Copy>(self, answer: Result<Soft, E>) -> Totals
        ensures { totals_told result ≡ with_answer (totals_told self) answer }
    {
        match answer {
            Err(_) => self,
            Ok(Soft::Lost { tries }) => self.add(Mark::Lost, tries),
            Ok(Soft::Fair(found)) => self.add(Mark::Fair, found.tries),
            Ok(Soft::Sure(found)) => self.add(Mark::Sure, found.tries),
        }
    }
}

// Decodes so many words of n symbols, one after the other, with tables that are filled once, and writes for each of them the k bytes of
// its message (0 where it is lost) and a mark's byte, 0 lost, 1 fair, 2 sure. Any m, t, n, depth, symbols and buffers may be
// handed in. (The count has 16 bits, as in a take's header: the products of the lengths then fit. Messages and marks are two buffers, as C lends
// them.)
pub fn decode_words(
    m: usize,
    t: usize,
    n: usize,
    depth: usize,
    words: u16,
    symbols: &[u8],
    messages: &mut [u8],
    marks: &mut [u8],
) -> Result<Totals, Refusal>
    ensures answer { words_of result ≡ words_answer (code m t n) depth words symbols.now messages.old marks.old }
    ensures messages { messages.new ≡ messages_buffer (code m t n) depth words symbols.now messages.old marks.old }
    ensures marks { marks.new ≡ marks_buffer (code m t n) depth words symbols.now messages.old marks.old }
{
    let c = refusal::of_words(m, t, n, depth, words, symbols, messages.len(), marks.len())?;
    Ok(all_words::decode(c, depth, symbols, messages, marks))
}

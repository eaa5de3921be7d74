// The soft stage of one word: rank, search, and only then write. The codeword is written once, from a position on: whole for a call on one
// word, and for one of several words only what stands behind the parity, straight into the messages.
ghost use Rattle.std.specs.Prelude.{Ok, ◌≡◌, ◌-◌, ◌*◌, ◌+◌, ◌^◌, ◌<◌, ◌≤◌, length, drop};
ghost use Rattle.std.proofs.Common.{inr};
ghost use Rattle.std.proofs.Math.IntN.{sub_ℕ};
ghost use Rattle.galois.proofs.FieldTables.{Zeros};
ghost use Rattle.bch.specs.Code.{design_distance};
ghost use Rattle.bch.specs.Words.{Bits, Below, Distinct, flipped_at};
ghost use Rattle.bch.proofs.codes.Behind.{flipped_from};
ghost use Rattle.chase.specs.Soft.{hard_bits, soft_stage, soft_written};
ghost use Rattle.chase.specs.Word.{test, Symbols};
ghost use Rattle.chase.proofs.test_words.TestWords.{chosen};
ghost use Rattle.chase.proofs.search.Ready.{places_of};
ghost use Rattle.refusal.specs.Named.{code_of, Made};
ghost use Rattle.receiver.specs.Answer.{soft_of};
ghost use Rattle.receiver.specs.Located.{flips_of};
ghost use Rattle.receiver.specs.Search.{written_from, IsSound, SearchedOf, stage_of, found_by, told};
ghost use Rattle.receiver.specs.Held.{code_in};

use crate::least_keys::{self, Ranked};
use crate::search::{Best, Outcome, Pick, Search};
use crate::tables::{self, Field, Tables};
use crate::{Found, Soft, hard_stage};
use refusal::Code;

// The hard bits of the symbols from `from` on. (By their place: under a `zip` a proof knows no byte that is written through `iter_mut`.)
fn write_bits(s: &[u8], from: usize, out: &mut [u8])
    requires { from + length out.old ≡ length s.now }
    ensures { out.new ≡ drop from (hard_bits s.now) }
{
    let symbols = &s[from..];
    for (i, bit) in out.iter_mut().enumerate() {
        *bit = symbols[i] / 16;
    }
}

// Flips the weak positions that test word j flips, in the bits of a word from `from` on. (The bits of j one after the other, as in `weighing`:
// an iterator of them would be a type of its own.)
fn flip_weak(out: &mut [u8], from: usize, word: &Ranked, j: usize)
    requires { Bits out.old × Distinct (from + length out.old) (places_of word.now.keys.at word.now.p) }
    ensures { out.new ≡ flipped_from from (chosen j (places_of word.now.keys.at word.now.p)) out.old }
{
    let mut r = j;
    for key in &word.keys.at[..word.p] {
        if r % 2 == 1 {
            hard_stage::flip(out, from, least_keys::place_of(*key));
        }
        r /= 2;
    }
}

// The codeword of a candidate from `from` on: test word j flipped at f.
fn write_word(word: &Ranked, pick: &Pick, from: usize, out: &mut [u8])
    requires { (from + length out.old ≡ length word.now.symbols.now) × Below (length word.now.symbols.now) (flips_of pick.now.flips) }
    ensures { out.new ≡ drop from (flipped_at (flips_of pick.now.flips) (test word.now.p word.now.symbols.now pick.now.place)) }
{
    write_bits(word.symbols, from, out);
    flip_weak(out, from, word, pick.place);
    hard_stage::flip_at(out, from, &pick.flips);
}

// A - L. (`as`: no `From` goes to a signed number of as many bits.)
fn margin(a: u32, l: u32) -> i32
    requires { (a < 65536) × (l < 65536) }
    ensures { result ≡ sub_ℕ a l }
{
    a as i32 - l as i32
}

// What is found, as the caller's answer has it. (No `From`: the numbers have to be small.)
fn found(pick: &Pick, tries: usize) -> Found
    requires { (pick.now.weight.sum < 65536) × (pick.now.allowed < 65536) }
    ensures { result ≡ found_by tries pick.now }
{
    Found {
        distance: pick.weight.sum as usize,
        margin: margin(pick.allowed, pick.weight.sum),
        flips: pick.weight.q as usize,
        place: pick.place,
        tries,
    }
}

// The outcome of the search as the caller's answer.
fn tell(n: usize, o: Outcome) -> Soft
    requires { IsSound n o.best }
    ensures { result ≡ told o.tries o.best }
{
    match o.best {
        Best::Nothing => Soft::Lost { tries: o.tries },
        Best::Fair(pick) => Soft::Fair(found(&pick, o.tries)),
        Best::Sure(pick) => Soft::Sure(found(&pick, o.tries)),
    }
}

// The soft stage of a word that is ranked, with tables that are filled: the outcome is known before the buffer is written, with the codeword
// from `from` on.
pub fn decode_word(search: &Search, from: usize, out: &mut [u8]) -> Outcome
    requires { from + length out.old ≡ (code_in search.now.tables.now).n }
    ensures answer { SearchedOf search.now.tables.now search.now.word.now result }
    ensures out { out.new ≡ written_from from (stage_of search.now.tables.now search.now.word.now) out.old }
{
    let o = search.run();
    if let Some(pick) = o.pick() {
        write_word(search.word, &pick, from, out);
    }
    o
}

// The soft stage of a word that is ranked, with room for its tables.
fn decode_in(c: Code, numbers: &mut [u32], word: &Ranked, codeword: &mut [u8]) -> Soft
    requires made { Made c × (3 * 2 ^ c.m + 16 ≤ length numbers.old) × Zeros numbers.old }
    requires word { (length word.now.symbols.now ≡ c.n) × (word.now.d ≡ design_distance (code_of c)) × (length codeword.old ≡ c.n) }
    ensures answer { soft_of (Ok result) codeword.new ≡ inr (soft_stage (code_of c) word.now.p word.now.symbols.now) }
    ensures codeword { codeword.new ≡ soft_written (soft_stage (code_of c) word.now.p word.now.symbols.now) codeword.old }
{
    let tables = Tables::filled(c, numbers);
    let search = Search {
        tables: &tables,
        word,
    };
    tell(c.n, decode_word(&search, 0, codeword))
}

// The soft stage, with tables of its own, as large as 2^m asks for. (The hard stage chooses in the same way. One function that lends a closure the
// room proves for both, and is no plainer: it has to say what the closure asks and promises. Here it takes up to 3 percent more instructions.)
pub fn decode(c: Code, p: usize, s: &[u8], codeword: &mut [u8]) -> Soft
    requires { Made c × (p ≤ 6) × (length s.now ≡ c.n) × (length codeword.old ≡ c.n) × Symbols s.now }
    ensures answer { soft_of (Ok result) codeword.new ≡ inr (soft_stage (code_of c) p s.now) }
    ensures codeword { codeword.new ≡ soft_written (soft_stage (code_of c) p s.now) codeword.old }
{
    let word = Ranked::new(s, c.distance(), p);
    match c.powers {
        0..=64 => decode_in(c, &mut [0; 208], &word, codeword),
        65..=256 => decode_in(c, &mut [0; 784], &word, codeword),
        _ => decode_in(c, &mut [0; 3088], &word, codeword),
    }
}

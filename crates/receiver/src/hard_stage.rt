// The hard stage of one word: its syndromes, the positions to flip, and only then the codeword.
ghost use Rattle.std.specs.Prelude.{Ok, ◌≡◌, ◌+◌, ◌*◌, ◌^◌, ◌<◌, ◌≤◌, length};
ghost use Rattle.std.proofs.Common.{inr};
ghost use Rattle.galois.proofs.FieldTables.{Zeros};
ghost use Rattle.bch.specs.Words.{Bits, Below};
ghost use Rattle.bch.specs.Hard.{hard_stage, hard_written};
ghost use Rattle.bch.proofs.codes.Behind.{flip_from, flipped_from};
ghost use Rattle.bch.proofs.logarithms.LogAnswers.{syndromes_of};
ghost use Rattle.bch.proofs.logarithms.LogBounds.{Syndromes};
ghost use Rattle.bch.proofs.tables.TableLoops.{Rootless};
ghost use Rattle.take_format.specs.Calls.{hard_record};
ghost use Rattle.refusal.specs.Named.{code_of, Made};
ghost use Rattle.receiver.specs.Answer.{hard_of};
ghost use Rattle.receiver.specs.Located.{bits_at, flips_of, Repaired, Repairing};
ghost use Rattle.receiver.specs.Tables.{Fielded};

use crate::tables::{self, Field, Tables};
use crate::{Flips, locate};
use refusal::Code;

// x where the bit is 1, and 0 where it is 0. (A mask: a choice would become a branch for the positions that are left over where the
// compiler takes several at once.)
fn where_set(bit: u8, x: u32) -> u32
    requires { bit < 2 }
    ensures { result ≡ bit * x }
{
    (u32::from(bit) * 4294967295) & x
}

// The first t syndromes, in one number, of the bits that stand `shift` high in the bytes of a word: 0 for bits, 4 for symbols. In one
// pass without branches.
pub fn syndromes(field: &Field, word: &[u8], shift: u8) -> u32
    requires { (length word.now ≡ field.now.code.n) × (shift < 8) × Bits (bits_at shift word.now) }
    ensures { result ≡ syndromes_of (code_of field.now.code) (bits_at shift word.now) }
{
    let mut sum = 0;
    for (i, byte) in word.iter().enumerate() {
        sum ^= where_set(*byte >> shift, field.powers_of(i));
    }
    sum
}

// The positions to flip for the syndromes s. The roots are filled only where there is more than one error: what is left of the syndromes
// without those of one error decides it (`few_repairs`, bch `logarithms`).
fn located(c: Code, numbers: &mut [u32], s: u32) -> Option<Flips>
    requires { Fielded c numbers.old × Rootless c.m numbers.old × Syndromes c.m c.t s }
    ensures { Repairing c s result }
{
    let field = Field { code: c, numbers };
    if locate::rest_of(&field, s) == 0 {
        return locate::few(&field, s);
    }
    tables::fill_roots(c, numbers);
    let field = Field { code: c, numbers };
    locate::next(&Tables { field }, &[u64::from(s)], 0).flips
}

// Flips the bit at position x, in the bits of a word from `from` on. (Here and in the soft stage `from` and the buffer are two: a struct of both would be
// made in one place, and each step would take it apart.)
#[tactic(auto, using(crate::proofs::Flipping::flipping))]
pub fn flip(out: &mut [u8], from: usize, x: usize)
    requires { Bits out.old × (x < from + length out.old) }
    ensures { out.new ≡ flip_from from x out.old }
{
    if from <= x {
        let at = x - from;
        out[at] = 1 - out[at];
    }
}

// Flips the bits at the positions. (By `entry`, for speed: flips.rt.)
#[tactic(auto, using(crate::proofs::Flipping::flipping), unfolding(bch::proofs::codes::Behind::flipped_from))]
pub fn flip_at(out: &mut [u8], from: usize, f: &Flips)
    requires { Bits out.old × Below (from + length out.old) (flips_of f.now) }
    ensures { out.new ≡ flipped_from from (flips_of f.now) out.old }
{
    for i in 0..f.count {
        flip(out, from, f.entry(i));
    }
}

// Copies bits. (`copy_from_slice` asks C for memmove, and the calls for C need memcpy and memset alone; under a `zip` a proof knows nothing of what is
// written. The encoder's `write_message` is like it: in one place for both it would be a public call.)
fn copy(bits: &[u8], out: &mut [u8])
    requires { length out.old ≡ length bits.now }
    ensures { out.new ≡ bits.now }
{
    for (i, bit) in out.iter_mut().enumerate() {
        *bit = bits[i];
    }
}

// The bits flipped at the positions that the hard stage flips, where it does; and these in its answer. (That bits and buffer have the code's length is
// said from `decode` on down: a struct that holds it would be made in one place and taken apart in the next.)
#[tactic(auto, using(crate::proofs::Repairing::answers))]
fn write(c: Code, f: Option<Flips>, bits: &[u8], codeword: &mut [u8]) -> Option<Flips>
    requires bits_len { (length bits.now ≡ c.n) × (length codeword.old ≡ c.n) × Bits bits.now }
    requires repairs { Repaired c bits.now f }
    ensures answer { hard_of (Ok result) ≡ hard_record (inr (hard_stage (code_of c) bits.now)) }
    ensures codeword { codeword.new ≡ hard_written (code_of c) bits.now codeword.old }
{
    let flips = f?;
    copy(bits, codeword);
    flip_at(codeword, 0, &flips);
    Some(flips)
}

// The hard stage, with room for its tables.
fn decode_in(c: Code, numbers: &mut [u32], bits: &[u8], codeword: &mut [u8]) -> Option<Flips>
    requires made { Made c × (3 * 2 ^ c.m + 16 ≤ length numbers.old) × Zeros numbers.old }
    requires bits_len { (length bits.now ≡ c.n) × (length codeword.old ≡ c.n) × Bits bits.now }
    ensures answer { hard_of (Ok result) ≡ hard_record (inr (hard_stage (code_of c) bits.now)) }
    ensures codeword { codeword.new ≡ hard_written (code_of c) bits.now codeword.old }
{
    tables::fill_field(c, numbers);
    let s = syndromes(&Field { code: c, numbers }, bits, 0);
    write(c, located(c, numbers, s), bits, codeword)
}

// The hard stage, with tables of its own, as large as 2^m asks for. (Chosen here and in the soft stage: see there. By
// `powers`, since a read of m would come too soon: the check has just put it together, of the parts where a refusal has its cause.)
pub fn decode(c: Code, bits: &[u8], codeword: &mut [u8]) -> Option<Flips>
    requires { Made c × (length bits.now ≡ c.n) × (length codeword.old ≡ c.n) × Bits bits.now }
    ensures answer { hard_of (Ok result) ≡ hard_record (inr (hard_stage (code_of c) bits.now)) }
    ensures codeword { codeword.new ≡ hard_written (code_of c) bits.now codeword.old }
{
    match c.powers {
        0..=64 => decode_in(c, &mut [0; 208], bits, codeword),
        65..=256 => decode_in(c, &mut [0; 784], bits, codeword),
        _ => decode_in(c, &mut [0; 3088], bits, codeword),
    }
}

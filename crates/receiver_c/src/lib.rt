// The receiver for programs in C and Rust: the calls of `encoder`, `receiver`, `quantiser`, `takes` and `printing` on numbers and slices
// alone. A slice is passed as a pointer and a length. What a call answers comes back as one number of 64 bits (`specs/Packed.antt`), so that
// a refusal writes to no lent buffer; bindings/receiver.h tells how to read it.
#![tactic(auto)]

ghost use Rattle.std.specs.Prelude.{◌≡◌};
ghost use Rattle.bch.specs.Code.{code};
ghost use Rattle.take_format.specs.Refusal.{encode_refusal};
ghost use Rattle.take_format.specs.Samples.{ladder_check};
ghost use Rattle.take_format.specs.Calls.{encode_buffer, hard_answer, hard_buffer, soft_answer, soft_buffer};
ghost use Rattle.take_format.specs.Take.{open_answer, take_answer, take_messages, take_marks};
ghost use Rattle.refusal.specs.Checked.{checked};
ghost use Rattle.printing.specs.Calls.{length_answer, strip_answer, strip_buffer};
ghost use Rattle.receiver_c.specs.Packed.{check_packed, hard_packed, soft_packed, open_packed, take_packed, length_packed};
ghost use Rattle.receiver_c.specs.Packed.{quantise_refusal, quantise_buffer, Promised};

use receiver::{Found, Mark, Soft};
use refusal::Refusal;

mod packed;

// Writes the codeword that carries a message of n - m t bits.
#[unsafe(no_mangle)]
pub extern "C" fn receiver_encode_packed(
    m: usize,
    t: usize,
    n: usize,
    message: &[u8],
    codeword: &mut [u8],
) -> u64
    ensures answer { result ≡ check_packed (encode_refusal (code m t n) message.now codeword.old) }
    ensures codeword { codeword.new ≡ encode_buffer (code m t n) message.now codeword.old }
{
    packed::check(encoder::encode(m, t, n, message, codeword))
}

// Writes the codeword within t flips of n bits, where there is one.
#[unsafe(no_mangle)]
pub extern "C" fn receiver_decode_hard_packed(
    m: usize,
    t: usize,
    n: usize,
    bits: &[u8],
    codeword: &mut [u8],
) -> u64
    ensures answer { result ≡ hard_packed (hard_answer (code m t n) bits.now codeword.old) }
    ensures codeword { codeword.new ≡ hard_buffer (code m t n) bits.now codeword.old }
{
    match receiver::decode_hard(m, t, n, bits, codeword) {
        Ok(Some(flips)) => packed::found(flips),
        Ok(None) => 0,
        Err(r) => packed::refusal(r),
    }
}

// Writes the codeword that the search of the given depth finds for n symbols, where it finds one.
#[unsafe(no_mangle)]
pub extern "C" fn receiver_decode_soft_packed(
    m: usize,
    t: usize,
    n: usize,
    depth: usize,
    symbols: &[u8],
    codeword: &mut [u8],
) -> u64
    ensures answer { result ≡ soft_packed (soft_answer (code m t n) depth symbols.now codeword.old) }
    ensures codeword { codeword.new ≡ soft_buffer (code m t n) depth symbols.now codeword.old }
{
    match receiver::decode_soft(m, t, n, depth, symbols, codeword) {
        Ok(Soft::Sure(found)) => packed::answer(Mark::Sure, found),
        Ok(Soft::Fair(found)) => packed::answer(Mark::Fair, found),
        // For C, a lost word's numbers are 0.
        Ok(Soft::Lost { tries }) => {
            let none = Found {
                distance: 0,
                margin: 0,
                flips: 0,
                place: 0,
                tries,
            };
            packed::answer(Mark::Lost, none)
        }
        Err(r) => packed::refusal(r),
    }
}

// Checks the edges of a ladder.
#[unsafe(no_mangle)]
pub extern "C" fn receiver_check_ladder_packed(edges: &[f32]) -> u64
    ensures { result ≡ check_packed (ladder_check edges.now) }
{
    match quantiser::make_ladder(edges) {
        Ok(_) => 0,
        Err(r) => packed::refusal(r),
    }
}

// Quantises by the ladder of these edges.
fn quantised(edges: &[f32], kinds: &[u8], levels: &[f32], symbols: &mut [u8]) -> Result<(), Refusal>
    ensures answer { checked result ≡ quantise_refusal edges.now kinds.now levels.now symbols.old }
    ensures symbols { symbols.new ≡ quantise_buffer edges.now kinds.now levels.now symbols.old }
{
    let ladder = quantiser::make_ladder(edges)?;
    quantiser::quantise(ladder, kinds, levels, symbols)
}

// Writes the symbol of each sample by the ladder of these edges.
#[unsafe(no_mangle)]
pub extern "C" fn receiver_quantise_packed(
    edges: &[f32],
    kinds: &[u8],
    levels: &[f32],
    symbols: &mut [u8],
) -> u64
    ensures answer { result ≡ check_packed (quantise_refusal edges.now kinds.now levels.now symbols.old) }
    ensures symbols { symbols.new ≡ quantise_buffer edges.now kinds.now levels.now symbols.old }
{
    packed::check(quantised(edges, kinds, levels, symbols))
}

// Checks a take whole and answers what its header says.
#[unsafe(no_mangle)]
pub extern "C" fn receiver_open_take_packed(take: &[u8]) -> u64
    ensures { result ≡ open_packed (open_answer take.now) }
{
    match takes::open_take(take) {
        Ok(header) => packed::header(header),
        Err(r) => packed::refusal(r),
    }
}

// Reads a take: writes k message bytes and a mark byte for each of its words.
#[unsafe(no_mangle)]
pub extern "C" fn receiver_read_take_packed(
    take: &[u8],
    messages: &mut [u8],
    marks: &mut [u8],
) -> u64
    ensures answer { result ≡ take_packed (take_answer take.now messages.old marks.old) }
    ensures messages { messages.new ≡ take_messages take.now messages.old marks.old }
    ensures marks { marks.new ≡ take_marks take.now messages.old marks.old }
    ensures promise { Promised result take.now messages.new marks.new }
{
    match takes::read_take(take, messages, marks) {
        Ok(totals) => packed::totals(totals),
        Err(r) => packed::refusal(r),
    }
}

// Answers how many bytes the strip of a take has. (`as`, as in `packed`.)
#[unsafe(no_mangle)]
pub extern "C" fn receiver_strip_length_packed(take: &[u8]) -> u64
    ensures { result ≡ length_packed (length_answer take.now) }
{
    match printing::strip_length(take) {
        Ok(bytes) => 256 * (bytes as u64),
        Err(unopened) => packed::refusal(unopened),
    }
}

// Reads a take and writes its strip.
#[unsafe(no_mangle)]
pub extern "C" fn receiver_print_take_packed(take: &[u8], strip: &mut [u8]) -> u64
    ensures answer { result ≡ take_packed (strip_answer take.now strip.old) }
    ensures strip { strip.new ≡ strip_buffer take.now strip.old }
{
    match printing::print_take(take, strip) {
        Ok(sums) => packed::totals(sums),
        Err(refused) => packed::refusal(refused),
    }
}

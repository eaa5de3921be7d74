// Answers as one number (`specs/Packed.antt`).
ghost use Rattle.std.specs.Prelude.{◌≡◌, ◌+◌, ◌*◌, ◌<◌, ◌^◌, ℕ, get_or};
ghost use Rattle.std.specs.Int.Signed.{mag};
ghost use Rattle.refusal.specs.Checked.{checked, refusal_of};
ghost use Rattle.receiver.specs.Answer.{byte_of, totals_told};
ghost use Rattle.takes.specs.Answer.{header_of};
ghost use Rattle.receiver_c.specs.Packed.{refusal_packed, check_packed, margin_packed, header_packed, totals_packed};

use receiver::{Flips, Found, Mark, Totals};
use refusal::Refusal;
use takes::Header;

// A refusal's number, and its place, or the largest number of 56 bits where that is less. (`as`, here and below, since no `From` goes from
// usize, i32 or a mark to u64; a `try_from` would have a case that can't be.)
pub fn refusal(r: Refusal) -> u64
    ensures { result ≡ refusal_packed (refusal_of r) }
{
    128 + r.cause.number() as u64 + 256 * r.place.min(72057594037927935) as u64
}

// A check: 0 where nothing is refused.
pub fn check(answer: Result<(), Refusal>) -> u64
    ensures { result ≡ check_packed (checked answer) }
{
    match answer {
        Ok(()) => 0,
        Err(r) => refusal(r),
    }
}

// A codeword found: how many positions are flipped, and three places.
pub fn found(f: Flips) -> u64
    requires { (f.count < 256) × ((i : ℕ) → get_or f.at i 0 < 65536) }
    ensures { result ≡ 1 + 2 ^ 8 * f.count + 2 ^ 16 * get_or f.at 0 0 + 2 ^ 32 * get_or f.at 1 0 + 2 ^ 48 * get_or f.at 2 0 }
{
    let [first, second, third] = f.at;
    let low = 1 + 256 * (f.count as u64) + 65536 * (first as u64);
    low + 4294967296 * (second as u64) + 281474976710656 * (third as u64)
}

// A margin, which is no less than 0 when 2^15 is added.
fn raised(x: i32) -> u64
    requires { mag x < 32768 }
    ensures { result ≡ margin_packed x }
{
    (x + 32768) as u64
}

// A word's mark, and the numbers of what the soft stage found.
pub fn answer(mark: Mark, f: Found) -> u64
    requires bytes_bound { (f.flips < 256) × (f.tries < 256) × (f.place < 256) × (f.distance < 65536) }
    requires margin_bound { mag f.margin < 32768 }
    ensures { result ≡ byte_of mark + 2 ^ 8 * f.flips + 2 ^ 16 * f.tries + 2 ^ 24 * f.place + 2 ^ 32 * f.distance + 2 ^ 48 * margin_packed f.margin }
{
    let bytes = mark as u64 + 256 * (f.flips as u64) + 65536 * (f.tries as u64);
    let low = bytes + 16777216 * (f.place as u64);
    low + 4294967296 * (f.distance as u64) + 281474976710656 * raised(f.margin)
}

// What a take's header says, but for where its words begin.
pub fn header(h: Header) -> u64
    ensures { result ≡ header_packed (header_of h) }
{
    let pairs = 256 * u64::from(h.words) + 16777216 * u64::from(h.n);
    pairs
        + 1099511627776 * u64::from(h.m)
        + 281474976710656 * u64::from(h.t)
        + 72057594037927936 * u64::from(h.depth)
}

// The totals that the lengths of the buffers do not tell.
pub fn totals(k: Totals) -> u64
    requires { (k.sure < 65536) × (k.fair < 65536) × (k.tries < 16777216) }
    ensures { result ≡ totals_packed (totals_told k) }
{
    256 * (k.sure as u64) + 16777216 * (k.fair as u64) + 1099511627776 * (k.tries as u64)
}

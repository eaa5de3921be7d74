// The samples: their check, in a pass of its own, and then their symbols.
//
// No branch depends on whether a sample is blank: it would be guessed wrong half of the time where half are. The check asks one question of
// kind and level, and a blank's symbol is made too, of the level 0, and taken 0 times.
ghost use Rattle.std.specs.Prelude.{◌≤◌, ◌≡◌, cond, length};
ghost use Rattle.std.specs.Float.Ieee.{lt};
ghost use Rattle.take_format.specs.Samples.{zero_level, sample_of, quantised, samples_check};
ghost use Rattle.take_format.specs.Samples.{magnitude as Samples·magnitude, symbol as Samples·symbol};
ghost use Rattle.refusal.specs.Checked.{checked};
ghost use Rattle.quantiser.specs.Told.{sample_told, heard_of, level_of, is_bad};

use crate::{Sample, edges};
use refusal::{Cause, Refusal};

// Whether a sample is refused. (Kinds are bytes, as C hands them over, until a sample is made of one.)
fn bad(kind: u8, level: f32) -> bool
    ensures { result ≡ is_bad kind level }
{
    (kind > 1) | ((kind == 1) & level.is_nan())
}

// The samples one after the other: 10, 11.
pub fn check(kinds: &[u8], levels: &[f32]) -> Result<(), Refusal>
    ensures { checked result ≡ samples_check 0 kinds.now levels.now }
{
    for (place, (&kind, &level)) in kinds.iter().zip(levels).enumerate() {
        if bad(kind, level) {
            let cause = if 1 < kind { Cause::Kind } else { Cause::Level };
            return Err(Refusal { cause, place });
        }
    }
    Ok(())
}

// The sample of a kind and a level.
fn sample_of(kind: u8, level: f32) -> Sample
    ensures { sample_told result ≡ sample_of kind level }
{
    if kind == 1 {
        Sample::Heard(level)
    } else {
        Sample::Blank
    }
}

// The level without its sign. (Not by `abs`, which makes 0 of -0: the definition keeps it.)
fn magnitude(level: f32) -> f32
    ensures { result ≡ Samples·magnitude level }
{
    if level < 0.0 { -level } else { level }
}

// The hard bit of a level, at its place in a symbol. (A choice of two numbers, and no test of the sign: -0 is not below 0.)
fn hard_bit(level: f32) -> u8
    ensures value { result ≡ cond (lt level zero_level) 16 0 }
    ensures upper_bound { result ≤ 16 }
{
    if level < 0.0 { 16 } else { 0 }
}

// 1 where a sample was heard, otherwise 0.
fn heard(sample: Sample) -> u8
    ensures value { result ≡ heard_of (sample_told sample) }
    ensures upper_bound { result ≤ 1 }
{
    match sample {
        Sample::Blank => 0,
        Sample::Heard(_) => 1,
    }
}

// The level that was heard, or 0.
fn level_of(sample: Sample) -> f32
    ensures { result ≡ level_of (sample_told sample) }
{
    match sample {
        Sample::Blank => 0.0,
        Sample::Heard(level) => level,
    }
}

// The symbol of a sample.
fn symbol(edges: &[f32; 15], sample: Sample) -> u8
    ensures { result ≡ Samples·symbol edges.now (sample_told sample) }
{
    let level = level_of(sample);
    let whole = hard_bit(level) + edges::count(edges, magnitude(level));
    heard(sample) * whole
}

// Writes the symbol of each sample. (By place: the check does not cover a `zip` of the symbols with the samples.)
pub fn write(edges: &[f32; 15], kinds: &[u8], levels: &[f32], symbols: &mut [u8])
    requires { (length levels.now ≡ length kinds.now) × (length symbols.old ≡ length kinds.now) }
    ensures { symbols.new ≡ quantised edges.now kinds.now levels.now }
{
    for (i, place) in symbols.iter_mut().enumerate() {
        *place = symbol(edges, sample_of(kinds[i], levels[i]));
    }
}

// The quantiser (document 01, "Samples to symbols"): a ladder of edges (the thresholds) makes of each heard level a hard bit and a
// reliability.
//
//     let ladder = quantiser::make_ladder(&edges)?;                              // once for all calls
//     quantiser::quantise(ladder, &kinds, &levels, &mut symbols)?;               // a symbol for each sample
//
// `Err(r)` is a refusal, r.cause and r.place, and the buffer is as it was.
#![tactic(auto)]

ghost use Rattle.std.specs.Prelude.{◌≡◌};
ghost use Rattle.take_format.specs.Samples.{samples_refusal};
ghost use Rattle.take_format.specs.Calls.{ladder_answer, quantised_buffer};
ghost use Rattle.refusal.specs.Checked.{checked};
ghost use Rattle.quantiser.specs.Told.{edges_of, made_of};

use refusal::{Cause, Refusal};

mod edges;
mod samples;

// A ladder's fifteen edges. The field is private, and only `make_ladder` makes one.
#[derive(Clone, Copy, Debug, PartialEq)]
pub struct Ladder {
    edges: [f32; 15],
}

// The ladder of fifteen edges, the first above zero and each above the one before. Any edges may be handed in: others are
// refused with 5, also where they are not fifteen.
pub fn make_ladder(edges: &[f32]) -> Result<Ladder, Refusal>
    ensures { made_of result ≡ ladder_answer edges.now }
{
    let Ok(edges) = <[f32; 15]>::try_from(edges) else {
        return Err(Cause::Ladder.into());
    };
    if edges::rise(&edges) {
        return Ok(Ladder { edges });
    }
    Err(Cause::Ladder.into())
}

// A sample: nothing was received, or this level. (An enum of its own, and no Option: document 01, "Each place and its form", names its cases.)
#[derive(Clone, Copy, Debug, PartialEq)]
pub enum Sample {
    Blank,
    Heard(f32),
}

// Writes the symbol of each sample, given by its kind (0 blank, 1 heard) and its level. Any kinds, levels and buffer may be
// handed in: the refusals are 6, 7, 10 and 11. All samples are checked before the first symbol is written. (Two slices, as C hands them over.)
pub fn quantise(
    ladder: Ladder,
    kinds: &[u8],
    levels: &[f32],
    symbols: &mut [u8],
) -> Result<(), Refusal>
    ensures answer { checked result ≡ samples_refusal kinds.now levels.now symbols.old }
    ensures symbols { symbols.new ≡ quantised_buffer (edges_of ladder) kinds.now levels.now symbols.old }
{
    if levels.len() != kinds.len() {
        return Err(Cause::InputLength.into());
    }
    if symbols.len() != kinds.len() {
        return Err(Cause::OutputLength.into());
    }
    samples::check(kinds, levels)?;
    samples::write(&ladder.edges, kinds, levels, symbols);
    Ok(())
}

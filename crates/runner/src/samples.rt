// The calls on samples: making a ladder, and quantising.
use crate::fields::Line;
use crate::print;
use quantiser::Ladder;
use refusal::Refusal;
use std::io::{self, Write};

// The most edges that a record may have.
const EDGES: usize = 64;

// The most samples that a record may have.
const SAMPLES: usize = 1024;

// The ladder whose edges are word 1 of the line.
fn make(line: Line) -> Result<Ladder, Refusal> {
    let mut edges = [0.0; EDGES];
    quantiser::make_ladder(line.floats(1, &mut edges))
}

// The record `ladder EDGES`.
pub fn ladder(out: &mut impl Write, line: Line) -> io::Result<()> {
    print::done(out, "ladder", make(line).map(|_| ()))?;
    writeln!(out, "")
}

// Makes the ladder, and quantises by it the samples whose kinds and levels are words 2 and 3 of the line.
fn quantised(line: Line, symbols: &mut [u8]) -> Result<(), Refusal> {
    let mut kinds = [0; SAMPLES];
    let mut levels = [0.0; SAMPLES];
    let kinds = line.bytes(2, &mut kinds);
    let levels = line.floats(3, &mut levels);
    quantiser::quantise(make(line)?, kinds, levels, symbols)
}

// The record `quantise EDGES KINDS LEVELS ROOM`.
pub fn quantise(out: &mut impl Write, line: Line) -> io::Result<()> {
    let mut symbols = [7; SAMPLES];
    let symbols = line.lend(4, &mut symbols);
    print::done(out, "written", quantised(line, symbols))?;
    print::last(out, symbols)
}

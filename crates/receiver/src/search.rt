// The Chase search: the hard stage of one test word after the other, each candidate weighed, until one is sure.
//
// The test words stand in an array of 64, which is doubled only as far as the search gets: test word 0 needs none, the next seven are made at
// once, and then each weak position doubles them. (An array, and no `Vec`: nothing is allocated.) The search keeps numbers alone (`Outcome`);
// the codeword is written after it.
ghost use Rattle.std.specs.Prelude.{◌≡◌, false, ◌++◌, ◌-◌, ◌^◌, ◌<◌, ◌≤◌, length, take};
ghost use Rattle.bch.specs.Code.{design_distance};
ghost use Rattle.bch.proofs.logarithms.LogAnswers.{syndromes_of};
ghost use Rattle.chase.specs.Soft.{hard_bits};
ghost use Rattle.chase.proofs.ranking.Allowances.{unflipped_sum};
ghost use Rattle.refusal.specs.Named.{code_of};
ghost use Rattle.receiver.specs.Located.{flips_of};
ghost use Rattle.receiver.specs.Held.{code_in};
ghost use Rattle.receiver.specs.Search.{pick_in, is_sure, mark_in, judged_by, SearchedOf, TriedOf, TestsOf};

use crate::least_keys::Ranked;
use crate::tables::Tables;
use crate::weighing::Weight;
use crate::{Flips, Mark, hard_stage, locate, test_words};

// A candidate by its numbers: q, L and A, the test word that gave it and where that is flipped.
#[derive(Clone, Copy)]
pub struct Pick {
    pub weight: Weight,
    pub allowed: u32,
    pub place: usize,
    pub flips: Flips,
}

// The best candidate so far: none, one that leaves the search going, or one that ends it.
#[derive(Clone, Copy)]
pub enum Best {
    Nothing,
    Fair(Pick),
    Sure(Pick),
}

// How far the search is: the hard decodings made, and the best candidate.
#[derive(Clone, Copy)]
pub struct Outcome {
    pub tries: usize,
    pub best: Best,
}

impl Outcome {
    // The best candidate, where there is one.
    pub fn pick(self) -> Option<Pick>
        ensures { result ≡ pick_in self.best }
    {
        match self.best {
            Best::Nothing => None,
            Best::Fair(pick) | Best::Sure(pick) => Some(pick),
        }
    }

    // Its mark.
    pub fn mark(self) -> Mark
        ensures { result ≡ mark_in self.best }
    {
        match self.best {
            Best::Nothing => Mark::Lost,
            Best::Fair(_) => Mark::Fair,
            Best::Sure(_) => Mark::Sure,
        }
    }

    // Whether a candidate ended the search.
    fn is_sure(self) -> bool
        ensures { result ≡ is_sure self.best }
    {
        matches!(self.best, Best::Sure(_))
    }
}

// The outcome with the candidate of the last try: it ends the search where its margin is 0 or more, and is kept where it is nearer than the
// best so far. (One that is farther has a margin below 0, by the law `far_unsure`, chase `search.Passing`: A is not worked out for it.)
fn judged(word: &Ranked, o: Outcome, weight: Weight, flips: Flips) -> Outcome
    requires { 1 ≤ o.tries }
    ensures { result ≡ judged_by (unflipped_sum (flips_of flips) (o.tries - 1) (word.now.d - weight.q) (take word.now.d (word.now.keys.at ++ word.now.keys.more))) o weight flips }
{
    let best = o.pick();
    if best.is_some_and(|b| b.weight.sum < weight.sum) {
        return o;
    }
    let place = o.tries - 1;
    let allowed = word.allowance(place, weight.q, &flips);
    let pick = Pick {
        weight,
        allowed,
        place,
        flips,
    };
    if weight.sum <= allowed {
        return Outcome {
            tries: o.tries,
            best: Best::Sure(pick),
        };
    }
    if best.is_none_or(|b| weight.sum < b.weight.sum) {
        return Outcome {
            tries: o.tries,
            best: Best::Fair(pick),
        };
    }
    o
}

// Whether the test words of the first b of p weak positions are tried before there are more: where they are eight, or all.
fn due(b: usize, p: usize) -> bool
    requires { b ≤ p }
    ensures { result ≡ false → b < p }
{
    3 <= b || b == p
}

// A ranked word with its code's tables.
#[derive(Clone, Copy)]
pub struct Search<'a> {
    pub tables: &'a Tables<'a>,
    pub word: &'a Ranked<'a>,
    ghost long: { length word.now.symbols.now ≡ (code_in tables.now).n },
    ghost apart: { word.now.d ≡ design_distance (code_of (code_in tables.now)) },
}

impl<'a> Search<'a> {
    // The tries of test words that are ready, unless one of them ends the search. (A turn makes as many tries as it takes to locate positions,
    // so that no `for` goes over them.)
    fn try_on(&self, tests: &[u64], start: Outcome) -> Outcome
        requires tests { TestsOf self.now.tables.now self.now.word.now tests.now }
        requires tried { TriedOf self.now.tables.now self.now.word.now start × (is_sure start.best ≡ false) × (start.tries ≤ length tests.now) }
        ensures { TriedOf self.now.tables.now self.now.word.now result × (is_sure result.best ≡ false → result.tries ≡ length tests.now) }
    {
        let mut o = start;
        while o.tries < tests.len() {
            let spot = locate::next(self.tables, tests, o.tries);
            o.tries = spot.tries;
            let Some(flips) = spot.flips else {
                return o;
            };
            let j = spot.tries - 1;
            let weight = self.word.weigh(j, test_words::weight_in(tests[j]), &flips);
            o = judged(self.word, o, weight, flips);
            if o.is_sure() {
                return o;
            }
        }
        o
    }

    // The tries after that of test word 0: each weak position doubles the test words, as far as the search gets.
    fn search_on(&self, base: u64, start: Outcome) -> Outcome
        requires base { base ≡ syndromes_of (code_of (code_in self.now.tables.now)) (hard_bits self.now.word.now.symbols.now) }
        requires tried { TriedOf self.now.tables.now self.now.word.now start × (is_sure start.best ≡ false) × (start.tries ≡ 1) }
        ensures { TriedOf self.now.tables.now self.now.word.now result × (is_sure result.best ≡ false → result.tries ≡ 2 ^ self.now.word.now.p) }
    {
        let p = self.word.p;
        let mut tests = [base; 64];
        let mut o = start;
        let mut to = 1;
        for (b, key) in self.word.keys.at[..p].iter().enumerate() {
            test_words::double(&self.tables.field, *key, to, &mut tests);
            to = 2 * to;
            if due(b + 1, p) {
                o = self.try_on(&tests[..to], o);
                if o.is_sure() {
                    return o;
                }
            }
        }
        o
    }

    // All tries, unless one of them ends the search.
    pub fn run(&self) -> Outcome
        ensures { SearchedOf self.now.tables.now self.now.word.now result }
    {
        let base = u64::from(hard_stage::syndromes(&self.tables.field, self.word.symbols, 4));
        let start = Outcome {
            tries: 0,
            best: Best::Nothing,
        };
        let o = self.try_on(&[base], start);
        if o.is_sure() || self.word.p == 0 {
            return o;
        }
        self.search_on(base, o)
    }
}

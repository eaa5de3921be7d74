// What a candidate weighs: its flips q, its distance L and its allowance A.
ghost use Rattle.std.specs.Prelude.{◌≡◌, ◌++◌, ◌-◌, ◌%◌, ◌<◌, ◌≤◌, eqb, length, get_or, take};
ghost use Rattle.bch.specs.Words.{is_in, Distinct, flipped_at};
ghost use Rattle.chase.specs.Soft.{hard_bits, reliabilities};
ghost use Rattle.chase.specs.Word.{test, weakest};
ghost use Rattle.chase.proofs.test_words.TestWords.{chosen};
ghost use Rattle.chase.proofs.weighing.Weights.{Weighs, packed_weight};
ghost use Rattle.chase.proofs.ranking.Allowances.{turned, unflipped_sum};
ghost use Rattle.chase.proofs.search.Ready.{places_of};
ghost use Rattle.receiver.specs.Located.{flips_of};

use crate::Flips;
use crate::least_keys::{self, Ranked};

// The flips q and the distance L of a candidate.
#[derive(Clone, Copy)]
pub struct Weight {
    pub q: u32,
    pub sum: u32,
}

impl<'a> Ranked<'a> {
    // The reliability at a position.
    fn z_at(&self, x: usize) -> u32
        requires { x < length self.now.symbols.now }
        ensures { (result ≡ get_or (reliabilities self.now.symbols.now) x 0) × (result < 16) }
    {
        u32::from(self.symbols[x] % 16)
    }

    // Whether position x is among those of the weak positions that test word j flips.
    fn chosen_at(&self, j: usize, x: usize) -> bool
        ensures { result ≡ is_in x (chosen j (places_of self.now.keys.at self.now.p)) }
    {
        let mut r = j;
        for key in &self.keys.at[..self.p] {
            if r % 2 == 1 && least_keys::place_of(*key) == x {
                return true;
            }
            r /= 2;
        }
        false
    }

    // Whether test word j flips position x, of reliability z. (Test word 0 flips none, and a position that is stronger than the last weak
    // one needs no search.)
    fn flipped(&self, j: usize, x: usize, z: u32) -> bool
        requires { z ≡ get_or (reliabilities self.now.symbols.now) x 0 }
        ensures { result ≡ is_in x (chosen j (weakest self.now.p self.now.symbols.now)) }
    {
        if self.p == 0 || j == 0 {
            return false;
        }
        if least_keys::held(self.keys.at[self.p - 1]) < z {
            return false;
        }
        self.chosen_at(j, x)
    }

    // q and L of test word j flipped at f, against the hard bits: from `start`, those of the test word, each position of f adds its flip,
    // or takes it away where the test word flips it already. (By `entry`, for speed: flips.rt.)
    pub fn weigh(&self, j: usize, start: u32, f: &Flips) -> Weight
        requires distinct { Distinct (length self.now.symbols.now) (flips_of f.now) }
        requires start_value { start ≡ packed_weight (reliabilities self.now.symbols.now) (test self.now.p self.now.symbols.now j) (hard_bits self.now.symbols.now) }
        ensures { Weighs (reliabilities self.now.symbols.now) (flipped_at (flips_of f.now) (test self.now.p self.now.symbols.now j)) (hard_bits self.now.symbols.now) result.q result.sum }
    {
        let mut q = start / 65536;
        let mut sum = start % 65536;
        for i in 0..f.count {
            let x = f.entry(i);
            let z = self.z_at(x);
            if self.flipped(j, x, z) {
                q -= 1;
                sum -= z;
            } else {
                q += 1;
                sum += z;
            }
        }
        Weight { q, sum }
    }

    // A: the sum of the d - q smallest reliabilities among the positions that the candidate does not flip, which is test word j flipped at
    // f. They are among the d smallest of all (`allowance_first`, chase `ranking.Unflipped`), and bit k of j tells whether the test word
    // flips the position of key k. (`full` counts the flips and what is summed, d in all.)
    pub fn allowance(&self, j: usize, q: u32, f: &Flips) -> u32
        ensures { result ≡ unflipped_sum (flips_of f.now) j (self.now.d - q) (take self.now.d (self.now.keys.at ++ self.now.keys.more)) }
    {
        let mut sum = 0;
        let mut full = q as usize;
        let mut r = j;
        for key in self.keys.at.iter().chain(&self.keys.more).take(self.d) {
            if self.d <= full {
                return sum;
            }
            if !turns(f, r, least_keys::place_of(*key)) {
                sum += least_keys::held(*key);
                full += 1;
            }
            r /= 2;
        }
        sum
    }
}

// Whether x is one of the positions. (Written out: `any` over the slice takes 3.6 percent more instructions for a take of words of 63 symbols at
// depth 3.)
fn is_among(f: &Flips, x: usize) -> bool
    ensures { result ≡ is_in x (flips_of f.now) }
{
    if f.count == 0 {
        return false;
    }
    if f.at[0] == x {
        return true;
    }
    if f.count == 1 {
        return false;
    }
    if f.at[1] == x {
        return true;
    }
    if f.count == 2 {
        return false;
    }
    f.at[2] == x
}

// Whether a candidate flips position x: where it is one of those located, or the test word flips it, which the lowest bit of r tells, and not
// both.
fn turns(f: &Flips, r: usize, x: usize) -> bool
    ensures { result ≡ turned (is_in x (flips_of f.now)) (eqb (r % 2) 1) }
{
    is_among(f, x) != (r % 2 == 1)
}

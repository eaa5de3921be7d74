// The positions to flip, from the syndromes in one number: Peterson's locator without inversion (document 01, "Hard stage"), its roots by
// logarithms.
//
// The powers of an error at the position whose element is S1, taken off the syndromes, leave 0, D2 = S1^3 + S3 and E = S1^5 + S5 at once. All
// are 0 where there is at most one error.
// t = 2: the two elements X have the sum S1 and are S1 w and S1 (w + 1), where w^2 + w = D2 / S1^3. Both positions are sums of logarithms.
// t = 3: document 01's locator, turned round so that its roots are the X, is D2 X^3 + S1 D2 X^2 + δ2 X + D3. Moved by S1, with Y = X + S1, it
// is D2 Y^3 + E Y + D2^2, where E = S1^2 D2 + δ2. Where D2 is 0 there is no more than one error, or too many. Where E is 0 the Y are the cube
// roots of D2. Elsewhere Y = W D2^2 / E, where W^3 = k (W + 1) and k = E^3 / D2^5; two of the three W stand in the tables by the logarithm
// of k, and the third Y is the sum of the other two. Two errors are no case of their own: D3 is then 0, and one X with it. δ2 and D3 are not
// worked out: that E and the moved locator are those of document 01 are the laws `e5_is` and `moved_is` (bch `decoding`).
//
// What is found are roots by how the tables were filled (`trio_sums`), so that their sums need not be held to the syndromes; only positions at
// or beyond n are refused. They are handed on in rising order, to both stages; only the last has then to be held to n.
//
// Each function is a step of the locator that is defined by logarithms, and rests on that step's law (bch `LogSteps`). (What it asks of its numbers it says
// itself: they are others at each step, and a type around them would be made in one and taken apart in the next.)
#![tactic(auto, using(crate::proofs::Locating::steps), unfolding(bch::specs::Hard::three_places, bch::proofs::tables::Placing::positions, bch::proofs::decoding::Sorting::sorted))]

ghost use Rattle.std.specs.Prelude.{◌≡◌, ◌≢◌, [], ◌∷◌, ◌-◌, ◌%◌, ◌<◌, ◌≤◌, ◌^◌, length};
ghost use Rattle.std.proofs.Math.Option.{some};
ghost use Rattle.std.specs.Int.Bits.{bit_xor};
ghost use Rattle.bch.proofs.decoding.Elements.{if_zero};
ghost use Rattle.bch.proofs.decoding.KappaSums.{within};
ghost use Rattle.bch.proofs.tables.CodeTables.{log_in, powers_in};
ghost use Rattle.bch.proofs.logarithms.LogLocator.{pair_in, trio_in, cubes_in, kappa_in, locate_in};
ghost use Rattle.bch.proofs.logarithms.LogBounds.{Syndromes};
ghost use Rattle.receiver.specs.Located.{Located, AreSyndromes, Sought};
ghost use Rattle.receiver.specs.Held.{code_in, numbers_in};

use crate::tables::{self, Field, Tables};
use crate::{Flips, test_words};

// Nothing is to be flipped.
fn clean() -> Option<Flips>
    ensures { Located result (some []) }
{
    Some(Flips {
        count: 0,
        at: [0; 3],
    })
}

// One position, where it is below n.
fn one(n: usize, p: usize) -> Option<Flips>
    ensures { Located result (within n (p ∷ [])) }
{
    if n <= p {
        return None;
    }
    Some(Flips {
        count: 1,
        at: [p, 0, 0],
    })
}

// Two positions in order, where both are: the larger is held to n.
fn two(n: usize, x: usize, y: usize) -> Option<Flips>
    ensures { Located result (within n (x ∷ y ∷ [])) }
{
    let high = x.max(y);
    if n <= high {
        return None;
    }
    let low = x.min(y);
    Some(Flips {
        count: 2,
        at: [low, high, 0],
    })
}

// Three positions in order, where all are: y and z are ordered, and then x is put to them.
fn three(n: usize, x: usize, y: usize, z: usize) -> Option<Flips>
    ensures { Located result (within n (x ∷ y ∷ z ∷ [])) }
{
    let a = y.min(z);
    let b = y.max(z);
    let rest = x.max(a);
    let highest = rest.max(b);
    if n <= highest {
        return None;
    }
    let lowest = x.min(a);
    let middle = rest.min(b);
    Some(Flips {
        count: 3,
        at: [lowest, middle, highest],
    })
}

// S1 w and S1 (w + 1), where w^2 + w = D2 / S1^3: from the logarithm of S1, and D2.
fn pair(tables: &Tables, l1: usize, d2: usize) -> Option<Flips>
    requires { (l1 < 2 ^ (code_in tables.now).m - 1) × (d2 < 2 ^ (code_in tables.now).m) × (d2 ≢ 0) }
    ensures { Located result (pair_in (code_in tables.now).m (code_in tables.now).n (numbers_in tables.now) l1 d2) }
{
    let field = &tables.field;
    let period = field.code.period;
    let ld = field.log_of(d2);
    let r = tables.roots_of(field.fold(ld + 3 * (period - l1)));
    if r == 0 {
        return None;
    }
    let x = tables::reduced(period, l1 + (r % 1024) as usize);
    let y = tables::reduced(period, l1 + (r / 1024) as usize);
    two(field.code.n, x, y)
}

// Two roots Y and their sum, moved by S1. (An X that is 0 is none.)
fn trio(field: &Field, s1: usize, y1: usize, y2: usize) -> Option<Flips>
    requires { (s1 < 2 ^ field.now.code.m) × (y1 < 2 ^ field.now.code.m) × (y2 < 2 ^ field.now.code.m) }
    ensures { Located result (trio_in field.now.code.n field.now.numbers.now s1 y1 y2) }
{
    let n = field.code.n;
    let x1 = s1 ^ y1;
    let x2 = s1 ^ y2;
    let x3 = x1 ^ y2;
    let p1 = field.log_of(x1);
    let p2 = field.log_of(x2);
    let p3 = field.log_of(x3);
    if x1 == 0 {
        return two(n, p2, p3);
    }
    if x2 == 0 {
        return two(n, p1, p3);
    }
    if x3 == 0 {
        return two(n, p1, p2);
    }
    three(n, p1, p2, p3)
}

// E is 0: the cube roots of D2.
fn by_cubes(field: &Field, s1: usize, d2: usize) -> Option<Flips>
    requires { (s1 < 2 ^ field.now.code.m) × (d2 < 2 ^ field.now.code.m) × (d2 ≢ 0) }
    ensures { Located result (cubes_in field.now.code.m field.now.code.n field.now.numbers.now s1 d2) }
{
    let period = field.code.period;
    if period % 3 != 0 {
        return None;
    }
    let l = field.log_of(d2);
    if l % 3 != 0 {
        return None;
    }
    let x = field.powers_of(l / 3) % 1024;
    let y = field.powers_of(l / 3 + period / 3) % 1024;
    trio(field, s1, x as usize, y as usize)
}

// Neither D2 nor E is 0: by k = E^3 / D2^5, whose logarithm is 3 log E - 5 log D2.
fn by_kappa(tables: &Tables, s1: usize, d2: usize, e: usize) -> Option<Flips>
    requires { ((code_in tables.now).t ≡ 3) × (s1 < 2 ^ (code_in tables.now).m) × (d2 < 2 ^ (code_in tables.now).m) × (d2 ≢ 0) × (e < 2 ^ (code_in tables.now).m) × (e ≢ 0) }
    ensures { Located result (kappa_in (code_in tables.now).m (code_in tables.now).n (numbers_in tables.now) s1 d2 e) }
{
    let field = &tables.field;
    let period = field.code.period;
    let ld = field.log_of(d2);
    let le = field.log_of(e);
    let r = tables.roots_of(field.fold(3 * le + 5 * (period - ld)));
    if r < 1024 {
        return None;
    }
    let scale = 2 * ld + (period - le);
    let x = field.fold(scale + (r % 1024) as usize);
    let y = field.fold(scale + (r / 1024) as usize);
    let y1 = field.powers_of(x) % 1024;
    let y2 = field.powers_of(y) % 1024;
    trio(field, s1, y1 as usize, y2 as usize)
}

// The positions to flip for the syndromes s.
fn locate(tables: &Tables, s: u32) -> Option<Flips>
    requires { Syndromes (code_in tables.now).m (code_in tables.now).t s }
    ensures { Located result (locate_in (code_in tables.now).m (code_in tables.now).t (code_in tables.now).n (numbers_in tables.now) s) }
{
    if s == 0 {
        return clean();
    }
    let field = &tables.field;
    let s1 = (s % 1024) as usize;
    let l1 = field.log_of(s1);
    let rest = s ^ field.powers_of(l1);
    if rest == 0 {
        return one(field.code.n, l1);
    }
    let t = field.code.t;
    if t == 1 {
        return None;
    }
    let d2 = (rest / 1024 % 1024) as usize;
    if t == 2 {
        if s1 == 0 {
            return None;
        }
        return pair(tables, l1, d2);
    }
    if d2 == 0 {
        return None;
    }
    let e = (rest / 1048576) as usize;
    if e == 0 {
        return by_cubes(field, s1, d2);
    }
    by_kappa(tables, s1, d2, e)
}

// What is left of the syndromes without those of one error of the same S1: 0 where there is at most one.
pub fn rest_of(field: &Field, s: u32) -> u32
    requires { Syndromes field.now.code.m field.now.code.t s }
    ensures { result ≡ bit_xor s (powers_in field.now.code.m field.now.numbers.now (log_in field.now.numbers.now (s % 1024))) }
{
    let l1 = field.log_of((s % 1024) as usize);
    s ^ field.powers_of(l1)
}

// The positions to flip where there is at most one error: the tables of roots are not asked.
pub fn few(field: &Field, s: u32) -> Option<Flips>
    requires { Syndromes field.now.code.m field.now.code.t s }
    ensures { Located result (if_zero s (some []) (within field.now.code.n (log_in field.now.numbers.now (s % 1024) ∷ []))) }
{
    if s == 0 {
        return clean();
    }
    one(field.code.n, field.log_of((s % 1024) as usize))
}

// How many tries are made, and what the last of them located.
#[derive(Clone, Copy)]
pub struct Spot {
    pub tries: usize,
    pub flips: Option<Flips>,
}

// Tries one word after the other, by the syndromes in its number, until positions are located; each try is counted as it is made, by one. (Both
// stages go through here: a function that is called from one place alone is compiled into it, and a try then costs no call of `locate`. It
// also leaves the search with candidates alone; that the tries between two of them had none is the law `skip`, chase `search.Steps`.)
pub fn next(tables: &Tables, tests: &[u64], made: usize) -> Spot
    requires { AreSyndromes (code_in tables.now) tests.now × (made ≤ length tests.now) }
    ensures { Sought (code_in tables.now) (numbers_in tables.now) tests.now made result.tries result.flips }
{
    let mut tries = made;
    for test in &tests[made..] {
        let flips = locate(tables, test_words::syndromes_in(*test));
        tries += 1;
        if flips.is_some() {
            return Spot { tries, flips };
        }
    }
    Spot { tries, flips: None }
}

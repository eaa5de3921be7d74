// Test words, each from the one without its highest bit, by the powers and the reliability of one position. None is written out: a test word
// is one number, 2^32 times its weight plus its syndromes. The weight is 65536 times its flips plus its distance from the hard bits.
ghost use Rattle.std.specs.Prelude.{◌≡◌, ◌+◌, ◌*◌, ◌/◌, ◌%◌, ◌<◌, ◌≤◌, length};
ghost use Rattle.chase.proofs.search.Ready.{flipped_more};
ghost use Rattle.chase.proofs.test_words.Doublings.{Doubled, Small};
ghost use Rattle.refusal.specs.Named.{code_of};

use crate::least_keys;
use crate::tables::Field;

// The syndromes in a test word.
pub fn syndromes_in(test: u64) -> u32
    ensures { result ≡ test % 4294967296 }
{
    (test % 4294967296) as u32
}

// The weight in a test word.
pub fn weight_in(test: u64) -> u32
    ensures { result ≡ test / 4294967296 }
{
    (test / 4294967296) as u32
}

// What the flip of a key's position adds to the weight in a test word.
fn flip_of(key: u16) -> u64
    ensures { result ≡ (65536 + key / 1024) * 4294967296 }
{
    (65536 + u64::from(least_keys::held(key))) * 4294967296
}

// As many test words again, which flip the position of one key more. (By their place: under a `zip` a proof knows no number that is written
// through `iter_mut`.)
pub fn double(field: &Field, key: u16, size: usize, tests: &mut [u64])
    requires placed { key % 1024 < field.now.code.n }
    requires size_in_bounds { (2 * size ≤ length tests.old) × Small 576460752303423488 size tests.old }
    ensures { Doubled (flipped_more (code_of field.now.code) key) size tests.old tests.new }
{
    let v = u64::from(field.powers_of(least_keys::place_of(key)));
    let w = flip_of(key);
    let (made, more) = tests.split_at_mut(size);
    for (i, test) in more[..size].iter_mut().enumerate() {
        *test = (made[i] ^ v) + w;
    }
}

// A word of symbols that is ranked: its least keys, and off each its position and its reliability.
ghost use Rattle.std.specs.Prelude.{◌≡◌, ◌++◌, ◌/◌, ◌%◌, ◌<◌, ◌≤◌, length};
ghost use Rattle.chase.specs.Word.{Symbols};
ghost use Rattle.chase.proofs.search.Ready.{Deep};
ghost use Rattle.receiver.specs.Single.{deep_prop};

use ranking::Keys;

// A word's symbols and its least keys: as many as its p weak positions or the d smallest z ask for.
#[derive(Clone, Copy)]
pub struct Ranked<'a> {
    pub symbols: &'a [u8],
    pub keys: Keys,
    pub d: usize,
    pub p: usize,
    ghost deep: { Deep d symbols.now keys.at (keys.at ++ keys.more) p } by { deep_prop d symbols.now keys.at (keys.at ++ keys.more) p },
    ghost few: { d ≤ 8 },
}

impl<'a> Ranked<'a> {
    // The word ranked, for a search at depth p.
    pub fn new(symbols: &'a [u8], d: usize, p: usize) -> Ranked<'a>
        requires { Symbols symbols.now × (length symbols.now ≤ 1023) × (d ≤ 8) × (d ≤ length symbols.now) × (p ≤ 6) × (p ≤ length symbols.now) }
        ensures symbols { result.symbols.now ≡ symbols.now }
        ensures d { result.d ≡ d }
        ensures p { result.p ≡ p }
    {
        Ranked {
            symbols,
            keys: ranking::weakest(symbols, d.max(p)),
            d,
            p,
        }
    }
}

// The position that a key holds.
pub fn place_of(key: u16) -> usize
    ensures { result ≡ key % 1024 }
{
    usize::from(key % 1024)
}

// The reliability that a key holds.
pub fn held(key: u16) -> u32
    ensures { (result ≡ key / 1024) × (result < 64) }
{
    u32::from(key / 1024)
}

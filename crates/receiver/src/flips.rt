// The positions that are flipped.
ghost use Rattle.std.specs.Prelude.{◌≡◌, ◌<◌, ◌≤◌, get_or, take};
ghost use Rattle.bch.specs.Hard.{three_places};

// Their number, and three places in which they rise and unused ones are 0. (A count and an array of three: document 01 names this form in
// "Each place and its form".)
#[derive(Clone, Copy, Debug, PartialEq, Eq)]
pub struct Flips {
    pub count: usize,
    pub at: [usize; 3],
    ghost few: { count ≤ 3 },
    ghost zeros: { at ≡ three_places (take count at) },
}

impl Flips {
    // The position at i. (A choice among three, and no index into them: what an index may reach lies in memory, and a copy of the whole waits for
    // what was just written into it. With a loop over `at` a word of 63 symbols takes up to 2.8 percent longer in a take.)
    pub(crate) fn entry(&self, i: usize) -> usize
        requires { i < 3 }
        ensures { result ≡ get_or self.now.at i 0 }
    {
        match i {
            0 => self.at[0],
            1 => self.at[1],
            _ => self.at[2],
        }
    }
}

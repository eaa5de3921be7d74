// A text that is put on a buffer, piece by piece. What has no room is left out, so that nothing is required of the buffer.
ghost use Rattle.std.specs.Prelude.{◌≡◌, ◌≤◌, [], ◌∷◌, ◌++◌, length};
ghost use Rattle.listing.specs.Put.{Put};
ghost use Rattle.listing.specs.Text.{decimal, signed as Text·signed};

// The buffer, and where the text on it ends. (No type of the library: `write!` says nothing of when it is `Ok`, and nothing here can fail.)
#[derive(Drop)]
pub struct Text<'a> {
    bytes: &'a mut [u8],
    pub(crate) at: usize,
    ghost inside: { at ≤ length bytes.now },
}

impl<'a> Text<'a> {
    ghost use Rattle.listing.specs.Written.{Written};

    // None, on a buffer that is lent for it.
    pub fn new(bytes: &'a mut [u8]) -> Text<'a>
        ensures same { result.bytes.ghost_name ≡ bytes.entry.ghost_name }
        ensures bytes { result.bytes.now ≡ bytes.old }
        ensures at { result.at ≡ 0 }
    {
        Text { bytes, at: 0 }
    }

    // How long it is.
    pub fn len(&self) -> usize
        ensures value { result ≡ self.now.at }
        ensures upper_bound { result ≤ length self.now.bytes.now }
    {
        self.bytes[..self.at].len()
    }

    // Characters as they stand.
    pub fn characters(&mut self, new: &[u8])
        ensures { Written self.old new.now self.new }
    {
        let count = (self.bytes.len() - self.at).min(new.len());
        let end = self.at + count;
        copy(&new[..count], &mut self.bytes[self.at..end]);
        self.at = end;
    }

    // One character.
    pub fn character(&mut self, c: u8)
        ensures { Written self.old (c ∷ []) self.new }
    {
        if self.at < self.bytes.len() {
            self.bytes[self.at] = c;
            self.at += 1;
        }
    }

    // A number in base ten, and the character behind it.
    pub(crate) fn number(&mut self, x: usize, behind: u8)
        ensures { Written self.old (decimal x ++ (behind ∷ [])) self.new }
    {
        self.at = digits(self.bytes, self.at, x);
        self.character(behind);
    }

    // The same with a hyphen before a negative one. (`as`, here and below: no `From` goes from 32 bits to usize, or to fewer bits.)
    pub(crate) fn signed(&mut self, x: i32, behind: u8)
        ensures { Written self.old (Text·signed x ++ (behind ∷ [])) self.new }
    {
        if x < 0 {
            self.character(b'-');
        }
        self.number(x.unsigned_abs() as usize, behind);
    }
}

// Copies characters: eight at a time, and the last ones one by one. (`copy_from_slice` of any length would ask C for memcpy, as a loop over each
// would, and nothing else in the calls for C does.)
fn copy(new: &[u8], out: &mut [u8])
    requires { length out.old ≡ length new.now }
    ensures { out.new ≡ new.now }
{
    let mut at = 0;
    while at < new.len() {
        if 8 <= new.len() - at {
            out[at..at + 8].copy_from_slice(&new[at..at + 8]);
            at += 8;
        } else {
            out[at] = new[at];
            at += 1;
        }
    }
}

// The digits of a number at a place; answers where they end. (They are put by hand, and not through the text. `itoa` writes them from the last on, so
// that they have to be copied to their place. By the processor time of `list` on 1,000 words of 63 symbols, receiver included, that took 2 percent
// longer, where a listing is within 1 percent of its bar (docs/DESIGN-PASS.md), and a text's `character` for each digit 4 percent.)
fn digits(bytes: &mut [u8], at: usize, x: usize) -> usize
    requires { at ≤ length bytes.old }
    ensures { Put bytes.old at (decimal x) bytes.new result }
{
    let next = if 10 <= x {
        digits(bytes, at, x / 10)
    } else {
        at
    };
    if next == bytes.len() {
        return next;
    }
    bytes[next] = 48 + (x % 10) as u8;
    next + 1
}

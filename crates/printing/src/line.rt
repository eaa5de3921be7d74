// The fields of a line, put from the last to the first: a field's spaces are then there already, and the line is put on the text in one piece.
// (Field by field on the text, with a buffer for each number, a line took twice as long.)
ghost use Rattle.std.specs.Prelude.{◌≡◌, ◌+◌, ◌≤◌, ◌∷◌, ◌++◌, length, take, drop, replicate};
ghost use Rattle.listing.specs.Text.{decimal, signed as Text·signed};
ghost use Rattle.printing.specs.Layout.{padded};

// The fields that are put so far stand from `at` on, behind spaces. (An array that is long enough for five fields, each of up to 20 characters with one
// behind it: nothing is allocated. Each method asks for room for one, which no type can hold, since it is taken. They differ in what they put: one
// function for the three would take that as a closure, and say what it asks and promises.)
#[derive(Drop)]
pub struct Line {
    bytes: [u8; 105],
    at: usize,
    ghost spaces: { take at bytes ≡ replicate at 32 },
    ghost inside: { at ≤ 105 },
}

impl Line {
    // No fields. (A constant: a function would make it in one place and copy it to the next.)
    pub const EMPTY: Line = Line {
        bytes: [b' '; 105],
        at: 105,
    };

    // The fields that are put.
    pub fn text(&self) -> &[u8]
        ensures { result.now ≡ drop self.now.at self.now.bytes }
    {
        &self.bytes[self.at..]
    }

    // Puts a field before them: characters, filled from the left with spaces to a width, and the character behind it.
    pub fn characters(&mut self, width: usize, new: &[u8], behind: u8)
        requires { (21 ≤ self.old.at) × (width ≤ 20) × (length new.now ≤ 20) }
        ensures text { drop self.new.at self.new.bytes ≡ padded width new.now ++ (behind ∷ drop self.old.at self.old.bytes) }
        ensures room { self.old.at ≤ self.new.at + 21 }
    {
        let end = self.at - 1;
        let start = end - new.len();
        self.bytes[end] = behind;
        self.bytes[start..end].copy_from_slice(new);
        self.at = start.min(end - width);
    }

    // The same of a number in base ten. (`as`: no `From` goes from usize to 64 bits. Inlined, so that the place stays in a register.)
    #[inline(always)]
    pub fn number(&mut self, width: usize, x: usize, behind: u8)
        requires { (21 ≤ self.old.at) × (width ≤ 20) }
        ensures text { drop self.new.at self.new.bytes ≡ padded width (decimal x) ++ (behind ∷ drop self.old.at self.old.bytes) }
        ensures room { self.old.at ≤ self.new.at + 21 }
    {
        let end = self.at - 1;
        self.bytes[end] = behind;
        let start = itoa::write_digits(x as u64, &mut self.bytes, end);
        self.at = start.min(end - width);
    }

    // The same with a hyphen before a negative one.
    pub fn signed(&mut self, width: usize, x: i32, behind: u8)
        requires { (21 ≤ self.old.at) × (width ≤ 20) }
        ensures text { drop self.new.at self.new.bytes ≡ padded width (Text·signed x) ++ (behind ∷ drop self.old.at self.old.bytes) }
        ensures room { self.old.at ≤ self.new.at + 21 }
    {
        let end = self.at - 1;
        self.bytes[end] = behind;
        let mut start = itoa::write_digits(u64::from(x.unsigned_abs()), &mut self.bytes, end);
        if x < 0 {
            start -= 1;
            self.bytes[start] = b'-';
        }
        self.at = start.min(end - width);
    }
}

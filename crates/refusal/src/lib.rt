// Refusals (document 01, "Refusals, by their cause"): the form that all calls share, the record of a code, and the checks of settings,
// lengths and bytes.
//
// The check of what a call takes (`of_message`, `of_word`, `of_symbols`, `of_words`) answers the record of the code, or the refusal. A public
// call is that check and then its stage, with the record handed on: so nothing is validated and then forgotten, and a stage has nothing to
// refuse. A call hands over its buffer's length, and not the buffer: a check can't write to it. What another crate can call here has no
// `requires`.
#![tactic(auto)]

ghost use Rattle.std.specs.Prelude.{ℕ, ◌≡◌, ◌*◌, ◌≤◌, ◌^◌, max, fold, drop, position, nat_lt, Some};
ghost use Rattle.galois.specs.Field.{poly};
ghost use Rattle.bch.specs.Code.{code, word_length, message_length};
ghost use Rattle.take_format.specs.Refusal.{first_of, refused, unless_at_most, bits_check, symbols_check, words_check};
ghost use Rattle.take_format.specs.Refusal.{settings as Refusal·settings};
ghost use Rattle.take_format.specs.Calls.{answered};
ghost use Rattle.refusal.specs.Checked.{number_of, text_of, checked, by_number, refused_at};
ghost use Rattle.refusal.specs.Named.{named_of, named_by, record_of, code_of, Made};

use std::fmt;

// What is refused, by the number of document 01. (The names are those of the C header, without its prefix and in camel case.)
#[derive(Clone, Copy, Debug, PartialEq, Eq)]
pub enum Cause {
    M = 1,
    T = 2,
    N = 3,
    Depth = 4,
    Ladder = 5,
    InputLength = 6,
    OutputLength = 7,
    Bit = 8,
    Symbol = 9,
    Kind = 10,
    Level = 11,
    TakeHeader = 12,
    TakeZero = 13,
    TakeLength = 14,
}

impl Cause {
    // Its number. (`as`: no `From` goes from an enum's cases to their numbers.)
    pub fn number(self) -> usize
        ensures value { result ≡ number_of self }
        ensures bounds { (1 ≤ result) × (result ≤ 14) }
    {
        self as usize
    }
}

// A refusal: its cause, and the place of what is refused.
#[derive(Clone, Copy, Debug, PartialEq, Eq)]
pub struct Refusal {
    pub cause: Cause,
    pub place: usize,
}

// A cause alone is refused at place 0.
impl From<Cause> for Refusal {
    ghost from_gives = { λ cause r. r ≡ record { cause = cause; place = 0 } };

    fn from(cause: Cause) -> Refusal {
        Refusal { cause, place: 0 }
    }
}

// The text of a refusal: the word `refused`, the number and the place.
impl fmt::Display for Refusal {
    ghost output = { λ r. Some (text_of r) };

    fn fmt<W: fmt::Write>(&self, f: &mut fmt::Formatter<W>) -> fmt::Result {
        write!(f, "refused {} {}", self.cause.number(), self.place)
    }
}

// A refusal of any number, for callers with causes of their own.
#[derive(Clone, Copy, Debug, PartialEq, Eq)]
pub struct ByNumber {
    pub number: usize,
    pub place: usize,
}

// Refused with a number, at a place.
pub fn refuse(number: usize, place: usize) -> Result<(), ByNumber>
    ensures { by_number result ≡ refused number place }
{
    Err(ByNumber { number, place })
}

// A code (document 01, "The codes"): the settings that name it, with what follows from them. Made by `settings`, and worked out nowhere
// else. (The fields are public, since private functions of other crates take the record. One that is made by hand is of no use but to be
// asked for these numbers, since every public call takes m, t and n; `Made`, which says of a record that it is a code's, is asked for by
// private functions alone.)
#[derive(Clone, Copy, Debug, PartialEq, Eq)]
pub struct Code {
    pub m: usize,
    pub t: usize,
    pub n: usize,
    // The message length k and the design distance d.
    pub k: usize,
    pub d: usize,
    // The polynomial that α is a root of, with the coefficient of x^i as bit i.
    pub polynomial: usize,
    // The order of α, 2^m - 1.
    pub period: usize,
    // Where a table of powers stands behind one by element, 2^m, and one of roots behind that, 2·2^m + 8.
    pub powers: usize,
    pub roots: usize,
}

impl Code {
    // How many positions a word has.
    pub fn length(self) -> usize
        ensures { result ≡ self.n }
    {
        self.n
    }

    // How many bits a message has.
    pub fn message_length(self) -> usize
        ensures { result ≡ self.k }
    {
        self.k
    }

    // In how many positions two codewords differ at least.
    pub fn distance(self) -> usize
        ensures { result ≡ self.d }
    {
        self.d
    }
}

// The code of m, t and n, in the field of `size` elements where α is a root of the polynomial: 2, 3.
fn over(m: usize, size: usize, polynomial: usize, t: usize, n: usize) -> Result<Code, Refusal>
    requires { (5 ≤ m) × (m ≤ 8) × (size ≡ 2 ^ m) × (polynomial ≡ poly m) × (size ≤ 256) }
    ensures { named_of result ≡ answered (first_of (Refusal·settings (code m t n))) (record_of (code m t n)) }
{
    if t < 1 || 3 < t {
        return Err(Cause::T.into());
    }
    let r = m * t;
    if n <= r || size <= n {
        return Err(Cause::N.into());
    }
    Ok(Code {
        m,
        t,
        n,
        k: n - r,
        d: 2 * t + 1,
        polynomial,
        period: size - 1,
        powers: size,
        roots: 2 * size + 8,
    })
}

// The code that m, t and n name: 1, 2, 3. (m picks the field's polynomial and its size. Three numbers, as C hands them over.)
pub fn settings(m: usize, t: usize, n: usize) -> Result<Code, Refusal>
    ensures { named_of result ≡ answered (first_of (Refusal·settings (code m t n))) (record_of (code m t n)) }
{
    match m {
        5 => over(m, 32, 0b100101, t, n),
        6 => over(m, 64, 0b1000011, t, n),
        7 => over(m, 128, 0b10001001, t, n),
        8 => over(m, 256, 0b100011101, t, n),
        _ => Err(Cause::M.into()),
    }
}

// The highest byte, or 0 where there is none: one pass without branches, so that bytes that are all in order cost little.
fn highest(bytes: &[u8]) -> u8
    ensures { result ≡ fold (λ a b. max a b) 0 bytes.now }
{
    bytes.iter().copied().fold(0, u8::max)
}

// The place of the first byte above `most`.
fn first_above(most: u8, bytes: &[u8]) -> Option<usize>
    ensures { result ≡ position (λ b. nat_lt most b) bytes.now }
{
    bytes.iter().position(|&b| most < b)
}

// The place of the first byte above `most` from place `start` on, counted from the first of all bytes.
fn above_from(most: u8, bytes: &[u8], start: usize) -> Option<usize>
    ensures { (k : ℕ) → refused_at k result ≡ unless_at_most k most start (drop start bytes.now) }
{
    let rest = bytes.get(start..)?;
    if highest(rest) <= most {
        return None;
    }
    // (There is one: the highest is above.)
    let i = first_above(most, rest)?;
    Some(start + i)
}

// Bytes that are at most `most` from place `start` on, refused otherwise for a cause at the first that is above; its place counts from
// the first of all bytes. Where there are none from `start` on, they pass.
#[tactic(auto, unfolding(crate::specs::Checked::checked))]
pub fn at_most_from(cause: Cause, most: u8, bytes: &[u8], start: usize) -> Result<(), Refusal>
    ensures { checked result ≡ unless_at_most (number_of cause) most start (drop start bytes.now) }
{
    match above_from(most, bytes, start) {
        Some(place) => Err(Refusal { cause, place }),
        None => Ok(()),
    }
}

// The same, refused with any number.
pub fn at_most_by_number(
    number: usize,
    most: u8,
    bytes: &[u8],
    start: usize,
) -> Result<(), ByNumber>
    ensures { by_number result ≡ unless_at_most number most start (drop start bytes.now) }
{
    match above_from(most, bytes, start) {
        Some(place) => refuse(number, place),
        None => Ok(()),
    }
}

// k bits, and room for a codeword of n: 6, 7, 8.
fn bits(k: usize, n: usize, bits: &[u8], room: usize) -> Result<(), Refusal>
    ensures { checked result ≡ bits_check k n bits.now room }
{
    if bits.len() != k {
        return Err(Cause::InputLength.into());
    }
    if room != n {
        return Err(Cause::OutputLength.into());
    }
    at_most_from(Cause::Bit, 1, bits, 0)
}

// A depth, n symbols, and room for a codeword of n: 4, 6, 7, 9.
fn symbols(depth: usize, n: usize, symbols: &[u8], room: usize) -> Result<(), Refusal>
    ensures { checked result ≡ symbols_check depth n symbols.now room }
{
    if 6 < depth {
        return Err(Cause::Depth.into());
    }
    if symbols.len() != n {
        return Err(Cause::InputLength.into());
    }
    if room != n {
        return Err(Cause::OutputLength.into());
    }
    at_most_from(Cause::Symbol, 31, symbols, 0)
}

// A depth p, the symbols of so many words, and room for their messages and marks: 4, 6, 7, 9.
fn words(
    c: Code,
    p: usize,
    count: u16,
    all: &[u8],
    messages: usize,
    marks: usize,
) -> Result<(), Refusal>
    requires { Made c }
    ensures { checked result ≡ words_check (code_of c) p count all.now messages marks }
{
    if 6 < p {
        return Err(Cause::Depth.into());
    }
    let words = usize::from(count);
    if all.len() != words * c.length() {
        return Err(Cause::InputLength.into());
    }
    if messages != words * c.message_length() || marks != words {
        return Err(Cause::OutputLength.into());
    }
    at_most_from(Cause::Symbol, 31, all, 0)
}

// The code of a call that takes a message's bits, with room for a codeword: 1, 2, 3, 6, 7, 8.
pub fn of_message(
    m: usize,
    t: usize,
    n: usize,
    message: &[u8],
    room: usize,
) -> Result<Code, Refusal>
    ensures { named_of result ≡ named_by (code m t n) (bits_check (message_length (code m t n)) (word_length (code m t n)) message.now room) }
{
    let c = settings(m, t, n)?;
    bits(c.message_length(), c.length(), message, room)?;
    Ok(c)
}

// Of one that takes a word's bits: 1, 2, 3, 6, 7, 8. (Beside `of_message`, from which it differs in one length: a caller has no code yet to ask
// for it.)
pub fn of_word(m: usize, t: usize, n: usize, word: &[u8], room: usize) -> Result<Code, Refusal>
    ensures { named_of result ≡ named_by (code m t n) (bits_check (word_length (code m t n)) (word_length (code m t n)) word.now room) }
{
    let c = settings(m, t, n)?;
    bits(c.length(), c.length(), word, room)?;
    Ok(c)
}

// Of one that takes a word's symbols and a depth: 1, 2, 3, 4, 6, 7, 9.
pub fn of_symbols(
    m: usize,
    t: usize,
    n: usize,
    depth: usize,
    word: &[u8],
    room: usize,
) -> Result<Code, Refusal>
    ensures { named_of result ≡ named_by (code m t n) (symbols_check depth (word_length (code m t n)) word.now room) }
{
    let c = settings(m, t, n)?;
    symbols(depth, c.length(), word, room)?;
    Ok(c)
}

// Of one that takes the symbols of several words and a depth, with room for their messages and marks: 1, 2, 3, 4, 6, 7, 9.
pub fn of_words(
    m: usize,
    t: usize,
    n: usize,
    depth: usize,
    count: u16,
    all: &[u8],
    messages: usize,
    marks: usize,
) -> Result<Code, Refusal>
    ensures { named_of result ≡ named_by (code m t n) (words_check (code m t n) depth count all.now messages marks) }
{
    let c = settings(m, t, n)?;
    words(c, depth, count, all, messages, marks)?;
    Ok(c)
}

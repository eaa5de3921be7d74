// The tables of a code, in one slice of 3·2^m + 16 numbers.
//
// By element x, 2^m entries: the logarithm of x. (That of 0 is an exponent of its own, whose powers are 0, and no Option: an entry has 32 bits,
// and S1 = 0 needs no branch.)
// By exponent i, from `powers` on, 2^m + 8 entries: α^i, α^3i and α^5i in one number, as many of them as t says.
// By exponent e, from `roots` on, 2^m + 8 entries: the logarithms of two roots in one number, 0 where there are none (and no Option, so that
// an entry has 32 bits). For t = 2 they are those of w and w + 1, where w^2 + w = α^e; for t = 3 those of the last two w where
// w^3 = α^e (w + 1).
//
// A sum of exponents is folded once, and is then at most seven beyond the period: so the first eight entries stand again behind it.
//
// The slice is a local array of the stage that fills it: of 208, 784 or 3,088 numbers by 2^m, since an array's length is part of its type;
// several words always have the largest, which is cleared once. What it holds is one predicate, `CodeTables` (bch), for m up to 10.
// Two types say how far it is filled: `Field`, with the tables of the field, and `Tables`, with the roots too. (While it is filled, it is lent
// for writing and each step leaves it otherwise, so that no type says what it holds: there the code stands beside it.)
ghost use Rattle.std.specs.Prelude.{◌≡◌, ◌≢◌, ◌+◌, ◌-◌, ◌*◌, ◌%◌, ◌<◌, ◌≤◌, ◌^◌, min, length};
ghost use Rattle.galois.specs.Field.{alpha, double, poly};
ghost use Rattle.galois.proofs.FieldTables.{Zeros};
ghost use Rattle.bch.proofs.tables.CodeTables.{folded, reduced as CodeTables·reduced, log_in, powers_in, roots_in};
ghost use Rattle.bch.proofs.tables.RootFills.{behind as RootFills·behind};
ghost use Rattle.bch.proofs.tables.TableFills.{FieldPart, stage, Adds};
ghost use Rattle.bch.proofs.tables.TableLoops.{Again, FieldFilled, PairPart, RootPart, Rootless};
ghost use Rattle.refusal.specs.Named.{Made};
ghost use Rattle.receiver.specs.Tables.{Fielded, Filled};

use refusal::Code;

// A code with the tables of its field: logarithms and powers.
#[derive(Clone, Copy)]
pub struct Field<'a> {
    pub code: Code,
    pub numbers: &'a [u32],
    ghost fielded: { Fielded code numbers.now },
}

impl<'a> Field<'a> {
    // An exponent below eight periods, folded: 2^m and 1 are the same exponent.
    pub fn fold(&self, x: usize) -> usize
        requires { x < 8 * (2 ^ self.now.code.m - 1) }
        ensures { (result ≡ folded self.now.code.m x) × (result < 2 ^ self.now.code.m + 7) }
    {
        (x & self.code.period) + (x >> self.code.m)
    }

    // The logarithm of x.
    pub fn log_of(&self, x: usize) -> usize
        requires { x < 2 ^ self.now.code.m }
        ensures { (result ≡ log_in self.now.numbers.now x) × (result ≤ 2 ^ self.now.code.m + 7) × (x ≢ 0 → result < 2 ^ self.now.code.m - 1) }
    {
        self.numbers[x] as usize
    }

    // α^e, α^3e and α^5e, of an exponent that is folded.
    pub fn powers_of(&self, e: usize) -> u32
        requires { e ≤ 2 ^ self.now.code.m + 7 }
        ensures { result ≡ powers_in self.now.code.m self.now.numbers.now e }
    {
        self.numbers[self.code.powers + e]
    }
}

// A code with all its tables: the roots too.
#[derive(Clone, Copy)]
pub struct Tables<'a> {
    pub field: Field<'a>,
    ghost filled: { Filled field.code field.numbers.now },
}

impl<'a> Tables<'a> {
    // A code with all its tables, in numbers that are zeros before.
    pub fn filled(code: Code, numbers: &'a mut [u32]) -> Tables<'a>
        requires { Made code × (3 * 2 ^ code.m + 16 ≤ length numbers.old) × Zeros numbers.old }
        ensures { result.field.code ≡ code }
    {
        fill_field(code, numbers);
        fill_roots(code, numbers);
        Tables {
            field: Field { code, numbers },
        }
    }

    // The logarithms of two roots, of an exponent that is folded.
    pub fn roots_of(&self, e: usize) -> u32
        requires { e < 2 ^ self.now.field.code.m + 7 }
        ensures { result ≡ roots_in self.now.field.code.m self.now.field.numbers.now e }
    {
        self.field.numbers[self.field.code.roots + e]
    }
}

// An exponent below two periods, below one.
pub fn reduced(period: usize, e: usize) -> usize
    ensures { (result ≡ CodeTables·reduced period e) × (e < 2 * period → result < period) }
{
    if e < period { e } else { e - period }
}

// α times a.
fn twice(m: usize, top: usize, g: usize, a: usize) -> usize
    requires { (5 ≤ m) × (m ≤ 10) × (top ≡ 2 ^ m) × (g ≡ poly m) × (a < 2 ^ m) }
    ensures { (result ≡ double m a) × (result < 2 ^ m) }
{
    let y = 2 * a;
    if y < top { y } else { y ^ g }
}

// The logarithms, and the powers below the period.
fn fill_logs(c: Code, numbers: &mut [u32])
    requires { Made c × (3 * 2 ^ c.m + 16 ≤ length numbers.old) × Zeros numbers.old }
    ensures { FieldPart c.m (alpha c.m) (2 ^ c.m - 1) numbers.new }
{
    let mut x = 1;
    for i in 0..c.period {
        numbers[x] = i as u32;
        numbers[c.powers + i] = x as u32;
        x = twice(c.m, c.powers, c.polynomial, x);
    }
    numbers[0] = (c.period + 8) as u32;
}

// Where the code has more than t powers: adds α^(d i), times the scale, to each power i. (The exponent goes round the period in d turns. One
// loop that takes it below the period at each step is slower by 16 to 64 percent, and `step_by` in each turn by up to 14.)
fn add_powers(c: Code, t: usize, d: usize, scale: u32, numbers: &mut [u32])
    requires { Made c × Adds c.m t d scale × FieldPart c.m (stage c.m (min t c.t)) (2 ^ c.m - 1) numbers.old }
    ensures { FieldPart c.m (stage c.m (min (t + 1) c.t)) (2 ^ c.m - 1) numbers.new }
{
    if c.t <= t {
        return;
    }
    let mut e = 0;
    let mut i = 0;
    for _ in 0..d {
        while e < c.period {
            numbers[c.powers + i] += scale * (numbers[c.powers + e] % 1024);
            e += d;
            i += 1;
        }
        e -= c.period;
    }
}

// Where t = 2, for w^2 + w, by its logarithm: the logarithms of w and w + 1. (The even w are enough: w + 1 has the same value. With `step_by`
// in place of the halves of w the whole fill is slower by 6 to 9 percent.)
fn fill_quadratics(c: Code, numbers: &mut [u32])
    requires { Made c × FieldFilled c.m c.t numbers.old × Rootless c.m numbers.old }
    ensures { PairPart c.m c.t numbers.new }
{
    if c.t != 2 {
        return;
    }
    for h in 1..c.powers / 2 {
        let w = 2 * h;
        let a = numbers[w];
        let b = numbers[w + 1];
        let e = reduced(c.period, (a + b) as usize);
        numbers[c.roots + e] = a + 1024 * b;
    }
}

// e - d below the period. (To take e + period - d below it by `reduced` makes the loop that calls this slower by up to 26 percent.)
fn behind(e: usize, d: usize, period: usize) -> usize
    requires { (e < period) × (d < period) × (period ≤ 1024) }
    ensures { (result ≡ RootFills·behind period e d) × (result < period) }
{
    if d <= e { e - d } else { e + period - d }
}

// Where t = 3, for w^3 / (w + 1), by its logarithm: the logarithms of two such w, the last ones. (In three turns, as above: one loop is slower
// by 32 to 73 percent, and `step_by` by up to 13.)
fn fill_kappas(c: Code, numbers: &mut [u32])
    requires { Made c × PairPart c.m c.t numbers.old }
    ensures { RootPart c.m c.t numbers.new }
{
    if c.t != 3 {
        return;
    }
    let mut e = 3;
    let mut l = 1;
    for _ in 0..3usize {
        while e < c.period {
            let x = numbers[c.powers + l] % 1024 ^ 1;
            let at = c.roots + behind(e, numbers[x as usize] as usize, c.period);
            numbers[at] = numbers[at] % 1024 * 1024 + l as u32;
            e += 3;
            l += 1;
        }
        e -= c.period;
    }
}

// The first eight entries from `from` on again behind the period.
fn wrap(from: usize, period: usize, numbers: &mut [u32])
    requires { (8 ≤ period) × (from + period + 8 ≤ length numbers.old) }
    ensures { Again period from 8 numbers.old numbers.new }
{
    numbers.copy_within(from..from + 8, from + period);
}

// The tables of the field, where all are zeros before.
pub fn fill_field(c: Code, numbers: &mut [u32])
    requires { Made c × (3 * 2 ^ c.m + 16 ≤ length numbers.old) × Zeros numbers.old }
    ensures { Fielded c numbers.new × Rootless c.m numbers.new }
{
    fill_logs(c, numbers);
    add_powers(c, 1, 3, 1024, numbers);
    add_powers(c, 2, 5, 1048576, numbers);
    wrap(c.powers, c.period, numbers);
}

// The roots, where the field's tables are filled.
pub fn fill_roots(c: Code, numbers: &mut [u32])
    requires { Fielded c numbers.old × Rootless c.m numbers.old }
    ensures { Filled c numbers.new }
{
    fill_quadratics(c, numbers);
    fill_kappas(c, numbers);
    wrap(c.roots, c.period, numbers);
}

// Systematic encoding by polynomial division: the register of the generator's division, which the message's bits go through
// from the last to the first, ends as the parity.
ghost use Rattle.std.specs.Prelude.{◌+◌, ◌/◌, ◌%◌, ◌<◌, ◌≤◌, ◌^◌, ◌≡◌, length};
ghost use Rattle.bch.specs.Words.{Bits};
ghost use Rattle.bch.specs.Code.{message_length};
ghost use Rattle.bch.specs.Encode.{encoded};
ghost use Rattle.bch.specs.Generator.{generator};
ghost use Rattle.bch.proofs.encoding.Numbers.{word};
ghost use Rattle.bch.proofs.encoding.Division.{remainder};
ghost use Rattle.bch.proofs.encoding.Division.{step as Division-step};
ghost use Rattle.take_format.proofs.checks.RefusalLaws.{BitsAccepted};
ghost use Rattle.refusal.specs.Named.{code_of};

use refusal::Code;

// The generators: a row for each m from 5 to 8, in it t from 1 to 3.
const GENERATORS: [[u32; 3]; 4] = [
    [0o45, 0o3551, 0o107657],
    [0o103, 0o12471, 0o1701317],
    [0o211, 0o41567, 0o11554743],
    [0o435, 0o267543, 0o156720665],
];

// The generator of m and t.
fn generator_of(m: usize, t: usize) -> u32
    requires { (5 ≤ m) × (m ≤ 8) × (1 ≤ t) × (t ≤ 3) }
    ensures { result ≡ generator m t }
{
    GENERATORS[m - 5][t - 1]
}

// One step of the division. The generator has degree r, so that to add it gives the smaller number exactly where x^r is set. (To take the
// smaller of two numbers needs no branch.)
fn step(r: usize, top: u32, g: u32, register: u32, bit: u32) -> u32
    requires { (r ≤ 30) × (top ≡ 2 ^ r) × (g / 2 ^ r ≡ 1) × (register < 2 ^ r) × (bit < 2) }
    ensures { result ≡ Division-step r g register bit }
{
    let v = 2 * register ^ bit * top;
    let w = v ^ g;
    v.min(w)
}

// The remainder of the message's division.
fn parity(r: usize, g: u32, message: &[u8]) -> u32
    requires { (r ≤ 30) × (g / 2 ^ r ≡ 1) × Bits message.now }
    ensures { result ≡ remainder r g message.now }
{
    let top = 1 << r;
    let mut register: u32 = 0;
    for &bit in message.iter().rev() {
        register = step(r, top, g, register, u32::from(bit));
    }
    register
}

// Writes the register's lowest bits, bit i at position i. (`as`: no `From` goes to fewer bits. The runner's `spread` is like it: in one place for both it
// would be a public call.)
fn write_parity(register: u32, parity: &mut [u8])
    ensures { parity.new ≡ word (length parity.old) register }
{
    let mut left = register;
    for bit in parity {
        *bit = (left % 2) as u8;
        left /= 2;
    }
}

// Writes the message. (`copy_from_slice` asks C for memmove, and the calls for C need memcpy and memset alone; under a `zip` a proof knows nothing of
// what is written. The receiver's `copy` is like it: in one place for both it would be a public call.)
fn write_message(message: &[u8], out: &mut [u8])
    requires { length out.old ≡ length message.now }
    ensures { out.new ≡ message.now }
{
    for (i, bit) in out.iter_mut().enumerate() {
        *bit = message[i];
    }
}

// Writes the codeword that carries the message.
pub fn write(c: Code, message: &[u8], codeword: &mut [u8])
    requires { BitsAccepted (code_of c) (message_length (code_of c)) message.now codeword.old }
    ensures { codeword.new ≡ encoded (code_of c) message.now }
{
    let r = c.m * c.t;
    let register = parity(r, generator_of(c.m, c.t), message);
    let (low, high) = codeword.split_at_mut(r);
    write_parity(register, low);
    write_message(message, high);
}

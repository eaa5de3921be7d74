// The encoder of a BCH word (document 01, "The codes"; systematic encoding).
//
//     encoder::encode(6, 2, 63, &message, &mut codeword)?;
//
// `Ok` is the parity at positions 0 to 11 and the message's 51 bits behind it. `Err(r)` is a refusal, r.cause and r.place, and the buffer is as
// it was.
#![tactic(auto)]

ghost use Rattle.std.specs.Prelude.{◌≡◌};
ghost use Rattle.bch.specs.Code.{code};
ghost use Rattle.take_format.specs.Refusal.{encode_refusal};
ghost use Rattle.take_format.specs.Calls.{encode_buffer};
ghost use Rattle.refusal.specs.Checked.{checked};

use refusal::Refusal;

mod division;

// Writes the codeword that carries a message of n - m t bits: parity at positions 0 to m t - 1, the message behind it. Any m, t,
// n, message and buffer may be handed in. (m, t and n are three numbers, as C hands them over.)
pub fn encode(
    m: usize,
    t: usize,
    n: usize,
    message: &[u8],
    codeword: &mut [u8],
) -> Result<(), Refusal>
    ensures answer { checked result ≡ encode_refusal (code m t n) message.now codeword.old }
    ensures codeword { codeword.new ≡ encode_buffer (code m t n) message.now codeword.old }
{
    let c = refusal::of_message(m, t, n, message, codeword.len())?;
    division::write(c, message, codeword);
    Ok(())
}

// Several words of one code, decoded with tables that are filled once. A word's mark and tries are read off the outcome of its search, and no
// codeword stands between that and its message.
ghost use Rattle.std.specs.Prelude.{◌+◌, ◌-◌, ◌<◌, ◌≤◌, ◌≡◌, length};
ghost use Rattle.take_format.specs.Batch.{message as Batch·message, mark_byte, answers_to, messages_of, marks_of, totals_of};
ghost use Rattle.take_format.proofs.checks.RefusalLaws.{WordsChecked};
ghost use Rattle.refusal.specs.Named.{code_of, Made};
ghost use Rattle.receiver.specs.Answer.{totals_told, byte_of};
ghost use Rattle.receiver.specs.Search.{mark_in, stage_of};
ghost use Rattle.receiver.specs.Held.{code_in};

use crate::least_keys::Ranked;
use crate::search::{Outcome, Search};
use crate::tables::{Field, Tables};
use crate::{Mark, Totals, soft_stage, tables};
use refusal::Code;

// One word: its message, and 0 in its place where it is lost.
fn decode_word(search: &Search, message: &mut [u8]) -> Outcome
    requires { length message.old ≡ (code_in search.now.tables.now).k }
    ensures answer { (byte_of (mark_in result.best) ≡ mark_byte (stage_of search.now.tables.now search.now.word.now).mark) × (result.tries ≡ (stage_of search.now.tables.now search.now.word.now).tries) }
    ensures message { message.new ≡ Batch·message (code_of (code_in search.now.tables.now)) (stage_of search.now.tables.now search.now.word.now) }
{
    let code = search.tables.field.code;
    let from = code.length() - code.message_length();
    let o = soft_stage::decode_word(search, from, message);
    if o.mark() == Mark::Lost {
        message.fill(0);
    }
    o
}

// All words, one after the other: as many as there are marks. (Each word's part is cut by its place: a proof knows no byte that is written
// through `chunks_exact_mut`. The tables are lent again to each search, which doesn't outlive its word.)
fn decode_all(
    tables: &Tables,
    p: usize,
    symbols: &[u8],
    messages: &mut [u8],
    marks: &mut [u8],
) -> Totals
    requires few { length marks.old ≤ 65535 }
    requires words_checked { WordsChecked (code_of (code_in tables.now)) p (length marks.old) symbols.now messages.old marks.old }
    ensures answer { totals_told result ≡ totals_of (answers_to (code_of (code_in tables.now)) p (length marks.old) symbols.now) }
    ensures messages { messages.new ≡ messages_of (code_of (code_in tables.now)) (answers_to (code_of (code_in tables.now)) p (length marks.old) symbols.now) }
    ensures marks { marks.new ≡ marks_of (answers_to (code_of (code_in tables.now)) p (length marks.old) symbols.now) }
{
    let code = tables.field.code;
    let n = code.length();
    let k = code.message_length();
    let mut totals = Totals::NONE;
    for (w, byte) in marks.iter_mut().enumerate() {
        let word = Ranked::new(&symbols[w * n..w * n + n], code.distance(), p);
        let search = Search {
            tables: &*tables,
            word: &word,
        };
        let o = decode_word(&search, &mut messages[w * k..w * k + k]);
        let mark = o.mark();
        *byte = mark as u8;
        totals = totals.add(mark, o.tries);
    }
    totals
}

// All words, with tables of its own, which have room for m = 10.
pub fn decode(c: Code, p: usize, symbols: &[u8], messages: &mut [u8], marks: &mut [u8]) -> Totals
    requires made { Made c × (length marks.old ≤ 65535) }
    requires words_checked { WordsChecked (code_of c) p (length marks.old) symbols.now messages.old marks.old }
    ensures answer { totals_told result ≡ totals_of (answers_to (code_of c) p (length marks.old) symbols.now) }
    ensures messages { messages.new ≡ messages_of (code_of c) (answers_to (code_of c) p (length marks.old) symbols.now) }
    ensures marks { marks.new ≡ marks_of (answers_to (code_of c) p (length marks.old) symbols.now) }
{
    let mut numbers = [0; 3088];
    decode_all(
        &Tables::filled(c, &mut numbers),
        p,
        symbols,
        messages,
        marks,
    )
}

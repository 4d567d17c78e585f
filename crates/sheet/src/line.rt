// The lines of a box, of the volumes and of an answer, put into any sink.
ghost use Rattle.std.specs.Prelude.{◌+◌, ◌≤◌, [], ◌∷◌, ◌++◌, length, min, decimal};
ghost use Rattle.sheet.specs.Sheet.{spaced, sides, verdict_words, box_line, volumes_line, refused_line, answer_line, longest_line};

use chain::refusal::Refusal;
use itoa::Buffer;
use sink::{Encode, Sink};
use theory::record::{Answer, BoxRecord, Reply, Volumes};
use theory::verdict::Verdict;

// How long a line can be, and that of the volumes. Where there is room for so much, none is measured.
pub(crate) const LONGEST_LINE: usize = 238;

pub(crate) const LONGEST_LAST: usize = 63;

// The decimal digits of a number, without leading zeros.
#[inline(always)]
fn put_number<S: Sink>(sink: &mut S, n: u64)
    ensures taken { S.Takes sink.old (decimal n) sink.new }
    ensures within { length (decimal n) ≤ 20 }
{
    if n < 10 {
        sink.put_byte(b'0' + n as u8);
    } else {
        let mut digits = Buffer::new();
        sink.put(digits.format(n).as_bytes());
    }
}

// A space and then a number.
#[inline(always)]
fn put_spaced<S: Sink>(sink: &mut S, n: u64)
    ensures taken { S.Takes sink.old (spaced n) sink.new }
    ensures within { length (spaced n) ≤ 21 }
{
    sink.put_byte(b' ');
    put_number(sink, n);
}

// A word and then a number.
#[inline(always)]
fn put_word<S: Sink>(sink: &mut S, word: &[u8], n: u64)
    ensures taken { S.Takes sink.old (word.now ++ spaced n) sink.new }
    ensures within { length (word.now ++ spaced n) ≤ length word.now + 21 }
{
    sink.put(word);
    put_spaced(sink, n);
}

// Low and high of each of the first rates.
fn put_sides<S: Sink>(sink: &mut S, rates: u32, record: &BoxRecord)
    ensures taken { S.Takes sink.old (sides «record».now (min rates 4)) sink.new }
    ensures within { length (sides «record».now (min rates 4)) ≤ 168 }
{
    let count = rates.min(4) as usize;
    for (low, high) in record.low[..count].iter().zip(&record.high[..count]) {
        put_spaced(sink, *low as u64);
        put_spaced(sink, *high as u64);
    }
}

// A verdict: its word, and its numbers.
fn put_verdict<S: Sink>(sink: &mut S, verdict: Verdict)
    ensures taken { S.Takes sink.old (verdict_words verdict) sink.new }
    ensures within { length (verdict_words verdict) ≤ 49 }
{
    match verdict {
        Verdict::Open => sink.put(b" open"),
        Verdict::Safe { bound } => put_word(sink, b" safe", bound as u64),
        Verdict::Unsafe { bound, steps } => {
            put_word(sink, b" unsafe", bound as u64);
            put_spaced(sink, steps);
        }
    }
}

// The line of the volumes: safe, unsafe and open.
pub(crate) fn put_volumes<S: Sink>(sink: &mut S, volumes: &Volumes)
    ensures taken { S.Takes sink.old (volumes_line volumes.now) sink.new }
    ensures within { length (volumes_line volumes.now) ≤ 63 }
{
    put_number(sink, volumes.safe);
    put_spaced(sink, volumes.exceeding);
    put_spaced(sink, volumes.pending);
    sink.put_byte(b'\n');
}

// The line of a refusal: its number and its place.
fn put_refusal<S: Sink>(sink: &mut S, refusal: &Refusal)
    ensures taken { S.Takes sink.old (refused_line refusal.now) sink.new }
    ensures within { length (refused_line refusal.now) ≤ 50 }
{
    put_word(sink, b"refused", refusal.number() as u64);
    put_spaced(sink, refusal.place() as u64);
    sink.put_byte(b'\n');
}

// A number alone.
fn put_count<S: Sink>(sink: &mut S, n: u32)
    ensures taken { S.Takes sink.old (decimal n ++ 10 ∷ []) sink.new }
    ensures within { length (decimal n ++ 10 ∷ []) ≤ 21 }
{
    put_number(sink, n as u64);
    sink.put_byte(b'\n');
}

// The line of a box: its number, low and high of so many rates, and its verdict.
#[derive(Clone, Copy)]
pub(crate) struct BoxLine<'a> {
    pub(crate) number: u64,
    pub(crate) rates: u32,
    pub(crate) shown: &'a BoxRecord,
}

impl Encode for BoxLine<'_> {
    ghost bytes = { λ l. box_line l.number l.rates l.shown.now };

    ghost most = { λ _. longest_line };

    fn encode<S: Sink>(&self, sink: &mut S) {
        put_number(sink, self.number);
        put_sides(sink, self.rates, self.shown);
        put_verdict(sink, self.shown.verdict);
        sink.put_byte(b'\n');
    }

    fn fits_always(&self, buffer: &[u8]) -> bool {
        LONGEST_LINE <= buffer.len()
    }
}

// The line of an answer. Where it is a box, it has this number and so many rates.
#[derive(Clone, Copy)]
pub(crate) struct AnswerLine<'a> {
    pub(crate) number: u64,
    pub(crate) rates: u32,
    pub(crate) answer: &'a Answer,
}

impl Encode for AnswerLine<'_> {
    ghost bytes = { λ l. answer_line l.number l.rates l.answer.now };

    ghost most = { λ _. longest_line };

    fn encode<S: Sink>(&self, sink: &mut S) {
        match self.answer {
            Ok(Reply::Done) => sink.put(b"ok\n"),
            Ok(Reply::Count(n)) => put_count(sink, *n),
            Ok(Reply::Found(shown)) => BoxLine {
                number: self.number,
                rates: self.rates,
                shown,
            }
            .encode(sink),
            Ok(Reply::Measured(volumes)) => put_volumes(sink, volumes),
            Err(refusal) => put_refusal(sink, refusal),
        }
    }

    fn fits_always(&self, buffer: &[u8]) -> bool {
        LONGEST_LINE <= buffer.len()
    }
}

// The text of a replay, and the reading and writing around it.
#![tactic(auto)]

ghost use Rattle.std.specs.Prelude.{◌≡◌, ◌++◌, ◌+◌, List, length, ltb, take, Some, IfOk, OnOk, IfSome, ◌≤◌, ◌<◌};
ghost use Rattle.arrayvec.specs.ArrayVec.{array_vec_len};
ghost use Rattle.std.specs.Io.KnownBytes.{Appends, Consumes, IsAtEnd, Keeps};
ghost use Rattle.player.specs.Text.{step_line, lines_of, refusal_line, long_of, opened_of, opened_text, printed_of};
ghost use Rattle.player.specs.Failure.{read_of, message_of};

use arrayvec::ArrayVec;
use board::Refusal;
use recording::Playing;
use std::io::{Read, Write};
use std::{fmt, io};

// ---- what can fail

// A read failed; `length` bytes came before it.
#[derive(Clone, Copy)]
pub struct Unread {
    pub length: usize,
}

// Why a recording was not played to its end. By hand: a derive's `From` promises nothing of which failure it gives.
#[derive(Clone, Copy)]
pub enum Failure {
    Unread,
    Unwritten,
}

impl Failure {
    #[tactic(auto, unfolding(crate::specs::Failure::message_of))]
    fn message(self) -> &'static str
        ensures text { result.now ≡ message_of self }
        ensures upper_bound { length result.now ≤ 59 }
    {
        match self {
            Failure::Unread => "the input cannot be read",
            Failure::Unwritten => "the output cannot be written; what was written is not whole",
        }
    }
}

impl fmt::Display for Failure {
    ghost output = { λ failure. Some (message_of failure) };

    fn fmt<W: fmt::Write>(&self, f: &mut fmt::Formatter<W>) -> fmt::Result {
        f.write_str(self.message())
    }
}

impl From<Unread> for Failure {
    ghost use Rattle.player.specs.declared.Failure.{Failure};

    ghost from_gives = { λ _ failure. failure ≡ Failure.Unread };

    fn from(_: Unread) -> Self {
        Failure::Unread
    }
}

impl From<io::Error> for Failure {
    ghost use Rattle.player.specs.declared.Failure.{Failure};

    ghost from_gives = { λ _ failure. failure ≡ Failure.Unwritten };

    fn from(_: io::Error) -> Self {
        Failure::Unwritten
    }
}

// ---- the text

// The bytes of a line, at most; the lines of a page; and the bytes that a page has room for.
const LINE: usize = 176;

const LINES: u32 = 93;

const PAGE: usize = 16384;

// A step's line: the step's number, the answer's number, the words.
#[tactic(auto, unfolding(crate::specs::Text::step_line), using(std::proofs::Common::append_assoc))]
fn step_line(out: &mut [u8], step: u32, number: u32, words: [i32; 12]) -> usize
    requires { LINE ≤ length out.old }
    ensures upper_bound { result ≤ LINE }
    ensures out_after { take result out.new ≡ step_line step number words }
{
    let end = text::digits(out, 0, step, 10);
    let end = text::put(out, end, b' ');
    let end = text::digits(out, end, number, 10);
    let end = text::words(out, end, words);
    text::put(out, end, b'\n')
}

// A refusal's number, alone.
#[tactic(auto, unfolding(crate::specs::Text::refusal_line))]
fn refusal_line(out: &mut [u8], number: u32) -> usize
    requires { 11 ≤ length out.old }
    ensures upper_bound { result ≤ length out.old }
    ensures out_after { take result out.new ≡ refusal_line number }
{
    let end = text::digits(out, 0, number, 10);
    text::put(out, end, b'\n')
}

// More text in a page that has room for it.
fn append<const N: usize>(page: &mut ArrayVec<u8, N>, text: &[u8])
    requires { array_vec_len page.old + length text.now ≤ N }
    ensures { page.new.items ≡ page.old.items ++ text.now }
{
    let _fits = page.try_extend_from_slice(text);
}

// What an input of more than 65,536 bytes is refused by.
#[tactic(auto, unfolding(crate::specs::Text::long_of))]
fn long(rec: &[u8]) -> Refusal
    ensures { result ≡ long_of rec.now }
{
    if recording::opening_ok(rec) {
        Refusal::WrongLength
    } else {
        Refusal::BadOpening
    }
}

// The recording that fills the buffer, or why it is refused, by how many bytes came after it.
#[tactic(auto, unfolding(crate::specs::Text::opened_of))]
fn open(rec: &[u8], more: usize) -> Result<Playing, Refusal>
    ensures { result ≡ opened_of (ltb 0 more) rec.now }
{
    if 0 < more {
        return Err(long(rec));
    }
    recording::open(rec)
}

// The lines of all steps, page by page.
fn write_steps<W: Write>(start: Playing, rec: &[u8], out: &mut W) -> io::Result<()>
    ensures { OnOk result (Appends (W.contents out.old) (W.contents out.new) (lines_of start.steps start rec.now)) }
{
    let mut playing = start;
    let mut page = ArrayVec::<u8, PAGE>::new();
    for step in 0..start.steps {
        let at = playing.at;
        let played = recording::next(playing, rec);
        let mut line = [0; LINE];
        let end = step_line(&mut line, at, board::number(played.refusal), played.rx);
        append(&mut page, &line[..end]);
        if step % LINES == LINES - 1 {
            out.write_all(page.as_slice())?;
            page.clear();
        }
        playing = played.playing;
    }
    if page.is_empty() {
        return Ok(());
    }
    out.write_all(page.as_slice())
}

// The text of an input that holds this recording, or that is refused.
fn write_text<W: Write>(opened: Result<Playing, Refusal>, rec: &[u8], out: &mut W) -> io::Result<()>
    ensures { OnOk result (Appends (W.contents out.old) (W.contents out.new) (opened_text rec.now opened)) }
{
    match opened {
        Ok(playing) => write_steps(playing, rec, out),
        Err(refusal) => {
            let mut line = [0; 11];
            let end = refusal_line(&mut line, board::number(Some(refusal)));
            out.write_all(&line[..end])
        }
    }
}

// ---- reading and writing

// Reads until the buffer is full or the input ends, and answers how many bytes came; a read that fails is told apart from the end.
pub fn fill<R: Read>(input: &mut R, buffer: &mut [u8]) -> Result<usize, Unread>
    ensures in_bounds { read_of result ≤ length buffer.new }
    ensures prefix { read_of result ≡ length (take (read_of result) buffer.new) }
    ensures bytes { Consumes (R.remaining input.old) (R.remaining input.new) (take (read_of result) buffer.new) }
    ensures end { IfOk result (λ n. n < length buffer.new → IsAtEnd (R.remaining input.new)) }
{
    // no `for`: a read may give fewer bytes than there is room for
    let mut length = 0;
    while length < buffer.len() {
        match input.read(&mut buffer[length..]) {
            Ok(0) => return Ok(length),
            Ok(more) => length += more,
            Err(_) => return Err(Unread { length }),
        }
    }
    Ok(length)
}

// Reads a recording to its end, or to one byte more than the buffer holds, and writes its text.
fn replay<R: Read, W: Write>(input: &mut R, out: &mut W) -> Result<(), Failure>
    ensures { OnOk result (IfSome (R.remaining input.old) (λ bytes. Appends (W.contents out.old) (W.contents out.new) (printed_of bytes))) }
{
    let mut rec = [0; 65536];
    let length = fill(input, &mut rec)?;
    if length < 65536 {
        let rec = &rec[..length];
        write_text(recording::open(rec), rec, out)?;
        return Ok(());
    }
    let more = fill(input, &mut [0; 1])?;
    write_text(open(&rec, more), &rec, out)?;
    Ok(())
}

// Reads a recording to its end, and writes its text; or says on `errors` why that cannot be done, by one write. A message that cannot be written is lost.
pub fn play<R: Read, W: Write, E: Write>(
    input: &mut R,
    out: &mut W,
    errors: &mut E,
) -> Result<(), Failure>
    ensures text { OnOk result (IfSome (R.remaining input.old) (λ bytes. Appends (W.contents out.old) (W.contents out.new) (printed_of bytes))) }
    ensures silent { OnOk result (Keeps (E.contents errors.old) (E.contents errors.new)) }
{
    let played = replay(input, out);
    if let Err(failure) = played {
        let mut message = ArrayVec::<u8, 68>::new();
        append(&mut message, b"replay: ");
        append(&mut message, failure.message().as_bytes());
        append(&mut message, b"\n");
        let _ = errors.write_all(message.as_slice());
    }
    played
}

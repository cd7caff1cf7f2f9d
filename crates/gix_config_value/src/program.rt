//! The program, which answers each line of its input with the canonical text of the line's value.
//!
//! Answers wait in a buffer. They are written out when it is full, before the next read and at the end. Lines
//! within one read are answered from its slice; only a line that crosses the end of a read is copied.
ghost use Rattle.std.specs.Prelude.{◌≡◌, ◌+◌, ◌≤◌, [], length, OnOk, IfOk, IfErr};
ghost use Rattle.gix_config_value.specs.Answers.{ended, line_head, line_value, IsUnbroken, Completes, Fails};
ghost use Rattle.gix_config_value.specs.Answers.{status_of};
ghost use Rattle.gix_config_value.specs.Reading.Steps.{AppendsAnswer, output_state, SendsBytes, SendsAnswer};
ghost use Rattle.gix_config_value.specs.Reading.Steps.{FailsSending, run_state, with_more, Advances};
ghost use Rattle.gix_config_value.specs.Reading.Steps.{FailsWithin, AnswersUpTo, EndsAnswered, EndsEarly};

use crate::kind::{kind_by_name, normalize_into};
use arrayvec::ArrayString;
use bstr::{BStr, ByteSlice};
use config_text::value::{CanonicalText, LONGEST_TEXT};
use std::alloc::{AllocError, Global};
use std::io::{Read, Write};
use thiserror::Error;

/// The reason why a run failed. Its exit status is 2: docs/GRAMMAR.md, Lines and answers.
///
/// ```rust
/// use gix_config_value::program::{RunError, status};
///
/// assert_eq!(rt; status(&Err(RunError::Read)), 2);
/// assert_eq!(rt; status(&Ok(false)), 1); // some line was refused, or began with no kind
/// ```
#[derive(Clone, Copy, PartialEq, Eq, Debug, Error)]
pub enum RunError {
    /// A read failed, or the input did not end within 18446744073709551615 reads.
    #[error("cannot read")]
    Read,
    /// A write or the flush at the end failed, or a write took no byte.
    #[error("cannot write")]
    Write,
    /// There was no memory to hold a line that crosses the end of a read.
    #[error("no memory")]
    Memory(AllocError),
}

/// The length of the longest answer in bytes: `ok `, the longest canonical text, and LF.
const LONGEST_ANSWER: usize = LONGEST_TEXT + 4;

/// The size of the buffer for answers that wait, in bytes.
const ROOM: usize = 8192;

/// The most bytes that one read takes.
const READ: usize = 65536;

/// Splits a line at its first space. Without a space, the first part is the whole line and the second is
/// empty.
fn split_line(line: &[u8]) -> (&[u8], &[u8])
    ensures head { result.0.now ≡ line_head line.now }
    ensures value { result.1.now ≡ line_value line.now }
{
    match line.find_byte(b' ') {
        Some(space) => (&line[..space], &line[space + 1..]),
        None => (line, &[]),
    }
}

/// Appends the answer to a line to what waits, and returns whether the line was accepted. A line is the name
/// of a kind, one space, and the text of a value; without a space the text is empty.
fn push_answer(line: &[u8], waiting: &mut ArrayString<ROOM>) -> bool
    requires { length waiting.old.bytes + LONGEST_ANSWER ≤ ROOM }
    ensures { AppendsAnswer line.now waiting.old.bytes waiting.new.bytes result }
{
    let (head, value) = split_line(line);
    let Some(kind) = kind_by_name(head) else {
        waiting.push_str("unknown kind\n");
        return false;
    };
    let mut text = CanonicalText::new();
    if !normalize_into(kind, BStr::new(value), &mut text) {
        waiting.push_str("refused\n");
        return false;
    }
    waiting.push_str("ok ");
    waiting.push_str(text.as_str());
    waiting.push_str("\n");
    true
}

/// The answers that wait, and the writer that they are written to.
#[derive(Drop)]
struct Output<'w, W: Write> {
    waiting: ArrayString<ROOM>,
    writer: &'w mut W,
}

impl<'w, W: Write> Output<'w, W> {
    /// Writes out what waits, in as many writes as it takes. A write that takes no byte is an error.
    fn write_out(&mut self) -> Result<(), RunError>
        ensures ok { OnOk result
            (SendsBytes (output_state W.contents self.old) (output_state W.contents self.new) []) }
        ensures empty { OnOk result (self.new.waiting.bytes ≡ []) }
        ensures err { IfErr result
            (FailsSending (output_state W.contents self.old) (output_state W.contents self.new) []) }
        ensures write { IfErr result (λ e. e ≡ RunError.Write) }
    {
        let mut rest = self.waiting.as_str().as_bytes();
        while !rest.is_empty() {
            match self.writer.write(rest) {
                Ok(0) => return Err(RunError::Write),
                Ok(count) => rest = &rest[count..],
                Err(_) => return Err(RunError::Write),
            }
        }
        self.waiting.clear();
        Ok(())
    }

    /// Writes out what waits if there is no room for one more answer.
    fn make_room(&mut self) -> Result<(), RunError>
        ensures room { OnOk result (length self.new.waiting.bytes + LONGEST_ANSWER ≤ ROOM) }
        ensures ok { OnOk result
            (SendsBytes (output_state W.contents self.old) (output_state W.contents self.new) []) }
        ensures err { IfErr result
            (FailsSending (output_state W.contents self.old) (output_state W.contents self.new) []) }
        ensures write { IfErr result (λ e. e ≡ RunError.Write) }
    {
        if self.waiting.remaining_capacity() < LONGEST_ANSWER {
            self.write_out()?;
        }
        Ok(())
    }

    /// Answers a line, and returns whether it was accepted.
    fn answer_line(&mut self, line: &[u8]) -> Result<bool, RunError>
        ensures ok { IfOk result
            (SendsAnswer line.now (output_state W.contents self.old) (output_state W.contents self.new)) }
        ensures err { IfErr result
            (FailsSending (output_state W.contents self.old) (output_state W.contents self.new) []) }
        ensures write { IfErr result (λ e. e ≡ RunError.Write) }
    {
        self.make_room()?;
        Ok(push_answer(line, &mut self.waiting))
    }

    /// Writes out what waits, and flushes.
    fn end(&mut self) -> Result<(), RunError>
        ensures ok { OnOk result
            (SendsBytes (output_state W.contents self.old) (output_state W.contents self.new) []) }
        ensures empty { OnOk result (self.new.waiting.bytes ≡ []) }
        ensures err { IfErr result
            (FailsSending (output_state W.contents self.old) (output_state W.contents self.new) []) }
        ensures write { IfErr result (λ e. e ≡ RunError.Write) }
    {
        self.write_out()?;
        self.writer.flush().map_err(|_| RunError::Write)
    }
}

/// The state between two reads: the line begun, and whether each line before it was accepted.
#[derive(Drop)]
struct Progress {
    line: Vec<u8>,
    all_accepted: bool,
}

impl Progress {
    /// Answers each line that ends within the bytes, and returns what follows the last of them. No line is
    /// begun yet.
    fn answer_lines<'b, W: Write>(
        &mut self,
        output: &mut Output<'_, W>,
        bytes: &'b [u8],
    ) -> Result<&'b [u8], RunError>
        requires { self.old.line.items ≡ [] }
        ensures ok { IfOk result (λ rest. AnswersUpTo (run_state W.contents self.old output.old)
            (run_state W.contents self.new output.new) bytes.now rest.now) }
        ensures unbroken { IfOk result (λ rest. IsUnbroken rest.now) }
        ensures err { IfErr result
            (FailsWithin (run_state W.contents self.old output.old)
            (output_state W.contents output.new) bytes.now) }
    {
        let mut rest = bytes;
        while let Some(place) = rest.find_byte(b'\n') {
            let accepted = output.answer_line(&rest[..place])?;
            self.all_accepted &= accepted;
            rest = &rest[place + 1..];
        }
        Ok(rest)
    }

    /// Appends bytes to the line begun. If there is no memory for them, what waits is written out before the
    /// error.
    fn gather<W: Write>(&mut self, output: &mut Output<'_, W>, bytes: &[u8]) -> Result<(), RunError>
        ensures ok { OnOk result (run_state W.contents self.new output.new
            ≡ with_more (run_state W.contents self.old output.old) bytes.now) }
        ensures err { IfErr result
            (FailsSending (output_state W.contents output.old) (output_state W.contents output.new) []) }
    {
        match self.line.extend_from_slice(bytes) {
            Ok(()) => Ok(()),
            Err(error) => {
                output.write_out()?;
                Err(RunError::Memory(error))
            }
        }
    }

    /// Completes the line begun with the bytes before its LF, and answers it.
    fn end_line<W: Write>(
        &mut self,
        output: &mut Output<'_, W>,
        front: &[u8],
    ) -> Result<(), RunError>
        requires { IsUnbroken front.now }
        ensures ok { OnOk result (Advances (run_state W.contents self.old output.old)
            (run_state W.contents self.new output.new) (ended front.now)) }
        ensures empty { OnOk result (self.new.line.items ≡ []) }
        ensures err { IfErr result
            (FailsSending (output_state W.contents output.old) (output_state W.contents output.new) []) }
    {
        self.gather(output, front)?;
        let accepted = output.answer_line(self.line.as_slice())?;
        self.all_accepted &= accepted;
        self.line.clear();
        Ok(())
    }

    /// Answers each line that ends within the bytes, and begins the next one with what follows.
    /// No line is begun yet.
    fn take_lines<W: Write>(
        &mut self,
        output: &mut Output<'_, W>,
        bytes: &[u8],
    ) -> Result<(), RunError>
        requires { self.old.line.items ≡ [] }
        ensures ok { OnOk result (Advances (run_state W.contents self.old output.old)
            (run_state W.contents self.new output.new) bytes.now) }
        ensures err { IfErr result
            (FailsWithin (run_state W.contents self.old output.old)
            (output_state W.contents output.new) bytes.now) }
    {
        let begun = self.answer_lines(output, bytes)?;
        self.gather(output, begun)
    }

    /// Answers each line that the bytes of one read complete, and begins the next one with what
    /// follows.
    fn take_bytes<W: Write>(
        &mut self,
        output: &mut Output<'_, W>,
        bytes: &[u8],
    ) -> Result<(), RunError>
        ensures ok { OnOk result (Advances (run_state W.contents self.old output.old)
            (run_state W.contents self.new output.new) bytes.now) }
        ensures err { IfErr result
            (FailsWithin (run_state W.contents self.old output.old)
            (output_state W.contents output.new) bytes.now) }
    {
        if self.line.is_empty() {
            return self.take_lines(output, bytes);
        }
        let Some(place) = bytes.find_byte(b'\n') else {
            return self.gather(output, bytes);
        };
        self.end_line(output, &bytes[..place])?;
        self.take_lines(output, &bytes[place + 1..])
    }

    /// Answers the line begun if it is not empty, writes out what waits, and flushes.
    fn finish<W: Write>(&self, output: &mut Output<'_, W>) -> Result<bool, RunError>
        ensures ok { IfOk result
            (EndsAnswered (run_state W.contents self.now output.old) (output_state W.contents output.new)) }
        ensures err { IfErr result
            (EndsEarly (run_state W.contents self.now output.old) (output_state W.contents output.new)) }
    {
        if self.line.is_empty() {
            output.end()?;
            return Ok(self.all_accepted);
        }
        let accepted = output.answer_line(self.line.as_slice())?;
        output.end()?;
        Ok(self.all_accepted & accepted)
    }
}

/// Reads the input to its end, and answers its lines. Nothing waits yet.
fn answer_input<R: Read, W: Write>(
    alloc: Global,
    reader: &mut R,
    output: &mut Output<'_, W>,
) -> Result<bool, RunError>
    requires { output.old.waiting.bytes ≡ [] }
    ensures completes { IfOk result (Completes (R.remaining reader.old) (R.remaining reader.new)
        (W.contents output.old.writer.now) (W.contents output.new.writer.now)) }
    ensures fails { IfErr result (Fails (R.remaining reader.old) (R.remaining reader.new)
        (W.contents output.old.writer.now) (W.contents output.new.writer.now)) }
    ensures same_writer { output.new.writer.ghost_name ≡ output.old.writer.ghost_name }
{
    let mut buffer = [0u8; READ];
    let mut progress = Progress {
        line: Vec::new(alloc),
        all_accepted: true,
    };
    for _ in 0..u64::MAX {
        let count = match reader.read(&mut buffer) {
            Ok(count) => count,
            Err(_) => return Err(RunError::Read),
        };
        if count == 0 {
            return progress.finish(output);
        }
        progress.take_bytes(output, &buffer[..count])?;
        output.write_out()?;
    }
    Err(RunError::Read)
}

/// Answers each line of the input, in order: `ok ` and the canonical text of the line's value, `refused`, or
/// `unknown kind`. A last line without LF counts if it is not empty. Returns whether every line was accepted,
/// which is true if there is no line: docs/GRAMMAR.md, Lines and answers.
///
/// After any of these errors, what was written is a beginning of the answers:
/// - `Read`: a read failed, or the input had not ended after 18446744073709551615 reads. Exactly the lines
///   that were read with their LF are answered.
/// - `Write`: a write or the flush at the end failed, or a write took no byte.
/// - `Memory`: there was no memory for a line that crosses the end of a read. Some first lines are answered.
///
/// ```rust
/// use gix_config_value::program::run;
/// use std::io::Cursor;
///
/// let mut input = Cursor::new(b"integer 0x10K\nsuffix kb\n".as_slice());
/// let mut output = Vec::new(alloc);
/// let all_accepted = run(alloc, &mut input, &mut output)?;
/// assert!(rt; !all_accepted);
/// assert_eq!(rt; output.as_slice(), b"ok 16k\nrefused\n".as_slice());
/// ```
pub fn run<R: Read, W: Write>(
    alloc: Global,
    reader: &mut R,
    writer: &mut W,
) -> Result<bool, RunError>
    ensures completes { IfOk result (Completes (R.remaining reader.old) (R.remaining reader.new)
        (W.contents writer.old) (W.contents writer.new)) }
    ensures fails { IfErr result (Fails (R.remaining reader.old) (R.remaining reader.new)
        (W.contents writer.old) (W.contents writer.new)) }
{
    let mut output = Output {
        waiting: ArrayString::new(),
        writer,
    };
    answer_input(alloc, reader, &mut output)
}

/// The exit status of a run: 0 if every line was accepted, 1 if some line was not, and 2 after an error.
pub fn status(outcome: &Result<bool, RunError>) -> u8
    ensures { result ≡ status_of outcome.now }
{
    match outcome {
        Ok(true) => 0,
        Ok(false) => 1,
        Err(_) => 2,
    }
}

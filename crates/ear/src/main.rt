// earmath on the command line: a function's name and arguments as bit patterns in hexadecimal; the result's pattern, or
// the refusal by name. A line in, a line out: the words of the command line are a line; without words each line of the
// standard input is one; with a function's name alone each line of the standard input holds arguments for it.

#![tactic(auto)]

mod complaint;
mod floats;
mod functions;
mod line;
mod words;

ghost use Rattle.std.specs.Prelude.{◌≡◌, ◌≢◌, ◌<◌, ◌==◌, ◌∷◌, [], ◌++◌, ℕ, List, All, None, Ok, IfSome};
ghost use Rattle.std.specs.Prelude.{length, position, take};
ghost use Rattle.std.specs.Io.KnownBytes.{Consumes};
ghost use Rattle.ear.specs.Words.{one_line, words_of};

use complaint::Complaint;
use floats::Floats;
use functions::{Answer, Function};
use line::{Line, TOO_LONG};
use std::env::FillError;
use std::io::{BufRead, IsTerminal};
use std::rt::Env;

const USAGE: &str = "\
earmath FUNCTION PATTERN...   bit patterns in hexadecimal, as 40490fdb; a result's pattern for each, or OUT_OF_RANGE
earmath FUNCTION              the same for each line of the standard input
earmath                       each line of the standard input: FUNCTION PATTERN...
sqrt rsqrt exp2 exp log2 sinpi cospi sin cos   of each pattern
dot dot_nearest               the first half of the patterns times the second
softmax2 softmax              the weight of each pattern among all of them, base two or e
loudness B M T C A...         the step of each A; T, C and steps in hexadecimal too";

// What a line asks for: a function that is known, of all its words, or else the function that its first word names, of
// the others. A line without words asks for nothing, nor does such a request that starts with #.
fn asked<'a>(
    known: Option<Function>,
    line: &'a [u8],
) -> Result<Option<(Function, &'a [u8])>, Complaint<'a>>
    ensures { words_of line.now ≡ [] → result ≡ Ok None }
{
    let Some((first, others)) = words::split_first(line) else {
        return Ok(None);
    };
    match known {
        Some(function) => Ok(Some((function, line))),
        None if first.starts_with(b"#") => Ok(None),
        None => Ok(Some((Function::try_from(first)?, others))),
    }
}

// Prints the answer to a line, if it asks for one. What cannot be written is lost, as it is on a terminal that was
// closed.
fn answer<'a>(
    rt: &impl Print,
    known: Option<Function>,
    line: &'a [u8],
) -> Result<(), Complaint<'a>> {
    if let Some((function, arguments)) = asked(known, line)? {
        let mut floats = Floats::new();
        floats.fill(arguments)?;
        let _ = rt.println(Answer::new(function, &floats)?);
    }
    Ok(())
}

// Prints the answer to a line, or why there is none.
fn answer_line(rt: &impl Print, known: Option<Function>, line: &[u8]) {
    if let Err(complaint) = answer(rt, known, line) {
        let _ = complaint.print(rt);
    }
}

// What ended a line of the input.
#[derive(Clone, Copy, Debug, PartialEq, Eq)]
enum End {
    Newline,
    Input,
    Length,
}

fn newline(bytes: &[u8]) -> Option<usize>
    ensures { result ≡ position (λ byte. byte == 10) bytes.now }
{
    bytes.iter().position(|byte| *byte == b'\n')
}

// Puts the next line of the input into `line`. What cannot be read counts as the end of the input.
fn read_line<R: BufRead>(input: &mut R, line: &mut Line) -> End
    ensures newline { result ≡ End.Newline → length line.new < 65536 }
    ensures input { result ≡ End.Input → length line.new < 65536 }
    ensures too_long { result ≡ End.Length → length line.new ≡ 65536 }
    ensures one { All (λ byte. byte ≢ 10) line.new }
    ensures ended { result ≡ End.Newline
        → Consumes (R.remaining input.old) (R.remaining input.new) (line.new ++ 10 ∷ []) }
    ensures open { result ≢ End.Newline → Consumes (R.remaining input.old) (R.remaining input.new) line.new }
{
    line.clear();
    while line.len() < TOO_LONG {
        let Ok(bytes) = input.fill_buf() else {
            return End::Input;
        };
        let n = bytes.len().min(TOO_LONG - line.len());
        if n == 0 {
            return End::Input;
        }
        let bytes = &bytes[..n];
        match newline(bytes) {
            Some(end) => {
                line.append(&bytes[..end]);
                input.consume(end + 1);
                return End::Newline;
            }
            None => {
                line.append(bytes);
                input.consume(n);
            }
        }
    }
    End::Length
}

// The next line of the standard input. Its reader is let go before the line is answered, since it then seeks back over
// what it has read ahead: others may read on from there.
fn next_line(rt: &impl Input, line: &mut Line) -> End {
    let mut input = rt.reader();
    read_line(&mut input, line)
}

// The answers to the lines of the standard input.
fn answer_lines(rt: &(impl Print + Input), known: Option<Function>, line: &mut Line) {
    // a loop that reads is to end, so it counts: no input has as many lines
    for _ in 0..u64::MAX {
        match next_line(rt, line) {
            End::Newline => answer_line(rt, known, line.as_slice()),
            End::Input => {
                answer_line(rt, known, line.as_slice());
                break;
            }
            End::Length => {
                let _ = Complaint::LongLine.print(rt);
                break;
            }
        }
    }
}

// Word i of the command line, if it is there. One that is empty, or too long for the buffer, counts as a question mark.
// `env::args` would refuse a word that is not UTF-8, so each is asked for as bytes, which fill a buffer that is lent.
fn argument<'a>(rt: &impl Env, i: usize, buffer: &'a mut [u8; 4096]) -> Option<&'a [u8]>
    ensures { IfSome result (λ word. 0 < length word.now) }
{
    match rt.arg(i, buffer) {
        Err(FillError::NotPresent) => None,
        Ok(0) | Err(FillError::TooLong) => Some(b"?"),
        Ok(n) => Some(&buffer[..n]),
    }
}

// Puts the words of the command line, without the program's name, into `line`, of which no more counts than of a line
// of the input. Returns how many there are.
fn arguments(rt: &impl Env, line: &mut Line) -> usize
    ensures { (words : List (List ℕ)) × (length words ≡ result) × All (λ word. 0 < length word) words
        × (line.new ≡ take 65536 (one_line words)) }
{
    line.clear();
    // counted, and no `env::args`, as `argument` says
    for i in 1..usize::MAX {
        let mut buffer = [0; 4096];
        let Some(word) = argument(rt, i, &mut buffer) else {
            return i - 1;
        };
        line.append_word(word);
    }
    usize::MAX - 1
}

// A single word: help, or a function for the lines of the standard input.
fn single(rt: &(impl Print + Input), line: &mut Line) {
    let word = match words::split_first(line.as_slice()) {
        Some((word, _)) => word,
        None => b"",
    };
    if matches!(word, b"help" | b"--help") {
        let _ = rt.println(USAGE);
        return;
    }
    match Function::try_from(word) {
        Ok(function) => answer_lines(rt, Some(function), line),
        Err(complaint) => {
            let _ = complaint.print(rt);
        }
    }
}

fn main(rt: HostRuntime) {
    let mut line = Line::new();
    match arguments(&rt, &mut line) {
        0 if rt.stdin().is_terminal() => {
            let _ = rt.println(USAGE);
        }
        0 => answer_lines(&rt, None, &mut line),
        1 => single(&rt, &mut line),
        _ => answer_line(&rt, None, line.as_slice()),
    }
}

// A line of text as words, and a word as a bit pattern.

ghost use Rattle.std.specs.Prelude.{◌≡◌, ◌∷◌, [], not, position, MatchOption, SomeIff};
ghost use Rattle.std.specs.Str.Parse.{digits_value};
ghost use Rattle.ear.specs.Words.{is_blank, words_of, IsPattern};

use std::str;

// Does the byte stand between words? Any other is of a word, a form feed too.
fn is_blank(byte: u8) -> bool
    ensures { result ≡ is_blank byte }
{
    matches!(byte, b' ' | b'\t' | b'\r')
}

fn word_start(line: &[u8]) -> Option<usize>
    ensures { result ≡ position (λ byte. not (is_blank byte)) line.now }
{
    line.iter().position(|byte| !is_blank(*byte))
}

fn word_end(line: &[u8]) -> Option<usize>
    ensures { result ≡ position is_blank line.now }
{
    line.iter().position(|byte| is_blank(*byte))
}

// The first word of a line, and the line behind it.
pub fn split_first(line: &[u8]) -> Option<(&[u8], &[u8])>
    ensures { MatchOption result (words_of line.now ≡ [])
        (λ split. words_of line.now ≡ split.0.now ∷ words_of split.1.now) }
{
    let word = &line[word_start(line)?..];
    match word_end(word) {
        Some(end) => Some(word.split_at(end)),
        None => Some((word, &[])),
    }
}

// The bit pattern that a word of 1 to 8 hexadecimal digits says.
pub fn pattern(word: &[u8]) -> Option<u32>
    ensures { SomeIff result (IsPattern word.now) (digits_value 16 word.now) }
{
    // `from_str_radix` would take a plus
    if word.len() > 8 || word.first() == Some(&b'+') {
        return None;
    }
    u32::from_str_radix(str::from_utf8(word).ok()?, 16).ok()
}

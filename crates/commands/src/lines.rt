//! The lines of an input, and its two parts.

ghost use Rattle.std.specs.Prelude.{◌≡◌, ◌+◌, ◌<◌, ◌∷◌, ◌++◌, length};
ghost use Rattle.std.specs.Io.BufRead.{strip_last};
ghost use Rattle.std.specs.List.{position};
ghost use Rattle.commands.specs.Lines.{lines_of, is_line_feed, settings_part, script_part};

const LINE_FEED: u8 = b'\n';

/// The place of the first line feed, counted from 0; `None` without one.
fn find_feed(text: &[u8]) -> Option<usize>
    ensures { result ≡ position is_line_feed text.now }
{
    text.iter().position(|byte| *byte == LINE_FEED)
}

/// The first line of a text that isn't empty, with its line feed, and what follows it.
pub fn split_line(text: &[u8]) -> (&[u8], &[u8])
    requires { 0 < length text.now }
    ensures lines { lines_of text.now ≡ result.0.now ∷ lines_of result.1.now }
    ensures text { text.now ≡ result.0.now ++ result.1.now }
    ensures shorter { length result.1.now < length text.now }
{
    match find_feed(text) {
        Some(end) => text.split_at(end + 1),
        None => (text, &[]),
    }
}

/// The line without its line feed, which the last line of an input may lack.
pub fn content(line: &[u8]) -> &[u8]
    ensures { result.now ≡ strip_last 10 line.now }
{
    match line.split_last() {
        Some((last, front)) => { if *last == LINE_FEED { front } else { line } }
        None => line,
    }
}

/// Splits an input: the text of the settings, which ends before the first line `---`, and the script after that line. Without
/// such a line all of it is settings, and the script is empty.
pub fn split_input(input: &[u8]) -> (&[u8], &[u8])
    ensures settings { result.0.now ≡ settings_part (lines_of input.now) }
    ensures script { lines_of result.1.now ≡ script_part (lines_of input.now) }
{
    let mut rest = input;
    while !rest.is_empty() {
        let (line, more) = split_line(rest);
        if content(line) == b"---".as_slice() {
            return (&input[..input.len() - rest.len()], more);
        }
        rest = more;
    }
    (input, rest)
}

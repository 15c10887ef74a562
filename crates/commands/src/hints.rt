//! What a reader is told beside a fault: where a line stands in the input, and what may have brought it there. No contract speaks
//! of these sentences.

use crate::lines::{content, split_line};

/// How many lines an input has before `script`, which is its end.
pub(crate) fn lines_before(input: &[u8], script: &[u8]) -> u64 {
    let front = input.len().saturating_sub(script.len());
    match input.get(..front) {
        Some(front) => front.iter().filter(|byte| **byte == b'\n').count() as u64,
        None => 0,
    }
}

/// Whether a line ends with a carriage return before its line feed, as in texts of Windows.
pub(crate) fn has_return(line: &[u8]) -> bool {
    match content(line).split_last() {
        Some((last, _front)) => *last == b'\r',
        None => false,
    }
}

/// A hint where a text of settings holds a line `---`, which belongs only between settings and a script, or such a line with a
/// carriage return, which separates nothing; `None` where it holds neither.
pub(crate) fn separator_hint(text: &[u8]) -> Option<&'static str> {
    let mut rest = text;
    while !rest.is_empty() {
        let (line, more) = split_line(rest);
        if content(line) == b"---\r".as_slice() {
            return Some(
                "the line `---` ends with a carriage return, so no script is parted from the settings",
            );
        }
        if content(line) == b"---".as_slice() {
            return Some("a line `---` ends the settings of a script, and belongs to no others");
        }
        rest = more;
    }
    None
}

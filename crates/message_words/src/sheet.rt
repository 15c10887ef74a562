//! Fields, one on a line, each indented by how many others it stands within.

use crate::names::error_name;
use std::alloc::{AllocError, Global};
use std::fmt::Display;
use std::str::from_utf8;
use wire_types::{Bytes, ErrorCode, Items, Text};

/// A message, or a part of one, that can be shown field by field.
pub(crate) trait Fields {
    /// Appends each field to the sheet, in the order of the wire, by its name in the protocol guide.
    fn push_fields(&self, sheet: &mut Sheet) -> Result<(), AllocError>;
}

/// A text of lines, and how far the next line is indented.
#[derive(Drop)]
pub struct Sheet {
    alloc: Global,
    text: String,
    /// By how many steps, of two blanks each, the next line is indented.
    depth: usize,
    /// Whether the next line is the first one of an entry.
    is_entry: bool,
}

impl Sheet {
    /// A sheet without a line.
    pub fn new(alloc: Global) -> Sheet {
        Sheet {
            alloc,
            text: String::new(alloc),
            depth: 0,
            is_entry: false,
        }
    }

    /// The lines so far, each with its line end.
    pub fn as_str(&self) -> &str {
        self.text.as_str()
    }

    /// The allocator of the lines.
    pub fn alloc(&self) -> Global {
        self.alloc
    }

    /// Removes the lines. The indentation stays: what was begun is still to be ended.
    pub fn clear(&mut self) {
        self.text.clear();
    }

    /// Begins an entry of a list: the next line gets a dash, and all lines are indented by a step more until `end`.
    pub(crate) fn begin_entry(&mut self) {
        self.depth = self.depth.saturating_add(1);
        self.is_entry = true;
    }

    /// Appends a line, and indents the lines that follow by a step more, until the caller calls `end`.
    pub fn begin(&mut self, line: &str) -> Result<(), AllocError> {
        self.push_line(line)?;
        self.depth = self.depth.saturating_add(1);
        Ok(())
    }

    /// Ends what `begin` or `begin_entry` began last: takes back one step of indentation, if there is any.
    pub fn end(&mut self) {
        self.depth = self.depth.saturating_sub(1);
        self.is_entry = false;
    }

    /// Appends so many steps of indentation, two blanks for each.
    fn push_steps(&mut self, count: usize) -> Result<(), AllocError> {
        for _ in 0..count {
            self.text.push_str("  ")?;
        }
        Ok(())
    }

    /// Appends what stands before a line: its indentation, and `- ` at the first line of an entry.
    fn push_margin(&mut self) -> Result<(), AllocError> {
        let depth = self.depth;
        if self.is_entry {
            self.is_entry = false;
            self.push_steps(depth.saturating_sub(1))?;
            return self.text.push_str("- ");
        }
        self.push_steps(depth)
    }

    /// Appends a line at the present indentation, and a line feed. The text stands there raw, so it should hold no line feed.
    pub fn push_line(&mut self, line: &str) -> Result<(), AllocError> {
        self.push_margin()?;
        self.text.push_str(line)?;
        self.text.push_str("\n")
    }

    /// Appends an empty line.
    pub fn push_empty_line(&mut self) -> Result<(), AllocError> {
        self.text.push_str("\n")
    }

    /// Appends a line with a field's name and its value, both raw.
    pub fn push<D: Display + Drop>(&mut self, field: &str, value: D) -> Result<(), AllocError> {
        let line = format!(in self.alloc; "{field} {value}")?;
        self.push_line(line.as_str())
    }

    /// Appends a field that is a number, and the name of what the number stands for; the number alone where `name` is `None`.
    pub fn push_coded<D: Display + Drop>(
        &mut self,
        field: &str,
        number: D,
        name: Option<&str>,
    ) -> Result<(), AllocError> {
        let Some(name) = name else {
            return self.push(field, number);
        };
        let line = format!(in self.alloc; "{field} {number} {name}")?;
        self.push_line(line.as_str())
    }

    /// Appends an error code: its number and its name.
    pub(crate) fn push_error(&mut self, field: &str, error: ErrorCode) -> Result<(), AllocError> {
        self.push_coded(field, error.number(), Some(error_name(error)))
    }

    /// Appends a field with a text in double quotes, with escapes.
    pub(crate) fn push_text(&mut self, field: &str, value: &Text) -> Result<(), AllocError> {
        let text = value.as_str();
        let line = format!(in self.alloc; "{field} {text:?}")?;
        self.push_line(line.as_str())
    }

    /// Appends a field with a text in double quotes, with escapes, or `null`.
    pub(crate) fn push_nullable(
        &mut self,
        field: &str,
        value: &Option<Text>,
    ) -> Result<(), AllocError> {
        match value {
            Some(text) => self.push_text(field, text),
            None => self.push(field, "null"),
        }
    }

    /// Appends a field with bytes: as a text in double quotes, with escapes, or after the word `hex` in hexadecimal digits where
    /// they are no printable text.
    pub fn push_bytes(&mut self, field: &str, bytes: &[u8]) -> Result<(), AllocError> {
        match printable(bytes) {
            Some(text) => {
                let line = format!(in self.alloc; "{field} {text:?}")?;
                self.push_line(line.as_str())
            }
            None => {
                let digits = hex::encode(self.alloc, bytes)?;
                let line = format!(in self.alloc; "{field} hex {digits}")?;
                self.push_line(line.as_str())
            }
        }
    }

    /// Appends bytes as `push_bytes` does, or `null`.
    pub(crate) fn push_nullable_bytes(
        &mut self,
        field: &str,
        bytes: &Option<Bytes>,
    ) -> Result<(), AllocError> {
        match bytes {
            Some(bytes) => self.push_bytes(field, bytes.as_slice()),
            None => self.push(field, "null"),
        }
    }

    /// Appends a field with a list of numbers, in brackets on one line.
    pub(crate) fn push_numbers(&mut self, field: &str, numbers: &[i32]) -> Result<(), AllocError> {
        let line = format!(in self.alloc; "{field} {numbers:?}")?;
        self.push_line(line.as_str())
    }

    /// Appends a field with a list of texts in double quotes, with escapes, in brackets on one line.
    pub(crate) fn push_texts(&mut self, field: &str, texts: &[Text]) -> Result<(), AllocError> {
        let mut list = String::new(self.alloc);
        for text in texts {
            let separator = if list.is_empty() { "" } else { ", " };
            let text = text.as_str();
            list.push_str(format!(in self.alloc; "{separator}{text:?}")?.as_str())?;
        }
        let line = format!(in self.alloc; "{field} [{list}]")?;
        self.push_line(line.as_str())
    }

    /// Appends a field with a list, and below it an entry for each of its items; `[]` on the same line for an empty list.
    pub(crate) fn push_list<T: Fields>(
        &mut self,
        field: &str,
        items: &[T],
    ) -> Result<(), AllocError> {
        if items.is_empty() {
            return self.push(field, "[]");
        }
        self.begin(field)?;
        for item in items {
            self.begin_entry();
            item.push_fields(self)?;
            self.end();
        }
        self.end();
        Ok(())
    }

    /// As `push_list`, or a field with `null`.
    pub(crate) fn push_nullable_list<T: Fields>(
        &mut self,
        field: &str,
        items: &Option<Items<T>>,
    ) -> Result<(), AllocError> {
        match items {
            Some(items) => self.push_list(field, items.as_slice()),
            None => self.push(field, "null"),
        }
    }
}

/// Whether a byte is a control character for which a quoted text has no short escape: any but tab, line feed and carriage return.
fn is_control(byte: u8) -> bool {
    match byte {
        b'\t' | b'\n' | b'\r' => false,
        _ => byte < b' ' || byte == 0x7f,
    }
}

/// The bytes as a text; `None` where they aren't UTF-8, or hold a control character other than tab, line feed and carriage
/// return.
fn printable(bytes: &[u8]) -> Option<&str> {
    if bytes.iter().any(|byte| is_control(*byte)) {
        return None;
    }
    from_utf8(bytes).ok()
}

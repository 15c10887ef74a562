//! What a line of a script asks for.

ghost use Rattle.std.specs.Prelude.{◌≡◌, IfOk, option_map};
ghost use Rattle.std.specs.Result.{result_ok};
ghost use Rattle.std.specs.Int.{w32};
ghost use Rattle.wire_types.specs.Reading.{nat_at};
ghost use Rattle.commands.specs.Order.{bytes_after_size, frame_of, words_of, caller_of, sent_of, number_of, order_in, text_of, order_of};

use acl_binding::Caller;
use hex::FromHexError;
use std::alloc::{AllocError, Global};
use std::str::from_utf8;
use thiserror::Error;
use wire_types::{Block, Bytes, Cursor, Text};

/// The bytes of a frame's size field.
const SIZE_FIELD: usize = 4;

/// A frame without its size field, and the principal and host that send it.
#[derive(Debug, Drop)]
pub struct Sent {
    pub caller: Caller,
    pub frame: Bytes,
}

/// What a line of a script asks for.
#[derive(Debug, Drop)]
pub enum Order {
    /// The frame is to be answered.
    Ask(Sent),
    /// The first pending marker is to be written.
    Mark,
    /// The clock shows a moment, in milliseconds.
    Tick(u64),
}

/// Why a line of a script can't be read.
#[derive(Clone, Copy, Debug, PartialEq, Eq, Error)]
pub enum Unreadable {
    /// It is not UTF-8.
    #[error("the line is not UTF-8")]
    Text,
    /// It is not `mark`, nor `req` or `tick` and their words with one blank between each two.
    #[error("a line is `req USER HOST HEX`, `mark` or `tick N`, with one blank between each two words")]
    Words,
    /// The frame is not written in pairs of hexadecimal digits.
    #[error("the frame is not written in pairs of hexadecimal digits")]
    Digits,
    /// The frame's size field isn't the number of bytes after it.
    #[error("the first four bytes of the frame are not the number of bytes after them")]
    Size,
    /// The moment is not written in decimal digits, or is above the greatest number of 64 bits.
    #[error("the moment is not written in decimal digits, or is above 18,446,744,073,709,551,615")]
    Moment,
}

/// The words of `req USER HOST HEX` after the first.
#[derive(Drop)]
struct Words<'a> {
    user: &'a str,
    host: &'a str,
    digits: &'a str,
}

/// The bytes after the size field; `None` where that isn't whole, or isn't the number of bytes after it.
#[tactic(auto, unfolding(wire_types::specs::Reading::nat_at))]
fn after_size(frame: &Bytes) -> Result<Option<Bytes>, AllocError>
    ensures { IfOk result (λ text. text ≡ bytes_after_size (nat_at w32 frame.now)) }
{
    let mut cursor = Cursor::over(frame);
    match cursor.read_u32() {
        Ok(size) => {
            if size as usize != cursor.len() {
                return Ok(None);
            }
        }
        Err(_) => return Ok(None),
    }
    Ok(Some(frame.slice(SIZE_FIELD..frame.len())?))
}

/// The bytes of a frame, a short one's as the next part of the block.
fn kept(block: &mut Block, frame: Vec<u8>) -> Result<Bytes, AllocError>
    ensures { IfOk result (λ kept. kept ≡ frame.items) }
{
    if frame.len() <= Block::SHORT {
        block.copy(&frame)
    } else {
        Bytes::from_vec(frame)
    }
}

/// The frame that hexadecimal digits spell, without its size field. The inner error is `Digits` where they spell no bytes, `Size`
/// where the size field is wrong; the outer one is an allocation failure.
fn parse_frame(
    alloc: Global,
    block: &mut Block,
    digits: &str,
) -> Result<Result<Bytes, Unreadable>, AllocError>
    ensures { IfOk result (λ read. result_ok read ≡ frame_of digits.now) }
{
    let frame = match hex::decode(alloc, digits) {
        Ok(frame) => kept(block, frame)?,
        Err(FromHexError::OutOfMemory) => return Err(AllocError),
        Err(_) => return Ok(Err(Unreadable::Digits)),
    };
    match after_size(&frame)? {
        Some(text) => Ok(Ok(text)),
        None => Ok(Err(Unreadable::Size)),
    }
}

/// The words of `USER HOST HEX`; `None` where one is missing, or the user or the host is empty. HEX is all that follows the
/// second blank.
fn split_words(text: &str) -> Option<Words<'_>>
    ensures { option_map (λ w. (w.user.now, w.host.now, w.digits.now)) result ≡ words_of text.now }
{
    let (user, rest) = text.split_once(' ')?;
    let (host, digits) = rest.split_once(' ')?;
    if user.is_empty() || host.is_empty() {
        return None;
    }
    Some(Words { user, host, digits })
}

/// The caller of a request: the principal `User:USER`, and the host.
fn caller(alloc: Global, user: &str, host: &str) -> Result<Caller, AllocError>
    ensures { IfOk result (λ caller. caller ≡ caller_of user.now host.now) }
{
    Ok(Caller {
        who: Text::from_string(format!(in alloc; "User:{user}")?)?,
        host: Text::of(alloc, host)?,
    })
}

/// Reads `USER HOST HEX`, the words after `req `: who sends a request, and its frame. The inner error says why they can't be
/// read; the outer one is an allocation failure.
fn parse_sent(
    alloc: Global,
    block: &mut Block,
    text: &str,
) -> Result<Result<Sent, Unreadable>, AllocError>
    ensures { IfOk result (λ read. result_ok read ≡ sent_of text.now) }
{
    let Some(words) = split_words(text) else {
        return Ok(Err(Unreadable::Words));
    };
    match parse_frame(alloc, block, words.digits)? {
        Ok(frame) => Ok(Ok(Sent {
            caller: caller(alloc, words.user, words.host)?,
            frame,
        })),
        Err(unreadable) => Ok(Err(unreadable)),
    }
}

/// Reads a number of up to 64 bits in decimal digits, without a sign; `None` for any other text.
pub fn parse_number(digits: &str) -> Option<u64>
    ensures { result ≡ number_of digits.now }
{
    if digits.starts_with('+') {
        return None;
    }
    match digits.parse::<u64>() {
        Ok(number) => Some(number),
        Err(_) => None,
    }
}

/// Reads a line of a script, `req USER HOST HEX`, `mark` or `tick N`. The inner error says why it can't be read; the outer one is
/// an allocation failure.
fn parse_text(
    alloc: Global,
    block: &mut Block,
    text: &str,
) -> Result<Result<Order, Unreadable>, AllocError>
    ensures { IfOk result (λ read. result_ok read ≡ order_in text.now) }
{
    if text == "mark" {
        return Ok(Ok(Order::Mark));
    }
    let Some((first, rest)) = text.split_once(' ') else {
        return Ok(Err(Unreadable::Words));
    };
    if first == "req" {
        return match parse_sent(alloc, block, rest)? {
            Ok(sent) => Ok(Ok(Order::Ask(sent))),
            Err(unreadable) => Ok(Err(unreadable)),
        };
    }
    if first != "tick" {
        return Ok(Err(Unreadable::Words));
    }
    match parse_number(rest) {
        Some(moment) => Ok(Ok(Order::Tick(moment))),
        None => Ok(Err(Unreadable::Moment)),
    }
}

/// The bytes as a text; `None` where they aren't UTF-8.
fn text_of(bytes: &[u8]) -> Option<&str>
    ensures { option_map (λ t. t.now) result ≡ text_of bytes.now }
{
    match from_utf8(bytes) {
        Ok(text) => Some(text),
        Err(_) => None,
    }
}

/// Reads a line of a script, given without its line feed, and gives what it asks for. A short frame is the next part of the
/// block, which a script's lines share. The inner error says why it can't be read; the outer one is an allocation failure.
pub fn parse_order(
    alloc: Global,
    block: &mut Block,
    line: &[u8],
) -> Result<Result<Order, Unreadable>, AllocError>
    ensures { IfOk result (λ read. result_ok read ≡ order_of line.now) }
{
    match text_of(line) {
        Some(text) => parse_text(alloc, block, text),
        None => Ok(Err(Unreadable::Text)),
    }
}

//! The message of an ask or a reap: hexadecimal, and the request that its bytes decode to.

ghost use Rattle.std.specs.Prelude.{◌≡◌};
ghost use Rattle.schedule_text.specs.Digits.{is_hex_text, is_lower_digit};
ghost use Rattle.schedule_text.specs.Reading.{ReadsHex, ReadsHexMessage, ReadsMessage};

use crate::fault::LineFault;
use riak_msgs::{Request, read_request};
use std::alloc::Global;

/// Whether the byte is a digit of hexadecimal, in lower case.
fn is_lower_digit(digit: u8) -> bool
    ensures { result ≡ is_lower_digit digit }
{
    matches!(digit, b'0'..=b'9' | b'a'..=b'f')
}

/// Whether the text is hexadecimal in lower case, of even length.
#[tactic(auto, using(crate::proofs::Hexadecimal::not_hex))]
fn is_hex(text: &[u8]) -> bool
    ensures { result ≡ is_hex_text text.now }
{
    let mut at = 0;
    while at < text.len() {
        if !is_lower_digit(text[at]) {
            return false;
        }
        at += 1;
    }
    text.len() % 2 == 0
}

/// The bytes that a text writes in lower-case hexadecimal. A text that isn't such takes no memory.
fn read_hex(alloc: Global, text: &[u8]) -> Result<Vec<u8>, LineFault>
    ensures { ReadsHex (λ bytes. bytes.items) text.now result }
{
    if is_hex(text) {
        match hex::decode(alloc, text) {
            Ok(message) => Ok(message),
            Err(_) => Err(LineFault::NoMemory),
        }
    } else {
        Err(LineFault::BadStep)
    }
}

/// The get, put or delete that a message decodes to: its first byte is the code, the others are the body.
#[tactic(auto, using(crate::proofs::Messages::refused))]
fn read_message(alloc: Global, message: &[u8]) -> Result<Request, LineFault>
    ensures { ReadsMessage message.now result }
{
    let Some((code, body)) = message.split_first() else {
        return Err(LineFault::BadStep);
    };
    if !matches!(*code, 9 | 11 | 13) {
        return Err(LineFault::BadStep);
    }
    match read_request(alloc, *code, body) {
        Ok(request) => Ok(request),
        Err(fault) => Err(LineFault::of_message(fault)),
    }
}

/// The get, put or delete that hexadecimal encodes.
pub(crate) fn read_hex_message(alloc: Global, digits: &[u8]) -> Result<Request, LineFault>
    ensures { ReadsHexMessage digits.now result }
{
    let message = read_hex(alloc, digits)?;
    read_message(alloc, message.as_slice())
}

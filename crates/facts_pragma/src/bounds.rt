// Numbers, and the bounds of a loop.
ghost use Rattle.std.specs.Prelude.{◌≡◌, Some, Option};
ghost use Rattle.facts_definitions.specs.PragmaTexts.{at_most, bounded, bounds_among, digits, loop_bounds, number, runs};

use super::bytes::{is_digit, same_bytes};
use super::runs::next_run;
use facts_definitions::Bounds;
use parse_tokens::behind_first_word;

const GREATEST_BOUND: u32 = 2_147_483_647;

/// The number of these digits, where it is at most so great.
fn digits(bytes: &[u8], limit: u32) -> Option<u32>
    ensures { result ≡ at_most limit (digits 0 bytes.now) }
{
    let mut value: u64 = 0;
    for i in 0..bytes.len() {
        if !is_digit(bytes[i]) {
            return None;
        }
        value = value * 10 + u64::from(bytes[i] - b'0');
        if value > u64::from(limit) {
            return None;
        }
    }
    u32::try_from(value).ok()
}

/// A decimal number without a leading zero, where it is at most so great.
pub fn number(bytes: &[u8], limit: u32) -> Option<u32>
    ensures { result ≡ at_most limit (number bytes.now) }
{
    if bytes.is_empty() {
        return None;
    }
    if bytes.len() > 1 && bytes[0] == b'0' {
        return None;
    }
    digits(bytes, limit)
}

fn bounded(min: Option<u32>, max: Option<u32>) -> Option<Bounds>
    ensures { result ≡ bounded min max }
{
    let Some(min) = min else {
        return None;
    };
    let Some(max) = max else {
        return None;
    };
    if min > max {
        return None;
    }
    Some(Bounds { min, max })
}

fn bounds_among(text: &[u8]) -> Option<Bounds>
    ensures { result ≡ bounds_among (runs text.now) }
{
    let Some(min) = next_run(text) else {
        return None;
    };
    let Some(low) = next_run(min.rest) else {
        return None;
    };
    let Some(max) = next_run(low.rest) else {
        return None;
    };
    let Some(high) = next_run(max.rest) else {
        return None;
    };
    if next_run(high.rest).is_some() {
        return None;
    }
    if !same_bytes(min.bytes, b"min") {
        return None;
    }
    if !same_bytes(max.bytes, b"max") {
        return None;
    }
    bounded(
        number(low.bytes, GREATEST_BOUND),
        number(high.bytes, GREATEST_BOUND),
    )
}

/// What `loopbound min A max B` says.
pub fn loop_bounds(text: &[u8]) -> Option<Bounds>
    ensures { result ≡ loop_bounds text.now }
{
    bounds_among(behind_first_word(text))
}

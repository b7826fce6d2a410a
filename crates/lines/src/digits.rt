//! Bytes as lower case hexadecimal digits, two a byte.

ghost use Rattle.std.specs.Prelude.{◌≡◌, ◌*◌, ◌<◌, ◌≤◌, ◌++◌, drop, length, map, slice_index, take, true, false, nat_lt, IsTrue, MatchOption};
ghost use Rattle.std.specs.List.{list_all};
ghost use Rattle.hex.specs.Hex.{IsBytes, encode_lower, lower_digits};
ghost use Rattle.lines.specs.Digits.{is_mark, is_value};
ghost use Rattle.lines.specs.Line.{is_lower_digit};
ghost use Rattle.lines.specs.declared.digits.TheConstants.{BLOCK, HALF, LANES, WIDE};

use std::simd::prelude::*;

/// How many bytes are converted at a time while at least that many remain.
const LANES: usize = 16;

/// How many bytes are read at a time while at least that many remain: `2 * LANES`.
const WIDE: usize = 32;

/// How many digits are looked at at a time while at least that many remain: `8 * LANES`.
const BLOCK: usize = 128;

/// Half of a block: `4 * LANES`.
const HALF: usize = 64;

/// The least number that is a mark: one of the last ten that a byte holds.
const LEAST_MARK: u8 = 246;

/// Writes the two lower case digits of each byte to `digits`, which is twice as long as `bytes`,
/// `LANES` bytes at a time while at least that many remain.
pub fn write_digits(bytes: &[u8], digits: &mut [u8])
    requires { length digits.old ≡ 2 * length bytes.now }
    ensures { digits.new ≡ encode_lower bytes.now }
{
    let mut done = 0;
    while LANES <= bytes.len() - done {
        let (first, second) = spell(u8x16::from_slice(&bytes[done..]));
        first.copy_to_slice(&mut digits[2 * done..]);
        second.copy_to_slice(&mut digits[2 * done + LANES..]);
        done += LANES;
    }
    write_rest(&bytes[done..], &mut digits[2 * done..]);
}

/// Writes the two digits of each byte, one byte at a time.
fn write_rest(bytes: &[u8], digits: &mut [u8])
    requires { length digits.old ≡ 2 * length bytes.now }
    ensures { digits.new ≡ encode_lower bytes.now }
{
    for place in 0..bytes.len() {
        digits[2 * place] = digit_of(bytes[place] / 16);
        digits[2 * place + 1] = digit_of(bytes[place] % 16);
    }
}

/// The digits of 16 bytes: those of the first eight, and those of the others.
fn spell(bytes: u8x16) -> (u8x16, u8x16)
    ensures halves { length result.0 ≡ LANES }
    ensures digits { result.0 ++ result.1 ≡ encode_lower bytes }
{
    let high = digits_of(bytes >> u8x16::splat(4));
    let low = digits_of(bytes & u8x16::splat(15));
    high.interleave(low)
}

/// The digit of each value.
fn digits_of(values: u8x16) -> u8x16
    requires { list_all is_value values ≡ true }
    ensures { result ≡ map (slice_index lower_digits) values }
{
    let small = values.simd_lt(u8x16::splat(10));
    values + small.select(u8x16::splat(b'0'), u8x16::splat(b'a' - 10))
}

/// How many lower case digits a text begins with: `BLOCK` are looked at at a time, as long as all
/// of them are digits.
pub fn count_digits(text: &[u8]) -> usize
    ensures within { result ≤ length text.now }
    ensures lower { list_all is_lower_digit (take result text.now) ≡ true }
    ensures other { result < length text.now
        → is_lower_digit (slice_index text.now result) ≡ false }
{
    let mut done = 0;
    while BLOCK <= text.len() - done && is_block(&text[done..]) {
        done += BLOCK;
    }
    done + count_lanes(&text[done..])
}

/// The same, `LANES` at a time.
fn count_lanes(text: &[u8]) -> usize
    ensures within { result ≤ length text.now }
    ensures lower { list_all is_lower_digit (take result text.now) ≡ true }
    ensures other { result < length text.now
        → is_lower_digit (slice_index text.now result) ≡ false }
{
    let mut done = 0;
    while LANES <= text.len() - done && are_marked(marks_of(u8x16::from_slice(&text[done..]))) {
        done += LANES;
    }
    done + count_single(&text[done..])
}

/// The same, one by one.
fn count_single(text: &[u8]) -> usize
    ensures within { result ≤ length text.now }
    ensures lower { list_all is_lower_digit (take result text.now) ≡ true }
    ensures other { result < length text.now
        → is_lower_digit (slice_index text.now result) ≡ false }
{
    let mut done = 0;
    while done < text.len() && value_of(text[done]) < 16 {
        done += 1;
    }
    done
}

/// Whether the first `BLOCK` bytes of a text are all lower case digits.
fn is_block(text: &[u8]) -> bool
    requires { BLOCK ≤ length text.now }
    ensures { result ≡ list_all is_lower_digit (take BLOCK text.now) }
{
    are_marked(both(marks_of_half(text), marks_of_half(&text[HALF..])))
}

/// Numbers that are all marks just where the first `HALF` bytes of a text are lower case digits.
fn marks_of_half(text: &[u8]) -> u8x16
    requires { HALF ≤ length text.now }
    ensures { list_all is_mark result ≡ list_all is_lower_digit (take HALF text.now) }
{
    let first = marks_of(u8x16::from_slice(text));
    let second = marks_of(u8x16::from_slice(&text[LANES..]));
    let third = marks_of(u8x16::from_slice(&text[2 * LANES..]));
    let fourth = marks_of(u8x16::from_slice(&text[3 * LANES..]));
    both(both(first, second), both(third, fourth))
}

/// A number for each byte, which is a mark just where the byte is a lower case digit.
fn marks_of(bytes: u8x16) -> u8x16
    ensures { list_all is_mark result ≡ list_all is_lower_digit bytes }
{
    // A difference wraps. So the numerals, and no other bytes, come to be the last ten numbers of a
    // byte, and the letters the last six, of which four less leaves just them among the last ten.
    let numeral = bytes - u8x16::splat(b'9' + 1);
    let letter = (bytes - u8x16::splat(b'f' + 1)).saturating_sub(u8x16::splat(4));
    numeral.simd_max(letter)
}

/// Numbers that are marks just where those of two are.
fn both(first: u8x16, second: u8x16) -> u8x16
    ensures { list_all is_mark result ≡ list_all is_mark (first ++ second) }
{
    first.simd_min(second)
}

/// Whether all numbers are marks.
fn are_marked(marks: u8x16) -> bool
    ensures { result ≡ list_all is_mark marks }
{
    marks.simd_lt(u8x16::splat(LEAST_MARK)).to_bitmask() == 0
}

/// Reads bytes from their two digits each, `WIDE` bytes at a time while at least that many remain.
pub fn read_digits(digits: &[u8], bytes: &mut [u8])
    requires twice { length digits.now ≡ 2 * length bytes.old }
    requires lower { list_all is_lower_digit digits.now ≡ true }
    ensures bytes { digits.now ≡ encode_lower bytes.new }
    ensures small { IsBytes bytes.new }
{
    let mut done = 0;
    while WIDE <= bytes.len() - done {
        let first = bytes_of(&digits[2 * done..]);
        let second = bytes_of(&digits[2 * done + WIDE..]);
        first.copy_to_slice(&mut bytes[done..]);
        second.copy_to_slice(&mut bytes[done + LANES..]);
        done += WIDE;
    }
    read_lanes(&digits[2 * done..], &mut bytes[done..]);
}

/// Reads bytes as `read_digits` does, from a text that may have other bytes than digits, each of
/// which is looked at once. `false` says nothing of the text.
pub fn read_checked(text: &[u8], bytes: &mut [u8]) -> bool
    requires { length text.now ≡ 2 * length bytes.old }
    ensures { IsTrue result → (text.now ≡ encode_lower bytes.new) × IsBytes bytes.new }
{
    let mut done = 0;
    while WIDE <= bytes.len() - done {
        let Some(pair) = wide_of(&text[2 * done..]) else {
            return false;
        };
        let first = pair.0;
        let second = pair.1;
        first.copy_to_slice(&mut bytes[done..]);
        second.copy_to_slice(&mut bytes[done + LANES..]);
        done += WIDE;
    }
    let rest = &text[2 * done..];
    if count_lanes(rest) < rest.len() {
        return false;
    }
    read_lanes(rest, &mut bytes[done..]);
    true
}

/// Reads bytes from their two digits each, `LANES` bytes at a time while at least that many remain.
fn read_lanes(digits: &[u8], bytes: &mut [u8])
    requires twice { length digits.now ≡ 2 * length bytes.old }
    requires lower { list_all is_lower_digit digits.now ≡ true }
    ensures bytes { digits.now ≡ encode_lower bytes.new }
    ensures small { IsBytes bytes.new }
{
    let mut done = 0;
    while LANES <= bytes.len() - done {
        bytes_of(&digits[2 * done..]).copy_to_slice(&mut bytes[done..]);
        done += LANES;
    }
    read_rest(&digits[2 * done..], &mut bytes[done..]);
}

/// Reads bytes from their two digits each, one byte at a time.
fn read_rest(digits: &[u8], bytes: &mut [u8])
    requires twice { length digits.now ≡ 2 * length bytes.old }
    requires lower { list_all is_lower_digit digits.now ≡ true }
    ensures bytes { digits.now ≡ encode_lower bytes.new }
    ensures small { IsBytes bytes.new }
{
    for place in 0..bytes.len() {
        let high = value_of(digits[2 * place]);
        let low = value_of(digits[2 * place + 1]);
        bytes[place] = high * 16 + low;
    }
}

/// The bytes that the first `HALF` bytes of a text spell as digits, `LANES` and `LANES`; `None`
/// where they are not all digits.
fn wide_of(text: &[u8]) -> Option<(u8x16, u8x16)>
    requires { HALF ≤ length text.now }
    ensures { MatchOption result
        (list_all is_lower_digit (take HALF text.now) ≡ false)
        (λ pair. (take WIDE text.now ≡ encode_lower pair.0) × IsBytes pair.0
        × (take WIDE (drop WIDE text.now) ≡ encode_lower pair.1) × IsBytes pair.1) }
{
    if are_marked(marks_of_half(text)) {
        Some((bytes_of(&text[..WIDE]), bytes_of(&text[WIDE..HALF])))
    } else {
        None
    }
}

/// The bytes that the first `WIDE` of some digits spell.
fn bytes_of(digits: &[u8]) -> u8x16
    requires enough { WIDE ≤ length digits.now }
    requires lower { list_all is_lower_digit digits.now ≡ true }
    ensures digits { take WIDE digits.now ≡ encode_lower result }
    ensures small { IsBytes result }
{
    let first = values_of(u8x16::from_slice(digits));
    let second = values_of(u8x16::from_slice(&digits[LANES..]));
    join(first, second)
}

/// The value of each of some lower case digits.
fn values_of(digits: u8x16) -> u8x16
    requires { list_all is_lower_digit digits ≡ true }
    ensures small { list_all is_value result ≡ true }
    ensures values { digits ≡ map (slice_index lower_digits) result }
{
    // Of the two differences the wrong one is greater: it wraps for a numeral, and is beyond the
    // values for a letter.
    (digits - u8x16::splat(b'0')).simd_min(digits - u8x16::splat(b'a' - 10))
}

/// The bytes that values of digits make, two values a byte.
fn join(first: u8x16, second: u8x16) -> u8x16
    requires { list_all is_value (first ++ second) ≡ true }
    ensures digits { map (slice_index lower_digits) (first ++ second) ≡ encode_lower result }
    ensures small { IsBytes result }
{
    let (high, low) = first.deinterleave(second);
    (high << u8x16::splat(4)) | low
}

/// The digit of a value.
fn digit_of(value: u8) -> u8
    requires { value < 16 }
    ensures { result ≡ slice_index lower_digits value }
{
    if value < 10 {
        value + b'0'
    } else {
        value + (b'a' - 10)
    }
}

/// The value of a lower case digit, and a number that is no such value for another byte.
fn value_of(digit: u8) -> u8
    ensures lower { nat_lt result 16 ≡ is_lower_digit digit }
    ensures value { result < 16 → slice_index lower_digits result ≡ digit }
{
    match digit {
        b'0'..=b'9' => digit - b'0',
        b'a'..=b'f' => digit - b'a' + 10,
        _ => u8::MAX,
    }
}

//! Texts without those bytes at their ends that are among given ones.

ghost use Rattle.std.specs.Prelude.{◌≡◌};
ghost use Rattle.pure.specs.Trim as meant;

/// White space: tab, newline, vertical tab, form feed, carriage return and blank (concat(n)).
pub const WHITE: &[u8] = b"\t\n\x0b\x0c\r ";

/// A text without the bytes at both its ends that are among these (string(n), string trim).
pub fn trim<'a>(bytes: &[u8], text: &'a [u8]) -> &'a [u8]
    ensures { result.now ≡ meant.trim bytes.now text.now }
{
    trim_right(bytes, trim_left(bytes, text))
}

/// A text without the bytes in front that are among these (string(n), string trimleft).
pub fn trim_left<'a>(bytes: &[u8], text: &'a [u8]) -> &'a [u8]
    ensures { result.now ≡ meant.trim_left bytes.now text.now }
{
    let mut start = 0;
    while start < text.len() && bytes.contains(&text[start]) {
        start += 1;
    }
    &text[start..]
}

/// A text without the bytes at the end that are among these (string(n), string trimright).
pub fn trim_right<'a>(bytes: &[u8], text: &'a [u8]) -> &'a [u8]
    ensures { result.now ≡ meant.trim_right bytes.now text.now }
{
    let mut end = text.len();
    while end > 0 && bytes.contains(&text[end - 1]) {
        end -= 1;
    }
    &text[..end]
}

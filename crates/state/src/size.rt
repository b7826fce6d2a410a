//! The sizes of match buffers.

ghost use Rattle.std.specs.Prelude.{◌≡◌, ◌↔◌, IfSome, IsSome};
ghost use Rattle.matchbuf.specs.Size.{IsSize};

use matchbuf::MAX_SIZE;

/// How many bytes a match buffer may hold (expect(1), match_max).
#[derive(Clone, Copy, Debug, PartialEq, Eq)]
pub struct Size {
    pub bytes: u32,
    ghost in_range: { IsSize bytes },
}

impl Size {
    /// The size of the first buffers, in bytes.
    pub const fn first() -> Size
        ensures { result.bytes ≡ 2000 }
    {
        Size { bytes: 2000 }
    }

    /// A size of 1 to 1,000,000 bytes, and none for any other number.
    pub fn new(bytes: u32) -> Option<Size>
        ensures bytes { IfSome result (λ size. size.bytes ≡ bytes) }
        ensures in_range { IsSome result ↔ IsSize bytes }
    {
        if 1 <= bytes && bytes <= MAX_SIZE {
            Some(Size { bytes })
        } else {
            None
        }
    }
}

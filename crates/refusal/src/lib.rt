//! Test support: an allocator that refuses the requests that a test chooses, and passes the others
//! on.
#![tactic(auto)]

use std::alloc::{AllocError, Allocator};
use std::cell::Cell;

/// Which requests are refused: those numbered `first` up to `end`, `end` itself not among them. The
/// first request is number 1.
#[derive(Drop)]
struct Gate {
    requests: Cell<u64>,
    refused: Cell<u64>,
    first: Cell<u64>,
    end: Cell<u64>,
}

impl Gate {
    fn set(&self, first: u64, end: u64) {
        self.first.set(first);
        self.end.set(end);
    }

    /// The number of the n-th request from now on.
    fn nth(&self, n: u64) -> u64 {
        self.requests.get().saturating_add(n)
    }

    /// Counts a request, and says whether it is refused.
    fn refuses(&self) -> bool {
        let number = self.nth(1);
        self.requests.set(number);
        let refused = self.first.get() <= number && number < self.end.get();
        if refused {
            self.refused.set(self.refused.get().saturating_add(1));
        }
        refused
    }
}

/// An allocator over another, which refuses the requests that the test chooses. `&Refusing<_>` is
/// the `Copy` allocator to hand in.
///
/// A growth or a shrinking counts as one request, and so does each new block. Giving a block back
/// is no request, and is never refused.
#[derive(Drop)]
pub struct Refusing<B: Allocator> {
    inner: B,
    gate: Gate,
}

impl<B: Allocator> Refusing<B> {
    /// An allocator over `inner` that refuses nothing yet.
    pub fn new(inner: B) -> Refusing<B> {
        let gate = Gate {
            requests: Cell::new(0),
            refused: Cell::new(0),
            first: Cell::new(0),
            end: Cell::new(0),
        };
        Refusing { inner, gate }
    }

    /// Refuses the n-th request from now on and no other. The next request is the first.
    pub fn refuse_nth(&self, n: u64) {
        let number = self.gate.nth(n);
        self.gate.set(number, number.saturating_add(1));
    }

    /// Refuses the n-th request from now on and all that follow it.
    pub fn refuse_from(&self, n: u64) {
        self.gate.set(self.gate.nth(n), u64::MAX);
    }

    /// Refuses every request.
    pub fn refuse_all(&self) {
        self.gate.set(0, u64::MAX);
    }

    /// Refuses no request.
    pub fn refuse_none(&self) {
        self.gate.set(0, 0);
    }

    /// How many requests came, refused ones among them.
    pub fn requests(&self) -> u64 {
        self.gate.requests.get()
    }

    /// How many requests were refused.
    pub fn refused(&self) -> u64 {
        self.gate.refused.get()
    }
}

unsafe impl<B: Allocator> Allocator for Refusing<B> {
    ghost dealloc_token = { λ heap ty ptr. B.dealloc_token heap.inner ty ptr };

    fn allocate(&self, size: usize, align: usize) -> Result<*mut u8, AllocError> {
        if self.gate.refuses() {
            return Err(AllocError);
        }
        self.inner.allocate(size, align)
    }

    unsafe fn deallocate(&self, ptr: *mut u8, size: usize, align: usize) {
        self.inner.deallocate(ptr, size, align);
    }
}

#[cfg(test)]
mod tests {
    use super::*;
    use std::test::Fail;

    #[test]
    fn refuses_the_nth_request_alone(rt: HostRuntime) -> Result<(), Fail> {
        let heap = Refusing::new(rt.alloc());
        heap.refuse_nth(2);
        assert!(rt; Box::new(&heap, 1u8).is_ok());
        assert!(rt; Box::new(&heap, 2u8).is_err());
        assert!(rt; Box::new(&heap, 3u8).is_ok());
        assert_eq!(rt; (heap.requests(), heap.refused()), (3, 1));
        Ok(())
    }

    #[test]
    fn refuses_from_the_nth_request_on(rt: HostRuntime) -> Result<(), Fail> {
        let heap = Refusing::new(rt.alloc());
        assert!(rt; Box::new(&heap, 1u8).is_ok());
        heap.refuse_from(2);
        assert!(rt; Box::new(&heap, 2u8).is_ok());
        assert!(rt; Box::new(&heap, 3u8).is_err());
        assert!(rt; Box::new(&heap, 4u8).is_err());
        assert_eq!(rt; (heap.requests(), heap.refused()), (4, 2));
        Ok(())
    }

    #[test]
    fn refuses_all_until_told_to_refuse_none(rt: HostRuntime) -> Result<(), Fail> {
        let heap = Refusing::new(rt.alloc());
        let mut kept = Vec::from_slice(&heap, b"abc")?;
        heap.refuse_all();
        assert!(rt; kept.reserve(100).is_err());
        assert_eq!(rt; kept.as_slice(), b"abc".as_slice());
        assert!(rt; Vec::from_slice(&heap, b"abc").is_err());
        heap.refuse_none();
        kept.reserve(100)?;
        assert_eq!(rt; kept.as_slice(), b"abc".as_slice());
        assert_eq!(rt; (heap.requests(), heap.refused()), (4, 2));
        Ok(())
    }
}

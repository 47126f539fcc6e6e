//! What fails on purpose, for tests: an allocator that refuses one request for memory, and readers and
//! writers that fail at one call.
#![tactic(auto)]

ghost use Rattle.std.specs.Prelude.{◌≡◌, ◌<◌, [], ◌∷◌, MatchOption, false};
ghost use Rattle.fakes.specs.Tokens.{held_token};

pub mod devices;

use std::alloc::{AllocError, Allocator};
use std::cell::Cell;
use std::marker::Model;

/// An allocator over another one. It refuses the request of one number, and passes each other
/// request on. A growth or a shrinking of a block is a request too; a block given back is none.
#[derive(Drop)]
pub struct Refusing<A> {
    alloc: A,
    requests: Cell<u64>,
    refused: u64,
}

// Its value is the allocator that it stands over, alone in a list, and the number of the request
// that it refuses. How many requests came stands in a cell, which no clause can see.
impl<A> Model for Refusing<A> {
    ghost use Rattle.std.specs.Prelude.{ℕ, List, [], ◌∷◌};

    ghost Value = { List A × ℕ };

    ghost view = { λ it. (it.alloc ∷ [], it.refused) };
}

impl<A> Refusing<A> {
    /// Returns an allocator that refuses the request of this number, the first being 1, and none where
    /// the number is 0.
    pub fn new(alloc: A, refused: u64) -> Refusing<A>
        ensures { result ≡ (alloc ∷ [], refused) }
    {
        Refusing {
            alloc,
            requests: Cell::new(0),
            refused,
        }
    }

    /// Returns how many requests came, the refused one among them.
    pub fn requests(&self) -> u64 {
        self.requests.get()
    }

    /// Returns whether the request that is refused has come.
    pub fn has_refused(&self) -> bool
        ensures never { self.now.1 ≡ 0 → result ≡ false }
    {
        self.refused != 0 && self.refused <= self.requests.get()
    }

    // Counts a request, and gives the allocator that serves it, or none where it is refused.
    fn asked(&self) -> Option<&A>
        ensures { MatchOption result (0 < self.now.1) (λ alloc. self.now.0 ≡ alloc.now ∷ []) }
    {
        let count = self.requests.get().saturating_add(1);
        self.requests.set(count);
        if count == self.refused {
            None
        } else {
            Some(&self.alloc)
        }
    }

    // Returns the allocator to which a block goes back.
    fn lent(&self) -> Option<&A>
        ensures { MatchOption result (self.now.0 ≡ []) (λ alloc. self.now.0 ≡ alloc.now ∷ []) }
    {
        Some(&self.alloc)
    }
}

unsafe impl<A: Allocator> Allocator for Refusing<A> {
    ghost dealloc_token = { λ it. held_token A.dealloc_token it.0 };

    fn allocate(&self, size: usize, align: usize) -> Result<*mut u8, AllocError> {
        match self.asked() {
            Some(alloc) => alloc.allocate(size, align),
            None => Err(AllocError),
        }
    }

    unsafe fn deallocate(&self, ptr: *mut u8, size: usize, align: usize) {
        match self.lent() {
            Some(alloc) => unsafe { alloc.deallocate(ptr, size, align) },
            None => {}
        }
    }
}

//! How memory is asked for the text of a value. This project's own.
ghost use Rattle.std.specs.Prelude.{◌≡◌, IfOk, IfSome, OnErr, string_bytes};
ghost use Rattle.sfnt_bytes.specs.Memory.{IsRefused};

use sfnt_bytes::{Memory, NoMemory};
use std::alloc::Allocator;
use std::fmt;

/// What memory for texts is asked from. Every allocator is one.
pub trait TextMemory: Memory {
    /// Returns the text of a value.
    ///
    /// # Errors
    ///
    /// `NoMemory` if the allocator has no room for the text.
    fn text_of<T: fmt::Display>(self, value: &T) -> Result<String<Self>, NoMemory>
    where
        Self: Sized,
        ensures text { IfOk result (λ text. IfSome (T.output value.now) (λ bytes. string_bytes text ≡ bytes)) }
        ensures refused { OnErr result (IsRefused Self.refuses) };
}

impl<A: Allocator> TextMemory for A {
    fn text_of<T: fmt::Display>(self, value: &T) -> Result<String<A>, NoMemory> {
        value.to_string(self).map_err(|_| NoMemory)
    }
}

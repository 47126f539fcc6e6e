//! How memory is asked for. This project's own.
ghost use Rattle.std.specs.Prelude.{◌≡◌, ◌+◌, ◌*◌, ◌≤◌, ◌++◌, ◌∷◌, [], IfOk, OnErr, OnOk, length, replicate, vec_capacity, vec_len};
ghost use Rattle.std.specs.Mem.{type_size};

use crate::directory::NoMemory;
use std::alloc::Allocator;

/// What memory is asked from. Every allocator is one.
///
/// Nothing is known of `refuses`, so a call can say that it is out of memory only if room was refused.
pub trait Memory: Allocator {
    ghost use Rattle.std.specs.Prelude.{ℕ};

    /// Room for this number of bytes was refused. A vector that grows may have asked for more.
    ghost refuses: { ℕ → Type 0 };

    /// Returns an empty vector that has room for this number of values.
    ///
    /// # Errors
    ///
    /// `NoMemory` if the allocator has no room for them.
    fn room_for<T>(self, count: usize) -> Result<Vec<T, Self>, NoMemory>
    where
        Self: Sized,
        ensures empty { IfOk result (λ v. v.items ≡ []) }
        ensures room { IfOk result (λ v. count ≤ vec_capacity v) }
        ensures refused { OnErr result (refuses (count * type_size T.row)) };

    /// Makes room for this number of values more, where a vector has too little.
    ///
    /// # Errors
    ///
    /// `NoMemory` if the allocator has no room for all values. They stay as they were.
    fn more_room_for<T>(values: &mut Vec<T, Self>, more: usize) -> Result<(), NoMemory>
    where
        Self: Sized,
        ensures same { values.new.items ≡ values.old.items }
        ensures room { OnOk result (vec_len values.new + more ≤ vec_capacity values.new) }
        ensures refused { OnErr result (refuses ((vec_len values.old + more) * type_size T.row)) };

    /// Returns this number of copies of a value.
    ///
    /// # Errors
    ///
    /// `NoMemory` if the allocator has no room for them.
    fn filled<T: Copy>(self, value: T, count: usize) -> Result<Vec<T, Self>, NoMemory>
    where
        Self: Sized,
        ensures values { IfOk result (λ v. v.items ≡ replicate count value) }
        ensures refused { OnErr result (refuses (count * type_size T.row)) };

    /// Returns a copy of some values.
    ///
    /// # Errors
    ///
    /// `NoMemory` if the allocator has no room for it.
    fn copy_of<T: Copy>(self, values: &[T]) -> Result<Vec<T, Self>, NoMemory>
    where
        Self: Sized,
        ensures same { IfOk result (λ v. v.items ≡ values.now) }
        ensures refused { OnErr result (refuses (length values.now * type_size T.row)) };

    /// Puts a value at the end of a vector.
    ///
    /// # Errors
    ///
    /// `NoMemory` if the allocator has no room for it. The values stay as they were.
    fn push<T: Copy>(values: &mut Vec<T, Self>, value: T) -> Result<(), NoMemory>
    where
        Self: Sized,
        ensures pushed { OnOk result (values.new.items ≡ values.old.items ++ value ∷ []) }
        ensures same { OnErr result (values.new.items ≡ values.old.items) }
        ensures refused { OnErr result (refuses ((vec_len values.old + 1) * type_size T.row)) };

    /// Puts a copy of some values at the end of a vector.
    ///
    /// # Errors
    ///
    /// `NoMemory` if the allocator has no room for it. The values stay as they were.
    fn append<T: Copy>(values: &mut Vec<T, Self>, more: &[T]) -> Result<(), NoMemory>
    where
        Self: Sized,
        ensures appended { OnOk result (values.new.items ≡ values.old.items ++ more.now) }
        ensures same { OnErr result (values.new.items ≡ values.old.items) }
        ensures refused { OnErr result (refuses ((vec_len values.old + length more.now) * type_size T.row)) };
}

impl<A: Allocator> Memory for A {
    ghost use Rattle.std.specs.Prelude.{⊤};

    ghost refuses = { λ _. ⊤ };

    fn room_for<T>(self, count: usize) -> Result<Vec<T, A>, NoMemory> {
        Vec::with_capacity(self, count).map_err(|_| NoMemory)
    }

    #[inline(always)]
    fn more_room_for<T>(values: &mut Vec<T, A>, more: usize) -> Result<(), NoMemory> {
        // It is a comparison of two numbers, and a call only where room is missing.
        values.reserve(more).map_err(|_| NoMemory)
    }

    fn filled<T: Copy>(self, value: T, count: usize) -> Result<Vec<T, A>, NoMemory> {
        let mut values = Vec::with_capacity(self, count).map_err(|_| NoMemory)?;
        let Ok(()) = values.resize(count, value) else {
            unreachable!()
        };
        Ok(values)
    }

    fn copy_of<T: Copy>(self, values: &[T]) -> Result<Vec<T, A>, NoMemory> {
        Vec::from_slice(self, values).map_err(|_| NoMemory)
    }

    #[inline(always)]
    fn push<T: Copy>(values: &mut Vec<T, A>, value: T) -> Result<(), NoMemory> {
        match values.push(value) {
            Ok(()) => Ok(()),
            Err(_) => Err(NoMemory),
        }
    }

    #[inline(always)]
    fn append<T: Copy>(values: &mut Vec<T, A>, more: &[T]) -> Result<(), NoMemory> {
        values.extend_from_slice(more).map_err(|_| NoMemory)
    }
}

//! The memory of an area: a row of places, each empty or holding a value. The pointer is read and written here alone.
ghost use Rattle.std.specs.Prelude.{◌≡◌, ℕ, ◌<◌, List, Option, Some, None, length, replicate, get_or, slice_set, IfOk, ⊤};
ghost use Rattle.std.specs.Vec.Ownership.{FitsInBlock};
ghost use base.Fml.{ftrue};
ghost use denote.RawPtr.{Ptr};
ghost use Rattle.circular_buffer.specs.Places.{IsFilled};
ghost use Rattle.circular_buffer.specs.Ownership.{cells_own, cells_lent, deed_owns};

use std::alloc::{AllocError, Allocator};
use std::marker::{Model, PhantomData};
use std::mem::{align_of, size_of};

/// Where a row of places begins. It owns nothing, so it is passed by value.
pub struct Start<T> {
    ptr: *mut T,
}

impl<T> Clone for Start<T> {
    ghost is_clone = { λ x y. y ≡ x };

    ghost is_infallible = { λ _. ⊤ };

    fn clone(&self) -> Result<Start<T>, AllocError> {
        Ok(*self)
    }
}

impl<T> Copy for Start<T> {}

/// The owner of the places. It has no bytes.
pub struct Places<T> {
    mark: PhantomData<*const T>,
    ghost at: { Ptr },
    ghost slots: { List (Option T) },
}

impl<T> Model for Places<T> {
    ghost also_owns = { λ p. cells_own T.row p.at p.slots };

    ghost also_shares = { λ p _ κ. cells_lent T.row p.at p.slots κ };
}

/// The right to give the memory of `len` places back to `alloc`. It has no bytes.
pub struct Deed<T, A: Allocator> {
    mark: PhantomData<*const (T, A)>,
    ghost at: { Ptr },
    ghost len: { ℕ },
    ghost alloc: { A },
}

impl<T, A: Allocator> Model for Deed<T, A> {
    ghost also_owns = { λ d. deed_owns T.row (A.dealloc_token d.alloc) d.at d.len };

    ghost also_shares = { λ _ _ _. ftrue };
}

/// Takes memory for `len` empty places.
pub(crate) fn allocate<T, A: Allocator>(
    alloc: &A,
    len: usize,
) -> Result<(Start<T>, Places<T>, Deed<T, A>), AllocError>
    requires { FitsInBlock T.row len }
    ensures { IfOk result (λ r. (r.1.at ≡ r.0.ptr) × (r.1.slots ≡ replicate len None) × (r.2.at ≡ r.0.ptr) × (r.2.len ≡ len) × (r.2.alloc ≡ alloc.now)) }
{
    match alloc.allocate(len * size_of::<T>(), align_of::<T>()) {
        Ok(block) => {
            let start = Start {
                ptr: block as *mut T,
            };
            Ok((
                start,
                Places { mark: PhantomData },
                Deed { mark: PhantomData },
            ))
        }
        Err(error) => Err(error),
    }
}

/// Gives the memory back. The values that the places hold are forgotten.
pub(crate) fn deallocate<T, A: Allocator>(
    alloc: &A,
    start: Start<T>,
    len: usize,
    places: Places<T>,
    deed: Deed<T, A>,
)
    requires { (places.at ≡ start.ptr) × (length places.slots ≡ len) × (deed.at ≡ start.ptr) × (deed.len ≡ len) × (deed.alloc ≡ alloc.now) }
{
    let Places { mark: _ } = places;
    let Deed { mark: _ } = deed;
    unsafe {
        alloc.deallocate(start.ptr as *mut u8, len * size_of::<T>(), align_of::<T>());
    }
}

impl<T> Places<T> {
    /// The value at an index that holds one.
    pub(crate) fn get(&self, start: Start<T>, index: usize) -> &T
        requires { (start.ptr ≡ self.now.at) × IsFilled self.now.slots index }
        ensures { get_or self.now.slots index None ≡ Some result.now }
    {
        unsafe { &*start.ptr.add(index) }
    }

    /// Puts a value at an index. A value that the place held is forgotten.
    pub(crate) fn set(&mut self, start: Start<T>, index: usize, item: T)
        requires { (start.ptr ≡ self.old.at) × (index < length self.old.slots) }
        ensures { (self.new.at ≡ self.old.at) × (self.new.slots ≡ slice_set self.old.slots index (Some item)) }
    {
        unsafe { start.ptr.add(index).write(item) }
    }
}

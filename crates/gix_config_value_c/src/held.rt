//! The memory of a search, to which C has a pointer. No other module has raw pointers.
ghost use Rattle.std.specs.Prelude.{◌≡◌, Option, None, Some, is_some, true};
ghost use Rattle.std.specs.Box.Ownership.{box_owns};
ghost use Rattle.config_search.specs.Stages.{Told};

use config_search::Search;
use std::alloc::{Allocator, Global};
use std::marker::Model;

/// A box as its pointer, which owns what the box owned: nothing frees it but the box that is made of it again.
struct Loose<T, A: Allocator> {
    at: *mut T,
    alloc: A,
    ghost value: { T },
}

impl<T, A: Allocator> Model for Loose<T, A> {
    ghost also_owns = { λ l. box_owns (A.dealloc_token l.alloc) T.row l.at l.value };
}

impl<T: Drop, A: Allocator> Loose<T, A> {
    /// Takes a box apart.
    fn of(value: Box<T, A>) -> Loose<T, A>
        ensures { result.value ≡ value.value }
    {
        let (at, alloc) = Box::into_raw_with_allocator(value);
        Loose { at, alloc }
    }

    /// Makes the box again.
    fn into_box(self) -> Box<T, A>
        ensures { result.value ≡ self.value }
    {
        let Loose { at, alloc } = self;
        unsafe { Box::from_raw(alloc, at) }
    }
}

/// A search that C holds, or none. A call takes what the call before it has written, and C changes nothing of that.
#[repr(C)]
pub struct GcvSearch {
    /// Where the memory of the search begins, or anything if there is none.
    memory: *mut u8,
    /// The folder and the facts that the search was told, if there is one.
    ghost told: { Option Told },
}

impl Model for GcvSearch {
    ghost use Rattle.gix_config_value_c.specs.Held.{Holds};

    ghost also_owns = { λ s. Holds s.memory s.told };
}

impl GcvSearch {
    /// Hands the memory of a search to C.
    fn hold(&mut self, loose: Loose<Search<'static>, Global>)
        ensures { self.new.told ≡ Some loose.entry.value }
    {
        let Loose { at, alloc: _ } = loose;
        self.memory = at as *mut u8;
    }

    /// Takes the memory of the search from C, which holds none after that.
    fn release(&mut self, alloc: Global) -> Loose<Search<'static>, Global>
        requires { is_some self.old.told ≡ true }
        ensures held { self.old.told ≡ Some result.value }
        ensures none { self.new.told ≡ None }
    {
        Loose {
            at: self.memory as *mut Search<'static>,
            alloc,
        }
    }

    /// Hands a search to C.
    pub(crate) fn put(&mut self, search: Box<Search<'static>>)
        ensures { self.new.told ≡ Some search.entry.value }
    {
        self.hold(Loose::of(search));
    }

    /// Takes the search from C, which holds none after that.
    pub(crate) fn take(&mut self, alloc: Global) -> Box<Search<'static>>
        requires { is_some self.old.told ≡ true }
        ensures held { self.old.told ≡ Some result.value }
        ensures none { self.new.told ≡ None }
    {
        self.release(alloc).into_box()
    }
}

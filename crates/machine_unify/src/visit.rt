ghost use Rattle.std.specs.Prelude.{◌≡◌, ◌<◌, ◌≤◌};

use crate::bind::{assign, join};
use crate::bind_fault::BindFault;
use crate::rest::Rest;
use aq_base::area_name::AreaName;
use machine_store::store::Store;
use tag_word::tag::Tag;
use tag_word::word::Word;

/// What a visit of two words came to.
#[derive(Clone, Copy, Debug)]
pub enum Visit {
    /// They are equal now, or identical.
    Equal,
    /// They cannot be made equal, or are not identical.
    Differ,
    /// They are compounds of one functor, whose arguments are still to be visited.
    Into(Rest),
    /// An area had no room for the words needed.
    Full(AreaName),
    /// A word leads nowhere.
    Stray,
}

/// Visits two words that are to be made equal.
pub fn unify_pair(store: &mut Store, left: Word, right: Word) -> Visit {
    let Some(left) = store.deref(left) else {
        return Visit::Stray;
    };
    let Some(right) = store.deref(right) else {
        return Visit::Stray;
    };
    match (left.tag(), right.tag()) {
        (Tag::Ref, Tag::Ref) => bound(join(store, left.index(), right.index())),
        (Tag::Ref, _) => bound(assign(store, left.index(), right)),
        (_, Tag::Ref) => bound(assign(store, right.index(), left)),
        _ => compare_pair(store, left, right),
    }
}

/// Visits two words that are to be identical.
pub fn same_pair(store: &Store, left: Word, right: Word) -> Visit {
    let Some(left) = store.deref(left) else {
        return Visit::Stray;
    };
    let Some(right) = store.deref(right) else {
        return Visit::Stray;
    };
    compare_pair(store, left, right)
}

fn bound(came: Result<(), BindFault>) -> Visit {
    match came {
        Ok(()) => Visit::Equal,
        Err(BindFault::Full(area)) => Visit::Full(area),
        Err(BindFault::Stray) => Visit::Stray,
    }
}

/// Compares two dereferenced words as far as they go: compounds of one functor lead to their arguments, also where they
/// stand at one place, since each pair counts.
fn compare_pair(store: &Store, left: Word, right: Word) -> Visit {
    match (left.tag(), right.tag()) {
        (Tag::Lst, Tag::Lst) => Visit::Into(Rest {
            left: left.index(),
            right: right.index(),
            count: 2,
        }),
        (Tag::Str, Tag::Str) => compare_functors(store, left.index(), right.index()),
        _ => compare_constants(left, right),
    }
}

fn compare_constants(left: Word, right: Word) -> Visit {
    if left.is(right) {
        Visit::Equal
    } else {
        Visit::Differ
    }
}

/// Compares the functors of two structures, by the heap indexes of their functors' cells.
fn compare_functors(store: &Store, left: u64, right: u64) -> Visit {
    let Some(functor) = store.cell(left) else {
        return Visit::Stray;
    };
    let Some(other) = store.cell(right) else {
        return Visit::Stray;
    };
    if !functor.is(other) {
        return Visit::Differ;
    }
    Visit::Into(Rest {
        left: left + 1,
        right: right + 1,
        count: functor.value() & ARITY,
    })
}

/// The bits of a functor's value that hold its arity.
const ARITY: u64 = 0xff;

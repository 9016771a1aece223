ghost use Rattle.std.specs.Prelude.{◌≡◌, ◌+◌, ◌<◌, ◌≤◌, List, length, OnOk, Err};
ghost use Rattle.aq_base.specs.declared.area_name.AreaName.{AreaName};
ghost use Rattle.tag_word.specs.Tagged.{Tagged};
ghost use Rattle.machine_store.specs.Areas.{kept_heap, ref_word};
ghost use Rattle.machine_store.specs.Derefs.{Derefs};
ghost use Rattle.machine_unify.specs.Bound.{assigned, bound, joined};

use crate::bind_fault::BindFault;
use machine_store::store::Store;
use tag_word::tag::Tag;
use tag_word::word::Word;

/// Makes the unbound cell at a heap index and a word equal. Of two unbound cells the higher one gets a reference to the
/// lower one; else the cell gets the dereferenced word. The cell that is set is trailed where the newest choice needs it as
/// it was.
pub fn bind(store: &mut Store, cell: u64, word: Word) -> Result<(), BindFault>
    ensures binds { OnOk result ((value : Tagged) → Derefs store.old.heap word value → store.new ≡ bound cell value store.old) }
    ensures full { (area : AreaName) → result ≡ Err (BindFault.Full area)
        → (area ≡ AreaName.Trail) × (store.new ≡ store.old) × (store.old.trail_limit < length store.old.trail + 1) }
{
    let Some(value) = store.deref(word) else {
        return Err(BindFault::Stray);
    };
    bind_value(store, cell, value)
}

/// Makes the unbound cell at a heap index and a dereferenced word equal.
pub fn bind_value(store: &mut Store, cell: u64, value: Word) -> Result<(), BindFault>
    ensures binds { OnOk result (store.new ≡ bound cell value store.old) }
    ensures full { (area : AreaName) → result ≡ Err (BindFault.Full area)
        → (area ≡ AreaName.Trail) × (store.new ≡ store.old) × (store.old.trail_limit < length store.old.trail + 1) }
{
    if value.tag() == Tag::Ref {
        return join(store, cell, value.index());
    }
    assign(store, cell, value)
}

/// Makes two unbound cells equal: the higher one gets a reference to the lower one.
pub fn join(store: &mut Store, one: u64, other: u64) -> Result<(), BindFault>
    ensures joins { OnOk result (store.new ≡ joined one other store.old) }
    ensures full { (area : AreaName) → result ≡ Err (BindFault.Full area)
        → (area ≡ AreaName.Trail) × (store.new ≡ store.old) × (store.old.trail_limit < length store.old.trail + 1) }
{
    if one == other {
        return Ok(());
    }
    assign(store, one.max(other), Word::of(Tag::Ref, one.min(other)))
}

/// Puts a word into the cell at a heap index, and trails the cell where the newest choice needs it as it was.
pub fn assign(store: &mut Store, cell: u64, word: Word) -> Result<(), BindFault>
    ensures assigns { OnOk result (store.new ≡ assigned cell word store.old) }
    ensures full { (area : AreaName) → result ≡ Err (BindFault.Full area)
        → (area ≡ AreaName.Trail) × (store.new ≡ store.old) × (store.old.trail_limit < length store.old.trail + 1) }
{
    if let Err(full) = store.trail_cell(cell) {
        return Err(BindFault::Full(full.area));
    }
    if store.set_cell(cell, word).is_err() {
        return Err(BindFault::Stray);
    }
    Ok(())
}

use crate::halt::Halt;
use machine_store::store::Store;
use tag_word::word::Word;

/// The word of a heap cell, or `Stray` past the heap.
pub fn cell_at(store: &Store, at: u64) -> Result<Word, Halt> {
    match store.cell(at) {
        Some(word) => Ok(word),
        None => Err(Halt::Stray),
    }
}

/// A word of the work area, or `Stray` past it.
pub fn work_at(store: &Store, at: u64) -> Result<Word, Halt> {
    match store.work(at) {
        Some(word) => Ok(word),
        None => Err(Halt::Stray),
    }
}

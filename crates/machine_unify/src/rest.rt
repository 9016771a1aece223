ghost use Rattle.std.specs.Prelude.{◌≡◌, ◌<◌, ◌≤◌, OnOk, IfErr, OnErr};
ghost use Rattle.aq_base.specs.declared.area_name.AreaName.{AreaName};

use machine_store::full::Full;
use machine_store::store::Store;
use tag_word::tag::Tag;
use tag_word::word::Word;

/// Arguments of two compounds that are still to be visited in pairs: the heap indexes of the next two, and how many pairs
/// there are.
#[derive(Clone, Copy, Debug)]
pub struct Rest {
    pub left: u64,
    pub right: u64,
    pub count: u64,
}

impl Rest {
    /// No arguments.
    pub fn none() -> Rest {
        Rest {
            left: 0,
            right: 0,
            count: 0,
        }
    }

    /// Puts the arguments at the end of the work area, where there are any.
    pub fn keep(self, store: &mut Store) -> Result<(), Full> {
        if self.count == 0 {
            return Ok(());
        }
        store.push_work(Word::of(Tag::Ref, self.left))?;
        store.push_work(Word::of(Tag::Ref, self.right))?;
        store.push_work(Word::of(Tag::Bar, self.count))
    }

    /// Takes the arguments that were kept last from the end of the work area. There are none where these are no words of
    /// kept arguments.
    pub fn take(store: &mut Store) -> Option<Rest> {
        let count = store.pop_work()?.value();
        let right = store.pop_work()?.value();
        let left = store.pop_work()?.value();
        Some(Rest { left, right, count })
    }
}

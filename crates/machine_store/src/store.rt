ghost use Rattle.std.specs.Prelude.{◌≡◌, ◌≢◌, ℕ, ◌+◌, ◌-◌, ◌*◌, ◌<◌, ◌≤◌, ◌↔◌, List, ◌∷◌, [], ◌++◌, Some, None, false, length, take, drop, slice_get, slice_set, IsErr, IsOk, IsSome, IsTrue, OnOk, OnErr, IfOk, IfErr, IfSome, IfNone, min};
ghost use Rattle.tag_word.specs.Tagged.{Tagged};
ghost use Rattle.bam_meaning.specs.Frame.{Frame, frame_words};
ghost use Rattle.bam_meaning.specs.Choice.{Choice, choice_words, protected};
ghost use Rattle.machine_store.specs.Areas.{blank_word, empty_areas, index_word, ref_word, with_frame, with_saved, with_choice, with_catcher, kept_heap, kept_trail, undone, SameTerms};
ghost use Rattle.machine_store.specs.Derefs.{Derefs};
ghost use Rattle.machine_store.specs.Stands.{choice_area, HasFrame, HasChoice, HasChoiceWithin, PopsFrame, Restores, Retargets, DropsChoice, DropsChoices, IsStore};

use crate::area::Area;
use crate::caught::Caught;
use crate::full::Full;
use crate::link::Link;
use crate::restored::Restored;
use crate::stray::Stray;
use aq_base::area_name::AreaName;
use aq_base::limits::Limits;
use aq_term::memory::Memory;
use std::alloc::Global;
use std::marker::Model;
use tag_word::tag::Tag;
use tag_word::word::Word;

/// The machine's areas. A frame goes by the index after its last word, 0 standing for none: its slots, from the last
/// to the first, its return, and the link to the frame below. A choice goes by its end too: its registers, its
/// alternative, its return, the link to the newest frame, the lengths of environment, heap and trail, the link to the
/// catchers in force, and where the choice below ends. A catcher is a choice whose link to the catchers has the tag of a
/// number of choices. Contracts see the words of each area.
#[derive(Drop)]
pub struct Store {
    env: Area,
    frame: Link,
    choice: Area,
    count: usize,
    active: Link,
    heap: Area,
    trail: Area,
    work: Area,
}

impl Model for Store {
    ghost use Rattle.std.specs.Prelude.{◌-◌, ◌*◌, ◌≤◌, length};
    ghost use Rattle.machine_store.specs.Areas.{Areas};

    ghost Value = { Areas };

    ghost view = { λ s. record {
      env = s.env.words;
      frame = s.frame.end;
      slots = s.frame.count;
      choice = s.choice.words;
      count = s.count;
      active = s.active.end;
      catchers = s.active.count;
      heap = s.heap.words;
      trail = s.trail.words;
      work = s.work.words;
      env_limit = s.env.limit;
      choice_limit = s.choice.limit;
      heap_limit = s.heap.limit;
      trail_limit = s.trail.limit;
      work_limit = s.work.limit;
    } };

    ghost invariant = { λ s. (s.count * 8 ≤ length s.choice.words)
        × (s.frame.end ≤ length s.env.words)
        × (s.frame.count ≤ s.frame.end - 2)
        × (s.active.count ≤ s.count) };
}

/// The words of a frame beside its slots.
const FRAME_WORDS: usize = 2;

/// The words of a choice beside its registers.
const CHOICE_WORDS: usize = 8;

/// How far before a choice's end its parts stand.
const ALTERNATIVE_BACK: usize = 8;

const RETURN_BACK: usize = 7;

const FRAME_BACK: usize = 6;

const ENV_BACK: usize = 5;

const HEAP_BACK: usize = 4;

const TRAIL_BACK: usize = 3;

const CATCHERS_BACK: usize = 2;

const BELOW_BACK: usize = 1;

fn index_of(index: usize) -> Word
    ensures { result ≡ index_word index }
{
    Word::of(Tag::Frm, index as u64)
}

fn ref_to(index: u64) -> Word
    ensures { result ≡ ref_word index }
{
    Word::of(Tag::Ref, index)
}

fn blank() -> Word
    ensures { result ≡ blank_word }
{
    Word::of(Tag::Hol, 0)
}

fn full(area: AreaName) -> Result<(), Full>
    ensures { result ≡ Err (record { area = area }) }
{
    Err(Full { area })
}

impl Store {
    /// Empty areas with the memory that the limits allow.
    pub fn open(alloc: Global, limits: &Limits) -> Result<Store, Memory>
        requires heap { limits.now.heap ≤ 67108864 }
        requires env { limits.now.env ≤ 16777216 }
        requires choice { limits.now.choice ≤ 16777216 }
        requires trail { limits.now.trail ≤ 16777216 }
        requires work { limits.now.work ≤ 16777216 }
        ensures { IfOk result (λ store. store ≡ empty_areas limits.now) }
    {
        let env = Area::open(alloc, limits.env as usize)?;
        let choice = Area::open(alloc, limits.choice as usize)?;
        let heap = Area::open(alloc, limits.heap as usize)?;
        let trail = Area::open(alloc, limits.trail as usize)?;
        let work = Area::open(alloc, limits.work as usize)?;
        Ok(Store {
            env,
            frame: Link::none(),
            choice,
            count: 0,
            active: Link::none(),
            heap,
            trail,
            work,
        })
    }

    /// How many words the heap has.
    pub fn heap_len(&self) -> u64
        ensures { result ≡ length self.now.heap }
    {
        self.heap.len() as u64
    }

    /// The word of the cell at a heap index. A hole is a cell with the word of the tag `hol`.
    pub fn cell(&self, index: u64) -> Option<Word>
        ensures value { result ≡ slice_get self.now.heap index }
        ensures small { IsSome result → index < 67108864 }
    {
        if index >= self.heap.len() as u64 {
            return None;
        }
        Some(self.heap.get(index as usize))
    }

    /// Puts another word into the cell at a heap index.
    pub fn set_cell(&mut self, index: u64, word: Word) -> Result<(), Stray>
        ensures ok { OnOk result (self.new ≡ record self.old { heap = slice_set self.old.heap index word }) }
        ensures err { OnErr result (self.new ≡ self.old) }
        ensures stray { IsErr result ↔ (length self.old.heap ≤ index) }
    {
        if index >= self.heap.len() as u64 {
            return Err(Stray);
        }
        self.heap.set(index as usize, word);
        Ok(())
    }

    /// Puts a word at the end of the heap.
    pub fn push_heap(&mut self, word: Word) -> Result<(), Full>
        ensures ok { OnOk result (self.new ≡ record self.old { heap = self.old.heap ++ word ∷ [] }) }
        ensures err { OnErr result (self.new ≡ self.old) }
        ensures area { IfErr result (λ full. full.area ≡ AreaName.Heap) }
        ensures full { IsErr result ↔ (self.old.heap_limit < length self.old.heap + 1) }
    {
        if self.heap.room() == 0 {
            return full(AreaName::Heap);
        }
        self.heap.push(word);
        Ok(())
    }

    /// Follows references from a word to one that is no reference, or that names an unbound cell. There is none where a
    /// reference leaves the heap, where a cell's reference names a higher cell, and where a hole is met.
    pub fn deref(&self, word: Word) -> Option<Word>
        ensures { (value : Tagged) → (result ≡ Some value) ↔ Derefs self.now.heap word value }
    {
        let mut word = word;
        let mut below = self.heap.len();
        loop {
            match word.tag() {
                Tag::Ref => {}
                Tag::Hol => return None,
                _ => return Some(word),
            }
            let index = word.index();
            if index >= below as u64 {
                return None;
            }
            let next = self.heap.get(index as usize);
            if next.is(word) {
                return Some(word);
            }
            below = index as usize;
            word = next;
        }
    }

    /// Puts a heap index at the end of the trail.
    pub fn push_trail(&mut self, index: u64) -> Result<(), Full>
        ensures ok { OnOk result (self.new ≡ record self.old { trail = self.old.trail ++ ref_word index ∷ [] }) }
        ensures err { OnErr result (self.new ≡ self.old) }
        ensures area { IfErr result (λ full. full.area ≡ AreaName.Trail) }
        ensures full { IsErr result ↔ (self.old.trail_limit < length self.old.trail + 1) }
    {
        if self.trail.room() == 0 {
            return full(AreaName::Trail);
        }
        self.trail.push(ref_to(index));
        Ok(())
    }

    /// Puts the index of a cell that is about to be set at the end of the trail, where the newest choice needs the cell as
    /// it is: where there is a choice and the index is below the heap length that it keeps.
    pub fn trail_cell(&mut self, index: u64) -> Result<(), Full>
        ensures kept { index < kept_heap self.old
            → OnOk result (self.new ≡ record self.old { trail = self.old.trail ++ ref_word index ∷ [] }) }
        ensures newer { kept_heap self.old ≤ index → self.new ≡ self.old }
        ensures err { OnErr result (self.new ≡ self.old) }
        ensures area { IfErr result (λ full. full.area ≡ AreaName.Trail) }
        ensures full { IsErr result
            ↔ ((index < kept_heap self.old) × (self.old.trail_limit < length self.old.trail + 1)) }
    {
        if index >= self.kept_heap() {
            return Ok(());
        }
        self.push_trail(index)
    }

    /// How many words the work area has.
    pub fn work_len(&self) -> u64
        ensures { result ≡ length self.now.work }
    {
        self.work.len() as u64
    }

    /// The word at an index of the work area.
    pub fn work(&self, index: u64) -> Option<Word>
        ensures { result ≡ slice_get self.now.work index }
    {
        if index >= self.work.len() as u64 {
            return None;
        }
        Some(self.work.get(index as usize))
    }

    /// Puts another word at an index of the work area.
    pub fn set_work(&mut self, index: u64, word: Word) -> Result<(), Stray>
        ensures ok { OnOk result (self.new ≡ record self.old { work = slice_set self.old.work index word }) }
        ensures err { OnErr result (self.new ≡ self.old) }
        ensures stray { IsErr result ↔ (length self.old.work ≤ index) }
    {
        if index >= self.work.len() as u64 {
            return Err(Stray);
        }
        self.work.set(index as usize, word);
        Ok(())
    }

    /// Puts a word at the end of the work area.
    pub fn push_work(&mut self, word: Word) -> Result<(), Full>
        ensures ok { OnOk result (self.new ≡ record self.old { work = self.old.work ++ word ∷ [] }) }
        ensures err { OnErr result (self.new ≡ self.old) }
        ensures area { IfErr result (λ full. full.area ≡ AreaName.Work) }
        ensures full { IsErr result ↔ (self.old.work_limit < length self.old.work + 1) }
    {
        if self.work.room() == 0 {
            return full(AreaName::Work);
        }
        self.work.push(word);
        Ok(())
    }

    /// Takes the last word of the work area away, where there is one.
    pub fn pop_work(&mut self) -> Option<Word>
        ensures some { IfSome result (λ word. (self.old.work ≡ self.new.work ++ word ∷ [])
            × (self.new ≡ record self.old { work = self.new.work })) }
        ensures none { IfNone result ((self.old.work ≡ []) × (self.new ≡ self.old)) }
    {
        self.work.pop()
    }

    /// Removes the words of the work area from an index on.
    pub fn cut_work(&mut self, index: u64)
        ensures { self.new ≡ record self.old { work = take index self.old.work } }
    {
        self.work.cut(index as usize);
    }

    /// Whether there is a frame.
    pub fn has_frame(&self) -> bool
        ensures { IsTrue result ↔ (0 < self.now.frame) }
    {
        self.frame.end > 0
    }

    /// How many slots the newest frame has, or 0 where there is none.
    pub fn slots(&self) -> u64
        ensures { result ≡ self.now.slots }
    {
        u64::from(self.frame.count)
    }

    /// The word of a slot of the newest frame, where there is that slot. A slot that was not set yet has the word of the
    /// tag `hol`.
    pub fn slot(&self, index: u64) -> Option<Word>
        ensures there { index < self.now.slots → result ≡ slice_get self.now.env (self.now.frame - 3 - index) }
        ensures none { self.now.slots ≤ index → result ≡ None }
    {
        if index >= u64::from(self.frame.count) {
            return None;
        }
        Some(self.env.get(self.frame.end as usize - 3 - index as usize))
    }

    /// Puts a word into a slot of the newest frame.
    pub fn set_slot(&mut self, index: u64, word: Word) -> Result<(), Stray>
        ensures ok { OnOk result (self.new ≡ record self.old { env = slice_set self.old.env (self.old.frame - 3 - index) word }) }
        ensures err { OnErr result (self.new ≡ self.old) }
        ensures stray { IsErr result ↔ (self.old.slots ≤ index) }
    {
        if index >= u64::from(self.frame.count) {
            return Err(Stray);
        }
        let at = self.frame.end as usize - 3 - index as usize;
        self.env.set(at, word);
        Ok(())
    }

    /// Makes a frame of this many blank slots with the return that it keeps.
    pub fn push_frame(&mut self, slots: u64, back: Word) -> Result<(), Full>
        ensures ok { OnOk result (self.new ≡ with_frame slots back self.old) }
        ensures err { OnErr result (self.new ≡ self.old) }
        ensures area { IfErr result (λ full. full.area ≡ AreaName.Env) }
        ensures full { IsErr result
            ↔ (self.old.env_limit < length self.old.env + frame_words slots) }
    {
        let room = self.env.room();
        if room < FRAME_WORDS || slots > (room - FRAME_WORDS) as u64 {
            return full(AreaName::Env);
        }
        let end = self.env.len() + (slots as usize + FRAME_WORDS);
        self.env.push_copies(slots as usize, blank());
        self.env.push(back);
        self.env.push(self.frame.word(Tag::Frm));
        self.frame = Link {
            count: slots as u32,
            end: end as u32,
        };
        Ok(())
    }

    /// Gives the newest frame up and answers the return that it kept.
    pub fn pop_frame(&mut self) -> Option<Word>
        ensures there { HasFrame self.old → IsSome result }
        ensures pops { IfSome result (λ back. PopsFrame self.old self.new back) }
        ensures same { SameTerms self.old self.new }
        ensures none { IfNone result (self.new ≡ self.old) }
    {
        let end = self.frame.end as usize;
        if end < FRAME_WORDS {
            return None;
        }
        let back = self.env.get(end - 2);
        let below = Link::of(self.env.get(end - 1));
        if !below.is_frame_within(end - FRAME_WORDS) {
            return None;
        }
        let need = (below.end as usize).max(self.protected());
        self.env.cut(need);
        self.frame = below;
        Some(back)
    }

    /// How many choices there are.
    pub fn choices(&self) -> u64
        ensures { result ≡ self.now.count }
    {
        self.count as u64
    }

    /// The heap length that the newest choice keeps, or 0 where there is none.
    pub fn kept_heap(&self) -> u64
        ensures { result ≡ kept_heap self.now }
    {
        if self.count == 0 {
            return 0;
        }
        self.choice.value_at(self.choice.len() - HEAP_BACK) as u64
    }

    /// The trail length that the newest choice keeps, or 0 where there is none.
    fn kept_trail(&self) -> usize
        ensures { result ≡ kept_trail self.now }
    {
        if self.count == 0 {
            return 0;
        }
        self.choice.value_at(self.choice.len() - TRAIL_BACK)
    }

    /// Makes a choice that keeps these registers, where a fail goes on, and the return.
    pub fn push_choice(&mut self, regs: &[Word], alternative: Word, back: Word) -> Result<(), Full>
        ensures ok { OnOk result (self.new ≡ with_choice regs.now alternative back self.old) }
        ensures err { OnErr result (self.new ≡ self.old) }
        ensures area { IfErr result (λ full. full.area ≡ AreaName.Choice) }
        ensures full { IsErr result
            ↔ (self.old.choice_limit < length self.old.choice + choice_words (length regs.now)) }
    {
        let catchers = self.active.word(Tag::Frm);
        self.push_saved(regs, alternative, back, catchers)
    }

    /// Makes a catcher that keeps these registers, where a caught ball goes on, and the return, and puts it in force.
    pub fn push_catcher(&mut self, regs: &[Word], label: Word, back: Word) -> Result<(), Full>
        ensures ok { OnOk result (self.new ≡ with_catcher regs.now label back self.old) }
        ensures err { OnErr result (self.new ≡ self.old) }
        ensures area { IfErr result (λ full. full.area ≡ AreaName.Choice) }
        ensures full { IsErr result
            ↔ (self.old.choice_limit < length self.old.choice + choice_words (length regs.now)) }
    {
        let below = self.choice.len();
        let count = self.active.count + 1;
        let catchers = self.active.word(Tag::Bar);
        self.push_saved(regs, label, back, catchers)?;
        self.active = Link {
            count,
            end: (below + (regs.len() + CHOICE_WORDS)) as u32,
        };
        Ok(())
    }

    /// Makes a choice with this word for the catchers in force.
    fn push_saved(
        &mut self,
        regs: &[Word],
        place: Word,
        back: Word,
        catchers: Word,
    ) -> Result<(), Full>
        ensures ok { OnOk result (self.new ≡ with_saved regs.now place back catchers self.old) }
        ensures err { OnErr result (self.new ≡ self.old) }
        ensures area { IfErr result (λ full. full.area ≡ AreaName.Choice) }
        ensures full { IsErr result
            ↔ (self.old.choice_limit < length self.old.choice + choice_words (length regs.now)) }
    {
        let room = self.choice.room();
        if room < CHOICE_WORDS || regs.len() > room - CHOICE_WORDS {
            return full(AreaName::Choice);
        }
        let below = self.choice.len();
        self.choice.push_all(regs);
        self.choice.push(place);
        self.choice.push(back);
        self.choice.push(self.frame.word(Tag::Frm));
        self.choice.push(index_of(self.env.len()));
        self.choice.push(index_of(self.heap.len()));
        self.choice.push(index_of(self.trail.len()));
        self.choice.push(catchers);
        self.choice.push(index_of(below));
        self.count += 1;
        Ok(())
    }

    /// The fail to the newest choice, which stays: its registers are written back, the others stay as they are, and the
    /// cells that were trailed since are unbound again.
    pub fn restore(&mut self, regs: &mut [Word]) -> Result<Restored, Stray>
        ensures there { HasChoiceWithin (length regs.old) self.old → IsOk result }
        ensures restores { IfOk result (λ restored.
            Restores self.old self.new regs.old regs.new restored.alternative restored.back) }
        ensures heap { OnOk result
            (self.new.heap ≡ undone (drop (kept_trail self.old) self.old.trail) (take (kept_heap self.old) self.old.heap)) }
        ensures trail { OnOk result (self.new.trail ≡ take (kept_trail self.old) self.old.trail) }
    {
        let caught = self.go_back(regs)?;
        Ok(Restored {
            alternative: caught.label,
            back: caught.back,
        })
    }

    /// Takes the newest choice's state up again.
    fn go_back(&mut self, regs: &mut [Word]) -> Result<Caught, Stray>
        ensures there { HasChoiceWithin (length regs.old) self.old → IsOk result }
        ensures restores { IfOk result (λ caught.
            Restores self.old self.new regs.old regs.new caught.label caught.back) }
        ensures heap { OnOk result
            (self.new.heap ≡ undone (drop (kept_trail self.old) self.old.trail) (take (kept_heap self.old) self.old.heap)) }
        ensures trail { OnOk result (self.new.trail ≡ take (kept_trail self.old) self.old.trail) }
    {
        if self.count == 0 {
            return Err(Stray);
        }
        let end = self.choice.len();
        let most = self.env.len();
        let count = self.count;
        let label = self.choice.get(end - ALTERNATIVE_BACK);
        let back = self.choice.get(end - RETURN_BACK);
        let below = self.choice.value_at(end - BELOW_BACK);
        let env = self.choice.value_at(end - ENV_BACK);
        let frame = Link::of(self.choice.get(end - FRAME_BACK));
        let active = Link::of(self.choice.get(end - CATCHERS_BACK));
        if below > end - CHOICE_WORDS || env > most || active.count as usize > count {
            return Err(Stray);
        }
        let kept = end - CHOICE_WORDS - below;
        if kept > regs.len() {
            return Err(Stray);
        }
        if !frame.is_frame_within(env) {
            return Err(Stray);
        }
        self.choice.copy_out(below, kept, regs);
        self.env.cut(env);
        self.frame = frame;
        self.active = active;
        self.undo();
        Ok(Caught {
            label,
            back,
            kept: kept as u64,
        })
    }

    /// Cuts the heap and the trail back to what the newest choice keeps, and makes each cell that was trailed since unbound
    /// again.
    fn undo(&mut self)
        ensures { self.new ≡ record self.old {
          heap = undone (drop (kept_trail self.old) self.old.trail) (take (kept_heap self.old) self.old.heap);
          trail = take (kept_trail self.old) self.old.trail;
        } }
    {
        let heap = self.kept_heap() as usize;
        let trail = self.kept_trail();
        self.heap.cut(heap);
        let mut at = trail;
        while at < self.trail.len() {
            let index = self.trail.value_at(at) as u64;
            self.unbind(index);
            at += 1;
        }
        self.trail.cut(trail);
    }

    /// Makes the cell at an index unbound, where there is that cell.
    fn unbind(&mut self, index: u64)
        ensures { self.new ≡ record self.old { heap = slice_set self.old.heap index (ref_word index) } }
    {
        if index < self.heap.len() as u64 {
            self.heap.set(index as usize, ref_to(index));
        }
    }

    /// Gives the newest choice another alternative.
    pub fn set_alternative(&mut self, alternative: Word) -> Result<(), Stray>
        ensures stray { IsErr result ↔ (self.old.count ≡ 0) }
        ensures ok { OnOk result (Retargets self.old self.new alternative) }
        ensures words { OnOk result (self.new ≡ record self.old {
          choice = slice_set self.old.choice (length self.old.choice - 8) alternative;
        }) }
        ensures err { OnErr result (self.new ≡ self.old) }
    {
        if self.count == 0 {
            return Err(Stray);
        }
        let at = self.choice.len() - ALTERNATIVE_BACK;
        self.choice.set(at, alternative);
        Ok(())
    }

    /// Removes the newest choices until at most `to` are left. Catchers among them are no longer in force.
    pub fn drop_choices(&mut self, to: u64) -> Result<(), Stray>
        ensures there { IsStore self.old → IsOk result }
        ensures drops { OnOk result (DropsChoices to self.old self.new) }
        ensures left { OnOk result (self.new.count ≡ min self.old.count to) }
        ensures same { SameTerms self.old self.new }
    {
        while self.count as u64 > to {
            self.drop_choice()?;
        }
        Ok(())
    }

    /// Removes the newest choice.
    fn drop_choice(&mut self) -> Result<(), Stray>
        ensures there { HasChoice self.old → IsOk result }
        ensures drops { OnOk result (DropsChoice self.old self.new) }
        ensures less { OnOk result (self.new.count + 1 ≡ self.old.count) }
        ensures same { SameTerms self.old self.new }
    {
        if self.count == 0 {
            return Err(Stray);
        }
        let fewer = self.count - 1;
        let end = self.choice.len();
        let below = self.choice.value_at(end - BELOW_BACK);
        let active = self.active_without(end);
        if below > end - CHOICE_WORDS
            || below < fewer * CHOICE_WORDS
            || active.count as usize > fewer
        {
            return Err(Stray);
        }
        self.active = active;
        self.choice.cut(below);
        self.count = fewer;
        let need = (self.frame.end as usize).max(self.protected());
        self.env.cut(need);
        Ok(())
    }

    /// The catchers in force without the choice that ends at an index.
    fn active_without(&self, end: usize) -> Link
        requires long { 8 ≤ end }
        requires within { end ≤ length self.now.choice }
        ensures { self.now.active ≢ end → (result.count ≡ self.now.catchers) × (result.end ≡ self.now.active) }
    {
        if self.active.end as usize != end {
            return self.active;
        }
        Link::of(self.choice.get(end - CATCHERS_BACK))
    }

    /// How many words of the environment area the newest choice protects.
    fn protected(&self) -> usize
        ensures { (choices : List Choice) → self.now.choice ≡ choice_area choices → self.now.count ≡ length choices → result ≡ protected choices }
    {
        if self.count == 0 {
            return 0;
        }
        self.choice.value_at(self.choice.len() - ENV_BACK)
    }

    /// How many catchers are in force.
    pub fn active(&self) -> u64
        ensures { result ≡ self.now.catchers }
    {
        u64::from(self.active.count)
    }

    /// The heap length that the innermost catcher in force keeps, or 0 where none is in force.
    pub fn caught_heap(&self) -> u64 {
        let end = self.active.end as usize;
        if end < CHOICE_WORDS || end > self.choice.len() {
            return 0;
        }
        self.choice.value_at(end - HEAP_BACK) as u64
    }

    /// Whether the newest choice is a catcher.
    pub fn newest_catches(&self) -> bool
        ensures { IsStore self.now → result ≡ false }
    {
        if self.count == 0 {
            return false;
        }
        let link = self.choice.get(self.choice.len() - CATCHERS_BACK);
        match link.tag() {
            Tag::Bar => true,
            _ => false,
        }
    }

    /// Takes the innermost catcher out of force; it stays among the choices.
    pub fn leave(&mut self) -> Result<(), Stray>
        ensures less { OnOk result (self.new.catchers < self.old.catchers) }
        ensures err { OnErr result (self.new ≡ self.old) }
        ensures same { self.new ≡ record self.old { active = self.new.active; catchers = self.new.catchers } }
    {
        let end = self.active.end as usize;
        if end < CHOICE_WORDS || end > self.choice.len() {
            return Err(Stray);
        }
        let rest = Link::of(self.choice.get(end - CATCHERS_BACK));
        if rest.count >= self.active.count {
            return Err(Stray);
        }
        self.active = rest;
        Ok(())
    }

    /// Gives back the state of the innermost catcher in force, and removes it and all newer choices. The registers that it
    /// keeps are written back, the others stay as they are.
    pub fn restore_catcher(&mut self, regs: &mut [Word]) -> Result<Caught, Stray> {
        if self.active.count == 0 {
            return Err(Stray);
        }
        let end = self.active.end as usize;
        self.drop_newer(end)?;
        let caught = self.go_back(regs)?;
        self.drop_choice()?;
        Ok(caught)
    }

    /// Removes the newest choices until the newest one ends at an index.
    fn drop_newer(&mut self, end: usize) -> Result<(), Stray>
        ensures ends { OnOk result (length self.new.choice ≡ end) }
        ensures same { SameTerms self.old self.new }
    {
        while self.choice.len() > end {
            self.drop_choice()?;
        }
        if self.choice.len() < end {
            return Err(Stray);
        }
        Ok(())
    }
}

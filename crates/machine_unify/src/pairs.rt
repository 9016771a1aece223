ghost use Rattle.std.specs.Prelude.{◌≡◌, ◌<◌, ◌≤◌, IsSome, ◌≢◌, length};

use crate::found::Found;
use crate::rest::Rest;
use crate::visit::{Visit, same_pair, unify_pair};
use machine_store::store::Store;
use tag_word::word::Word;

/// What is asked of two terms.
#[derive(Clone, Copy, Debug)]
pub enum Asked {
    /// That they are made equal.
    Equality,
    /// That they are identical.
    Identity,
}

/// Two words that are to be visited next.
#[derive(Clone, Copy, Debug)]
struct Pair {
    left: Word,
    right: Word,
}

/// Where the next pair is.
enum Next {
    Pair(Pair),
    /// All pairs were visited.
    Done,
    /// A word leads nowhere.
    Stray,
}

/// Visits two terms pair by pair, depth first and from left to right, and lowers `left` by each pair. What is still to be
/// visited stands in the work area behind the words there, three words for each compound that was entered and is not at its
/// last argument.
pub fn visit_pairs(
    asked: Asked,
    store: &mut Store,
    left: Word,
    right: Word,
    visits: &mut u64,
) -> Found
    ensures less { visits.new ≤ visits.old }
    ensures stopped { result ≡ Found.Stopped → visits.new ≡ 0 }
    ensures visited { result ≢ Found.Stopped → visits.new < visits.old }
    ensures work { length store.new.work ≤ length store.old.work }
{
    let base = store.work_len();
    let found = visit_all(asked, store, base, Pair { left, right }, visits);
    store.cut_work(base);
    found
}

fn visit_all(asked: Asked, store: &mut Store, base: u64, first: Pair, visits: &mut u64) -> Found
    ensures less { visits.new ≤ visits.old }
    ensures stopped { result ≡ Found.Stopped → visits.new ≡ 0 }
    ensures visited { result ≢ Found.Stopped → visits.new < visits.old }
{
    let mut pair = first;
    let mut rest = Rest::none();
    while *visits > 0 {
        *visits -= 1;
        match visit(asked, store, pair) {
            Visit::Equal => {}
            Visit::Into(arguments) => {
                if let Err(full) = rest.keep(store) {
                    return Found::Full(full.area);
                }
                rest = arguments;
            }
            Visit::Differ => return Found::No,
            Visit::Full(area) => return Found::Full(area),
            Visit::Stray => return Found::Stray,
        }
        match next_pair(store, base, &mut rest) {
            Next::Pair(next) => pair = next,
            Next::Done => return Found::Yes,
            Next::Stray => return Found::Stray,
        }
    }
    Found::Stopped
}

fn visit(asked: Asked, store: &mut Store, pair: Pair) -> Visit {
    match asked {
        Asked::Equality => unify_pair(store, pair.left, pair.right),
        Asked::Identity => same_pair(store, pair.left, pair.right),
    }
}

/// Takes the next pair of arguments, from those that were kept where no others are left.
fn next_pair(store: &mut Store, base: u64, rest: &mut Rest) -> Next {
    if rest.count == 0 {
        if store.work_len() <= base {
            return Next::Done;
        }
        let Some(kept) = Rest::take(store) else {
            return Next::Stray;
        };
        *rest = kept;
    }
    let Some(pair) = arguments(store, *rest) else {
        return Next::Stray;
    };
    let Some(less) = rest.count.checked_sub(1) else {
        return Next::Stray;
    };
    *rest = Rest {
        left: rest.left + 1,
        right: rest.right + 1,
        count: less,
    };
    Next::Pair(pair)
}

/// The next two arguments.
fn arguments(store: &Store, rest: Rest) -> Option<Pair>
    ensures left { IsSome result → rest.left < 67108864 }
    ensures right { IsSome result → rest.right < 67108864 }
{
    let left = store.cell(rest.left)?;
    let right = store.cell(rest.right)?;
    Some(Pair { left, right })
}

//! Growable lists of words, all in one lent slice.
//!
//! In front lies a table with an entry of eight words for each number up to the last in use; behind it the words are two halves, and the lists lie
//! in one of them, placed from its end towards its beginning. A list that outgrows its room goes before all others, with half of its length and
//! eight words more; when the half is used up, every list goes to the other half, with a quarter of its length more. Both halves lose as much
//! as the table takes, so that the table may grow.
//!
//! A call that asks for words is refused exactly if the sum `enough` (specs/Sums.antt) passes half of the words lent: what all lists hold, and a
//! quarter more, eight for each number up to the last in use, what is asked for, and an eighth of the half. So after a move at least an eighth is
//! free, and moves are paid for by pushes: `spent` rises by at most 128 for each word that comes and 64 for each fresh list.
#![tactic(auto)]

ghost use Rattle.std.specs.Prelude.{◌≡◌, ℕ, ◌+◌, ◌-◌, ◌*◌, ◌/◌, ◌^◌, ◌<◌, ◌≤◌, min, Bool, true, false, ◌&&◌, ◌||◌, nat_lt, ◌≢◌, ◌⊎◌, List, [], ◌∷◌, ◌++◌, length, get_or, take, drop, is_some, is_ok, if◌then◌else◌, Some, None, MatchOption, MatchResult, nat_le, nat_lt, slice_index, slice_index_or, slice_set};
ghost use Rattle.std.specs.List.{prefix_len};
ghost use Rattle.segments.specs.Layout.{need, spread};
ghost use Rattle.segments.specs.Table.{nth, segs, marks, tense, strain};
ghost use Rattle.store.specs.Sums.{extent, asked, enough, told, final};
ghost use Rattle.store.specs.Dense.{Dense, marked, replaced, replaced_block, offered_block};
ghost use Rattle.store.specs.Layout.{lists, lives};
ghost use Rattle.store.specs.Held.{Shifted, Reserved, Paid, Seldom, free, pressed, Held, model, bounds, shifts, spent, Empty};

pub use dense::{block_moves_stands, dense_count_stands, dense_stands, few_lent_stands};
use segments::Segments;
use std::error::Error;
use std::fmt;
use std::marker::Model;

mod dense;

/// The fewest words that a store is made in.
const LEAST: usize = 64;

/// Why a list gets no more words.
#[derive(Clone, Copy, PartialEq, Eq, Debug)]
pub enum Refusal {
    NotInUse,
    NoRoom,
}

impl fmt::Display for Refusal {
    fn fmt<W: fmt::Write>(&self, f: &mut fmt::Formatter<W>) -> fmt::Result {
        f.write_str(match self {
            Refusal::NotInUse => "the list is not in use",
            Refusal::NoRoom => "no room",
        })
    }
}

impl Error for Refusal {}

/// Lists of words, in words that are lent: a table in front, and two halves, of which one holds the lists,
/// from `low` up to its end `hi`; the other is free.
#[derive(Drop)]
pub struct Store<'a> {
    segments: Segments<'a>,
    half: usize,
    hi: usize,
    low: usize,
    total: usize,
    hint: usize,
    moved: usize,
}

// The view keeps all fields, since the contracts of the private calls say where the lists lie. Other crates see it by `model`, `bounds`, `spent`
// and `shifts` alone.
impl<'a> Model for Store<'a> {
    ghost use Rattle.store.specs.Layout.{Layout};

    ghost Value = { Layout };

    ghost use Rattle.store.specs.Fields.{fields, Kept};

    ghost view = { fields };

    ghost invariant = { Kept };
}

impl Store<'_> {
    /// Whether the number i is in use.
    pub fn in_use(&self, i: usize) -> bool
        ensures held { Held self.now }
        ensures says { result ≡ slice_index_or (bounds self.now).1 i false }
    {
        self.segments.in_use(i)
    }

    /// The word at j of list i, and 0 where there is none.
    pub fn get(&self, i: usize, j: usize) -> u32
        ensures { result ≡ slice_index (slice_index_or (model self.now) i []) j }
    {
        self.segments.word(i, j)
    }

    /// How long list i is, and 0 where there is none.
    pub fn len(&self, i: usize) -> usize
        ensures is { result ≡ length (slice_index_or (model self.now) i []) }
        ensures held { Held self.now }
    {
        self.segments.len(i)
    }

    /// The words of list i.
    pub fn words(&self, i: usize) -> &[u32]
        ensures { result.now ≡ slice_index_or (model self.now) i [] }
    {
        self.segments.segment(i)
    }

    /// The words of list i from the place `from` on, and none where it has no such place.
    pub fn words_from(&self, i: usize, from: usize) -> &[u32]
        ensures { result.now ≡ drop from (slice_index_or (model self.now) i []) }
    {
        let words = self.words(i);
        if from >= words.len() {
            return &words[0..0];
        }
        &words[from..]
    }

    /// Puts v at j of list i, if there is such a place.
    pub fn set(&mut self, i: usize, j: usize, v: u32)
        ensures held { Held self.new }
        ensures same { bounds self.new ≡ bounds self.old }
        ensures after { model self.new ≡ slice_set (model self.old) i (slice_set (slice_index_or (model self.old) i []) j v) }
        ensures cost { spent self.new ≤ spent self.old }
    {
        self.segments.put(i, j, v);
    }

    /// How many words the lists may still take: an eighth of the half is kept free.
    fn spare(&self) -> usize
        ensures left { self.now.total + self.now.total / 4 + 8 * length self.now.table.segments + self.now.half / 8 + result ≡ self.now.half }
        ensures small { self.now.half < 2 ^ 60 }
    {
        self.half - (self.total + self.total / 4 + 8 * self.segments.count() + self.half / 8)
    }

    /// How many words list i has room for.
    fn room_of(&self, i: usize) -> usize
        requires { i < length self.now.table.segments }
        ensures is { result ≡ (nth self.now.table i).room }
        ensures fits { length (nth self.now.table i).words ≤ result }
    {
        self.segments.room(i)
    }

    /// Every list goes to the other half, each with a quarter more room.
    fn tidy(&mut self)
        ensures shifted { Shifted self.old self.new }
        ensures space { self.new.low + spread (segs self.old.table) ≡ self.new.hi }
        ensures eased { strain self.new.table ≡ 0 }
        ensures counts { self.new.moved ≡ min (self.old.moved + self.old.total) 18446744073709551615 }
    {
        let other = 3 * self.half - self.hi;
        let low = self.low;
        let hi = self.hi;
        self.low = self.segments.evacuate(low, hi, other);
        self.hi = other;
        self.moved = self.moved.saturating_add(self.total);
    }

    /// Sees to it that as many words as are asked for are free in the half in use: where they are not, all lists go to the other half.
    fn make_space(&mut self, ask: usize)
        requires fits { self.old.total + self.old.total / 4 + 8 * length self.old.table.segments + self.old.half / 8 + ask ≤ self.old.half }
        ensures shifted { Shifted self.old self.new }
        ensures space { self.new.hi + 8 * length self.new.table.segments + ask ≤ self.new.low + self.new.half }
        ensures seldom { Seldom self.old self.new ask }
        ensures cost { pressed self.new ask ≤ pressed self.old 0 + 8 * ask }
        ensures rest { strain self.new.table ≤ strain self.old.table }
        ensures eased { (i : ℕ) → i < length self.old.table.segments → strain self.new.table + tense (nth self.old.table i) ≤ strain self.old.table + tense (nth self.new.table i) }
    {
        if self.hi + 8 * self.segments.count() + ask <= self.low + self.half {
            return;
        }
        self.tidy();
    }

    /// List i, of length len, goes before all others, with room r.
    fn widen(&mut self, i: usize, len: usize, r: usize)
        requires there { i < length self.old.table.segments }
        requires length_is { len ≡ length (nth self.old.table i).words }
        requires holds { len ≤ r }
        requires free { self.old.hi + 8 * length self.old.table.segments + r ≤ self.old.low + self.old.half }
        ensures shifted { Shifted self.old self.new }
        ensures wide { (nth self.new.table i).room ≡ r }
        ensures counts { self.new.moved ≡ min (self.old.moved + len) 18446744073709551615 }
        ensures cost { pressed self.new 0 ≤ pressed self.old r + len }
        ensures eased { strain self.new.table + tense (nth self.old.table i) ≡ strain self.old.table + (5 * len - (4 * r + 3)) }
    {
        let at = self.low - r;
        self.segments.relocate(i, at, r);
        self.low = at;
        self.moved = self.moved.saturating_add(len);
    }

    /// Sees to it that list i, of length len, has room for more words.
    fn make_room(&mut self, i: usize, len: usize, more: usize)
        requires there { i < length self.old.table.segments }
        requires length_is { len ≡ length (nth self.old.table i).words }
        requires fits { self.old.total + self.old.total / 4 + 8 * length self.old.table.segments + self.old.half / 8 + asked (len + more) ≤ self.old.half }
        requires small { self.old.half < 2 ^ 60 }
        ensures shifted { Shifted self.old self.new }
        ensures wide { len + more ≤ (nth self.new.table i).room }
        ensures cost { Paid self.old self.new i len more }
    {
        let m = len + more;
        if m <= self.room_of(i) {
            return;
        }
        let room = m + m / 2 + 8;
        self.make_space(room);
        self.widen(i, len, room);
    }

    /// Room for more words in list i, or a refusal.
    fn reserve(&mut self, i: usize, more: usize) -> Result<(), Refusal>
        ensures held { Held self.old }
        ensures says { result ≡ told (slice_index_or (bounds self.old).1 i false) (enough (bounds self.old) (model self.old) (asked (length (slice_index_or (model self.old) i []) + more))) }
        ensures after { MatchResult result (λ _. Reserved self.old self.new i more) (λ _. self.new ≡ self.old) }
    {
        if !self.in_use(i) {
            return Err(Refusal::NotInUse);
        }
        let len = self.len(i);
        let spare = self.spare();
        if more > spare {
            return Err(Refusal::NoRoom);
        }
        let m = len + more;
        if m + m / 2 + 8 > spare {
            return Err(Refusal::NoRoom);
        }
        self.make_room(i, len, more);
        Ok(())
    }

    /// One word more at the end of list i, or a refusal.
    // Not by `extend(i, &[v])`: measured with bench/store, a push took a tenth longer by it.
    pub fn push(&mut self, i: usize, v: u32) -> Result<(), Refusal>
        ensures held { Held self.new }
        ensures same { bounds self.new ≡ bounds self.old }
        ensures after { MatchResult result (λ _. model self.new ≡ slice_set (model self.old) i (slice_index_or (model self.old) i [] ++ (v ∷ []))) (λ _. model self.new ≡ model self.old) }
        ensures says { result ≡ told (slice_index_or (bounds self.old).1 i false) (enough (bounds self.old) (model self.old) (asked (length (slice_index_or (model self.old) i []) + 1))) }
        ensures cost { spent self.new ≤ spent self.old + 128 }
    {
        self.reserve(i, 1)?;
        self.segments.append_word(i, v);
        self.total += 1;
        Ok(())
    }

    /// The words of a slice more at the end of list i, or a refusal.
    pub fn extend(&mut self, i: usize, xs: &[u32]) -> Result<(), Refusal>
        ensures held { Held self.new }
        ensures same { bounds self.new ≡ bounds self.old }
        ensures after { MatchResult result (λ _. model self.new ≡ slice_set (model self.old) i (slice_index_or (model self.old) i [] ++ xs.now)) (λ _. model self.new ≡ model self.old) }
        ensures says { result ≡ told (slice_index_or (bounds self.old).1 i false) (enough (bounds self.old) (model self.old) (asked (length (slice_index_or (model self.old) i []) + length xs.now))) }
        ensures cost { spent self.new ≤ spent self.old + 128 * length xs.now }
    {
        self.reserve(i, xs.len())?;
        self.segments.append_words(i, xs);
        self.total += xs.len();
        Ok(())
    }

    /// The words of list j more at the end of list i, or a refusal; list j stays, and may be list i.
    pub fn append(&mut self, i: usize, j: usize) -> Result<(), Refusal>
        ensures held { Held self.new }
        ensures same { bounds self.new ≡ bounds self.old }
        ensures after { MatchResult result (λ _. model self.new ≡ slice_set (model self.old) i (slice_index_or (model self.old) i [] ++ slice_index_or (model self.old) j [])) (λ _. model self.new ≡ model self.old) }
        ensures says { result ≡ told (slice_index_or (bounds self.old).1 i false) (enough (bounds self.old) (model self.old) (asked (length (slice_index_or (model self.old) i []) + length (slice_index_or (model self.old) j [])))) }
        ensures cost { spent self.new ≤ spent self.old + 128 * length (slice_index_or (model self.old) j []) }
    {
        let more = self.len(j);
        self.reserve(i, more)?;
        self.segments.append_segment(i, j);
        self.total += more;
        Ok(())
    }

    /// Keeps the first m words of list i, or all where it has fewer.
    pub fn truncate(&mut self, i: usize, m: usize)
        ensures held { Held self.new }
        ensures same { bounds self.new ≡ bounds self.old }
        ensures after { model self.new ≡ slice_set (model self.old) i (take m (slice_index_or (model self.old) i [])) }
        ensures cost { spent self.new ≤ spent self.old }
    {
        let len = self.len(i);
        if m >= len {
            return;
        }
        self.segments.cut(i, m);
        self.total -= len - m;
    }

    /// Nothing is left in list i.
    pub fn clear(&mut self, i: usize)
        ensures held { Held self.new }
        ensures same { bounds self.new ≡ bounds self.old }
        ensures after { model self.new ≡ slice_set (model self.old) i [] }
        ensures cost { spent self.new ≤ spent self.old }
    {
        self.truncate(i, 0);
    }

    /// The last word of list i, which is taken off, if there is one.
    pub fn pop(&mut self, i: usize) -> Option<u32>
        ensures held { Held self.new }
        ensures same { bounds self.new ≡ bounds self.old }
        ensures after { model self.new ≡ slice_set (model self.old) i (take (length (slice_index_or (model self.old) i []) - 1) (slice_index_or (model self.old) i [])) }
        ensures last { result ≡ final (slice_index_or (model self.old) i []) }
        ensures cost { spent self.new ≤ spent self.old }
    {
        let len = self.len(i);
        if len == 0 {
            return None;
        }
        let v = self.get(i, len - 1);
        self.truncate(i, len - 1);
        Some(v)
    }

    /// The smallest number that is not in use.
    fn unused(&self) -> usize
        ensures within { result ≤ length self.now.table.segments }
        ensures before { (k : ℕ) → k < result → (nth self.now.table k).used ≡ true }
        ensures here { (nth self.now.table result).used ≡ false }
    {
        self.segments.first_unused(self.hint)
    }

    /// One entry more in the table, for an empty list, where there is room.
    fn enlarge(&mut self)
        requires fits { self.old.total + self.old.total / 4 + 8 * length self.old.table.segments + self.old.half / 8 + 8 ≤ self.old.half }
        ensures held { Held self.new }
        ensures counts { (length self.new.table.segments ≡ length self.old.table.segments + 1) × (self.new.total ≡ self.old.total) }
        ensures bounds { (self.new.half ≡ self.old.half) × (lives self.new.table self.new.half ≡ slice_set (lives self.old.table self.old.half) (length self.old.table.segments) true) }
        ensures same { lists self.new.table self.new.half ≡ lists self.old.table self.old.half }
        ensures cost { spent self.new ≤ spent self.old + 64 }
    {
        self.make_space(8);
        let low = self.low;
        self.segments.open(low);
    }

    /// A list that was not in use, with the smallest such number; it is empty. None where the table would have to grow and there is no room.
    pub fn fresh(&mut self) -> Option<usize>
        ensures held { Held self.new }
        ensures same { bounds self.new ≡ (if is_some result then ((bounds self.old).0, slice_set (bounds self.old).1 (prefix_len (λ b. b) (bounds self.old).1) true) else bounds self.old) }
        ensures after { model self.new ≡ model self.old }
        ensures says { result ≡ (if nat_lt (prefix_len (λ b. b) (bounds self.old).1) (extent (bounds self.old).1) || enough (bounds self.old) (model self.old) 8 then Some (prefix_len (λ b. b) (bounds self.old).1) else None) }
        ensures dense { Dense (bounds self.old).1 → Dense (bounds self.new).1 }
        ensures cost { spent self.new ≤ spent self.old + 64 }
    {
        let n = self.segments.count();
        let i = self.unused();
        if i < n {
            self.segments.engage(i);
            self.hint = i + 1;
            return Some(i);
        }
        if 8 > self.spare() {
            return None;
        }
        self.hint = n;
        self.enlarge();
        Some(n)
    }

    /// k empty lists with numbers in a row, behind all that are in use; the answer is the first of them. None where there is no room for all of them.
    pub fn fresh_block(&mut self, k: usize) -> Option<usize>
        ensures held { Held self.new }
        ensures same { bounds self.new ≡ (if is_some result then ((bounds self.old).0, marked (bounds self.old).1 (extent (bounds self.old).1) k true) else bounds self.old) }
        ensures after { model self.new ≡ model self.old }
        ensures says { result ≡ offered_block (bounds self.old) (model self.old) k }
        ensures dense { Dense (bounds self.old).1 → Dense (bounds self.new).1 }
        ensures cost { spent self.new ≤ spent self.old + 64 * k }
    {
        let first = self.segments.count();
        if k > self.spare() / 8 {
            return None;
        }
        // A count, and no index.
        for _j in 0..k {
            self.enlarge();
        }
        Some(first)
    }

    /// List i, which is empty, goes out of use, and the table ends behind the last that is in use.
    fn release(&mut self, i: usize)
        requires there { i < length self.old.table.segments }
        requires bare { (nth self.old.table i).words ≡ [] }
        ensures held { Held self.new }
        ensures bounds { (self.new.half ≡ self.old.half) × (lives self.new.table self.new.half ≡ slice_set (lives self.old.table self.old.half) i false) }
        ensures same { lists self.new.table self.new.half ≡ lists self.old.table self.old.half }
        ensures cost { spent self.new ≤ spent self.old }
    {
        self.segments.retire(i);
        self.hint = self.hint.min(i);
    }

    /// List i goes out of use, and is empty.
    pub fn free(&mut self, i: usize)
        ensures held { Held self.new }
        ensures same { bounds self.new ≡ ((bounds self.old).0, slice_set (bounds self.old).1 i false) }
        ensures after { model self.new ≡ slice_set (model self.old) i [] }
        ensures cost { spent self.new ≤ spent self.old }
    {
        if !self.in_use(i) {
            return;
        }
        self.clear(i);
        self.release(i);
    }

    /// Lists i and j, if both are in use, change places; no word of theirs is moved. The answer says whether both are in use:
    /// a question, since nothing can be refused.
    pub fn swap(&mut self, i: usize, j: usize) -> bool
        ensures held { Held self.new }
        ensures same { bounds self.new ≡ bounds self.old }
        ensures after { model self.new ≡ (if result then slice_set (slice_set (model self.old) i (slice_index_or (model self.old) j [])) j (slice_index_or (model self.old) i []) else model self.old) }
        ensures says { result ≡ (slice_index_or (bounds self.old).1 i false && slice_index_or (bounds self.old).1 j false) }
        ensures cost { spent self.new ≤ spent self.old }
    {
        if !self.in_use(i) {
            return false;
        }
        if !self.in_use(j) {
            return false;
        }
        if i == j {
            return true;
        }
        self.segments.exchange(i, j);
        true
    }

    /// List i goes out of use, and the list with the greatest number takes its place; no word is moved. The answer is the number
    /// that list had, and None where i had the greatest, or is not in use.
    pub fn remove(&mut self, i: usize) -> Option<usize>
        ensures held { Held self.new }
        ensures same { bounds self.new ≡ (if slice_index_or (bounds self.old).1 i false then ((bounds self.old).0, slice_set (bounds self.old).1 (extent (bounds self.old).1 - 1) false) else bounds self.old) }
        ensures after { model self.new ≡ (if slice_index_or (bounds self.old).1 i false then replaced (model self.old) i (extent (bounds self.old).1 - 1) else model self.old) }
        ensures says { result ≡ (if slice_index_or (bounds self.old).1 i false && nat_lt (i + 1) (extent (bounds self.old).1) then Some (extent (bounds self.old).1 - 1) else None) }
        ensures dense { Dense (bounds self.old).1 → Dense (bounds self.new).1 }
        ensures cost { spent self.new ≤ spent self.old }
    {
        if !self.in_use(i) {
            return None;
        }
        let last = self.segments.count() - 1;
        let _ = self.swap(i, last);
        self.free(last);
        if i < last {
            return Some(last);
        }
        None
    }

    /// The k lists from i on go out of use, and the last k take their places, in their order; no word is moved. The answer is the first number
    /// that those had, and None where they are the same, or where fewer than k lists are in use from i on.
    pub fn remove_block(&mut self, i: usize, k: usize) -> Option<usize>
        requires dense { Dense (bounds self.old).1 }
        ensures held { Held self.new }
        ensures there { extent (bounds self.old).1 ≤ length (model self.old) }
        ensures same { bounds self.new ≡ (if nat_le (i + k) (extent (bounds self.old).1) then ((bounds self.old).0, marked (bounds self.old).1 (extent (bounds self.old).1 - k) k false) else bounds self.old) }
        ensures after { model self.new ≡ (if nat_le (i + k) (extent (bounds self.old).1) then replaced_block (model self.old) i (extent (bounds self.old).1 - k) k else model self.old) }
        ensures says { result ≡ (if nat_lt (i + k) (extent (bounds self.old).1) then Some (extent (bounds self.old).1 - k) else None) }
        ensures dense { Dense (bounds self.new).1 }
        ensures cost { spent self.new ≤ spent self.old }
    {
        let n = self.segments.count();
        if k > n {
            return None;
        }
        let from = n - k;
        if i > from {
            return None;
        }
        // By number, the last first: lists have numbers alone.
        for q in (0..k).rev() {
            let _ = self.remove(i + q);
        }
        if i < from {
            return Some(from);
        }
        None
    }

    /// How many words have been moved so far: never more than was paid in by the words that came.
    pub fn moved(&self) -> usize
        ensures is { result ≡ shifts self.now }
        ensures paid { result ≤ spent self.now }
    {
        self.moved
    }
}

/// A store with no lists in use, in all the words lent; None where these are fewer than 64.
pub fn store_in(words: &mut [u32]) -> Option<Store<'_>>
    ensures { MatchOption result (length words.old < 64) (λ s. Empty (length words.old) s) }
{
    let all = words.len();
    if all < LEAST {
        return None;
    }
    let half = all / 2;
    Some(Store {
        segments: Segments::new(words),
        half,
        hi: half,
        low: half,
        total: 0,
        hint: 0,
        moved: 0,
    })
}

//! Segments of words behind a table, and what is done to one of them or to all.
#![tactic(auto)]

ghost use Rattle.std.specs.Prelude.{◌≡◌, ℕ, ◌+◌, ◌-◌, ◌*◌, ◌/◌, ◌<◌, ◌≤◌, Bool, true, false, ◌≢◌, ◌⊎◌, List, [], ◌∷◌, ◌++◌, length, take, slice_index, slice_set};
ghost use Rattle.segments.specs.Layout.{field, filed, place, spread};
ghost use Rattle.segments.specs.Table.{Segment, nth, segs, marks, Within, Free, written, moved, exchanged, opened, marked, Retired, Laid};

use std::marker::Model;
use words::{copy_words, move_words, put_wide, put_words, wide};

mod words;

/// The parts of an entry of the table.
#[derive(Clone, Copy)]
enum Part {
    Start = 0,
    Size = 2,
    Room = 4,
    Mark = 6,
}

/// The mark of an entry that is in use; the others have 0.
const USED: usize = 1;

impl Part {
    /// Where the part stands in an entry.
    fn place(self) -> usize
        ensures is { result ≡ place self }
        ensures within { result ≤ 6 }
    {
        self as usize
    }
}

/// A part of entry i.
fn read(w: &[u32], i: usize, part: Part) -> usize
    requires { 8 * i + 7 < length w.now }
    ensures { result ≡ field w.now i (place part) }
{
    wide(w, 8 * i + part.place())
}

/// Writes a part of entry i.
fn write(w: &mut [u32], i: usize, part: Part, v: usize)
    requires { 8 * i + 7 < length w.old }
    ensures { w.new ≡ filed w.old i (place part) v }
{
    put_wide(w, 8 * i + part.place(), v)
}

/// The part of two entries changes places.
fn trade(w: &mut [u32], i: usize, j: usize, part: Part)
    requires i_in_bounds { 8 * i + 7 < length w.old }
    requires j_in_bounds { 8 * j + 7 < length w.old }
    ensures { w.new ≡ filed (filed w.old i (place part) (field w.old j (place part))) j (place part) (field w.old i (place part)) }
{
    let a = read(w, i, part);
    let b = read(w, j, part);
    write(w, i, part, b);
    write(w, j, part, a);
}

/// Words that are lent: a table of `count` entries in front, and the segments behind it.
#[derive(Drop)]
pub struct Segments<'a> {
    words: &'a mut [u32],
    count: usize,
}

impl<'a> Model for Segments<'a> {
    ghost use Rattle.segments.specs.Table.{Table};

    ghost Value = { Table };

    ghost use Rattle.segments.specs.Fields.{table_of, Kept};

    ghost view = { table_of };

    ghost invariant = { Kept };
}

impl<'a> Segments<'a> {
    /// No segments, in so many words.
    pub fn new(words: &'a mut [u32]) -> Self
        ensures { result ≡ record { lent = length words.old; segments = [] } }
    {
        Segments { words, count: 0 }
    }
}

// `there` asks that a number be one of a segment: a fact of the argument, and of no field.
impl Segments<'_> {
    /// How many segments there are.
    pub fn count(&self) -> usize
        ensures laid { Laid self.now }
        ensures is { result ≡ length self.now.segments }
    {
        self.count
    }

    /// Whether segment i is in use.
    pub fn in_use(&self, i: usize) -> bool
        ensures { result ≡ (nth self.now i).used }
    {
        if i >= self.count {
            return false;
        }
        read(self.words, i, Part::Mark) == USED
    }

    /// How many words segment i has, and 0 where there is none.
    pub fn len(&self, i: usize) -> usize
        ensures laid { Laid self.now }
        ensures is { result ≡ length (nth self.now i).words }
    {
        if i >= self.count {
            return 0;
        }
        read(self.words, i, Part::Size)
    }

    /// How many words segment i has room for.
    pub fn room(&self, i: usize) -> usize
        requires { i < length self.now.segments }
        ensures is { result ≡ (nth self.now i).room }
        ensures fits { length (nth self.now i).words ≤ result }
    {
        read(self.words, i, Part::Room)
    }

    /// The words of segment i, and none where there is no such segment.
    pub fn segment(&self, i: usize) -> &[u32]
        ensures { result.now ≡ (nth self.now i).words }
    {
        if i >= self.count {
            return &self.words[0..0];
        }
        let at = read(self.words, i, Part::Start);
        let len = read(self.words, i, Part::Size);
        &self.words[at..at + len]
    }

    /// The word at j of segment i, and 0 where there is none.
    pub fn word(&self, i: usize, j: usize) -> u32
        ensures { result ≡ slice_index (nth self.now i).words j }
    {
        if j >= self.len(i) {
            return 0;
        }
        self.words[read(self.words, i, Part::Start) + j]
    }

    /// Puts v at j of segment i, if there is such a place.
    pub fn put(&mut self, i: usize, j: usize, v: u32)
        ensures laid { Laid self.new }
        ensures after { self.new ≡ written self.old i (slice_set (nth self.old i).words j v) }
    {
        if j >= self.len(i) {
            return;
        }
        let w = &mut *self.words;
        let at = read(w, i, Part::Start);
        w[at + j] = v;
    }

    /// One word more, where segment i has room for it.
    /// For `Store::push`; see there.
    pub fn append_word(&mut self, i: usize, v: u32)
        requires there { i < length self.old.segments }
        requires room { length (nth self.old i).words < (nth self.old i).room }
        ensures laid { Laid self.new }
        ensures after { self.new ≡ written self.old i ((nth self.old i).words ++ (v ∷ [])) }
    {
        let w = &mut *self.words;
        let at = read(w, i, Part::Start);
        let len = read(w, i, Part::Size);
        w[at + len] = v;
        write(w, i, Part::Size, len + 1);
    }

    /// The words of a slice more, where segment i has room for them.
    pub fn append_words(&mut self, i: usize, xs: &[u32])
        requires there { i < length self.old.segments }
        requires room { length (nth self.old i).words + length xs.now ≤ (nth self.old i).room }
        ensures laid { Laid self.new }
        ensures after { self.new ≡ written self.old i ((nth self.old i).words ++ xs.now) }
    {
        let w = &mut *self.words;
        let at = read(w, i, Part::Start);
        let len = read(w, i, Part::Size);
        put_words(w, at + len, xs);
        write(w, i, Part::Size, len + xs.len());
    }

    /// The words of segment j more, if there is such a segment, where segment i has room for them.
    pub fn append_segment(&mut self, i: usize, j: usize)
        requires there { i < length self.old.segments }
        requires room { length (nth self.old i).words + length (nth self.old j).words ≤ (nth self.old i).room }
        ensures laid { Laid self.new }
        ensures after { self.new ≡ written self.old i ((nth self.old i).words ++ (nth self.old j).words) }
    {
        if j >= self.count() {
            return;
        }
        let w = &mut *self.words;
        let at = read(w, i, Part::Start);
        let len = read(w, i, Part::Size);
        let from = read(w, j, Part::Start);
        let more = read(w, j, Part::Size);
        copy_words(w, from, at + len, more);
        write(w, i, Part::Size, len + more);
    }

    /// Keeps the first m words of segment i.
    pub fn cut(&mut self, i: usize, m: usize)
        requires there { i < length self.old.segments }
        requires within { m ≤ length (nth self.old i).words }
        ensures laid { Laid self.new }
        ensures after { self.new ≡ written self.old i (take m (nth self.old i).words) }
    {
        write(self.words, i, Part::Size, m);
    }

    /// Segment i goes to free words, with so much room.
    pub fn relocate(&mut self, i: usize, to: usize, room: usize)
        requires there { i < length self.old.segments }
        requires fits { length (nth self.old i).words ≤ room }
        requires behind_table { 8 * length self.old.segments ≤ to }
        requires in_bounds { to + room ≤ self.old.lent }
        requires free { Free self.old to (to + room) }
        ensures laid { Laid self.new }
        ensures after { self.new ≡ moved self.old i to room }
    {
        let w = &mut *self.words;
        let at = read(w, i, Part::Start);
        let len = read(w, i, Part::Size);
        move_words(w, at, to, len);
        write(w, i, Part::Start, to);
        write(w, i, Part::Room, room);
    }

    /// All segments, from the words from lo up to hi, go one before another, each with a quarter more room, to the words in front of `to`;
    /// the words that they take then begin at the answer.
    pub fn evacuate(&mut self, lo: usize, hi: usize, to: usize) -> usize
        requires within { Within self.old 0 lo hi }
        requires apart { (hi + spread (segs self.old) ≤ to) ⊎ (to ≤ lo) }
        requires behind_table { 8 * length self.old.segments + spread (segs self.old) ≤ to }
        requires in_bounds { to ≤ self.old.lent }
        ensures laid { Laid self.new }
        ensures lent { self.new.lent ≡ self.old.lent }
        ensures same { segs self.new ≡ segs self.old }
        ensures used { marks self.new ≡ marks self.old }
        ensures all { Within self.new 0 result to }
        ensures end { result + spread (segs self.old) ≡ to }
        ensures rooms { (k : ℕ) → k < length self.old.segments → (nth self.new k).room ≡ length (nth self.old k).words + length (nth self.old k).words / 4 }
    {
        let mut at = to;
        // By number: an entry is eight of the lent words, so there is no list to go over. So in `first_unused` and `used_front`.
        for k in 0..self.count() {
            let len = self.len(k);
            let room = len + len / 4;
            at -= room;
            self.relocate(k, at, room);
        }
        at
    }

    /// Segments i and j change places; no word of theirs is moved.
    pub fn exchange(&mut self, i: usize, j: usize)
        requires i_there { i < length self.old.segments }
        requires j_there { j < length self.old.segments }
        requires apart { i ≢ j }
        ensures laid { Laid self.new }
        ensures after { self.new ≡ exchanged self.old i j }
    {
        trade(self.words, i, j, Part::Start);
        trade(self.words, i, j, Part::Size);
        trade(self.words, i, j, Part::Room);
    }

    /// One segment more, at words that are free, with nothing in it.
    pub fn open(&mut self, at: usize)
        requires behind_table { 8 * length self.old.segments + 8 ≤ at }
        requires in_bounds { at ≤ self.old.lent }
        requires in_front { (k : ℕ) → k < length self.old.segments → at ≤ (nth self.old k).start }
        ensures laid { Laid self.new }
        ensures after { self.new ≡ opened self.old at }
    {
        let n = self.count;
        write(self.words, n, Part::Start, at);
        write(self.words, n, Part::Size, 0);
        write(self.words, n, Part::Room, 0);
        write(self.words, n, Part::Mark, USED);
        self.count = n + 1;
    }

    /// The first number from `from` on that is not in use, and the number of segments where all are.
    pub fn first_unused(&self, from: usize) -> usize
        requires { from ≤ length self.now.segments }
        ensures within { (from ≤ result) × (result ≤ length self.now.segments) }
        ensures before { (k : ℕ) → from ≤ k → k < result → (nth self.now k).used ≡ true }
        ensures here { (nth self.now result).used ≡ false }
    {
        // A loop: its clause speaks of every number before, as its invariant does.
        for k in from..self.count() {
            if !self.in_use(k) {
                return k;
            }
        }
        self.count()
    }

    /// Segment i is in use now.
    pub fn engage(&mut self, i: usize)
        requires { i < length self.old.segments }
        ensures laid { Laid self.new }
        ensures after { self.new ≡ marked self.old i true }
    {
        write(self.words, i, Part::Mark, USED);
    }

    /// Segment i is not in use any more, and the table ends behind the last that is.
    pub fn retire(&mut self, i: usize)
        requires { i < length self.old.segments }
        ensures laid { Laid self.new }
        ensures retired { Retired self.old self.new i }
    {
        let count = self.count;
        let w = &mut *self.words;
        write(w, i, Part::Mark, 0);
        let end = used_front(w, count);
        self.count = end;
    }
}

/// Behind the last of the first n entries that is in use.
fn used_front(w: &[u32], n: usize) -> usize
    requires { 8 * n ≤ length w.now }
    ensures within { result ≤ n }
    ensures behind { (k : ℕ) → result ≤ k → k < n → field w.now k 6 ≢ 1 }
    ensures last { (result ≡ 0) ⊎ (field w.now (result - 1) 6 ≡ 1) }
{
    // A loop, as in `first_unused`.
    for k in (0..n).rev() {
        if read(w, k, Part::Mark) == USED {
            return k + 1;
        }
    }
    0
}

//! A list of lists beside a store, which has to say the same.
ghost use Rattle.std.specs.Prelude.{◌≡◌, ◌≤◌};

use std::alloc::{AllocError, Global};
use store::{Refusal, Store};

/// How many numbers are used.
pub const LISTS: usize = 12;

/// A list is empty while its number is not in use, and keeps its room for when it is.
#[derive(Drop)]
struct List {
    used: bool,
    words: Vec<u32>,
}

#[derive(Drop)]
pub struct Mirror {
    heap: Global,
    lists: Vec<List>,
    half: usize,
    seed: u64,
    /// Whether numbers are also taken in a row, and given back by the last in use.
    pub in_blocks: bool,
    pub ops: u64,
    pub moves: u64,
    pub refusals: u64,
    pub wrong: u64,
}

impl Mirror {
    pub fn new(heap: Global, words: usize, seed: u64) -> Result<Self, AllocError> {
        let mut lists = Vec::new(heap);
        for _k in 0..LISTS {
            lists.push(List {
                used: false,
                words: Vec::new(heap),
            })?;
        }
        Ok(Mirror {
            heap,
            lists,
            half: words / 2,
            seed,
            in_blocks: false,
            ops: 0,
            moves: 0,
            refusals: 0,
            wrong: 0,
        })
    }

    /// A number below `below`, and 0 where there is none.
    pub fn pick(&mut self, below: usize) -> usize
        ensures { result ≤ below }
    {
        self.seed = self
            .seed
            .wrapping_mul(6364136223846793005)
            .wrapping_add(1442695040888963407);
        if below == 0 {
            return 0;
        }
        (self.seed >> 33) as usize % below
    }

    /// One of several kinds of steps, and of one kind more where numbers come in blocks.
    pub fn choose<T: Copy>(&mut self, kinds: &[T], in_blocks: T) -> T {
        let count = kinds.len().wrapping_add(usize::from(self.in_blocks));
        let k = self.pick(count);
        kinds.get(k).copied().unwrap_or(in_blocks)
    }

    fn check(&mut self, right: bool) {
        if !right {
            self.wrong = self.wrong.wrapping_add(1);
        }
    }

    /// One operation is done: was the answer right?
    fn done(&mut self, right: bool) {
        self.ops = self.ops.wrapping_add(1);
        self.check(right);
    }

    /// The words of list i, and none where it is not in use.
    fn list(&self, i: usize) -> &[u32] {
        match self.lists.get(i) {
            Some(list) => list.words.as_slice(),
            None => &[],
        }
    }

    pub fn len(&self, i: usize) -> usize {
        self.list(i).len()
    }

    fn total(&self) -> usize {
        let mut total: usize = 0;
        for list in self.lists.iter() {
            total = total.wrapping_add(list.words.len());
        }
        total
    }

    fn alive(&self, i: usize) -> bool {
        self.lists.get(i).is_some_and(|list| list.used)
    }

    /// Behind the last number in use.
    fn extent(&self) -> usize {
        match self.lists.iter().rposition(|list| list.used) {
            Some(last) => last + 1,
            None => 0,
        }
    }

    /// The sum that says whether there is room.
    fn enough(&self, ask: usize) -> bool {
        let total = self.total();
        let sum = total
            .wrapping_add(total / 4)
            .wrapping_add(self.extent().wrapping_mul(8))
            .wrapping_add(self.half / 8);
        sum.wrapping_add(ask) <= self.half
    }

    /// What a list of m words has to be told.
    fn expected(&self, i: usize, m: usize) -> Result<(), Refusal> {
        if !self.alive(i) {
            return Err(Refusal::NotInUse);
        }
        if !self.enough(m.wrapping_add(m / 2).wrapping_add(8)) {
            return Err(Refusal::NoRoom);
        }
        Ok(())
    }

    /// List i was to have more words, which moved so many: was the answer right, and were all lists moved, and not list i alone?
    /// The words go behind it here too.
    fn grown(
        &mut self,
        i: usize,
        more: &[u32],
        got: Result<(), Refusal>,
        moved: usize,
    ) -> Result<(), AllocError> {
        let len = self.len(i);
        let want = self.expected(i, len.wrapping_add(more.len()));
        if got.is_err() {
            self.refusals = self.refusals.wrapping_add(1);
        }
        if moved > len {
            self.moves = self.moves.wrapping_add(1);
        }
        self.done(got == want);
        if got.is_ok() {
            if let Some(list) = self.lists.get_mut(i) {
                list.words.extend_from_slice(more)?;
            }
        }
        Ok(())
    }

    pub fn push(&mut self, st: &mut Store, i: usize, v: u32) -> Result<(), AllocError> {
        let before = st.moved();
        let got = st.push(i, v);
        self.grown(i, &[v], got, st.moved().wrapping_sub(before))
    }

    pub fn extend(&mut self, st: &mut Store, i: usize, xs: &[u32]) -> Result<(), AllocError> {
        let before = st.moved();
        let got = st.extend(i, xs);
        self.grown(i, xs, got, st.moved().wrapping_sub(before))
    }

    pub fn append(&mut self, st: &mut Store, i: usize, j: usize) -> Result<(), AllocError> {
        let more = Vec::from_slice(self.heap, self.list(j))?;
        let before = st.moved();
        let got = st.append(i, j);
        self.grown(i, more.as_slice(), got, st.moved().wrapping_sub(before))
    }

    pub fn pop(&mut self, st: &mut Store, i: usize) {
        let got = st.pop(i);
        let want = match self.lists.get_mut(i) {
            Some(list) => list.words.pop(),
            None => None,
        };
        self.done(got == want);
    }

    pub fn truncate(&mut self, st: &mut Store, i: usize, m: usize) {
        st.truncate(i, m);
        if let Some(list) = self.lists.get_mut(i) {
            list.words.truncate(m);
        }
        self.done(true);
    }

    pub fn set(&mut self, st: &mut Store, i: usize, j: usize, v: u32) {
        st.set(i, j, v);
        if let Some(list) = self.lists.get_mut(i) {
            if let Some(x) = list.words.get_mut(j) {
                *x = v;
            }
        }
        self.done(true);
    }

    pub fn swap(&mut self, st: &mut Store, i: usize, j: usize) {
        let both = self.alive(i) && self.alive(j);
        let got = st.swap(i, j);
        if both && i < self.lists.len() && j < self.lists.len() {
            self.lists.swap(i, j);
        }
        self.done(got == both);
    }

    /// Number i comes into use, with an empty list, or goes out of it.
    fn mark(&mut self, i: usize, used: bool) {
        if let Some(list) = self.lists.get_mut(i) {
            list.used = used;
            list.words.clear();
        }
    }

    pub fn fresh(&mut self, st: &mut Store) {
        let first = (0..LISTS).find(|i| !self.alive(*i));
        let Some(first) = first else {
            return;
        };
        let room = first < self.extent() || self.enough(8);
        let before = st.moved();
        let got = st.fresh();
        if st.moved() != before {
            self.moves = self.moves.wrapping_add(1);
        }
        if got.is_none() {
            self.refusals = self.refusals.wrapping_add(1);
        }
        self.done(got == room.then_some(first));
        if room {
            self.mark(first, true);
        }
    }

    pub fn free(&mut self, st: &mut Store, i: usize) {
        st.free(i);
        self.mark(i, false);
        self.done(true);
    }

    /// As many numbers in a row, behind the last in use.
    pub fn fresh_block(&mut self, st: &mut Store, k: usize) {
        let first = self.extent();
        let end = first.wrapping_add(k);
        if end > LISTS {
            return;
        }
        let room = self.enough(k.wrapping_mul(8));
        let got = st.fresh_block(k);
        self.done(got == room.then_some(first));
        if room {
            for i in first..end {
                self.mark(i, true);
            }
        }
    }

    /// The last list in use takes the place of list i.
    pub fn remove(&mut self, st: &mut Store, i: usize) {
        let last = self.extent().wrapping_sub(1);
        let moves = self.alive(i) && i != last;
        let got = st.remove(i);
        self.done(got == moves.then_some(last));
        if !self.alive(i) || i >= self.lists.len() || last >= self.lists.len() {
            return;
        }
        self.lists.swap(i, last);
        self.mark(last, false);
    }

    /// Whether list i is the same in both, word for word.
    fn agrees(&self, st: &Store, i: usize) -> bool {
        let list = self.list(i);
        if st.in_use(i) != self.alive(i) || st.len(i) != list.len() || st.words(i) != list {
            return false;
        }
        for (k, x) in list.iter().enumerate() {
            if st.get(i, k) != *x {
                return false;
            }
        }
        let half = list.len() / 2;
        st.words_from(i, half) == &list[half..]
    }

    /// Compares all lists.
    pub fn compare(&mut self, st: &Store) {
        // By number, as the lists of the store have numbers alone.
        for i in 0..LISTS {
            let right = self.agrees(st, i);
            self.check(right);
        }
    }
}

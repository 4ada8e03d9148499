//! Chains of cells: the first word of each is the address of the next, or 0.
ghost use Rattle.std.specs.Prelude.{◌≡◌, ◌+◌, true, length, []};
ghost use Rattle.std.specs.Iterator.{item_count};
ghost use Rattle.code.specs.Chains.{chain_of, ends, ends_at, Follows, links_of};

/// The addresses of a chain's cells, from the first to the last. A chain that ends has at most one cell more than there
/// are words of code, and one that does not is followed no further.
#[derive(Clone, Copy)]
pub struct Chain<'a> {
    words: &'a [u32],
    next: u32,
    left: usize,
}

impl<'a> Chain<'a> {
    pub(crate) fn new(words: &'a [u32], first: u32) -> Self
        ensures cells { links_of result ≡ chain_of words.now first }
        ensures end { ends result ≡ ends_at words.now first }
    {
        Chain {
            words,
            next: first,
            left: words.len() + 1,
        }
    }

    /// Whether all cells have been given, and the chain came to its end behind them. One that goes round is left before it comes to any.
    #[inline]
    pub fn ended(&self) -> bool
        ensures over { links_of self.now ≡ [] → result ≡ ends self.now }
        ensures left { result ≡ true → links_of self.now ≡ [] }
    {
        self.next == 0
    }
}

impl<'a> Iterator for Chain<'a> {
    type Item = u32;

    ghost next_gives = { Follows };

    ghost remaining = { item_count links_of };

    #[inline]
    fn next(&mut self) -> Option<u32> {
        if self.next == 0 || self.left == 0 {
            return None;
        }
        let cell = self.next;
        self.next = self.words.get(cell as usize).copied().unwrap_or(0);
        self.left -= 1;
        Some(cell)
    }
}

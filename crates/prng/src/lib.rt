//! Numbers that look random, the same for the same seed.

#![tactic(auto)]

ghost use Rattle.std.specs.Prelude.{◌≡◌, ◌+◌, ◌%◌, ◌^◌, ◌<◌, ◌↔◌, length, Contains, IfSome, IsSome};

/// Numbers that look random, the same for the same seed.
#[derive(Clone, Copy)]
pub struct Dice {
    state: u64,
}

impl Dice {
    pub fn new(seed: u64) -> Dice
        ensures { result.state ≡ seed }
    {
        Dice { state: seed }
    }

    /// The next number (splitmix64).
    pub fn next(&mut self) -> u64
        ensures { self.new.state ≡ (self.old.state + 11400714819323198485) % 2 ^ 64 }
    {
        self.state = self.state.wrapping_add(0x9E37_79B9_7F4A_7C15);
        let a = (self.state ^ (self.state >> 30)).wrapping_mul(0xBF58_476D_1CE4_E5B9);
        let b = (a ^ (a >> 27)).wrapping_mul(0x94D0_49BB_1331_11EB);
        b ^ (b >> 31)
    }

    /// A number below `n`, or 0.
    pub fn below(&mut self, n: usize) -> usize
        ensures { 0 < n → result < n }
    {
        if n == 0 {
            return 0;
        }
        (self.next() % (n as u64)) as usize
    }

    /// One of these, if there are any.
    pub fn choose<'a, T>(&mut self, items: &'a [T]) -> Option<&'a T>
        ensures found { IsSome result ↔ (0 < length items.now) }
        ensures one_of_them { IfSome result (λ item. Contains items.now item.now) }
    {
        items.get(self.below(items.len()))
    }
}

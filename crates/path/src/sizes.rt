// The sizes of a block's parts, to be added up.

ghost use Rattle.std.specs.Prelude.{◌≡◌, ℕ, ◌*◌, ◌<◌, ◌≤◌, ◌^◌, get_or};
ghost use Rattle.path.specs.Steps.{sum_from};

// 65 of them, from the front of the words on.
#[derive(Clone, Copy)]
pub struct Sizes<'a> {
    pub words: &'a [u64; 128],
    pub ghost few: { (k : ℕ) → k ≤ 64 → get_or words.now k 0 ≤ 3 * 2 ^ 56 },
}

impl<'a> Sizes<'a> {
    // The sum of those from low to high.
    pub fn sum(self, low: u32, high: u32) -> u64
        requires { (low ≤ high) × (high ≤ 64) }
        ensures { result ≡ sum_from (λ k. get_or self.entry.words.now k 0) low high }
    {
        let mut s = 0;
        // by a counter of 32 bits: the chip counts a part of a slice by 64, 3 instructions more a band
        for k in low..high + 1 {
            s += self.words[k as usize];
        }
        s
    }
}

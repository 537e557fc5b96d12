// The transform of whole numbers. A value v is kept as the word v + 2^61. A block of n words holds the transform of n
// values: the real part k at k, k from 0 to n / 2, and the imaginary part k at n - k, k from 1 to n / 2 - 1.

ghost use Rattle.std.specs.Prelude.{◌≡◌, ℕ, ◌+◌, ◌-◌, ◌*◌, ◌<◌, ◌≤◌, ◌^◌, length, get_or};
ghost use Rattle.spectrum.specs.Words.{part, Inside, Turned, Butterfly, Winged, Straight, Combined};
ghost use Rattle.spectrum.specs.Words.{Small, Four, Fillable, FilledWith};

use super::turns::row;

// What a word has more than its value: 2^61.
pub const UNIT: u64 = 0x2000_0000_0000_0000;

const TWICE: u64 = 2 * UNIT;

const THRICE: u64 = 3 * UNIT;

// v w / 2^64, less than 3 below it: the product of the lower halves is left out.
#[tactic(auto, unfolding(crate::specs::Words::part))]
fn part(v: u64, w: u64) -> u64
    ensures { result ≡ part v w }
{
    let vh = v / 4294967296;
    let vl = v % 4294967296;
    let wh = w / 4294967296;
    let wl = w % 4294967296;
    vh * wh + vh * wl / 4294967296 + vl * wh / 4294967296
}

// The real and the imaginary part of a value, as words. No invariant says `Inside`: what `turned` makes is outside.
#[derive(Clone, Copy, Debug, PartialEq, Eq)]
struct Pair {
    re: u64,
    im: u64,
}

impl Pair {
    // The value turned back by j / 128 turns; its parts are 2^62 above their values.
    fn turned(self, j: u32) -> Pair
        requires { (1 ≤ j) × (j < 32) × Inside self.re × Inside self.im }
        ensures { Turned j self.re self.im result.re result.im }
    {
        let w = row(j);
        Pair {
            re: part(self.re, w.c) + part(self.im, w.s) + w.z,
            im: part(self.im, w.c) + w.y - part(self.re, w.s),
        }
    }
}

// The two values that a butterfly makes, k and 2 g - k of a block of 4 g words.
#[derive(Clone, Copy, Debug, PartialEq, Eq)]
struct Wings {
    near: Pair,
    far: Pair,
}

// The sum and the difference of E and the turned O.
fn butterfly(j: u32, e: Pair, o: Pair) -> Wings
    requires { (1 ≤ j) × (j < 32) × Inside e.re × Inside e.im × Inside o.re × Inside o.im }
    ensures { Butterfly j e.re e.im o.re o.im result.near.re result.far.re result.far.im result.near.im }
{
    let t = o.turned(j);
    Wings {
        near: Pair {
            re: e.re + t.re - TWICE,
            im: e.im + t.im - TWICE,
        },
        far: Pair {
            re: e.re + TWICE - t.re,
            im: t.im - e.im,
        },
    }
}

// A stage: two blocks of 2 g words, one after the other, become one of 4 g, by turns that are st / 128 apart.
#[derive(Clone, Copy, Debug, PartialEq, Eq)]
struct Stage {
    g: u32,
    st: u32,
    ghost quarter: { g * st ≡ 32 },
}

// The block is a slice, as long as each contract says, and no field: the recursion lends the halves of it in turn.
impl Stage {
    // One butterfly in the block.
    fn wing(self, r: &mut [u64], k: u32)
        requires { (1 ≤ k) × (k < self.g) × (length r.old ≡ 4 * self.g)
            × Inside (get_or r.old k 0) × Inside (get_or r.old (2 * self.g - k) 0)
            × Inside (get_or r.old (2 * self.g + k) 0) × Inside (get_or r.old (4 * self.g - k) 0) }
        ensures { Winged self.g self.st k (λ i. get_or r.old i 0) (λ i. get_or r.new i 0) }
    {
        let a = k as usize;
        let b = (2 * self.g - k) as usize;
        let e = (2 * self.g + k) as usize;
        let d = (4 * self.g - k) as usize;
        let even = Pair { re: r[a], im: r[b] };
        let odd = Pair { re: r[e], im: r[d] };
        let w = butterfly(k * self.st, even, odd);
        r[a] = w.near.re;
        r[b] = w.far.re;
        r[e] = w.far.im;
        r[d] = w.near.im;
    }

    // The words that take no turn.
    fn straight(self, r: &mut [u64])
        requires { (length r.old ≡ 4 * self.g) × ((i : ℕ) → i < 4 * self.g → Inside (get_or r.old i 0)) }
        ensures { Straight self.g (λ i. get_or r.old i 0) (λ i. get_or r.new i 0) }
    {
        let h = (2 * self.g) as usize;
        let q = (3 * self.g) as usize;
        let e = r[0];
        let o = r[h];
        let v = r[q];
        r[0] = e + o - UNIT;
        r[h] = e + UNIT - o;
        r[q] = TWICE - v;
    }

    // All of them.
    fn combine(self, r: &mut [u64])
        requires { (length r.old ≡ 4 * self.g) × ((i : ℕ) → i < 4 * self.g → Inside (get_or r.old i 0)) }
        ensures { Combined self.g self.st (λ i. get_or r.old i 0) (λ i. get_or r.old (2 * self.g + i) 0)
            (λ i. get_or r.new i 0) }
    {
        self.straight(r);
        for k in 1..self.g {
            self.wing(r, k);
        }
    }
}

// The block of the four words of y at off, off + 32, off + 64 and off + 96.
fn leaf(y: &[u64], off: usize, r: &mut [u64])
    requires { (off < 32) × (length y.now ≡ 128) × (length r.old ≡ 4) × ((i : ℕ) → i < 128 → Small (get_or y.now i 0)) }
    ensures { Four (get_or y.now off 0) (get_or y.now (off + 32) 0) (get_or y.now (off + 64) 0)
        (get_or y.now (off + 96) 0) (λ i. get_or r.new i 0) }
{
    let a = y[off];
    let b = y[off + 32];
    let c = y[off + 64];
    let d = y[off + 96];
    r[0] = a + b + c + d - THRICE;
    r[1] = a + UNIT - c;
    r[2] = a + c + UNIT - (b + d);
    r[3] = d + UNIT - b;
}

// The words of y at off, off + st, off + 2 st, .. become the block r.
pub fn fill(y: &[u64], off: usize, st: usize, r: &mut [u64])
    requires { Fillable y.now off st (length r.old) }
    ensures { FilledWith y.now off st r.new }
{
    let n = r.len();
    if n == 4 {
        leaf(y, off, r);
        return;
    }
    let h = n / 2;
    fill(y, off, 2 * st, &mut r[..h]);
    fill(y, off + st, 2 * st, &mut r[h..]);
    let stage = Stage {
        g: (h / 2) as u32,
        st: st as u32,
    };
    stage.combine(r);
}

// The transform of 128 words.
pub fn transform(y: &[u64; 128], r: &mut [u64; 128])
    requires { (i : ℕ) → i < 128 → Small (get_or y.now i 0) }
    ensures { FilledWith y.now 0 1 r.new }
{
    fill(y, 0, 1, r);
}

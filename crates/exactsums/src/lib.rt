// The dot product that is the float nearest to the exact sum: products of significands go into bins of whole numbers,
// four binary places apart, and one rounding ends it.

#![tactic(auto)]

ghost use Rattle.std.specs.Prelude.{◌≡◌, ◌+◌, ◌*◌, ◌≤◌, ◌<◌, ◌^◌, length, IfErr};
ghost use Rattle.std.specs.Result.{is_ok};
ghost use Rattle.units.specs.declared.refusal.Refusal.TheVariants.{OutOfRange};
ghost use Rattle.units.specs.Answers.{float_bits};
ghost use Rattle.units.specs.Refusals.{Gives};
ghost use Rattle.units.specs.Tests.{Tells};
ghost use Rattle.exactsums.specs.Nearest.{NearestDot, rounded};
ghost use Rattle.exactsums.specs.Work.{Sized, Accepted, Exponent, IsProduct, row_of, Added, Taken, number, Sticky, Digits};
ghost use Rattle.exactsums.specs.Work.{Small, Level, Judged, Subtracted, IsDigit, size_of, IsHead, IsClosed};

use units::Refusal;

// Is the float with the pattern b from 2^-40 to 2^40 in size?
fn sized(b: u32) -> bool
    ensures { Tells (Sized b) result }
{
    let size = b % 2147483648;
    (0x2b80_0000..=0x5380_0000).contains(&size)
}

// Are both?
fn both_sized(x: u32, y: u32) -> bool
    ensures { Tells (Sized x × Sized y) result }
{
    sized(x) && sized(y)
}

// Or is it 0?
fn accepted(b: u32) -> bool
    ensures { Accepted b result }
{
    b % 2147483648 == 0 || sized(b)
}

// A product, without its sign, in units of 2^-126: digits * 16^place.
#[derive(Clone, Copy, Debug, PartialEq, Eq)]
struct Product {
    digits: u64,
    place: usize,
}

// The product of two floats that are not 0, by their patterns: 24 digits each, and 2 to the power p.
fn times(x: u32, y: u32) -> Product
    requires { Exponent x × Exponent y }
    ensures { IsProduct x y result.digits result.place }
{
    let p = x / 8388608 % 256 + y / 8388608 % 256 - 174;
    let m = (x % 8388608 + 8388608) << (p % 4);
    Product {
        digits: u64::from(m) * u64::from(y % 8388608 + 8388608),
        place: (p / 4) as usize,
    }
}

// Two rows of 41 bins, the lowest place first: of the products above zero from bin 0 on, of those below from bin 41. One
// list, so that the row is a number that is added: of two lists one is chosen by a jump, and of random signs every
// second one is foretold wrongly (half as long again, of 4,096 elements on x86-64). Not `Copy`: 656 bytes are lent,
// never copied.
#[derive(Drop)]
struct Rows {
    bins: [u64; 82],
}

// Where the row starts that the product of the floats with the patterns x and y goes to.
fn row(x: u32, y: u32) -> usize
    ensures { result ≡ row_of x y }
{
    if x / 2147483648 == y / 2147483648 {
        0
    } else {
        41
    }
}

impl Rows {
    // Adds the product of the floats with the patterns x and y to its bin.
    fn add(&mut self, x: u32, y: u32)
        requires { Sized x × Sized y × Small 4096 self.old.bins }
        ensures { Added x y self.old.bins self.new.bins }
    {
        let t = times(x, y);
        let k = row(x, y) + t.place;
        self.bins[k] += t.digits;
    }

    // Adds the product of two floats, one of which may be 0; refused where one of them is.
    fn take(&mut self, x: u32, y: u32) -> Result<(), Refusal>
        requires { Small 4096 self.old.bins }
        ensures taken { Taken x y self.old.bins self.new.bins (is_ok result) }
        ensures refusal { IfErr result (λ refusal. refusal ≡ OutOfRange) }
    {
        if both_sized(x, y) {
            self.add(x, y);
            return Ok(());
        }
        if accepted(x) && accepted(y) {
            Ok(())
        } else {
            Err(Refusal::OutOfRange)
        }
    }

    // Adds all products: 4,096 of less than 2^51 fit. Ends at an element that is refused. By places and with no `zip`,
    // which asks for an `Option` of two references each time: the chip's archive is compiled from the module that is
    // laid out for 64-bit addresses, and there finds them at other places. A place has 32 bits, as the chip's words
    // have.
    fn gather(&mut self, a: &[f32], b: &[f32]) -> Result<(), Refusal>
        requires { (length a.now ≡ length b.now) × (length a.now ≤ 4096) × Level self.old.bins }
        ensures judged { Judged a.now b.now self.new.bins (is_ok result) }
        ensures refusal { IfErr result (λ refusal. refusal ≡ OutOfRange) }
    {
        for i in 0..a.len() as u32 {
            let k = i as usize;
            let x = fixed::bits_of(a[k]);
            let y = fixed::bits_of(b[k]);
            self.take(x, y)?;
        }
        Ok(())
    }

    // The first row less the second, as digits base 16: both are carried upward, and what is borrowed counts with the
    // second. By places of 32 bits, as in `gather`: three lists are gone through at once.
    fn subtract(&self, digits: &mut [u32; 41]) -> Left
        requires { Small 4097 self.now.bins × Digits digits.old }
        ensures { Subtracted self.now.bins digits.new result.over result.under }
    {
        let mut over = 0;
        let mut under = 0;
        for j in 0..41u32 {
            let k = j as usize;
            let x = self.bins[k] + over;
            let y = self.bins[41 + k] + under;
            let low = x % 16;
            digits[k] = ((low + 16 - y % 16) % 16) as u32;
            over = x / 16;
            under = (y + 15 - low) / 16;
        }
        Left { over, under }
    }

    // The pattern of the float nearest to the difference of the rows.
    fn difference(&self) -> u32
        requires { Small 4097 self.now.bins }
        ensures { result ≡ float_bits (rounded (number self.now.bins 0 41 * 2 ^ 172) (number self.now.bins 41 41 * 2 ^ 172)) }
    {
        let mut digits = [1u32; 41];
        let d = self.subtract(&mut digits);
        if d.under <= d.over {
            let above = Size {
                top: d.over - d.under,
                digits: &digits,
                below: false,
            };
            return above.rounded();
        }
        let below = Size {
            top: d.under - d.over - 1,
            digits: &digits,
            below: true,
        };
        2147483648 + below.rounded()
    }
}

// What is left of two rows above their digits.
#[derive(Clone, Copy, Debug, PartialEq, Eq)]
struct Left {
    over: u64,
    under: u64,
}

// A digit, or what it lacks of 15. `below`, here and in what follows, is the sign of a number, which is known at run
// time: a type for either sign would put two copies of `rounded` into the archive.
fn digit(d: u32, below: bool) -> u64
    requires { d < 16 }
    ensures { IsDigit d below result }
{
    u64::from(if below { 15 - d } else { d })
}

// The first 58 binary digits or more of a number, those above the place i.
#[derive(Clone, Copy, Debug, PartialEq, Eq)]
struct First {
    h: u64,
    i: u32,
}

// The head as it is; below zero with the one that it was less by, unless something is left below it.
fn closed(h: u64, s: u64, below: bool) -> u64
    requires { (h < 2 ^ 61) × (s ≤ 1) }
    ensures { IsClosed h s below result }
{
    if below { h + 1 - s } else { h }
}

// How far a number is from 0: top * 16^41 + digits; below zero (top + 1) * 16^41 - digits. Lent and never passed
// by value, hence not `Copy`: with a reference in it, it lies otherwise on the chip than in the module (see `gather`).
#[derive(Drop)]
struct Size<'a> {
    top: u64,
    digits: &'a [u32; 41],
    below: bool,
    ghost each: { Digits digits.now },
    ghost few: { top ≤ 2 ^ 60 },
}

impl<'a> Size<'a> {
    // 0 where the lowest i digits are all 0, and else 1.
    fn rest(&self, i: u32) -> u64
        requires { i ≤ 41 }
        ensures { Sticky (number self.now.digits.now 0 i) result }
    {
        // A sum by places of 32 bits and one test, and no `any`: on the chip that finds no references, as `gather` says.
        let mut sum = 0;
        for j in 0..i {
            sum += self.digits[j as usize];
        }
        u64::from(sum != 0)
    }

    // Its head; below zero, less one in its last place.
    fn head(&self) -> First
        ensures { IsHead self.now.top self.now.digits.now self.now.below result.h result.i }
    {
        let mut h = self.top;
        let mut i: u32 = 41;
        // A `while`: it goes down, ends early, and where it ended is wanted, which a `for` would keep in a second place.
        while 0 < i && h < 144115188075855872 {
            i -= 1;
            h = 16 * h + digit(self.digits[i as usize], self.below);
        }
        First { h, i }
    }

    // The pattern of the float nearest to it: its head as a whole number, one more digit that says whether any of the
    // rest is set, and one rounding.
    fn rounded(&self) -> u32
        ensures { result ≡ float_bits (rounded (size_of self.now.top self.now.digits.now self.now.below * 2 ^ 172) 0) }
    {
        let t = self.head();
        let i = t.i;
        let s = self.rest(i);
        fixed::even_bits(2 * closed(t.h, s, self.below) + s, 62 + 4 * i)
    }
}

// The float nearest to the sum of the products a_i b_i; refused where lengths or an element are. Each bin starts at 1:
// only the difference of the rows counts, and an array of zeros would be cleared by a call out of the archive.
pub fn dot_nearest(a: &[f32], b: &[f32]) -> Result<u32, Refusal>
    ensures { Gives float_bits (NearestDot a.now b.now) result }
{
    if a.len() != b.len() || 4096 < a.len() {
        return Err(Refusal::BadLength);
    }
    let mut rows = Rows { bins: [1; 82] };
    rows.gather(a, b)?;
    Ok(rows.difference())
}

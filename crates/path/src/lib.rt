// From a frame of samples to the currents of the electrodes: window, transform, sizes, bands and the loudness map.
// Whole numbers inside, and one rounding to a float before the map.

#![tactic(auto)]

mod bands;
mod frame;
mod moduli;
mod sizes;

ghost use Rattle.std.specs.Prelude.{◌≡◌, List, ℕ, length};
ghost use Rattle.units.specs.Answers.{Ends};
ghost use Rattle.units.specs.Refusals.{code_in};
ghost use Rattle.path.specs.Path.{Currents, as_they_are};
ghost use Rattle.path.specs.Ready.{Heard};

use bands::Bands;
use frame::Frame;
use sizes::Sizes;
use units::Refusal;

// A current for each band. Refused, with nothing written: a length, then a band, then a sample.
pub fn currents(
    top: u32,
    x: &[f32],
    w: &[f32],
    bands: &[u32],
    out: &mut [u32],
) -> Result<(), Refusal>
    ensures { Ends as_they_are (Currents top x.now w.now bands.now (length out.old)) (code_in result) out.old out.new }
{
    let n = out.len();
    let (bands, rest) = bands.as_chunks::<6>();
    if x.len() != 128
        || w.len() != 128
        || n == 0
        || 65 < n
        || bands.len() != n
        || !rest.is_empty()
    {
        return Err(Refusal::BadLength);
    }
    let bands = Bands::accept(top, bands)?;
    if !Frame::accepts(x, w) {
        return Err(Refusal::OutOfRange);
    }
    hear(&Frame { x, w }, &bands, out);
    Ok(())
}

// The currents of what is accepted.
fn hear(frame: &Frame, bands: &Bands, out: &mut [u32])
    requires { length bands.now.words.now ≡ length out.old }
    ensures { Heard frame.now.x.now frame.now.w.now bands.now.words.now (length out.old) out.new }
{
    // Two lists of words, written before they are read. They are filled with a number that is known at run time, since
    // zeros would be a call of memset, which is not in the archive.
    let any = u64::from(bands.top);
    let mut y = [any; 128];
    frame.products(&mut y);
    let mut r = [any; 128];
    spectrum::words::transform(&y, &mut r);
    moduli::moduli(&r, &mut y);
    bands.steps(Sizes { words: &y }, out);
}

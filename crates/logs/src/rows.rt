// The polynomials of the logarithm: a row of coefficients for each sixteenth of an octave. tools/log2_rows.py finds
// them. What is proved of them is one test over all rows, in proofs/Method.antt.

ghost use Rattle.std.specs.Prelude.{◌≡◌, ◌^◌, ◌<◌, ◌≤◌};
ghost use Rattle.fixed.specs.Horner.{horner};
ghost use Rattle.logs.specs.Rows.{row, HasRoom};

// The coefficients of all sixteenths, lowest first, in units of 2 ^ -31.
static ROWS: [[u32; 5]; 16] = [
    [0xb31fb7d9, 0x55252d2a, 0x35b32377, 0x25cd7caf, 0x20838749],
    [0xae00d1d2, 0x4eda3d47, 0x2f30fa24, 0x1f7c7c85, 0x196ede96],
    [0xa9407932, 0x494dd50f, 0x29bf897d, 0x1a79b1d0, 0x14295793],
    [0xa4d3c260, 0x44617e4c, 0x25278094, 0x1673eec6, 0x102cb0ca],
    [0xa0b176a2, 0x3ffccd4a, 0x213ec3c3, 0x13306e2b, 0x0d1dcc02],
    [0x9cd1bf57, 0x3c0bf776, 0x1de4d5af, 0x1083f580, 0x0abd93f1],
    [0x992de49b, 0x387eca26, 0x1b0055f8, 0x0e4e42f1, 0x08df91e1],
    [0x6a3fe5c7, 0x21b8831c, 0x0ea1daf1, 0x0731a912, 0x04290e35],
    [0x68328f95, 0x1ff90568, 0x0d5d364c, 0x06524b79, 0x03804613],
    [0x663ffa13, 0x1e5f9eb2, 0x0c3f4f1d, 0x05950105, 0x02f75aa5],
    [0x6465e884, 0x1ce7d7ab, 0x0b425376, 0x04f39715, 0x02876112],
    [0x62a2602c, 0x1b8de1e2, 0x0a617c87, 0x04692736, 0x022b1ddd],
    [0x60f39eba, 0x1a4e79f7, 0x0998d779, 0x03f1c90e, 0x01de9121],
    [0x5f58125c, 0x1926cfe7, 0x08e51b05, 0x038a587d, 0x019ea48e],
    [0x5dce5328, 0x181473f9, 0x084386a5, 0x03304a51, 0x0168f092],
    [0x5c551d95, 0x17154758, 0x07b1c8e0, 0x02e18b82, 0x013b91ad],
];

// The polynomial of one sixteenth, in the distance from its upper end.
#[derive(Clone, Copy)]
pub struct Row {
    pub coefficients: [u32; 5],
    // each leaves room in a word for what the next power adds
    ghost room: { HasRoom coefficients },
}

impl Row {
    // That of the sixteenth i.
    pub fn of_sixteenth(i: u32) -> Row
        requires { i < 16 }
        ensures { result.coefficients ≡ row i }
    {
        Row {
            coefficients: ROWS[i as usize],
        }
    }

    // Its value at v, by Horner's rule: each product of two words is cut off to its upper half, which is below v. The
    // steps are written out: of a `fold` over the reversed row the check doesn't see that the sum fits at each turn.
    // Inlined always, since `fixed_bits` is.
    #[inline(always)]
    pub fn at(self, v: u32) -> u32
        requires { v ≤ 2 ^ 28 }
        ensures { result ≡ horner 4294967296 self.coefficients v }
    {
        let [a, b, c, d, e] = self.coefficients;
        let p = d + fixed::upper_product(v, e);
        let p = c + fixed::upper_product(v, p);
        let p = b + fixed::upper_product(v, p);
        a + fixed::upper_product(v, p)
    }
}

// First guesses at a root and a reciprocal root: a row of coefficients by the first digits of m and the parity of e,
// and a polynomial of degree 3 in the other digits, in words of 32 bits. Nothing is promised of a guess but its size,
// so sums may wrap; the rows come from tools/root_tables.py. m and e come as two numbers and not as a float's Parts: a
// whole number's root is guessed at by its first digits and their parity, which are no float's.

ghost use Rattle.std.specs.Prelude.{◌^◌, ◌<◌};

// For each sixteenth of two octaves: the value at its upper end, and the coefficients of the distance from there.
type Rows = [[u32; 4]; 32];

static ROOTS: Rows = [
    [0x83f0_7b43, 0x03e1_6e6a, 0x000e_9639, 0x0000_7692],
    [0x87c3_b672, 0x03c5_70db, 0x000d_63fd, 0x0000_6659],
    [0x8b7c_19ac, 0x03ab_b0c2, 0x000c_5969, 0x0000_5911],
    [0x8f1b_bce4, 0x0393_e57e, 0x000b_6fa6, 0x0000_4e15],
    [0x92a4_75cf, 0x037d_d2b1, 0x000a_a154, 0x0000_44e7],
    [0x9617_e2d0, 0x0369_45b4, 0x0009_ea23, 0x0000_3d2b],
    [0x9977_73b0, 0x0356_13ae, 0x0009_469b, 0x0000_3698],
    [0x9cc4_70a4, 0x0344_1814, 0x0008_b3e8, 0x0000_30f8],
    [0xa000_0004, 0x0333_338d, 0x0008_2fb3, 0x0000_2c20],
    [0xa32b_2afc, 0x0323_4afa, 0x0007_b812, 0x0000_27ed],
    [0xa646_e174, 0x0314_46cf, 0x0007_4b67, 0x0000_2443],
    [0xa953_fd51, 0x0306_1278, 0x0006_e856, 0x0000_210e],
    [0xac53_4528, 0x02f8_9be2, 0x0006_8dba, 0x0000_1e3b],
    [0xaf45_6e93, 0x02eb_d317, 0x0006_3a99, 0x0000_1bbc],
    [0xb22b_202d, 0x02df_a9f9, 0x0005_ee1d, 0x0000_1984],
    [0xb504_f336, 0x02d4_13f2, 0x0005_a78d, 0x0000_178a],
    [0xba97_2881, 0x057c_ec8d, 0x0014_a0fd, 0x0000_a7af],
    [0xc000_0010, 0x0555_56ec, 0x0012_efe9, 0x0000_90bd],
    [0xc542_e134, 0x0530_ec49, 0x0011_76e8, 0x0000_7df6],
    [0xca62_c1e2, 0x050f_45f0, 0x0010_2c52, 0x0000_6e6d],
    [0xcf62_3a5a, 0x04f0_0e7f, 0x000f_0889, 0x0000_6172],
    [0xd443_94a7, 0x04d2_fe55, 0x000e_0578, 0x0000_5681],
    [0xd908_d8ea, 0x04b7_d8da, 0x000d_1e34, 0x0000_4d35],
    [0xddb3_d748, 0x049e_6a63, 0x000c_4ebb, 0x0000_4541],
    [0xe246_3006, 0x0486_8692, 0x000b_93c5, 0x0000_3e67],
    [0xe6c1_5a27, 0x0470_0716, 0x000a_ea96, 0x0000_3876],
    [0xeb26_a8f4, 0x045a_ca9d, 0x000a_50e7, 0x0000_3349],
    [0xef77_508f, 0x0446_b40e, 0x0009_c4ce, 0x0000_2ebf],
    [0xf3b4_69d0, 0x0433_a9d7, 0x0009_44aa, 0x0000_2ac1],
    [0xf7de_f58d, 0x0421_956b, 0x0008_cf1a, 0x0000_2739],
    [0xfbf7_df5f, 0x0410_62cd, 0x0008_62ef, 0x0000_2416],
    [0xffff_ffff, 0x0400_0035, 0x0007_ff25, 0x0000_214a],
];

static RECIPROCALS: Rows = [
    [0xf85b_4192, 0x074e_0d07, 0x0052_3281, 0x0004_7e24],
    [0xf15b_ee65, 0x06b4_6328, 0x0047_4825, 0x0003_a800],
    [0xeaeb_f4dc, 0x062e_ac8c, 0x003e_4a91, 0x0003_0283],
    [0xe4f9_2dd8, 0x05b9_76c2, 0x0036_cf82, 0x0002_80d1],
    [0xdf74_8273, 0x0552_0a26, 0x0030_8768, 0x0002_19e4],
    [0xda51_49a9, 0x04f6_3bba, 0x002b_35d2, 0x0001_c748],
    [0xd584_cd47, 0x04a4_4be2, 0x0026_ac3d, 0x0001_844b],
    [0xd105_eb5b, 0x045a_ce0d, 0x0022_c66f, 0x0001_4d76],
    [0xcccc_ccae, 0x0418_969f, 0x001f_67e0, 0x0001_2033],
    [0xc8d2_aaf1, 0x03dc_ad51, 0x001c_79e7, 0x0000_fa89],
    [0xc511_a2d0, 0x03a6_42e0, 0x0019_ea4b, 0x0000_daf9],
    [0xc184_8f23, 0x0374_a903, 0x0017_aa55, 0x0000_c058],
    [0xbe26_eb22, 0x0347_4c49, 0x0015_adfd, 0x0000_a9bd],
    [0xbaf4_ba28, 0x031d_af25, 0x0013_eb67, 0x0000_9670],
    [0xb7ea_73be, 0x02f7_6626, 0x0012_5a67, 0x0000_85de],
    [0xb504_f32a, 0x02d4_14d3, 0x0010_f430, 0x0000_7792],
    [0xaf9d_52ba, 0x052a_535f, 0x003a_1f4d, 0x0003_2d45],
    [0xaaaa_aa49, 0x04bd_ab4b, 0x0032_6763, 0x0002_95da],
    [0xa61d_5efd, 0x045f_1e99, 0x002c_0bee, 0x0002_20d5],
    [0xa1e8_9ad5, 0x040c_3d4d, 0x0026_c1c7, 0x0001_c520],
    [0x9e01_b257, 0x03c3_1b83, 0x0022_50ac, 0x0001_7c59],
    [0x9a5f_b1c1, 0x0382_30ca, 0x001e_8de3, 0x0001_41ef],
    [0x96fb_060f, 0x0348_40a1, 0x001b_5886, 0x0001_1291],
    [0x93cd_3a12, 0x0314_493e, 0x0018_96f8, 0x0000_ebcb],
    [0x90d0_c27a, 0x02e5_76c4, 0x0016_350e, 0x0000_cbc9],
    [0x8e00_d4f0, 0x02bb_19a8, 0x0014_22bd, 0x0000_b128],
    [0x8b59_479c, 0x0294_9f58, 0x0012_5328, 0x0000_9ad6],
    [0x88d6_771e, 0x0271_8c9a, 0x0010_bbe3, 0x0000_8802],
    [0x8675_3180, 0x0251_792a, 0x000f_546f, 0x0000_7806],
    [0x8432_a50d, 0x0234_0c43, 0x000e_15d2, 0x0000_6a60],
    [0x820c_5238, 0x0218_f9e8, 0x000c_fa46, 0x0000_5ea8],
    [0x7fff_fff9, 0x0200_00ba, 0x000b_fcf9, 0x0000_548d],
];

// A product of two words.
fn product(a: u32, b: u32) -> u64 {
    u64::from(a) * u64::from(b)
}

// The row of m and e: the octave by the parity of e, the sixteenth by the digits of m after the first.
fn row(m: u32, e: u32) -> usize
    ensures { result < 32 }
{
    (m / 524288 % 16 + e % 2 * 16) as usize
}

// A guess by the rows: `correct` takes the distance from the value at the sixteenth's upper end away, or adds it.
fn guess<F: Fn(u32, u32) -> u32>(rows: &Rows, m: u32, e: u32, correct: F) -> u32
    requires { F.IsAlwaysCallable correct }
    ensures { result < 2 ^ 26 }
{
    let [a, b, c, d] = rows[row(m, e)];
    let v = 0xffff_ffff - (m << 13);
    let p = c.wrapping_add(fixed::upper_product(d, v));
    let distance = (product(b, v).wrapping_add(product(p, fixed::upper_product(v, v)))
        / 4294967296) as u32;
    (correct(a, distance) / 128 + 1) / 2
}

// A guess at the root of m * 2 ^ (23 + e % 2).
pub fn root(m: u32, e: u32) -> u32
    ensures { result < 2 ^ 26 }
{
    guess(&ROOTS, m, e, |a, distance| a.wrapping_sub(distance))
}

// A guess at the root of 2 ^ (70 + (401 - e) % 2) / m.
pub fn reciprocal(m: u32, e: u32) -> u32
    ensures { result < 2 ^ 26 }
{
    guess(&RECIPROCALS, m, e, |a, distance| a.wrapping_add(distance))
}

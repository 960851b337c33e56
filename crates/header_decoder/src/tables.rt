// The tables of the code; header_code's Decoder.antt has the same for the definitions, and its proofs hold them to the code.

// Tables of sixteen rows; a row is sixteen symbols in one number, the last four bits first.

// a times b.
pub const PRODUCTS: [u64; 16] = [
    0x0000_0000_0000_0000,
    0xFEDC_BA98_7654_3210,
    0xDF9B_5713_ECA8_6420,
    0x2147_ED8B_9AFC_5630,
    0x9D15_AE26_FB73_C840,
    0x63C9_14BE_8D27_FA50,
    0x428E_F935_17DB_AC60,
    0xBC52_43AD_618F_9E70,
    0x192A_7F4C_D5E6_B380,
    0xE7F6_C5D4_A3B2_8190,
    0xC6B1_285F_394E_D7A0,
    0x386D_92C7_4F1A_E5B0,
    0x843F_D16A_2E95_7BC0,
    0x7AE3_6BF2_58C1_49D0,
    0x5BA4_8679_C23D_1FE0,
    0xA578_3CE1_B469_2DF0,
];

// a divided by b, and 0 where b is 0.
pub const QUOTIENTS: [u64; 16] = [
    0x0000_0000_0000_0000,
    0x834A_5C2F_67BD_E910,
    0x3687_AB4D_CE59_F120,
    0xB5CD_F762_A9E4_1830,
    0x6C3E_7589_BFA1_D240,
    0xEF74_29A6_D81C_3B50,
    0x5AB9_DEC4_71F8_2360,
    0xD9F3_82EB_1645_CA70,
    0xCB6F_EA31_5D72_9480,
    0x4825_B61E_3ACF_7D90,
    0xFDE8_417C_932B_65A0,
    0x7EA2_1D53_F496_8CB0,
    0xA751_9FB8_E2D3_46C0,
    0x241B_C397_856E_AFD0,
    0x91D6_34F5_2C8A_B7E0,
    0x129C_68DA_4B37_5EF0,
];

// An x with x^2 + t x + u = 0; 0 where t is 0, or there is none.
pub const ROOTS: [u64; 16] = [
    0x0000_0000_0000_0000,
    0x0000_0000_42E8_CA60,
    0x8009_4005_D00C_1000,
    0x4050_0D0C_8090_0100,
    0x9002_0830_0A10_B000,
    0x020A_030B_0901_0800,
    0x3900_0082_1B00_00A0,
    0x00B3_A200_9100_0080,
    0x0305_7010_2040_0600,
    0x0037_0051_0026_0040,
    0x0640_1003_0570_2000,
    0x0000_3146_0000_5720,
    0x2010_5060_0407_0300,
    0x6521_0000_0000_7430,
    0x1400_2700_0063_0050,
    0x0170_0420_3005_6000,
];

// x to the power -6, in one row.
pub const SIXTHS: u64 = 0x8AFA_8CCF_11F8_CA10;

// Where the locator x = a^n has its place in a number: 16^n. The places 10 to 14 are the virtual fill.
pub const PLACES: [u64; 16] = [
    0x0,
    0x1,
    0x10,
    0x10000,
    0x100,
    0x100000000,
    0x100000,
    0x10000000000,
    0x1000,
    0x100000000000000,
    0x1000000000,
    0x10000000,
    0x1000000,
    0x10000000000000,
    0x100000000000,
    0x1000000000000,
];

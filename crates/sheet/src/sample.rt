// A question of four tables, with tests on the films and on the cartridges.

// The table whose test the sheet corrects.
pub const CORRECTED: u8 = 0;

// Working rows of four tables with two tests: 2 x 2 x 3 x 3.
pub const ROWS: usize = 36;

// A plan written by hand: each table tested as it comes, and joined by its number.
pub const BY_NUMBER: [u8; 18] = [
    0x10, 0, 0x11, 0, 0x10, 1, 0x12, 0, 0x10, 2, 0x11, 2, 0x12, 0, 0x10, 3, 0x12, 0,
];

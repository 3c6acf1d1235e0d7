// The numbers 2^a 3^b.
ghost use Rattle.std.specs.Prelude.{◌≡◌, ◌*◌, ◌^◌, ◌≤◌, true};
ghost use Rattle.sets.specs.Products.{all_right};
ghost use Rattle.std.specs.Option.{SomeIff};

// 2^a 3^b stands at 11 a + b, for a and b up to 10.
const PRODUCTS: [u32; 121] = [
    1, 3, 9, 27, 81, 243, 729, 2187, 6561, 19683, 59049, 2, 6, 18, 54, 162, 486, 1458, 4374, 13122,
    39366, 118098, 4, 12, 36, 108, 324, 972, 2916, 8748, 26244, 78732, 236196, 8, 24, 72, 216, 648,
    1944, 5832, 17496, 52488, 157464, 472392, 16, 48, 144, 432, 1296, 3888, 11664, 34992, 104976,
    314928, 944784, 32, 96, 288, 864, 2592, 7776, 23328, 69984, 209952, 629856, 1889568, 64, 192,
    576, 1728, 5184, 15552, 46656, 139968, 419904, 1259712, 3779136, 128, 384, 1152, 3456, 10368,
    31104, 93312, 279936, 839808, 2519424, 7558272, 256, 768, 2304, 6912, 20736, 62208, 186624,
    559872, 1679616, 5038848, 15116544, 512, 1536, 4608, 13824, 41472, 124416, 373248, 1119744,
    3359232, 10077696, 30233088, 1024, 3072, 9216, 27648, 82944, 248832, 746496, 2239488, 6718464,
    20155392, 60466176,
];

// 2^a 3^b, where neither a nor b passes 10.
pub fn product(a: usize, b: usize) -> Option<u32>
    ensures { SomeIff result ((a ≤ 10) × (b ≤ 10)) (2 ^ a * 3 ^ b) }
{
    if a > 10 || b > 10 {
        return None;
    }
    Some(power(a, b))
}

// The same where neither does.
pub(crate) fn power(a: usize, b: usize) -> u32
    requires { (a ≤ 10) × (b ≤ 10) }
    ensures { result ≡ 2 ^ a * 3 ^ b }
{
    product_in(&PRODUCTS, a, b)
}

// Reads 2^a 3^b from a table of them.
fn product_in(products: &[u32; 121], a: usize, b: usize) -> u32
    requires right { all_right products.now 121 ≡ true }
    requires small { (a ≤ 10) × (b ≤ 10) }
    ensures { result ≡ 2 ^ a * 3 ^ b }
{
    products[a * 11 + b]
}

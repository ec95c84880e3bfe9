// Tables of the product, with an entry for each number that half a byte can be. Each is a `static`: a constant's elements would be stored anew at every
// look.
ghost use Rattle.std.specs.Prelude.{◌≡◌, ◌*◌, ◌<◌};
ghost use Rattle.field.specs.Words.{multiples, masks};

// x^0 to x^7 times n, a byte each.
static LOW_MULTIPLES: [u64; 16] = [
    0x0000000000000000,
    0x8040201008040201,
    0x1d80402010080402,
    0x9dc06030180c0603,
    0x3a1d804020100804,
    0xba5da05028140a05,
    0x279dc06030180c06,
    0xa7dde070381c0e07,
    0x743a1d8040201008,
    0xf47a3d9048241209,
    0x69ba5da05028140a,
    0xe9fa7db0582c160b,
    0x4e279dc06030180c,
    0xce67bdd068341a0d,
    0x53a7dde070381c0e,
    0xd3e7fdf0783c1e0f,
];

// The same for 16 n.
static HIGH_MULTIPLES: [u64; 16] = [
    0x0000000000000000,
    0xe8743a1d80402010,
    0xcde8743a1d804020,
    0x259c4e279dc06030,
    0x87cde8743a1d8040,
    0x6fb9d269ba5da050,
    0x4a259c4e279dc060,
    0xa251a653a7dde070,
    0x1387cde8743a1d80,
    0xfbf3f7f5f47a3d90,
    0xde6fb9d269ba5da0,
    0x361b83cfe9fa7db0,
    0x944a259c4e279dc0,
    0x7c3e1f81ce67bdd0,
    0x59a251a653a7dde0,
    0xb1d66bbbd3e7fdf0,
];

// Byte t is 255 where bit t of n is one.
static MASKS: [u32; 16] = [
    0x00000000, 0x000000ff, 0x0000ff00, 0x0000ffff, 0x00ff0000, 0x00ff00ff, 0x00ffff00, 0x00ffffff,
    0xff000000, 0xff0000ff, 0xff00ff00, 0xff00ffff, 0xffff0000, 0xffff00ff, 0xffffff00, 0xffffffff,
];

// That n is below 16 stands in three contracts: a byte is parted in two halves where they are looked up, and a type for a half would be made and opened in the
// same expression.
pub(crate) fn low_multiples(n: u8) -> u64
    requires { n < 16 }
    ensures { result ≡ multiples n }
{
    LOW_MULTIPLES[n as usize]
}

pub(crate) fn high_multiples(n: u8) -> u64
    requires { n < 16 }
    ensures { result ≡ multiples (n * 16) }
{
    HIGH_MULTIPLES[n as usize]
}

pub(crate) fn mask(n: u8) -> u32
    requires { n < 16 }
    ensures { result ≡ masks 4 n }
{
    MASKS[n as usize]
}

// Regions as numbers of 64 bits, heap values as rows of 1,024 bytes: what a heap gives for the
// field f of the reference x stands at 16 x + f.
#![tactic(auto)]

ghost use Rattle.std.specs.Prelude.{◌≡◌, ◌<◌, length};
ghost use Rattle.std.specs.Int.Bits.{bit_and, bit_or, bit_xor};
ghost use Rattle.tableau.specs.Basics.{same_bytes};
ghost use Rattle.mentions.specs.Mentions.{bit_at};
ghost use Rattle.regions.specs.Masks.{row_length, one_bit, reached_below, image_mask};

// The bytes of a row.
pub const ROW: usize = 1024;

// A heap that was read: the references in `all`, the classes of references and fields, for each
// field the references that may have it, for each class the classes above it.
#[derive(Clone, Copy)]
pub struct HeapTables {
    pub all: u64,
    pub typ: [u8; 64],
    pub dty: [u8; 16],
    pub having: [u64; 16],
    pub under: [u64; 16],
}

// Is x in the region?
pub fn has(region: u64, x: u64) -> bool
    requires { x < 64 }
    ensures { result ≡ bit_at region x }
{
    (region >> x) % 2 == 1
}

// What a heap value gives for the field of some members.
fn reached(row: &[u8], members: u64, field: usize) -> u64
    requires { (length row.now ≡ row_length) × (field < 16) }
    ensures { result ≡ reached_below row.now members field 64 }
{
    let mut out: u64 = 0;
    for x in 0..64 {
        if has(members, x as u64) {
            out |= 1 << (row[x * 16 + field] % 64);
        }
    }
    out
}

// `img`: what a heap value gives for the field of those members that have it, as far as it is
// allocated.
pub fn image(row: &[u8], region: u64, having: u64, field: usize, all: u64) -> u64
    requires { (length row.now ≡ row_length) × (field < 16) }
    ensures { result ≡ image_mask row.now region having field all }
{
    all & reached(row, region & having, field)
}

// `sin`: the reference, if it is allocated.
pub fn single(x: u64, all: u64) -> u64
    ensures { result ≡ bit_and all (one_bit x) }
{
    all & 1 << (x % 64)
}

// `cup`, `cap` and `dif`
pub fn union(a: u64, b: u64) -> u64
    ensures { result ≡ bit_or a b }
{
    a | b
}

pub fn intersection(a: u64, b: u64) -> u64
    ensures { result ≡ bit_and a b }
{
    a & b
}

pub fn difference(a: u64, b: u64) -> u64
    ensures { result ≡ bit_xor a (bit_and a b) }
{
    a ^ (a & b)
}

// Are two rows equal?
pub fn same_rows(g: &[u8], h: &[u8]) -> bool
    ensures { result ≡ same_bytes g.now h.now }
{
    g == h
}

// Scans over the keys of all lines for those that are base + p * 2 ^ shift, with one subtraction
// and two shifts for a key.
ghost use Rattle.std.specs.Prelude.{length};
ghost use Rattle.heap_tables.specs.Scans.{Scannable, IsPlace, IsMembers, IsScattered};

use facts::StoredFact;

// The p below the limit for which the key is base + p * 2 ^ shift.
fn place_of(key: u64, base: u64, shift: u64, limit: usize) -> Option<usize>
    requires { Scannable base shift limit }
    ensures { IsPlace key base shift limit result }
{
    // below the base, the difference is too large to be one of them
    let d = key.wrapping_sub(base);
    let p = (d >> shift) as usize;
    if p < limit && (p as u64) << shift == d {
        Some(p)
    } else {
        None
    }
}

// Bit x is set where some key is base + x * 2 ^ shift.
pub fn members(facts: &[StoredFact], base: u64, shift: u64) -> u64
    requires { Scannable base shift 64 }
    ensures { IsMembers facts.now base shift result }
{
    let mut out = 0;
    for fact in facts {
        if let Some(x) = place_of(fact.key, base, shift, 64) {
            out |= 1 << x;
        }
    }
    out
}

// Byte p becomes the value of the first line whose key is base + p * 2 ^ shift, 0 where there is
// none.
pub fn scatter(facts: &[StoredFact], base: u64, shift: u64, out: &mut [u8])
    requires { Scannable base shift (length out.old) }
    ensures { IsScattered facts.now base shift out.old out.new }
{
    out.fill(0);
    // from the last line to the first, so that what stays is of the first that has the key
    for fact in facts.iter().rev() {
        if let Some(p) = place_of(fact.key, base, shift, out.len()) {
            out[p] = fact.value;
        }
    }
}

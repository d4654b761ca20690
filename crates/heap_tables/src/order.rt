// Is a relation of classes an order, by its rows of bits?
ghost use Rattle.std.specs.Prelude.{◌≡◌, ◌<◌, ◌≤◌};
ghost use Rattle.heap_tables.specs.Order.{keeps_order, keeps_order_from, is_order_below};

use regions::{HeapTables, difference, has};

// Where c is above b: is all above c above b, and b not above c unless they are one?
fn keeps_order(under: &[u64; 16], classes: usize, b: usize, c: usize) -> bool
    requires { (classes ≤ 16) × (b < 16) × (c < 16) }
    ensures { result ≡ keeps_order under.now classes b c }
{
    if !has(under[b], c as u64) {
        return true;
    }
    // each above the other: right only where they are one class, and then nothing more is asked
    if has(under[c], b as u64) {
        return b == c;
    }
    let low = (1 << classes) - 1;
    difference(under[c], under[b]) & low == 0
}

fn keeps_order_from(under: &[u64; 16], classes: usize, b: usize) -> bool
    requires { (classes ≤ 16) × (b < 16) }
    ensures { result ≡ keeps_order_from under.now classes b }
{
    (0..classes).all(|c| keeps_order(under, classes, b, c))
}

// Check 20: is it transitive and antisymmetric on the classes?
pub fn is_order(tables: &HeapTables, classes: usize) -> bool
    requires { classes ≤ 16 }
    ensures { result ≡ is_order_below tables.now.under classes }
{
    (0..classes).all(|b| keeps_order_from(&tables.under, classes, b))
}

// The tables of a heap.
ghost use Rattle.std.specs.Prelude.{◌<◌};
ghost use Rattle.heap_tables.specs.Tables.{Above, IsUnder, Having, IsHaving, TablesRead};

use crate::scans::{members, scatter};
use evaluation::FactWord;
use facts::StoredFact;
use facts::keys::word_key;
use regions::{HeapTables, has};

// The classes above a class, itself among them.
fn above(facts: &[StoredFact], class: usize) -> u64
    requires { class < 16 }
    ensures { Above facts.now class result }
{
    members(facts, word_key(FactWord::Sub, class, 0, 0), 8) | 1 << class
}

fn read_under(facts: &[StoredFact]) -> [u64; 16]
    ensures { IsUnder facts.now result }
{
    std::array::from_fn(|class| above(facts, class))
}

// The references whose class is under a field's class.
fn having(typ: &[u8; 64], under: &[u64; 16], class: u8) -> u64
    ensures { Having typ.now under.now class result }
{
    let mut out = 0;
    for (x, c) in typ.iter().enumerate() {
        if has(under[usize::from(*c % 16)], u64::from(class % 64)) {
            out |= 1 << x;
        }
    }
    out
}

fn read_having(typ: &[u8; 64], dty: &[u8; 16], under: &[u64; 16]) -> [u64; 16]
    ensures { IsHaving typ.now dty.now under.now result }
{
    std::array::from_fn(|field| having(typ, under, dty[field]))
}

// The tables of the heap that the lines say.
pub fn read_tables(facts: &[StoredFact]) -> HeapTables
    ensures { TablesRead facts.now result }
{
    let all = members(facts, word_key(FactWord::Alc, 0, 0, 0), 14);
    let mut typ = [0; 64];
    scatter(facts, word_key(FactWord::Typ, 0, 0, 0), 14, &mut typ);
    let mut dty = [0; 16];
    scatter(facts, word_key(FactWord::Dty, 0, 0, 0), 14, &mut dty);
    let under = read_under(facts);
    let having = read_having(&typ, &dty, &under);
    HeapTables {
        all,
        typ,
        dty,
        having,
        under,
    }
}

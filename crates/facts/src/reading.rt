// The lines of a heap file, in one loop: each is read once.
ghost use Rattle.std.specs.Prelude.{◌≤◌, length};
ghost use Rattle.tableau.specs.File.{max_bytes};
ghost use Rattle.facts.specs.Reading.{FactsTo};

use crate::checks::check_fact;
use crate::{FACTS, Sizes, StoredFact};
use lines::{Cursor, lines_end, read_line};
use tableau::{Reason, Refusal};

// All lines passed: so many, and the sizes that the first of them gives.
#[derive(Clone, Copy)]
pub struct FactsRead {
    pub count: usize,
    pub sizes: Sizes,
}

// The lines are stored as facts, up to the first that is refused.
pub fn read_facts(file: &[u8], facts: &mut [StoredFact; FACTS]) -> Result<FactsRead, Refusal>
    requires { length file.now ≤ max_bytes }
    ensures { FactsTo file.now facts.new result }
{
    let end = lines_end(file);
    let mut sizes = Sizes {
        references: 0,
        fields: 0,
        classes: 0,
    };
    let mut count = 0;
    let mut at = 0;
    while at < end {
        let line = count + 1;
        let Some(f) = read_line(file, Cursor { at }) else {
            return Err(Refusal {
                reason: Reason::BadShape,
                line,
            });
        };
        match check_fact(f, &facts[..count], sizes) {
            Ok(fact) => facts[count] = fact,
            Err(reason) => return Err(Refusal { reason, line }),
        }
        // "`D,siz` comes first and gives references, fields, classes"
        if count == 0 {
            sizes = Sizes {
                references: f.a,
                fields: f.b,
                classes: f.c,
            };
        }
        count = line;
        at = f.next.at;
    }
    if at < file.len() {
        return Err(Refusal {
            reason: Reason::BadShape,
            line: count + 1,
        });
    }
    Ok(FactsRead { count, sizes })
}

// The value of a variable, from the lines as they are stored: a number, or the row of a heap value.
#![tactic(auto)]

ghost use Rattle.std.specs.Prelude.{◌≡◌, ◌<◌, ◌≤◌};
ghost use Rattle.tableau.specs.Terms.{max_terms};
ghost use Rattle.evaluation.specs.Facts.{fact_index};
ghost use Rattle.facts.specs.Keys.{pack_key, value_at};
ghost use Rattle.packing.specs.Packing.{name_limit};
ghost use Rattle.variables.specs.Variables.{NumberRead, VariableRead};

use evaluation::FactWord;
use facts::StoredFact;
use facts::keys::{value_at, word_key};
use heap_tables::scans::{members, scatter};
use regions::ROW;
use tableau::{Name, Sort, TermNumber};
use term_values::TermValues;

// The value of the line of a word and a name.
fn single_value(facts: &[StoredFact], word: FactWord, name: Name) -> u64
    requires { name.0 < name_limit }
    ensures { result ≡ value_at facts.now (pack_key (fact_index word) name.0 0 0) }
{
    u64::from(value_at(facts, word_key(word, name.0, 0, 0)))
}

// A region's mask, or the number of any other value; 0 for a heap value.
fn number_of(facts: &[StoredFact], sort: Sort, name: Name) -> u64
    requires { name.0 < name_limit }
    ensures { NumberRead facts.now sort name.0 result }
{
    match sort {
        Sort::Reference => single_value(facts, FactWord::Rfv, name),
        Sort::Region => members(facts, word_key(FactWord::Rgv, name.0, 0, 0), 8),
        Sort::Heap => 0,
        Sort::Field => single_value(facts, FactWord::Fnv, name),
        Sort::Class => single_value(facts, FactWord::Clv, name),
    }
}

// The number and the row of the variable t.
pub fn read_variable(
    facts: &[StoredFact],
    sort: Sort,
    name: Name,
    values: &mut TermValues,
    t: TermNumber,
)
    requires { (name.0 < name_limit) × (t.0 ≤ max_terms) }
    ensures { VariableRead facts.now sort name.0 values.old.numbers values.old.rows
        values.new.numbers values.new.rows t.0 }
{
    // a heap variable alone has a row
    if sort == Sort::Heap {
        let from = t.0 * ROW;
        let key = word_key(FactWord::Arv, name.0, 0, 0);
        scatter(facts, key, 4, &mut values.rows[from..from + ROW]);
    }
    values.numbers[t.0] = number_of(facts, sort, name);
}

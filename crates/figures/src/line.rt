// The line that is printed.
ghost use Rattle.std.specs.Prelude.{List, [], ◌∷◌, ◌++◌, ◌≡◌, ℕ};
ghost use Rattle.tableau.specs.Reply as specification;
ghost use Rattle.tableau.specs.Reply.{reason_number, decimal, comma_numbers};
ghost use Rattle.statistics.specs.Figures.{figures, figure_numbers, figures_line};
ghost use Rattle.figures.specs.Night.{TotalsIn, ReadTo};

use crate::moments::mean;
use crate::totals::Totals;
use reply::Text;
use tableau::Refusal;

fn refusal_line(refusal: Refusal) -> Text
    ensures { result ≡ decimal (reason_number refusal.reason) ++ comma_numbers (refusal.line ∷ []) }
{
    let mut text = Text::new();
    text.put_decimal(reply::reason_number(refusal.reason));
    text.put_fields(&[refusal.line]);
    text
}

fn totals_line(totals: Totals) -> Text
    ensures { (rs : List specification.Reply) → TotalsIn rs totals
        → result ≡ decimal (figures rs).files ++ comma_numbers (figure_numbers (figures rs)) }
{
    let mean = mean(totals.accepted, totals.sum);
    let variance = totals.variance();
    let mut text = Text::new();
    text.put_decimal(totals.files);
    text.put_fields(&[
        totals.accepted,
        mean.numerator,
        mean.denominator,
        variance.numerator,
        variance.denominator,
    ]);
    text
}

pub fn night_line(night: Result<Totals, Refusal>) -> Text
    ensures { (replies : List ℕ) → ReadTo replies night → result ≡ figures_line replies }
{
    match night {
        Ok(totals) => totals_line(totals),
        Err(refusal) => refusal_line(refusal),
    }
}

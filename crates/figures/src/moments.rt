// The mean and the variance of the S lines, from the totals.
ghost use Rattle.std.specs.Prelude.{List, ◌≡◌, ℕ, length};
ghost use Rattle.tableau.specs.Reply as specification;
ghost use Rattle.fractions.specs.Fraction.{fraction_record};
ghost use Rattle.statistics.specs.Figures.{step_counts, mean as meanOf, variance as varianceOf};
ghost use Rattle.statistics.specs.Figures.{printed, sum as sumOf};
ghost use Rattle.figures.specs.Night.{TotalsIn};

use crate::totals::Totals;
use fractions::Fraction;

const NONE: Fraction = Fraction {
    numerator: 0,
    denominator: 0,
};

// Of any numbers with this count and this sum.
pub fn mean(accepted: usize, sum: usize) -> Fraction
    ensures { (ns : List ℕ) → accepted ≡ length ns → sum ≡ sumOf ns
        → fraction_record result ≡ printed (length ns) (meanOf ns) }
{
    if accepted == 0 {
        return NONE;
    }
    let mean = Fraction {
        numerator: sum,
        denominator: accepted,
    };
    mean.lowest()
}

impl Totals {
    // The mean of the squares less the square of the mean, over one denominator: with n numbers, n
    // times the sum of squares less the square of the sum, over n n.
    pub fn variance(self) -> Fraction
        ensures { (rs : List specification.Reply) → TotalsIn rs self
            → fraction_record result
            ≡ printed (length (step_counts rs)) (varianceOf (step_counts rs)) }
    {
        let n = self.accepted;
        if n == 0 {
            return NONE;
        }
        let variance = Fraction {
            numerator: n * self.squares - self.sum * self.sum,
            denominator: n * n,
        };
        variance.lowest()
    }
}

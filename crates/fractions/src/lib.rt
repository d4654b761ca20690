// Fractions in lowest terms.
#![tactic(auto)]

ghost use Rattle.std.specs.Prelude.{◌≡◌, ◌<◌};
ghost use Rattle.statistics.specs.Fractions as specification;
ghost use Rattle.fractions.specs.Fraction.{fraction_record};

#[derive(Clone, Copy)]
pub struct Fraction {
    pub numerator: usize,
    pub denominator: usize,
}

// Euclid: the dividend and the divisor have the common divisors of `a` and `b`. The last divisor is
// 0, which every number divides.
fn greatest_common_divisor(a: usize, b: usize) -> usize
    requires { 0 < b }
    ensures { result ≡ specification.greatest_common_divisor a b }
{
    let (mut dividend, mut divisor) = (a, b);
    while 0 < divisor {
        (dividend, divisor) = (divisor, dividend % divisor);
    }
    dividend
}

impl Fraction {
    #[tactic(auto, using(statistics::proofs::LowestTerms::common_positive), unfolding(statistics::specs::Fractions::lowest))]
    pub fn lowest(self) -> Fraction
        requires { 0 < self.denominator }
        ensures { fraction_record result ≡ specification.lowest (fraction_record self) }
    {
        let divisor = greatest_common_divisor(self.numerator, self.denominator);
        Fraction {
            numerator: self.numerator / divisor,
            denominator: self.denominator / divisor,
        }
    }
}

// The figures over a night's replies: the replies read in one pass, the mean and the variance of
// their S lines, the line that is printed.
#![tactic(auto)]

mod line;
mod moments;
mod night;
mod totals;

ghost use Rattle.std.specs.Prelude.{◌≡◌};
ghost use Rattle.statistics.specs.Figures.{figures_line};

use line::night_line;
use night::read_night;
use reply::Text;

// The line of figures, or the number and the line of a refusal.
pub fn figures(replies: &[u8]) -> Text
    ensures { result ≡ figures_line replies.now }
{
    night_line(read_night(replies))
}

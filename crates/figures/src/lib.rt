//! The worked figures of docs/RULES.md, docs/CHARGES.md and docs/CALENDAR.md, of the definitions
//! that the contracts cite.
#![tactic(auto)]

ghost use Rattle.std.specs.Prelude.{◌≡◌};
ghost use Rattle.figures.specs.Figures.{Figures};

use calendar::date::Date;

/// The day number of the worked gas year's first day. Its contract has the whole table of figures.
pub fn figures_hold() -> u32
    ensures figures { Figures }
    ensures day { result ≡ 3_561 }
{
    let day = Date {
        year: 2009,
        month: 10,
        day: 1,
    };
    day.number().unwrap()
}

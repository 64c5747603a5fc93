//! What C gets: a status, and a value or a date beside it, laid out as `include/keldrava.h` has it.
ghost use Rattle.std.specs.Prelude.{◌≡◌};
ghost use Rattle.capi.specs.Answer.{answer_of, date_answer_of};

use calendar::date::Date;
use refusals::Refusal;

/// A status and a value.
#[repr(C)]
#[derive(Clone, Copy)]
pub struct Answer {
    /// 0, or the refusal's number (docs/REFUSALS.md).
    pub status: u32,
    /// The value, in the unit that the function has; 0 where it was refused.
    pub value: u64,
}

/// A status and a date, all zeros where it was refused.
#[repr(C)]
#[derive(Clone, Copy)]
pub struct DateAnswer {
    /// 0, or the refusal's number (docs/REFUSALS.md).
    pub status: u32,
    /// 2000 to 2099.
    pub year: u32,
    /// 1 to 12.
    pub month: u32,
    /// 1 to the length of the month.
    pub day: u32,
}

impl From<Result<u64, Refusal>> for Answer {
    ghost from_gives = { λ res answer. answer ≡ answer_of res };

    fn from(res: Result<u64, Refusal>) -> Answer {
        match res {
            Ok(value) => Answer { status: 0, value },
            Err(e) => Answer {
                status: e.number().into(),
                value: 0,
            },
        }
    }
}

impl From<Result<Date, Refusal>> for DateAnswer {
    ghost from_gives = { λ res answer. answer ≡ date_answer_of res };

    fn from(res: Result<Date, Refusal>) -> DateAnswer {
        match res {
            Ok(date) => DateAnswer {
                status: 0,
                year: date.year.into(),
                month: date.month.into(),
                day: date.day.into(),
            },
            Err(e) => DateAnswer {
                status: e.number().into(),
                year: 0,
                month: 0,
                day: 0,
            },
        }
    }
}

//! The weather that a profile is asked about.
ghost use Rattle.std.specs.Prelude.{◌≡◌, ◌+◌, ◌*◌, ◌<◌};
ghost use Rattle.profiles.specs.Asked.{is_in_range, columns, column, place};

const COLDEST: i16 = -400;

const HOTTEST: i16 = 500;

pub(crate) const SEASONS: u8 = 4;

// The first and the last tenth that a sheet has a column for.
const FIRST_TENTH: i16 = -80;

const LAST_TENTH: i16 = 300;

const COLUMNS: usize = 381;

/// A temperature and a season; any two numbers, in range or not (docs/RULES.md, "Numbers").
#[derive(Clone, Copy, PartialEq, Eq, Debug)]
pub struct Weather {
    /// In tenths of a degree Celsius.
    pub temperature: i16,
    /// 0 winter, 1 transition in heating time, 2 transition outside it, 3 summer.
    pub season: u8,
}

impl Weather {
    /// Whether it is a temperature from -40.0 to 50.0 degrees, and one of the four seasons.
    pub fn is_in_range(self) -> bool
        ensures { result ≡ is_in_range self }
    {
        (COLDEST..=HOTTEST).contains(&self.temperature) && self.season < SEASONS
    }

    // The temperature's column in a sheet; colder or warmer than the sheet goes, that of the nearer
    // end.
    fn column(self) -> usize
        ensures is { result ≡ column self.temperature }
        ensures inside { result < columns }
    {
        (self.temperature.clamp(FIRST_TENTH, LAST_TENTH) - FIRST_TENTH) as usize
    }

    // Where it stands in a row of a sheet.
    pub(crate) fn place(self, row: u32) -> usize
        ensures is { result ≡ place row self }
        ensures inside { result < row * columns + columns }
    {
        row as usize * COLUMNS + self.column()
    }
}

//! The running gas day: its tokens and its phase.
ghost use Rattle.std.specs.Prelude.{◌≡◌};
ghost use Rattle.ledger.specs.Sharing.{day_quantity, day_loss};
ghost use Rattle.ledger.specs.Tokens.{DayToken, OpenToken, is_idle, is_running, weather_of};

use profiles::Weather;

/// The right to enter into the running day and to take its inflow. It is only a number, cannot be
/// copied, and has to be ended: a day that is let go does not compile.
pub struct OpenDay {
    pub(crate) number: u32,
}

impl OpenDay {
    /// The day's number, by openings from 1.
    pub fn number(&self) -> u32
        ensures { result ≡ self.now.number }
    {
        self.number
    }
}

// A token of the running day. There is a type for each phase, so that a day cannot be shared out
// before its inflow was taken.
pub(crate) trait Token: Sized {
    // Which day of which phase it stands for.
    ghost token: { Self → DayToken };

    // Whether the running day is the token's, and in the token's phase.
    fn is_running(&self, phase: Phase) -> bool
        ensures { result ≡ is_running phase (token self.now) };

    // The token ends; nothing else does.
    fn end(self);
}

impl Token for OpenDay {
    ghost token = { OpenToken };

    fn is_running(&self, phase: Phase) -> bool {
        matches!(phase, Phase::Open { number, .. } if number == self.number)
    }

    fn end(self) {
        let OpenDay { number: _ } = self;
    }
}

/// What a share-out returns, in litres.
#[derive(Clone, Copy, PartialEq, Debug)]
pub struct SharedOut {
    /// The quantity shared: the inflow less loss and metered litres.
    pub quantity: u64,
    /// The sum of the profile consumptions.
    pub total: u64,
    /// The network loss.
    pub loss: u64,
}

// How far the running day has come. A measured day's quantity, loss and metered litres are its
// inflow.
#[derive(Clone, Copy)]
pub(crate) enum Phase {
    Idle,
    Open {
        number: u32,
        weather: Weather,
    },
    Measured {
        number: u32,
        weather: Weather,
        inflow: u64,
        loss: u64,
        quantity: u64,
    },
}

impl Phase {
    pub(crate) fn is_idle(self) -> bool
        ensures { result ≡ is_idle self }
    {
        matches!(self, Phase::Idle)
    }

    // What the running day's opening took; 0.0 degrees in winter where no day runs.
    pub(crate) fn weather(self) -> Weather
        ensures { result ≡ weather_of self }
    {
        match self {
            Phase::Idle => Weather {
                temperature: 0,
                season: 0,
            },
            Phase::Open { weather, .. } | Phase::Measured { weather, .. } => weather,
        }
    }

    // A measured day's quantity, else 0.
    pub(crate) fn quantity(self) -> u64
        ensures { result ≡ day_quantity self }
    {
        if let Phase::Measured { quantity, .. } = self {
            quantity
        } else {
            0
        }
    }

    // A measured day's loss, else 0.
    pub(crate) fn loss(self) -> u64
        ensures { result ≡ day_loss self }
    {
        if let Phase::Measured { loss, .. } = self {
            loss
        } else {
            0
        }
    }
}

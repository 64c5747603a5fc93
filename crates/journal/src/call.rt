//! A line as a call.
ghost use Rattle.std.specs.Prelude.{◌≡◌, ◌≢◌, [], ◌∷◌, Ok, Err, length, replicate, slice_index, slice_index_or};
ghost use Rattle.journal.specs.Words.{texts_of};
ghost use Rattle.journal.specs.Numbers.{NarrowsPair, and_then, number_of, numbers_of};
ghost use Rattle.journal.specs.Calls.{call_of, kind_call, plain_result, plain_line, max32, max64, shape_call};
ghost use Rattle.journal.specs.declared.fault.Fault.TheVariants.{Form};
ghost use Rattle.journal.specs.declared.kind.Kind.TheVariants as of;
ghost use Rattle.journal.specs.declared.kind.Shape.TheVariants as shaped;

use crate::fault::Fault;
use crate::kind::{FromWord, Kind, Rule, Shape, is_word};
use crate::number::{read, tenths};
use crate::words::{is_file, is_name};

/// A call, with its names as they stand in the line. docs/JOURNAL.md has the form of each.
#[derive(Clone, Copy)]
pub enum Call<'a> {
    /// A new ledger.
    Ledger {
        /// The ledger's next day; day 0 is 1 January 2000.
        first_day: u32,
    },
    /// The size of the point sheet.
    Sheet {
        places: u32,
    },
    /// A table profile, filled from a file.
    Table {
        name: &'a [u8],
        file: &'a [u8],
    },
    /// An even profile.
    Even {
        name: &'a [u8],
        /// The factor of every day, in ten-millionths.
        factor: u32,
    },
    /// A season layer for a segment, filled from a file, over the profile named `below`.
    Season {
        name: &'a [u8],
        segment: u32,
        file: &'a [u8],
        below: &'a [u8],
    },
    /// Admits a trader, whose name is only printed.
    Trader {
        name: Option<&'a [u8]>,
    },
    /// Admits a meter point.
    Point {
        trader: u32,
        segment: u32,
        /// How many digits the meter's dial has.
        digits: u32,
        litres_per_unit: u32,
        /// What the dial shows, in units.
        reading: u32,
        /// Litres a day at a day factor of one.
        scale_factor: u32,
    },
    /// Opens a day.
    Open {
        /// In tenths of a degree.
        temperature: i16,
        season: u8,
    },
    /// Enters metered litres into the open day.
    Enter {
        trader: u32,
        litres: u64,
    },
    /// Measures the open day.
    Inflow {
        litres: u64,
        /// The loss rate, in millionths.
        rate: u32,
    },
    /// Shares the measured day out by the profile of that name.
    Share {
        profile: &'a [u8],
        rule: Rule,
    },
    /// Ends the running day.
    Abandon,
    /// Reads a meter point.
    Read {
        point: u32,
        /// What the dial shows, in units.
        reading: u32,
    },
    /// Books the open slip of a meter point.
    Book {
        point: u32,
    },
    /// Books the open slip of a meter point, which is then the trader's.
    HandOver {
        point: u32,
        trader: u32,
    },
    /// Ends the open slip of a meter point without booking.
    Withdraw {
        point: u32,
    },
    /// The open quantity of a trader.
    Quantity {
        trader: u32,
    },
}

// As many numbers as a call has, with nothing else.
fn numbers<const N: usize>(kind: Kind, args: &[&[u8]]) -> Result<[u32; N], Fault>
    ensures { result ≡ numbers_of kind (replicate N max32) (texts_of args.now) }
{
    if args.len() != N {
        return Err(Fault::Form(kind));
    }
    let mut found = [0; N];
    for (i, word) in args.iter().enumerate() {
        found[i] = read(word)?;
    }
    Ok(found)
}

// The two numbers of a call, each of its place's own type.
fn two<A: TryFrom<u64> + Drop, B: TryFrom<u64>>(kind: Kind, args: &[&[u8]]) -> Result<(A, B), Fault>
where
    A::Error: Drop,
    B::Error: Drop,
    ensures form { length args.now ≢ 2 → result ≡ Err (Form kind) }
    ensures pair { length args.now ≡ 2 →
        NarrowsPair A.try_from_gives B.try_from_gives
        (number_of max64 (slice_index_or (texts_of args.now) 0 []))
        (number_of max64 (slice_index_or (texts_of args.now) 1 []))
        result }
{
    let [first, second] = args else {
        return Err(Fault::Form(kind));
    };
    Ok((read(first)?, read(second)?))
}

// What the words behind `profile NAME table`, `profile NAME even` and `profile NAME season` say.
fn read_shape<'a>(shape: Shape, name: &'a [u8], args: &[&'a [u8]]) -> Result<Call<'a>, Fault>
    ensures { plain_result result ≡ shape_call shape name.now (texts_of args.now) }
{
    match shape {
        Shape::Table => table(name, args),
        Shape::Even => one(Kind::Profile, args).map(|factor| Call::Even { name, factor }),
        Shape::Season => season(name, args),
    }
}

fn table<'a>(name: &'a [u8], args: &[&'a [u8]]) -> Result<Call<'a>, Fault>
    ensures { plain_result result ≡ shape_call shaped.Table name.now (texts_of args.now) }
{
    match args {
        [file] if is_file(file) => Ok(Call::Table { name, file }),
        [_] => Err(Fault::NotFile),
        _ => Err(Fault::Form(Kind::Profile)),
    }
}

fn season<'a>(name: &'a [u8], args: &[&'a [u8]]) -> Result<Call<'a>, Fault>
    ensures { plain_result result ≡ shape_call shaped.Season name.now (texts_of args.now) }
{
    let [segment, file, over, below] = args else {
        return Err(Fault::Form(Kind::Profile));
    };
    let segment = read(segment)?;
    if !is_file(file) {
        return Err(Fault::NotFile);
    }
    if !is_word(over, "over") {
        return Err(Fault::Form(Kind::Profile));
    }
    Ok(Call::Season {
        name,
        segment,
        file,
        below,
    })
}

fn profile<'a>(args: &[&'a [u8]]) -> Result<Call<'a>, Fault>
    ensures { plain_result result ≡ kind_call of.Profile (texts_of args.now) }
{
    let [name, shape, rest @ ..] = args else {
        return Err(Fault::Form(Kind::Profile));
    };
    if !is_name(name) {
        return Err(Fault::NotName);
    }
    let shape = Shape::from_word(shape).ok_or(Fault::Form(Kind::Profile))?;
    read_shape(shape, name, rest)
}

fn trader<'a>(args: &[&'a [u8]]) -> Result<Call<'a>, Fault>
    ensures { plain_result result ≡ kind_call of.Trader (texts_of args.now) }
{
    match args {
        [] => Ok(Call::Trader { name: None }),
        [name] if is_name(name) => Ok(Call::Trader { name: Some(name) }),
        [_] => Err(Fault::NotName),
        _ => Err(Fault::Form(Kind::Trader)),
    }
}

fn weather<'a>(args: &[&'a [u8]]) -> Result<Call<'a>, Fault>
    ensures { plain_result result ≡ kind_call of.Open (texts_of args.now) }
{
    let [temperature, season] = args else {
        return Err(Fault::Form(Kind::Open));
    };
    let temperature = tenths(temperature).map_err(|_| Fault::NotTemperature)?;
    let season = read(season)?;
    Ok(Call::Open {
        temperature,
        season,
    })
}

fn share<'a>(args: &[&'a [u8]]) -> Result<Call<'a>, Fault>
    ensures { plain_result result ≡ kind_call of.Share (texts_of args.now) }
{
    let [profile, rule] = args else {
        return Err(Fault::Form(Kind::Share));
    };
    let rule = Rule::from_word(rule).ok_or(Fault::NotRule)?;
    Ok(Call::Share { profile, rule })
}

fn abandon<'a>(args: &[&'a [u8]]) -> Result<Call<'a>, Fault>
    ensures { plain_result result ≡ kind_call of.Abandon (texts_of args.now) }
{
    match args {
        [] => Ok(Call::Abandon),
        _ => Err(Fault::Form(Kind::Abandon)),
    }
}

fn point<'a>(args: &[&'a [u8]]) -> Result<Call<'a>, Fault>
    ensures { plain_result result ≡ kind_call of.Point (texts_of args.now) }
{
    let [
        trader,
        segment,
        digits,
        litres_per_unit,
        reading,
        scale_factor,
    ]: [u32; 6] = numbers(Kind::Point, args)?;
    Ok(Call::Point {
        trader,
        segment,
        digits,
        litres_per_unit,
        reading,
        scale_factor,
    })
}

// The one number of a call.
fn one(kind: Kind, args: &[&[u8]]) -> Result<u32, Fault>
    ensures { result ≡ and_then (numbers_of kind (max32 ∷ []) (texts_of args.now)) (λ ns.
        Ok (slice_index ns 0)) }
{
    let [n]: [u32; 1] = numbers(kind, args)?;
    Ok(n)
}

// What the words behind a call's first say.
fn read_call<'a>(kind: Kind, args: &[&'a [u8]]) -> Result<Call<'a>, Fault>
    ensures { plain_result result ≡ kind_call kind (texts_of args.now) }
{
    match kind {
        Kind::Ledger => one(kind, args).map(|first_day| Call::Ledger { first_day }),
        Kind::Sheet => one(kind, args).map(|places| Call::Sheet { places }),
        Kind::Profile => profile(args),
        Kind::Trader => trader(args),
        Kind::Point => point(args),
        Kind::Open => weather(args),
        Kind::Enter => two(kind, args).map(|(trader, litres)| Call::Enter { trader, litres }),
        Kind::Inflow => two(kind, args).map(|(litres, rate)| Call::Inflow { litres, rate }),
        Kind::Share => share(args),
        Kind::Abandon => abandon(args),
        Kind::Read => two(kind, args).map(|(point, reading)| Call::Read { point, reading }),
        Kind::Book => one(kind, args).map(|point| Call::Book { point }),
        Kind::HandOver => two(kind, args).map(|(point, trader)| Call::HandOver { point, trader }),
        Kind::Withdraw => one(kind, args).map(|point| Call::Withdraw { point }),
        Kind::Quantity => one(kind, args).map(|trader| Call::Quantity { trader }),
    }
}

/// The call that the words of a line say, and none where there are no words. Each [`Fault`] says
/// what is wrong.
pub fn parse<'a>(words: &[&'a [u8]]) -> Result<Option<Call<'a>>, Fault>
    ensures { plain_line result ≡ call_of (texts_of words.now) }
{
    let [first, args @ ..] = words else {
        return Ok(None);
    };
    let kind = Kind::from_word(first).ok_or(Fault::UnknownCall)?;
    let call = read_call(kind, args)?;
    Ok(Some(call))
}

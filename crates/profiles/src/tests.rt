//! The ends of the table, questions outside, refused sheets and a pile of layers.
use crate::even::EvenProfile;
use crate::factors::Factors;
use crate::profile::Profile;
use crate::season::SeasonLayer;
use crate::table::TableProfile;
use crate::weather::Weather;
use refusals::Refusal;
use std::test::Fail;

// A table whose rows begin and end with these numbers, and hold 5 elsewhere.
fn table() -> TableProfile {
    let mut sheet = [5; 762];
    sheet[0] = 962_833;
    sheet[1] = 11;
    sheet[379] = 12;
    sheet[380] = 13;
    sheet[381] = 14;
    sheet[761] = 10_000_000;
    let mut table = TableProfile::new();
    let _ = table.fill(&sheet);
    table
}

fn at(temperature: i16, season: u8) -> Weather {
    Weather {
        temperature,
        season,
    }
}

fn tells<P: Profile>(profile: &P, segment: u32, temperature: i16, factor: u32) -> bool {
    profile.tell(segment, at(temperature, 0))
        == (Factors {
            multiplier: factor,
            day: factor,
        })
}

#[test]
fn table_ends(rt: HostRuntime) {
    let table = table();
    assert!(rt; tells(&table, 0, -400, 962_833) && tells(&table, 0, -81, 962_833));
    assert!(rt; tells(&table, 0, -80, 962_833) && tells(&table, 0, -79, 11));
    assert!(rt;
        tells(&table, 0, 299, 12) && tells(&table, 0, 300, 13) && tells(&table, 0, 301, 13)
    );
    assert!(rt; tells(&table, 1, -80, 14) && tells(&table, 1, 500, 10_000_000));
}

#[test]
fn outside(rt: HostRuntime) -> Result<(), Fail> {
    let table = table();
    assert!(rt; tells(&table, 2, 0, 0) && tells(&table, 0, -401, 0) && tells(&table, 0, 501, 0));
    assert_eq!(rt; table.tell(0, at(0, 4)), Factors::NONE);
    let even = EvenProfile::new(10_000_000)?;
    assert!(rt; tells(&even, 7, 0, 10_000_000) && tells(&even, 8, 0, 0));
    assert!(rt; EvenProfile::new(10_000_001).is_err());
    Ok(())
}

#[test]
fn refused_sheets(rt: HostRuntime) {
    let mut table = table();
    assert_eq!(rt; table.fill(&[1; 761]), Err(Refusal::ProfileSheet));
    assert_eq!(rt; table.fill(&[1; 763]), Err(Refusal::ProfileSheet));
    let mut sheet = [1; 762];
    sheet[761] = 10_000_001;
    assert_eq!(rt; table.fill(&sheet), Err(Refusal::ProfileSheet));
    assert!(rt; tells(&table, 0, -80, 962_833) && tells(&table, 1, 300, 10_000_000));
}

// The table under a layer that halves segment 0's day factors and one that doubles segment 1's in
// summer.
fn pile() -> Result<SeasonLayer<SeasonLayer<TableProfile>>, Fail> {
    let Ok(mut lower) = SeasonLayer::new(table(), 0) else {
        return Err(Fail::new("segment 0"));
    };
    lower.fill(&[5_000_000; 1524])?;
    let Ok(mut upper) = SeasonLayer::new(lower, 1) else {
        return Err(Fail::new("segment 1"));
    };
    let mut sheet = [10_000_000; 1524];
    sheet[1143] = 20_000_000;
    sheet[1523] = 20_000_000;
    upper.fill(&sheet)?;
    Ok(upper)
}

// A layer's sheet too short, too long and with a number past its limit: the pile stays as it was.
#[test]
fn refused_layer_sheets(rt: HostRuntime) -> Result<(), Fail> {
    let mut pile = pile()?;
    assert_eq!(rt; pile.fill(&[1; 1523]), Err(Refusal::ProfileSheet));
    assert_eq!(rt; pile.fill(&[1; 1525]), Err(Refusal::ProfileSheet));
    let mut sheet = [1; 1524];
    sheet[1523] = 20_000_001;
    assert_eq!(rt; pile.fill(&sheet), Err(Refusal::ProfileSheet));
    assert_eq!(rt;
        pile.tell(1, at(-80, 3)),
        Factors {
            multiplier: 14,
            day: 28,
        }
    );
    Ok(())
}

#[test]
fn layers(rt: HostRuntime) -> Result<(), Fail> {
    let pile = pile()?;
    assert_eq!(rt;
        pile.tell(0, at(-90, 1)),
        Factors {
            multiplier: 962_833,
            day: 481_416,
        }
    );
    assert!(rt; tells(&pile, 1, -80, 14) && tells(&pile, 2, 0, 0));
    assert_eq!(rt;
        pile.tell(1, at(-80, 3)),
        Factors {
            multiplier: 14,
            day: 28,
        }
    );
    assert_eq!(rt;
        pile.tell(1, at(300, 3)),
        Factors {
            multiplier: 10_000_000,
            day: 10_000_000,
        }
    );
    Ok(())
}

#[test]
fn layer_segments(rt: HostRuntime) -> Result<(), Fail> {
    assert_eq!(rt;
        <SeasonLayer<SeasonLayer<TableProfile>> as Profile>::SEGMENTS,
        2
    );
    assert_eq!(rt; <SeasonLayer<EvenProfile> as Profile>::SEGMENTS, 8);
    assert!(rt; SeasonLayer::new(table(), 7).is_ok());
    let Err(refused) = SeasonLayer::new(table(), 8) else {
        return Err(Fail::new("segment 8"));
    };
    assert_eq!(rt; refused.why, Refusal::Particulars);
    assert!(rt; tells(&refused.given, 0, -80, 962_833));
    Ok(())
}

// A profile that only borrows another.
#[derive(Drop)]
struct Lent<'a, P> {
    below: &'a P,
}

impl<'a, P: Profile> Profile for Lent<'a, P> {
    const SEGMENTS: u32 = P::SEGMENTS;

    ghost segments = { P.Profile.segments };

    ghost tells = { λ l. P.Profile.tells l.below.now };

    ghost few = { P.Profile.few };

    ghost are_factors = { λ l. P.Profile.are_factors l.below.now };

    ghost outside = { λ l. P.Profile.outside l.below.now };

    fn segments_of() -> u32 {
        P::segments_of()
    }

    fn tell(&self, segment: u32, weather: Weather) -> Factors {
        self.below.tell(segment, weather)
    }
}

#[test]
fn a_layer_over_a_lent_profile(rt: HostRuntime) -> Result<(), Fail> {
    let table = table();
    let layer = SeasonLayer::new(Lent { below: &table }, 1).map_err(|_| Fail::new("segment 1"))?;
    assert_eq!(rt;
        <SeasonLayer<Lent<'_, TableProfile>> as Profile>::segments_of(),
        2
    );
    assert!(rt; tells(&layer, 0, -80, 962_833) && tells(&table, 0, -80, 962_833));
    Ok(())
}

//! What the table profile, and a season layer over it, tell.
use crate::page::Page;
use profiles::{Profile, SeasonLayer, TableProfile, Weather};
use std::alloc::{AllocError, Global};

// The ends of what may be asked, and the tenths next to the sheet.
const COLD: [i16; 2] = [-400, -81];

const WARM: [i16; 2] = [301, 500];

const LAYER_TEMPERATURES: [i16; 8] = [-100, -80, -33, 0, 105, 299, 300, 301];

// The segment whose day factors the layer scales.
const LAYER_SEGMENT: u32 = 1;

// 4 seasons of 381 tenths.
const SEASON_NUMBERS: u32 = 1524;

// A segment and a weather that a profile is asked for.
#[derive(Clone, Copy)]
struct Question {
    segment: u32,
    weather: Weather,
}

// Each segment in each of the seasons, at each of the temperatures.
fn questions(
    heap: Global,
    segments: u32,
    seasons: u8,
    temperatures: &[i16],
) -> Result<Vec<Question>, AllocError> {
    (0..segments)
        .flat_map(|segment| (0..seasons).map(move |season| (segment, season)))
        .flat_map(|(segment, season)| {
            temperatures.iter().map(move |temperature| Question {
                segment,
                weather: Weather {
                    temperature: *temperature,
                    season,
                },
            })
        })
        .collect(heap)
}

// Each tenth of the sheet, and what lies outside it.
fn temperatures(heap: Global) -> Result<Vec<i16>, AllocError> {
    let mut all = Vec::from_slice(heap, &COLD)?;
    all.extend(-80..=300i16)?;
    all.extend_from_slice(&WARM)?;
    Ok(all)
}

// Both segments at each of the temperatures, in winter.
pub(crate) fn table_lines(page: &mut Page, table: &TableProfile) -> anyhow::Result<()> {
    let temperatures = temperatures(page.heap)?;
    let asked = questions(
        page.heap,
        TableProfile::SEGMENTS,
        1,
        temperatures.as_slice(),
    )?;
    for Question { segment, weather } in asked.iter() {
        page.begin("table")?;
        page.number(*segment)?;
        page.number(weather.temperature)?;
        page.number(table.tell(*segment, *weather).multiplier)?;
        page.end()?;
    }
    Ok(())
}

// Season numbers spread over all that is allowed.
fn season_numbers(heap: Global) -> Result<Vec<u32>, AllocError> {
    (0..SEASON_NUMBERS)
        .map(|place| place.wrapping_mul(13_127) % 20_000_001)
        .collect(heap)
}

// A layer over the table, in each season: both segments, and one that the table does not serve.
pub(crate) fn layer_lines(page: &mut Page, table: TableProfile) -> anyhow::Result<()> {
    let mut layer = SeasonLayer::new(table, LAYER_SEGMENT).map_err(|back| back.why)?;
    layer.fill(season_numbers(page.heap)?.as_slice())?;
    let asked = questions(
        page.heap,
        TableProfile::SEGMENTS + 1,
        4,
        &LAYER_TEMPERATURES,
    )?;
    for Question { segment, weather } in asked.iter() {
        let told = layer.tell(*segment, *weather);
        page.begin("layer")?;
        page.number(*segment)?;
        page.number(weather.season)?;
        page.number(weather.temperature)?;
        page.number(told.multiplier)?;
        page.number(told.day)?;
        page.end()?;
    }
    Ok(())
}

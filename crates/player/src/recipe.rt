//! How a named profile is made: a table or an even profile, and up to two season layers over it.
use crate::sheets::Sheets;
use crate::station::Station;
use ledger::SharedOut;
use profiles::{EvenProfile, Profile, SeasonLayer, TableProfile};
use refusals::Refusal;
use shares::ShareRule;
use std::alloc::{AllocError, Global};

const MAX_LAYERS: usize = 2;

// Factors, in ten-millionths.
#[derive(Clone, Drop)]
enum Base {
    Table(Vec<u32>),
    Even(u32),
}

// The season numbers of one segment, in ten-millionths.
#[derive(Clone, Drop)]
pub(crate) struct Layer {
    segment: u32,
    numbers: Vec<u32>,
}

// A profile is made anew for each share-out, from sheets that were tested when it was named: it has
// no copy, and a layer takes the profile below it over.
#[derive(Clone, Drop)]
pub(crate) struct Recipe {
    base: Base,
    // the lowest first
    layers: Vec<Layer>,
}

fn table(numbers: &[u32]) -> Result<TableProfile, Refusal> {
    let mut profile = TableProfile::new();
    profile.fill(numbers)?;
    Ok(profile)
}

impl Layer {
    // A layer that can be made; or refusal 7 for its segment, then 8 for its numbers.
    pub(crate) fn new(segment: u32, numbers: Vec<u32>) -> Result<Layer, Refusal> {
        let layer = Layer { segment, numbers };
        let _tested = layer.over(EvenProfile::new(0)?)?;
        Ok(layer)
    }

    fn over<P: Profile + Drop>(&self, below: P) -> Result<SeasonLayer<P>, Refusal> {
        let mut profile = SeasonLayer::new(below, self.segment).map_err(|refused| refused.why)?;
        profile.fill(self.numbers.as_slice())?;
        Ok(profile)
    }
}

impl Recipe {
    // A table of these factors; or refusal 8.
    pub(crate) fn table(heap: Global, numbers: Vec<u32>) -> Result<Recipe, Refusal> {
        let _tested = table(numbers.as_slice())?;
        Ok(Recipe {
            base: Base::Table(numbers),
            layers: Vec::new(heap),
        })
    }

    // An even profile of this factor; or refusal 8.
    pub(crate) fn even(heap: Global, factor: u32) -> Result<Recipe, Refusal> {
        let _tested = EvenProfile::new(factor)?;
        Ok(Recipe {
            base: Base::Even(factor),
            layers: Vec::new(heap),
        })
    }

    // How many segments the profile serves.
    pub(crate) fn segments(&self) -> u32 {
        match &self.base {
            Base::Table(_) => TableProfile::SEGMENTS,
            Base::Even(_) => EvenProfile::SEGMENTS,
        }
    }

    // Whether another layer may stand over it.
    pub(crate) fn has_room(&self) -> bool {
        self.layers.len() < MAX_LAYERS
    }

    // The same profile with one layer more.
    pub(crate) fn under(&self, layer: Layer) -> Result<Recipe, AllocError> {
        let mut recipe = self.clone()?;
        recipe.layers.push(layer)?;
        Ok(recipe)
    }

    // Shares the station's measured day out by this profile and a share rule.
    pub(crate) fn share_out<R: ShareRule>(
        &self,
        station: &mut Station,
        rule: &R,
        sheets: &mut Sheets,
    ) -> Result<SharedOut, Refusal> {
        match &self.base {
            Base::Table(numbers) => {
                self.share_over(table(numbers.as_slice())?, station, rule, sheets)
            }
            Base::Even(factor) => {
                self.share_over(EvenProfile::new(*factor)?, station, rule, sheets)
            }
        }
    }

    fn share_over<P: Profile + Drop, R: ShareRule>(
        &self,
        base: P,
        station: &mut Station,
        rule: &R,
        sheets: &mut Sheets,
    ) -> Result<SharedOut, Refusal> {
        match self.layers.as_slice() {
            [] => station.share(&base, rule, sheets),
            [layer] => station.share(&layer.over(base)?, rule, sheets),
            [lower, upper, ..] => {
                let lower = lower.over(base)?;
                station.share(&upper.over(lower)?, rule, sheets)
            }
        }
    }
}

//! The profiles of a journal, by their names.
use crate::recipe::{Layer, Recipe};
use crate::report::Report;
use crate::trouble::Trouble;
use journal::kind::Kind;
use refusals::Refusal;
use std::alloc::Global;
use std::collections::BTreeMap;

#[derive(Drop)]
pub(crate) struct Profiles {
    heap: Global,
    recipes: BTreeMap<Vec<u8>, Recipe>,
}

impl Profiles {
    pub(crate) fn new(heap: Global) -> Profiles {
        Profiles {
            heap,
            recipes: BTreeMap::new(heap),
        }
    }

    pub(crate) fn find(&self, name: &[u8]) -> Result<&Recipe, Trouble> {
        self.recipes.get(name).ok_or(Trouble::NoProfile)
    }

    // A profile that is filled from a file of numbers, or holds one factor.
    pub(crate) fn add(
        &mut self,
        name: &[u8],
        made: Result<Recipe, Refusal>,
        report: &mut Report,
    ) -> Result<(), Trouble> {
        if self.recipes.contains_key(name) {
            return Err(Trouble::NameTaken);
        }
        let segments = match made {
            Ok(recipe) => {
                let segments = recipe.segments();
                self.recipes
                    .insert(Vec::from_slice(self.heap, name)?, recipe)?;
                Ok(segments)
            }
            Err(why) => Err(why),
        };
        Ok(report.print_call(Kind::Profile, segments, |report, segments| {
            report.text(name)?;
            report.field("segments", segments)
        })?)
    }

    // A season layer over a named profile.
    pub(crate) fn add_layer(
        &mut self,
        name: &[u8],
        below: &[u8],
        layer: Result<Layer, Refusal>,
        report: &mut Report,
    ) -> Result<(), Trouble> {
        if self.recipes.contains_key(name) {
            return Err(Trouble::NameTaken);
        }
        let recipe = self.find(below)?;
        if !recipe.has_room() {
            return Err(Trouble::PileTooHigh);
        }
        let made = match layer {
            Ok(layer) => Ok(recipe.under(layer)?),
            Err(why) => Err(why),
        };
        self.add(name, made, report)
    }
}

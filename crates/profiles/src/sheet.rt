//! A sheet of numbers, none of them above a limit.
ghost use Rattle.std.specs.Prelude.{◌≡◌, ℕ, ◌<◌, ◌≤◌, length, replicate, is_ok, if◌then◌else◌, slice_index, nat_le};
ghost use Rattle.std.specs.List.{list_all};
ghost use Rattle.profiles.specs.Sheets.{fill_answer};

use refusals::Refusal;

// Whether no number of the sheet is above the limit.
fn is_within(limit: u32, sheet: &[u32]) -> bool
    ensures { result ≡ list_all (λ x. nat_le x limit) sheet.now }
{
    sheet.iter().all(|x| *x <= limit)
}

#[derive(Drop)]
pub(crate) struct Sheet<const CELLS: usize, const LIMIT: u32> {
    numbers: [u32; CELLS],
    ghost long: { length numbers ≡ CELLS },
    ghost in_range: { (k : ℕ) → slice_index numbers k ≤ LIMIT },
}

impl<const CELLS: usize, const LIMIT: u32> Sheet<CELLS, LIMIT> {
    // One number in every cell.
    pub(crate) fn filled(number: u32) -> Sheet<CELLS, LIMIT>
        requires { number ≤ LIMIT }
        ensures { result.numbers ≡ replicate CELLS number }
    {
        Sheet {
            numbers: [number; CELLS],
        }
    }

    // Takes all the numbers over, or none of them.
    pub(crate) fn fill(&mut self, sheet: &[u32]) -> Result<(), Refusal>
        ensures taken { result ≡ fill_answer CELLS LIMIT sheet.now }
        ensures after { self.new.numbers ≡ (if is_ok result then sheet.now else self.old.numbers) }
    {
        if sheet.len() != CELLS || !is_within(LIMIT, sheet) {
            return Err(Refusal::ProfileSheet);
        }
        self.numbers.copy_from_slice(sheet);
        Ok(())
    }

    pub(crate) fn at(&self, i: usize) -> u32
        requires { i < CELLS }
        ensures { result ≡ slice_index self.now.numbers i }
    {
        self.numbers[i]
    }
}

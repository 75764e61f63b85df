// All numbers of a sheet in one list, through a reader. These are no calls for customers: they ask for a list that is long enough for the largest sheet.
#![tactic(auto)]

ghost use Rattle.std.specs.Prelude.{◌≡◌, ◌≤◌, length};
ghost use Rattle.refusals.specs.Checked.{checked, answer};
ghost use Rattle.form.specs.Form.{form_in};
ghost use Rattle.form.specs.Refusals.{refusal_by};
ghost use Rattle.holding.specs.Held.{most_held, Holds};

use reader::{Reader, opened};
use refusals::Refusal;

// Holds all numbers of the sheet, wherever the reader stands, or answers what it is refused for.
fn read_all<'a>(reader: Reader<'a>, held: &mut [u64]) -> Result<(), Refusal>
    requires { most_held ≤ length held.old }
    ensures refusal { result ≡ checked (refusal_by reader.entry.sheet.now) }
    ensures held_after { Holds (form_in reader.entry.sheet.now) reader.entry.sheet.now (answer result) held.new }
{
    holding::hold_either(reader.sheet, held)
}

// Holds all numbers of a sheet, through a reader, or answers what it is refused for; with plain parameters, for a caller that keeps none.
pub fn read(sheet: &[u8], held: &mut [u64]) -> Result<(), Refusal>
    requires { most_held ≤ length held.old }
    ensures refusal { result ≡ checked (refusal_by sheet.now) }
    ensures held_after { Holds (form_in sheet.now) sheet.now (answer result) held.new }
{
    read_all(opened(sheet), held)
}

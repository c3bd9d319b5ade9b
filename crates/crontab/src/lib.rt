// A weekly POSIX crontab line, read into AtTime trigger records.
#![tactic(auto)]

mod parts;
mod pattern;
mod scan;
mod table;

ghost use Rattle.std.specs.Prelude.{◌≡◌, [], ◌∷◌, length};
ghost use Rattle.model.specs.Lists.{every};
ghost use Rattle.model.specs.Asked.{shown_result};
ghost use Rattle.model.specs.Refusals.{refusal_number};
ghost use Rattle.model.specs.Crontab.{crontab, field_fits, of_the_form, every_date};
ghost use Rattle.crontab.specs.Scanned.{form_refusal};

use model::Refusal;
use parts::Field;

// The words of a trigger, a record of an image.
pub const TRIGGER_WORDS: usize = 8;

// Whether the five fields are patterns.
fn fields_fit(line: &[u8]) -> bool
    ensures { result ≡ every 5 (field_fits line.now) }
{
    Field::ALL.iter().all(|field| field.fits(line))
}

// kept: `line` and `sunday` side by side, here, below and in table.rt: of the five functions that take both, two ask that sunday is at most 6, and three are called
// before that is known; nine more take `line` alone. So one struct would be no plainer, and two would be needed for the fact.
#[tactic(auto, unfolding(model::specs::Crontab::of_the_form))]
fn of_the_form(line: &[u8], sunday: u32) -> bool
    ensures { result ≡ of_the_form line.now sunday }
{
    sunday <= 6 && fields_fit(line)
}

#[tactic(auto, unfolding(model::specs::Crontab::every_date))]
fn every_date(line: &[u8]) -> bool
    ensures { result ≡ every_date line.now }
{
    Field::Day.is_free(line) && Field::Month.is_free(line)
}

// Refusals 50 and 51.
#[tactic(auto, unfolding(crate::specs::Scanned::form_refusal))]
fn check_form(line: &[u8], sunday: u32) -> Result<(), Refusal>
    ensures { refusal_number result ≡ form_refusal line.now sunday }
{
    if !of_the_form(line, sunday) {
        return Err(Refusal::LineForm);
    }
    if !every_date(line) {
        return Err(Refusal::DayOrMonth);
    }
    Ok(())
}

// The triggers of a line at the start of the lent words; zeros behind them, or everywhere where the line is refused.
pub fn read(line: &[u8], sunday: u32, triggers: &mut [u32]) -> Result<u32, Refusal>
    ensures { shown_result (λ n. n ∷ []) result triggers.new ≡ crontab line.now sunday (length triggers.old) }
{
    lent_words::clear(triggers);
    check_form(line, sunday)?;
    let marks = table::Marks::of(line);
    let n = marks.count();
    if triggers.len() / TRIGGER_WORDS < n as usize {
        return Err(Refusal::TriggerStore);
    }
    let ds = table::days_of(line, sunday);
    marks.write(ds, triggers);
    Ok(n)
}

// Fewer telegrams on the bus: the shortest list of a tick's effects that leaves every lamp the same.
#![tactic(auto)]

ghost use Rattle.std.specs.Prelude.{◌≡◌, zero, length};
ghost use Rattle.model.specs.Telegrams.{cuts, is_level, sets, effect_at, are_effects, answer, kept_store};
ghost use Rattle.telegrams.specs.Recursion.{is_set, set_again, keep_last, effects_of, Puts};

use lent_words::EFFECT_WORDS;
use model::{Effect, EffectKind, Refusal};

// The effect of a record.
#[tactic(auto, unfolding(model::specs::Telegrams::effect_at))]
fn effect_of(words: &[u32; EFFECT_WORDS]) -> Effect
    ensures { result ≡ effect_at words.now 0 }
{
    let [kind, a, b, c, d] = *words;
    Effect { kind, a, b, c, d }
}

// Whether the words are effects: refusal 60.
fn are_effects(effects: &[u32]) -> bool
    ensures { result ≡ are_effects effects.now }
{
    let (records, rest) = effects.as_chunks::<EFFECT_WORDS>();
    rest.is_empty()
        && records.iter().all(|record| effect_of(record).kind <= EffectKind::Level as u32)
}

#[tactic(auto, unfolding(model::specs::Telegrams::cuts))]
fn cuts(x: Effect) -> bool
    ensures { result ≡ cuts x }
{
    x.kind < EffectKind::Log as u32
}

#[tactic(auto, unfolding(model::specs::Telegrams::is_level))]
fn is_level(x: Effect) -> bool
    ensures { result ≡ is_level x }
{
    x.kind == EffectKind::Level as u32
}

// Whether an effect sets the lamp.
#[tactic(auto, unfolding(model::specs::Telegrams::sets))]
fn sets(x: Effect, lamp: u32) -> bool
    ensures { result ≡ sets lamp x }
{
    is_level(x) && x.a == lamp
}

// Whether the lamp is set before a record that cuts.
fn is_set_from(records: &[[u32; EFFECT_WORDS]], lamp: u32) -> bool
    ensures { result ≡ is_set zero lamp (effects_of records.now) }
{
    for record in records {
        let x = effect_of(record);
        if cuts(x) {
            return false;
        }
        if sets(x, lamp) {
            return true;
        }
    }
    false
}

// Whether a record sets a lamp that is set again in its stretch, by the records behind it.
// kept: not inlined, since the search is what takes the time of a long list, and beside the writing of the list its loop takes two instructions more for each record.
#[inline(never)]
fn is_superseded(words: &[u32; EFFECT_WORDS], rest: &[[u32; EFFECT_WORDS]]) -> bool
    ensures { result ≡ set_again (effect_at words.now 0) (effects_of rest.now) }
{
    let x = effect_of(words);
    is_level(x) && is_set_from(rest, x.a)
}

// The kept records go into the list, as far as there is room. How many they are.
fn put_kept(list: &mut [u32], records: &[[u32; EFFECT_WORDS]]) -> usize
    ensures { Puts list.old zero (keep_last (effects_of records.now)) list.new result }
{
    // kept: no fold, since no chain's proof goes through a closure that changes what it captures, here the list.
    let mut n = 0;
    for (k, record) in records.iter().enumerate() {
        if is_superseded(record, &records[k + 1..]) {
            continue;
        }
        lent_words::write_effect(list, n, effect_of(record));
        n += 1;
    }
    n
}

// The kept list of the effects, in the words that are lent for it.
pub fn telegrams(effects: &[u32], list: &mut [u32]) -> Result<usize, Refusal>
    ensures { (result ≡ answer (length list.old) effects.now) × (list.new ≡ kept_store (length list.old) effects.now) }
{
    lent_words::clear(list);
    if !are_effects(effects) {
        return Err(Refusal::EffectWords);
    }
    let (records, _) = effects.as_chunks::<EFFECT_WORDS>();
    let n = put_kept(list, records);
    if list.len() / EFFECT_WORDS < n {
        lent_words::clear(list);
        return Err(Refusal::TelegramStore);
    }
    Ok(n)
}

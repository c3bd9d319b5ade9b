// What load and unload make of the parts that calls change.
ghost use Rattle.std.specs.Prelude.{◌≡◌, ◌≤◌};
ghost use Rattle.model.specs.Image.{size_of};
ghost use Rattle.model.specs.Rows.{rules};
ghost use Rattle.model.specs.State.{with_rest};
ghost use Rattle.model.specs.Calls.{kept, rest_with, rest_without};
ghost use Rattle.state.specs.Meaning.{AllNumbered, Means, meaning, base};
ghost use Rattle.engine.specs.Sets.{cleared, rule_of, rules_of};

use image::layout::{Image, Table};
use load::Loadable;
use state::State;
use store::checked::Checked;
use store::volatile::slots_in;

// The state without a set.
pub fn without_set(store: &Checked, v: &mut State)
    ensures { AllNumbered v.new (cleared (rest_without store.now) store.now.vol) }
{
    store.begin(v);
    v.drop_all();
    v.drop_every();
    v.unset_rules(0);
    // kept: see `enable`.
    let _ = &v.words;
}

// What the store keeps for the rule of a name: its last activation, and its cycle position.
// kept: a match, and no `map_or`, as it would be no plainer: the two arms are the two equations of `kept_at`.
fn kept_of(store: &Checked, name: u32) -> (Option<u64>, Option<u32>)
    ensures activation { result.0 ≡ kept store.now.loaded store.now.vol.rest.last_activation name }
    ensures position { result.1 ≡ kept store.now.loaded store.now.vol.rest.cycle_pos name }
{
    match store.rule_in(name) {
        Some(i) => store::volatile::kept_of_rule(store.words(), i as usize),
        None => (None, None),
    }
}

// Rule i of a set: its bit, and what the store keeps for its name.
fn put_rule(store: &Checked, image: &Image, i: u32, v: &mut State)
    ensures { Means v.new (base v.old) (with_rest (rule_of image.now store.now i (meaning v.old).rest) (meaning v.old)) }
{
    let (activation, position) = kept_of(store, image.name_of(i));
    let on = image.enabled_of(i);
    v.put_bit(i as usize, on);
    v.set_last_activation(i as usize, activation);
    v.set_cycle_pos(i as usize, position);
}

// The rules of a set.
fn put_rules(store: &Checked, image: &Image, v: &mut State)
    requires { size_of image.now rules ≤ 64 }
    ensures { Means v.new (base v.old) (with_rest (rules_of image.now store.now (meaning v.old).rest) (meaning v.old)) }
{
    let n = image.size_of(Table::Rules);
    v.unset_rules(n as usize);
    for i in 0..n {
        put_rule(store, image, i, v);
    }
}

// The state with the set of an image that load accepts.
pub fn with_set(store: &Checked, image: &Loadable, time: u64, v: &mut State)
    ensures { AllNumbered v.new (cleared (rest_with image.now time store.now) store.now.vol) }
{
    let old = slots_in(store.words());
    store.begin(v);
    let tables = Image::new(image.words());
    every::rebuild_every(&tables, &old, time, v);
    v.drop_all();
    put_rules(store, &tables, v);
    // kept: see `enable`.
    let _ = &v.words;
}

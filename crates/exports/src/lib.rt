// Functions of the proved crates under C names: what `comparison/` calls from Rust and holds against the oracle.
#![tactic(auto)]

ghost use Rattle.std.specs.Prelude.{◌≡◌, cond, ◌&&◌, eqb, length};
ghost use Rattle.model.specs.Layout.{parts_fit};
ghost use Rattle.model.specs.Load.{tables_refusal, image_refusal};
ghost use Rattle.model.specs.Flat.{flatten_rules};
ghost use Rattle.model.specs.Lists.{present};
ghost use Rattle.model.specs.Parts.{layout};
ghost use Rattle.model.specs.Snapshot.{snapshot_refusal};
ghost use Rattle.model.specs.Store.{read};
ghost use Rattle.flat.specs.Load.{stored};

pub mod evaluation;

use load::Loadable;

// 10 to 15, 0 for none: the checks that do not flatten.
#[unsafe(no_mangle)]
pub extern "C" fn cerambiu_tables_refusal(img: &[u32]) -> u32
    ensures { result ≡ tables_refusal img.now 0 }
{
    model::refusal_number(image::refusal(img))
}

// 10 to 17, 0 for none.
#[unsafe(no_mangle)]
pub extern "C" fn cerambiu_image_refusal(img: &[u32]) -> u32
    ensures { result ≡ image_refusal img.now }
{
    model::refusal_number(load::refusal(img))
}

// How many steps a store keeps for the set of an image, a body that copies of an after share once; 0 for an image that is refused.
#[unsafe(no_mangle)]
pub extern "C" fn cerambiu_flat_steps(img: &[u32]) -> usize
    ensures { result ≡ cond (eqb (image_refusal img.now) 0) (length (stored (flatten_rules img.now))) 0 }
{
    let Ok(image) = Loadable::of(img) else {
        return 0;
    };
    flat::rules::flatten_rules(image.words(), &mut [], &mut []).unwrap_or(0)
}

// 20 to 22, 0 for none.
#[unsafe(no_mangle)]
pub extern "C" fn cerambiu_snapshot_refusal(snapshot: &[u32]) -> u32
    ensures { result ≡ snapshot_refusal snapshot.now }
{
    model::refusal_number(world::refusal(snapshot))
}

// Whether the words are as many as a store has, and fit its layout.
#[unsafe(no_mangle)]
pub extern "C" fn cerambiu_store_shaped(store: &[u32]) -> bool
    ensures { result ≡ eqb (length store.now) 16384 && parts_fit layout.parts store.now }
{
    store::shaped(store)
}

// Whether the words are those of a store that keeps the rules.
#[unsafe(no_mangle)]
pub extern "C" fn cerambiu_store_check(store: &[u32]) -> bool
    ensures { result ≡ present (read store.now) }
{
    store::check(store)
}

// The solar starts of a rule, of a store that keeps the store rules: document 02, request 4.
ghost use Rattle.std.specs.Prelude.{◌≡◌, length, replicate};
ghost use Rattle.model.specs.Asked.{shown_result};
ghost use Rattle.model.specs.Readback.{count_values, readback};

use model::Refusal;
use store::checked::Checked;
use world::accepted::Accepted;

// In the world of a snapshot that is accepted, in words that are 0. An unknown rule has none, and none has any where no set is loaded.
pub fn readback(
    store: &Checked,
    rule: u32,
    snapshot: &Accepted,
    starts: &mut [u32],
) -> Result<u32, Refusal>
    requires { starts.old ≡ replicate (length starts.old) 0 }
    ensures { shown_result count_values result starts.new ≡ readback rule snapshot.now (length starts.old) store.now }
{
    let Some(image) = store.image() else {
        return Ok(0);
    };
    match image.rule_named(rule) {
        Some(i) => solar::write(&image, i, world::sun(snapshot.words()), starts),
        None => Ok(0),
    }
}

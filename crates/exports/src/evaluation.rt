// Conditions and values of an image, by their place in its tables. What is given is checked first: nothing is asked of the caller.
ghost use Rattle.std.specs.Prelude.{◌≡◌, IfOk};
ghost use Rattle.std.specs.Result.{is_ok};
ghost use Rattle.exports.specs.Answers as answers;
ghost use Rattle.model.specs.Image.{size_of};
ghost use Rattle.model.specs.Rows.{rules};
ghost use Rattle.model.specs.Store.{volatile_in};
ghost use Rattle.state.specs.Meaning.{AllNumbered};
ghost use Rattle.store.specs.Volatile.{Readable, changing_in};

use eval::Env;
use eval::conditions::condition_at;
use eval::values::value_at;
use image::layout::{Image, Table};
use load::Loadable;
use model::Refusal;
use state::State;
use store::checks::Rows;
use store::table::VARIABLES;

// Whether the words of a store fit its layout, and its texts are numbers of one word.
fn readable(store: &[u32]) -> bool
    ensures { result ≡ answers.readable store.now }
{
    store::shaped(store) && Rows::counted(store, VARIABLES).texts_short()
}

// The image, where nothing that is given is refused.
fn given<'a>(snapshot: &[u32], image: &'a [u32], store: &[u32]) -> Result<Loadable<'a>, Refusal>
    ensures given { is_ok result ≡ answers.given snapshot.now image.now store.now }
    ensures value { IfOk result (λ i. i ≡ image.now) }
{
    world::refusal(snapshot)?;
    let image = Loadable::of(image)?;
    if !readable(store) {
        return Err(Refusal::StoreRule);
    }
    Ok(image)
}

// What the store keeps, for the rules of the image.
fn begin(image: &Loadable, store: &[u32], v: &mut State)
    requires { Readable store.now }
    ensures { AllNumbered v.new (volatile_in (size_of image.now rules) (changing_in store.now)) }
{
    let image = Image::new(image.words());
    store::volatile::begin(store, image.size_of(Table::Rules) as usize, &mut v.words);
}

fn verdict_code(v: Option<bool>) -> u32
    ensures { result ≡ answers.verdict_code v }
{
    v.map_or(2, u32::from)
}

fn put_number(answer: &mut [u32; 3], mark: u32, x: u64)
    ensures { answer.new ≡ answers.marked mark x }
{
    *answer = [mark, words::low_word(x), words::high_word(x)];
}

// Whether condition i of the image holds.
#[unsafe(no_mangle)]
pub extern "C" fn cerambiu_condition(snapshot: &[u32], image: &[u32], store: &[u32], i: u32) -> u32
    ensures { result ≡ answers.condition_answer snapshot.now image.now store.now i }
{
    let Ok(image) = given(snapshot, image, store) else {
        return 3;
    };
    let mut v = State::new();
    begin(&image, store, &mut v);
    let env = Env {
        snapshot,
        image: &Image::new(image.words()),
        state: &v,
    };
    verdict_code(condition_at(&env, i))
}

// What value i of the image is.
// kept: this begins as the function above does. A state may not be returned, and `Env` borrows it and the image, so that one function for both would take a
// closure over `&Env`, with a contract over what any closure answers, and leave each of them its own answer where an argument is refused: no plainer.
#[unsafe(no_mangle)]
pub extern "C" fn cerambiu_value(
    snapshot: &[u32],
    image: &[u32],
    store: &[u32],
    i: u32,
    answer: &mut [u32; 3],
)
    ensures { answer.new ≡ answers.value_answer snapshot.now image.now store.now i }
{
    let Ok(image) = given(snapshot, image, store) else {
        put_number(answer, 3, 0);
        return;
    };
    let mut v = State::new();
    begin(&image, store, &mut v);
    let env = Env {
        snapshot,
        image: &Image::new(image.words()),
        state: &v,
    };
    match value_at(&env, i) {
        Some(z) => put_number(answer, 1, z.cast_unsigned()),
        None => put_number(answer, 2, 0),
    }
}

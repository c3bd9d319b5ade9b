// 71 without an image: what load would say of each action three times over is asked of the values and the pool once, and of each action.
ghost use Rattle.std.specs.Prelude.{◌≡◌, ◌≤◌, ◌<◌, ◌/◌, length};
ghost use Rattle.model.specs.Lists.{all, every};
ghost use Rattle.image.specs.Tables.{number_of};
ghost use Rattle.model.specs.ShortLists.{is_plain, record_fits};
ghost use Rattle.short_lists.specs.Checks.{leads_to, word_passes, record_passes, action_passes, actions_pass, values_pass, is_byte, data_sized};

use image::layout::Table;
use image::rows::field_of;
use model::Field;

// The words of a record.
const WIDTH: usize = 8;

// The words that an image of three actions leaves for values and pool: of an image's 4,096 words 53 are a rule, three actions and the trailer.
const ROOM: usize = 4043;

// Whether an action is none with a list of its own.
#[tactic(auto, unfolding(model::specs::ShortLists::is_plain))]
fn is_plain(kind: u32) -> bool
    ensures { result ≡ is_plain kind }
{
    !(kind == 24 || (kind == 26 || kind == 27))
}

// How many values and pool words there are: where the records may lead.
#[derive(Clone, Copy)]
struct Sizes {
    values: u32,
    pool: u32,
}

impl Sizes {
    // Whether the word w, with the word next behind it, leads to one of the values, or to pool words.
    #[tactic(auto, unfolding(crate::specs::Checks::leads_to))]
    fn leads(self, f: Field, w: u32, next: u32) -> bool
        ensures { result ≡ leads_to self.values self.pool f w next }
    {
        match f {
            Field::Free => true,
            Field::UpTo(_) => true,
            Field::Mark(_, _) => true,
            Field::Tag(_) => true,
            Field::Index(_) => w < self.values,
            Field::Span(_) => w as u64 + next as u64 <= self.pool as u64,
            Field::Nested => true,
        }
    }

    // Whether word j of a record is in its range and leads where it may.
    // kept: beside image's `word_passes`, which reads a word of an image: here is one record of no image, and where a field leads is told by two sizes.
    #[tactic(auto, unfolding(crate::specs::Checks::word_passes, crate::specs::Checks::field_passes))]
    fn word_passes(self, t: Table, words: &[u32], j: u32) -> bool
        requires { j < 8 }
        ensures { result ≡ word_passes self.values self.pool (number_of t) words.now j }
    {
        let f = field_of(t, fields::word(words, 0), fields::word(words, 1), j);
        let w = fields::word(words, j as usize);
        let next = fields::word(words, j as usize + 1);
        fields::in_range(f, w, next) && self.leads(f, w, next)
    }

    fn record_passes(self, t: Table, words: &[u32]) -> bool
        ensures { result ≡ record_passes self.values self.pool (number_of t) words.now }
    {
        (0..8).all(|j| self.word_passes(t, words, j))
    }

    #[tactic(auto, unfolding(crate::specs::Checks::action_passes))]
    fn action_passes(self, words: &[u32]) -> bool
        ensures { result ≡ action_passes self.values self.pool words.now }
    {
        is_plain(fields::word(words, 0)) && self.record_passes(Table::Actions, words)
    }

    // kept: `chunks_exact`, here and below, and no `as_chunks`, as it would be no plainer: what reads a record asks for no length.
    fn actions_pass(self, actions: &[u32]) -> bool
        ensures { result ≡ actions_pass self.values self.pool actions.now }
    {
        actions
            .chunks_exact(WIDTH)
            .all(|words| self.action_passes(words))
    }

    fn values_pass(self, values: &[u32]) -> bool
        ensures { result ≡ values_pass self.values self.pool values.now }
    {
        values
            .chunks_exact(WIDTH)
            .all(|words| self.record_passes(Table::Values, words))
    }
}

// Whether an image has room for values and pool, and the values are whole records.
#[tactic(auto, unfolding(crate::specs::Checks::data_sized))]
fn data_sized(values: &[u32], pool: &[u32]) -> bool
    ensures { result ≡ data_sized values.now pool.now }
{
    values.len() + pool.len() <= ROOM && values.len() % WIDTH == 0
}

fn pool_passes(pool: &[u32]) -> bool
    ensures { result ≡ all is_byte pool.now }
{
    pool.iter().all(|w| *w <= 255)
}

// 71: whether load accepts every record.
pub fn records_fit(actions: &[u32], values: &[u32], pool: &[u32]) -> bool
    requires { 8 ≤ length actions.now }
    ensures { result ≡ every (length actions.now / 8) (record_fits actions.now values.now pool.now) }
{
    if !data_sized(values, pool) {
        return false;
    }
    let sizes = Sizes {
        values: (values.len() / WIDTH) as u32,
        pool: pool.len() as u32,
    };
    sizes.values_pass(values) && (pool_passes(pool) && sizes.actions_pass(actions))
}

// What a word of a record mentions.
ghost use Rattle.std.specs.Prelude.{◌≡◌, ◌*◌, ◌<◌, ◌≤◌};
ghost use Rattle.model.specs.Image as model_image;
ghost use Rattle.rewrite.specs.Mention as mention;

use image::layout::{Image, Table};
use image::rows::field_of;
use model::Field;

// What stands at a word of a record: the records that it mentions, none where count is 0; the word, where it is not their place; and the
// tag in front of it, if there is one.
// kept: a table by its number, here and in walk.rt, as a field of the image names it, and as the counts and the places of the tables are read.
#[derive(Clone, Copy)]
pub struct Mention {
    pub table: u32,
    pub first: u32,
    pub count: u32,
    pub tag: Option<u32>,
    pub word: Option<u32>,
}

// The words of a record of a table.
pub fn width_of(t: u32) -> u32
    requires { t < 8 }
    ensures { (result ≡ model_image.width_of t) × (1 ≤ result) × (result ≤ 16) }
{
    Table::ALL[t as usize].width()
}

impl Mention {
    // A word that is written as it is.
    fn plain(word: u32) -> Mention
        ensures { result ≡ mention.plain word }
    {
        Mention {
            table: 0,
            first: 0,
            count: 0,
            tag: None,
            word: Some(word),
        }
    }

    // Records of a table, in whose place their place is written.
    pub fn list(table: u32, first: u32, count: u32) -> Mention
        ensures { result ≡ mention.list_at table first count }
    {
        Mention {
            table,
            first,
            count,
            tag: None,
            word: None,
        }
    }

    fn behind_tag(self, tag: u32) -> Mention
        ensures { result ≡ mention.behind_tag tag self }
    {
        Mention {
            tag: Some(tag),
            ..self
        }
    }

    // By its field, where more says that a word stands behind it.
    #[tactic(auto, unfolding(crate::specs::Mention::mention_of))]
    fn of(f: Field, more: bool, w: u32, next: u32) -> Mention
        ensures { result ≡ mention.mention_of f more w next }
    {
        match f {
            Field::Tag(t) if more && w == 0 => Mention::list(t, next, 1).behind_tag(w),
            Field::Tag(_) if more => Mention::plain(next).behind_tag(w),
            Field::Index(t) => Mention::list(t, w, 1),
            Field::Span(t) if more => Mention::list(t, w, next),
            Field::Nested if more => Mention::list(Table::Actions as u32, w, next),
            _ => Mention::plain(w),
        }
    }

    // What stands at word j of record i of table t.
    #[tactic(auto, unfolding(crate::specs::Mention::mention_at))]
    pub fn at(image: &Image, t: u32, i: u32, j: u32) -> Mention
        requires { (t < 8) × (j < 16) }
        ensures { result ≡ mention.mention_at image.now t i j }
    {
        let table = Table::ALL[t as usize];
        let kind = image.word_at(table, i, 0);
        let code = image.word_at(table, i, 1);
        let f = field_of(table, kind, code, j);
        let w = image.word_at(table, i, j);
        let next = image.word_at(table, i, j + 1);
        Mention::of(f, j + 1 < table.width(), w, next)
    }

    // The words that it takes.
    pub fn steps(self) -> u8
        ensures { (result ≡ mention.steps_of self) × (result ≤ 2) }
    {
        if self.tag.is_some() { 2 } else { 1 }
    }

    // The words of its records.
    pub fn size(self) -> u32
        requires { (self.table < 8) × (self.count ≤ 4096) }
        ensures { result ≡ model_image.width_of self.table * self.count }
    {
        width_of(self.table) * self.count
    }
}

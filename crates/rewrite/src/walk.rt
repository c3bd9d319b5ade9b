// The walk through the records of an image, with a list of what is still to be walked: lists nest up to 511 deep.
ghost use Rattle.std.specs.Prelude.{◌≡◌, ◌+◌, ◌*◌, ◌<◌, ◌≤◌, length, get_or, set};
ghost use Rattle.model.specs.Image.{size_of};
ghost use Rattle.image.specs.Accepted.{Accepted};
ghost use Rattle.image.specs.Tables.{number_of};
ghost use Rattle.rewrite.specs.Mention as mention_of;
ghost use Rattle.rewrite.specs.Mention.{mention_at, last_word};
ghost use Rattle.rewrite.specs.Walk as walk_of;
ghost use Rattle.rewrite.specs.Frames.{Within, entered, passed};

use crate::mention::{Mention, width_of};
use arrayvec::ArrayVec;
use image::layout::{Image, Table};

// The most words of an image.
pub const MOST_WORDS: u32 = 4096;

// A list has a record of 8 words at least, or it is one of pool words, in which no list nests.
const DEEPEST: usize = 512;

// A list that the walk is in: the next record, its next word, how many records are left, and the row that the next one is written to.
#[derive(Clone, Copy, Default)]
pub struct Frame {
    pub table: u8,
    pub word: u8,
    pub from: u16,
    pub left: u16,
    pub row: u16,
}

impl Frame {
    // The list that a mention leads to, at its first word.
    fn enter(counts: &[u32], m: Mention) -> Frame
        requires { (m.table < 8) × (m.first + m.count ≤ 4096) × (get_or counts.now m.table 0 ≤ 4096) }
        ensures { result ≡ entered counts.now m }
    {
        Frame {
            table: m.table as u8,
            word: 0,
            from: m.first as u16,
            left: m.count as u16,
            row: fields::word(counts, m.table as usize) as u16,
        }
    }

    // What stands at the next word.
    fn mention(self, image: &Image) -> Mention
        requires { Within image.now self }
        ensures { result ≡ mention_at image.now self.table self.from self.word }
    {
        Mention::at(image, self.table as u32, self.from as u32, self.word as u32)
    }

    // Behind a mention: the next word of the record, or the next record.
    fn pass(self, m: Mention) -> Frame
        requires { (self.table < 8) × (self.word < 16) × (1 ≤ self.left) × (self.from ≤ 4096) × (self.row ≤ 8192) }
        ensures { result ≡ passed self m }
    {
        let word = self.word + m.steps();
        if word as u32 == width_of(self.table as u32) {
            return Frame {
                table: self.table,
                word: 0,
                from: self.from + 1,
                left: self.left - 1,
                row: self.row + 1,
            };
        }
        Frame { word, ..self }
    }

    // Where the next word is written.
    fn place(self, firsts: &[u32]) -> usize
        requires { self.table < 8 }
        ensures { (result ≡ walk_of.word_place firsts.now self.table self.row self.word) × (result < 8589934592) }
    {
        let first = fields::word(firsts, self.table as usize);
        let width = width_of(self.table as u32);
        first as usize + width as usize * self.row as usize + self.word as usize
    }
}

// The word at a place, where there is room for it.
pub fn put(words: &mut [u32], at: usize, w: u32)
    ensures { words.new ≡ set words.old at w }
{
    if at < words.len() {
        words[at] = w;
    }
}

// The last word of a mention: the place of its records, 0 where there are none, or a word that is no place.
fn last_word(counts: &[u32], m: Mention) -> u32
    ensures { result ≡ last_word m (get_or counts.now m.table 0) }
{
    match m.word {
        Some(word) => word,
        None if m.count == 0 => 0,
        None => fields::word(counts, m.table as usize),
    }
}

// The words of a mention.
fn put_mention(words: &mut [u32], counts: &[u32], firsts: &[u32], f: Frame, m: Mention)
    requires { f.table < 8 }
    ensures { record { counts = counts.now; words = words.new } ≡ walk_of.put_mention firsts.now m f.table f.row f.word (record { counts = counts.now; words = words.old }) }
{
    let at = f.place(firsts);
    let last = last_word(counts, m);
    let Some(tag) = m.tag else {
        put(words, at, last);
        return;
    };
    put(words, at, tag);
    put(words, at + 1, last);
}

// The records of a mention are appended to their table.
fn append(counts: &mut [u32], m: Mention)
    requires { (length counts.old ≡ 8) × (m.table < 8) × (m.count ≤ 4096) × (get_or counts.old m.table 0 ≤ 4096) }
    ensures { counts.new ≡ set counts.old m.table (get_or counts.old m.table 0 + m.count) }
{
    counts[m.table as usize] += m.count;
}

// All records of a table.
fn all_records(image: &Image, table: Table) -> Mention
    ensures { result ≡ mention_of.list_at (number_of table) 0 (size_of image.now (number_of table)) }
{
    Mention::list(table as u32, 0, image.size_of(table))
}

// All records of a table of rules or blocks, with all that they mention, behind an image of size words. The size then; the walk stops
// where it is above 4,096.
// kept: words, counts and places side by side, here and in `put_mention`: a struct of them would hold two `&mut`, and be taken apart where they are written.
pub fn walk_table(
    image: &Image,
    words: &mut [u32],
    counts: &mut [u32],
    firsts: &[u32],
    behind: u32,
    table: Table,
) -> u32
    requires image { Accepted image.now }
    requires counts { (length counts.old ≡ 8) × (behind ≡ walk_of.size_for counts.old) × (behind ≤ 4096) × (number_of table < 2) }
    ensures { walk_of.Walked (walk_of.walk_table firsts.now image.now (number_of table) (record { counts = counts.old; words = words.old })) (length words.old) result counts.new words.new }
{
    let all = all_records(image, table);
    let mut here = Frame::enter(counts, all);
    append(counts, all);
    let mut size = behind + all.size();
    let mut frames: ArrayVec<Frame, DEEPEST> = ArrayVec::new();
    while size <= MOST_WORDS {
        if here.left == 0 {
            let Some(above) = frames.pop() else {
                return size;
            };
            here = above;
            continue;
        }
        let m = here.mention(image);
        put_mention(words, counts, firsts, here, m);
        here = here.pass(m);
        if m.count == 0 {
            continue;
        }
        frames.push(here);
        here = Frame::enter(counts, m);
        append(counts, m);
        size += m.size();
    }
    size
}

// The rules and the blocks, with all that they mention.
pub fn walk_tables(image: &Image, words: &mut [u32], counts: &mut [u32], firsts: &[u32]) -> u32
    requires image { Accepted image.now }
    requires counts { (length counts.old ≡ 8) × (13 ≡ walk_of.size_for counts.old) }
    ensures { walk_of.Walked (walk_of.walk_tables firsts.now image.now (record { counts = counts.old; words = words.old })) (length words.old) result counts.new words.new }
{
    let size = walk_table(image, words, counts, firsts, 13, Table::Rules);
    if size > MOST_WORDS {
        return size;
    }
    walk_table(image, words, counts, firsts, size, Table::Blocks)
}

// The table of calls: the rows of the definition.
ghost use Rattle.std.specs.Prelude.{◌≡◌, ◌≤◌, ltb, length, map, get_or};
ghost use Rattle.std.specs.Str.{bytes_eq};
ghost use Rattle.script.specs.Table.{rows, param_name, most_of, all_rows, row_of, no_param, number_of, largest_at};
ghost use Rattle.script.specs.Script.{call_named};
ghost use Rattle.script.specs.Print.{call_name};

// The words that a script can have lent for outcomes and for effects, and the words of a list.
pub const OUTCOME_WORDS: usize = 24576;

pub const EFFECT_WORDS: usize = 327680;

pub const LIST_WORDS: usize = 8192;

// The words of a store, and at most those of the triggers of a line of a crontab and of the solar starts of a rule.
// kept: the words of a store, as `store::table::WORDS` has them too: neither crate stands on the other.
const STORE_WORDS: usize = 16384;

const TRIGGER_WORDS: usize = 16384;

const START_WORDS: usize = 16384;

#[derive(Clone, Copy, PartialEq, Eq)]
pub enum Call {
    New,
    Load,
    Unload,
    Enable,
    Tick,
    Run,
    Deadline,
    Counters,
    Lend,
    Size,
    Poke,
    Peek,
    Telegrams,
    Crontab,
    Start,
    RoomFor,
    ShortList,
    Rewrite,
    Readback,
}

#[derive(Clone, Copy, PartialEq, Eq)]
pub enum Param {
    Time,
    Rule,
    Mark,
    DryMark,
    OutcomeWords,
    EffectWords,
    WordCount,
    Place,
    Word,
    Room,
    Sunday,
    TriggerWords,
    ListNumber = 13,
    ActionWords,
    ValueWords,
    PoolWords,
    StartWords,
}

// The number of no parameter.
const NO_PARAM: u32 = 12;

// What stands behind the numbers of a call.
#[derive(Clone, Copy, PartialEq, Eq)]
pub enum Tail {
    Nothing,
    Words,
    // As many words as the numbers behind the first say.
    Parts,
    Text,
}

// A row of the table: up to four parameters.
#[derive(Clone, Copy)]
struct Shape {
    name: &'static str,
    params: &'static [Param],
    tail: Tail,
}

impl Shape {
    // kept: a function for the struct's literal, which would be no plainer: with the names of its fields a row of the table would be four lines.
    fn new(name: &'static str, params: &'static [Param], tail: Tail) -> Self
        ensures name { result.name.now ≡ name.now }
        ensures params { result.params.now ≡ params.now }
        ensures tail { result.tail ≡ tail }
    {
        Shape { name, params, tail }
    }
}

const CALLS: [Call; 19] = [
    Call::New,
    Call::Load,
    Call::Unload,
    Call::Enable,
    Call::Tick,
    Call::Run,
    Call::Deadline,
    Call::Counters,
    Call::Lend,
    Call::Size,
    Call::Poke,
    Call::Peek,
    Call::Telegrams,
    Call::Crontab,
    Call::Start,
    Call::RoomFor,
    Call::ShortList,
    Call::Rewrite,
    Call::Readback,
];

// Which list, and how many words each part of the list that follows has.
static SHORT_LIST: [Param; 4] = [
    Param::ListNumber,
    Param::ActionWords,
    Param::ValueWords,
    Param::PoolWords,
];

impl Call {
    fn shape(self) -> Shape
        ensures name { result.name.now ≡ (rows self).name }
        ensures params { result.params.now ≡ (rows self).params }
        ensures few { length result.params.now ≤ 4 }
        ensures tail { result.tail ≡ (rows self).tail }
    {
        match self {
            Call::New => Shape::new("new", &[Param::Time], Tail::Nothing),
            Call::Load => Shape::new("load", &[Param::Time], Tail::Words),
            Call::Unload => Shape::new("unload", &[Param::Time], Tail::Nothing),
            Call::Enable => Shape::new("enable", &[Param::Rule, Param::Mark], Tail::Nothing),
            Call::Tick => Shape::new("tick", &[], Tail::Words),
            Call::Run => Shape::new("run", &[Param::Rule, Param::DryMark], Tail::Words),
            Call::Deadline => Shape::new("deadline", &[], Tail::Nothing),
            Call::Counters => Shape::new("counters", &[], Tail::Nothing),
            Call::Lend => {
                Shape::new(
                    "lend",
                    &[Param::OutcomeWords, Param::EffectWords],
                    Tail::Nothing,
                )
            }
            Call::Size => Shape::new("size", &[Param::WordCount], Tail::Nothing),
            Call::Poke => Shape::new("poke", &[Param::Place, Param::Word], Tail::Nothing),
            Call::Peek => Shape::new("peek", &[Param::Place], Tail::Nothing),
            Call::Telegrams => Shape::new("telegrams", &[Param::Room], Tail::Words),
            Call::Crontab => Shape::new(
                "crontab",
                &[Param::Sunday, Param::TriggerWords],
                Tail::Text,
            ),
            Call::Start => Shape::new("start", &[], Tail::Words),
            Call::RoomFor => Shape::new("room", &[], Tail::Words),
            Call::ShortList => Shape::new("shortlist", &SHORT_LIST, Tail::Parts),
            Call::Rewrite => Shape::new("rewrite", &[Param::Room], Tail::Words),
            Call::Readback => {
                Shape::new("readback", &[Param::Rule, Param::StartWords], Tail::Words)
            }
        }
    }

    pub fn params(self) -> &'static [Param]
        ensures params { result.now ≡ (rows self).params }
        ensures few { length result.now ≤ 4 }
    {
        self.shape().params
    }

    pub fn tail(self) -> Tail
        ensures { result ≡ (rows self).tail }
    {
        self.shape().tail
    }

    pub fn name(self) -> &'static str
        ensures { result.now ≡ call_name self }
    {
        self.shape().name
    }

    fn is_named(self, word: &[u8]) -> bool
        ensures { result ≡ bytes_eq (rows self).name word.now }
    {
        self.shape().name.as_bytes() == word
    }

    // The call of a name.
    #[tactic(auto, unfolding(crate::specs::Script::call_named, crate::specs::Table::calls))]
    pub fn named(word: &[u8]) -> Option<Call>
        ensures { result ≡ call_named rows word.now }
    {
        CALLS.iter().copied().find(|call| call.is_named(word))
    }
}

// The row of the call of a number; that of no call has no name and no parameters, and nothing stands behind it.
fn row(call: u32) -> Shape
    ensures name { result.name.now ≡ (row_of all_rows call).name }
    ensures short { length result.name.now ≤ 32 }
    ensures params { result.params.now ≡ (row_of all_rows call).params }
    ensures tail { result.tail ≡ (row_of all_rows call).tail }
{
    match CALLS.get(call as usize) {
        Some(call) => call.shape(),
        None => Shape::new("", &[], Tail::Nothing),
    }
}

// The name of the call of a number.
pub(crate) fn name_of(call: u32) -> &'static str
    ensures name { result.now ≡ (row_of all_rows call).name }
    ensures short { length result.now ≤ 32 }
{
    row(call).name
}

// What stands behind the numbers of a call, by the call's number.
pub fn tail_of(call: u32) -> Tail
    ensures { result ≡ (row_of all_rows call).tail }
{
    row(call).tail
}

// The number of parameter i of a call; 12 where it has none.
pub fn param_at(call: u32, i: u32) -> u32
    ensures { result ≡ get_or (map number_of (row_of all_rows call).params) i no_param }
{
    match row(call).params.get(i as usize) {
        Some(param) => *param as u32,
        None => NO_PARAM,
    }
}

// Whether a call has parameter i.
pub fn has_param(call: u32, i: u32) -> bool
    ensures { result ≡ ltb i (length (row_of all_rows call).params) }
{
    (i as usize) < row(call).params.len()
}

// Its largest number; 0 where the call has no parameter i.
pub fn largest(call: u32, i: u32) -> u64
    ensures { result ≡ largest_at call i }
{
    match row(call).params.get(i as usize) {
        Some(param) => param.most(),
        None => 0,
    }
}

impl Param {
    pub fn name(self) -> &'static str
        ensures { result.now ≡ param_name self }
    {
        match self {
            Param::Time => "time",
            Param::Rule => "rule",
            Param::Mark => "mark",
            Param::DryMark => "dry mark",
            Param::OutcomeWords => "number of outcome words",
            Param::EffectWords => "number of effect words",
            Param::WordCount => "number of words",
            Param::Place => "place",
            Param::Word => "word",
            Param::Room => "room",
            Param::Sunday => "Sunday",
            Param::TriggerWords => "number of trigger words",
            Param::ListNumber => "list number",
            Param::ActionWords => "number of action words",
            Param::ValueWords => "number of value words",
            Param::PoolWords => "number of pool words",
            Param::StartWords => "number of start words",
        }
    }

    // Its largest number.
    pub fn most(self) -> u64
        ensures { result ≡ most_of self }
    {
        match self {
            Param::Time => u64::MAX,
            Param::Rule | Param::WordCount | Param::Word | Param::Sunday | Param::ListNumber => {
                u32::MAX as u64
            }
            Param::Mark | Param::DryMark => 1,
            Param::OutcomeWords => OUTCOME_WORDS as u64,
            Param::EffectWords => EFFECT_WORDS as u64,
            Param::Place => STORE_WORDS as u64 - 1,
            Param::Room | Param::ActionWords | Param::ValueWords | Param::PoolWords => {
                LIST_WORDS as u64
            }
            Param::TriggerWords => TRIGGER_WORDS as u64,
            Param::StartWords => START_WORDS as u64,
        }
    }
}

// The data types that the specification and the code share, and no logic but the number of a refusal or of a trigger and the tests of a mode. Names and fields
// are the Rust's; a field that is an index leads into a table of the image, and a nested list is its first record and its count.
// kept: one file, though it has more than 400 lines: the specification names each type by `model::specs::declared`, and a module would stand in each of those names.

#![tactic(auto)]

ghost use Rattle.std.specs.Prelude.{◌≡◌};
ghost use Rattle.model.specs.Activate.{is_auto, is_dry};
ghost use Rattle.model.specs.Kinds.{trigger_number};
ghost use Rattle.model.specs.Refusals.{refusal_code, refusal_number};

// What a word of a record may be: document 01, refusals 13, 14 and 21.
// kept: a table is a number here, as in the specification, whose definitions number the tables of an image and take a snapshot's fields for the same type; the code's enum of
// tables, `image::layout::Table`, stands above this crate.
#[derive(Clone, Copy)]
pub enum Field {
    // Any word.
    Free,
    // At most this.
    UpTo(u32),
    // At most the first number; the word behind it is void, that is 0, unless this one is the second number.
    Mark(u32, u32),
    // 0: an index into the table is behind it; 1: a free word.
    Tag(u32),
    // A record of the table.
    Index(u32),
    // The first record of a list in the table, its count behind it.
    Span(u32),
    // The same in the actions, and a list that is not empty starts after its holder.
    Nested,
}

// A record of an image: its kind and the fields behind it.
#[derive(Clone, Copy)]
pub struct Record {
    pub kind: u32,
    pub a: u32,
    pub b: u32,
    pub c: u32,
    pub d: u32,
    pub e: u32,
}

// The error of what cannot be evaluated: of an action, and of the image's answer for a light.
#[derive(Clone, Copy)]
pub struct Unevaluable;

// What a variable is set to: the 64 bits of an integer, or a text, by its number, with its length.
#[derive(Clone, Copy)]
pub enum VarConstant {
    Int(u64),
    Text { text: u32, bytes: u32 },
}

// Action kinds 0 to 22: the arms of `run_prim` and its callees; and kind 28, which stands with the lights. A `hold` is None where the rule's stands
// for it, a scene where it cannot be told. The answer for a light is a verb or none.
// kept: `present` and `retain` are words and no bools, and so is what a `hold` holds: an effect carries them on as they are.
// kept: no struct of adapter, address and instance, nor of adapter and id, here and in `Condition` and `Reading`, as it would be no plainer: an effect carries these
// words on one by one, and the functions of world that search with them take them one by one, as the Rust's do. A struct would be put together
// in image and taken apart in eval and exec, and nothing would be said once that is said twice now.
#[derive(Clone, Copy)]
pub enum Action {
    Light {
        target: u32,
        hold: Option<u32>,
        answer: Result<Option<u32>, Unevaluable>,
    },
    Recall {
        scene: Option<u32>,
        present: u32,
        target: u32,
    },
    Apply {
        scene: Option<u32>,
    },
    Cycle {
        first: u32,
        count: u32,
    },
    // Kind 28. The value is in parts per million of full light.
    Percent {
        target: u32,
        hold: Option<u32>,
        value: u32,
    },
    HclResume {
        target: u32,
    },
    HclHold {
        target: u32,
    },
    HclEnable {
        schedule: u32,
    },
    HclDisable {
        schedule: u32,
    },
    FeedbackOn {
        adapter: u32,
        address: u32,
        instance: u32,
    },
    FeedbackOff {
        adapter: u32,
        address: u32,
        instance: u32,
    },
    PanelSelect {
        adapter: u32,
        group: u32,
        selected: u32,
    },
    CancelHold {
        adapter: u32,
        address: u32,
        instance: u32,
    },
    CatchMovement {
        adapter: u32,
        address: u32,
        instance: u32,
    },
    TimerStart {
        timer: u32,
        duration_ms: u32,
    },
    TimerRestart {
        timer: u32,
        duration_ms: u32,
    },
    TimerCancel {
        timer: u32,
    },
    VarSet {
        name: u32,
        value: VarConstant,
    },
    VarAdd {
        name: u32,
        delta: u32,
    },
    RuleEnable {
        rule: u32,
    },
    RuleDisable {
        rule: u32,
    },
    MqttPublish {
        topic: u32,
        payload: u32,
        retain: u32,
    },
    Log {
        text: u32,
    },
    StatCount {
        name: u32,
    },
}

// Action kinds 23 to 27; every other action is plain.
#[derive(Clone, Copy)]
pub enum FlowAction {
    Wait {
        duration_ms: u32,
    },
    After {
        delay_ms: u32,
        first: u32,
        count: u32,
    },
    Call {
        block: u32,
    },
    Repeat {
        times: u32,
        first: u32,
        count: u32,
    },
    Conditional {
        condition: u32,
        then_first: u32,
        then_count: u32,
        else_first: u32,
        else_count: u32,
    },
    Plain,
}

// How two numbers or two texts are compared.
#[derive(Clone, Copy, PartialEq, Eq)]
pub enum Cmp {
    Eq,
    Ne,
    Ge,
    Le,
    Gt,
    Lt,
}

#[derive(Clone, Copy)]
pub enum SolarEvent {
    Sunrise,
    Sunset,
}

#[derive(Clone, Copy)]
pub enum GroupAggregate {
    AnyOn,
    AllOff,
}

#[derive(Clone, Copy)]
pub enum HclState {
    Enabled,
    Overridden,
}

// What a variable is compared with: a value, by its record, or a text, by its number.
#[derive(Clone, Copy)]
pub enum VarOperand {
    Value(u32),
    Text(u32),
}

// The arms of `eval_condition`. A comparison is None where the word of the image is none of the six.
#[derive(Clone, Copy)]
pub enum Condition {
    TimeInRange {
        start: u32,
        end: u32,
    },
    DayIn {
        days: u32,
    },
    SunIs {
        up: bool,
    },
    LampIs {
        adapter: u32,
        id: u32,
        on: bool,
    },
    LampLevel {
        adapter: u32,
        id: u32,
        cmp: Option<Cmp>,
        value: u32,
    },
    LampCct {
        adapter: u32,
        id: u32,
        cmp: Option<Cmp>,
        value: u32,
    },
    GroupState {
        adapter: u32,
        id: u32,
        state: GroupAggregate,
    },
    InputOccupancy {
        adapter: u32,
        address: u32,
        instance: u32,
        occupied: bool,
    },
    InputLight {
        adapter: u32,
        address: u32,
        instance: u32,
        above: bool,
        threshold: u32,
    },
    HclState {
        target: u32,
        state: HclState,
    },
    DeviceOnline {
        adapter: u32,
        address: u32,
    },
    RuleEnabled {
        rule: u32,
    },
    LastFiredOlderThan {
        rule: u32,
        than_ms: u32,
    },
    TimerRunning {
        timer: u32,
    },
    ControllerActive,
    VarCompare {
        name: u32,
        cmp: Option<Cmp>,
        operand: VarOperand,
    },
}

// The arms of `eval_reading`: of a lamp or a group by adapter and id, of an input by adapter, address and instance.
#[derive(Clone, Copy)]
pub enum Reading {
    LampLevel(u32, u32),
    LampCct(u32, u32),
    LampIsOn(u32, u32),
    LampLastLevel(u32, u32),
    GroupAnyOn(u32, u32),
    GroupAllOff(u32, u32),
    GroupMemberCount(u32, u32),
    InputOccupied(u32, u32, u32),
    InputLight(u32, u32, u32),
    InputPosition(u32, u32, u32),
    InputLastEventAge(u32, u32, u32),
    TimeNow,
    TimeHour,
    TimeMinute,
    TimeWeekday,
    SunRise,
    SunSet,
    SunIsUp,
    // A variable, by its name.
    Var(u32),
    EventValue,
    EventDevice,
    EventInstance,
    EventOption,
}

#[derive(Clone, Copy)]
pub enum Value {
    Literal { low: u32, high: u32 },
    Reading { reading: Reading },
    // Signed milliseconds, as bits.
    Offset { reading: Reading, delta: u32 },
}

#[derive(Clone, Copy)]
pub enum TimeBound {
    Clock { hour: u32, minute: u32 },
    // Signed milliseconds, as bits.
    Solar { event: SolarEvent, offset_ms: u32 },
}

#[derive(Clone, Copy)]
pub enum Trigger {
    TimerFires { timer: u32 },
    Every { period_ms: u32 },
    // Bit d for weekday d.
    AtTime { hour: u32, minute: u32, days: u32 },
    AtSolar { event: SolarEvent, offset_ms: u32 },
    // Any other: never due here.
    Other,
}

// What a snapshot says, as in world.rs: document 01, "Snapshot".
#[derive(Clone, Copy)]
pub struct WallTime {
    pub weekday: u32,
    pub minutes_of_day: u32,
}

#[derive(Clone, Copy)]
pub struct SunTimes {
    pub sunrise_min: u32,
    pub sunset_min: u32,
}

#[derive(Clone, Copy)]
pub struct LampState {
    pub adapter_id: u32,
    pub id: u32,
    pub level: Option<u32>,
    pub cct_kelvin: Option<u32>,
    pub is_on: bool,
    pub last_level: Option<u32>,
}

#[derive(Clone, Copy)]
pub struct GroupState {
    pub adapter_id: u32,
    pub id: u32,
    pub any_on: bool,
    pub all_off: bool,
    pub member_count: u32,
}

#[derive(Clone, Copy)]
pub struct DeviceState {
    pub adapter_id: u32,
    pub short_address: u32,
    pub online: bool,
}

#[derive(Clone, Copy)]
pub struct InputState {
    pub adapter_id: u32,
    pub short_address: u32,
    pub instance_number: u32,
    // kept: the word as it stands, 0 or 1. As a bool the definition would say something else of a word past 1, which refusal 21 names.
    pub occupied: Option<u32>,
    pub light: Option<u32>,
    pub position: Option<u32>,
    pub last_event_age_ms: Option<u32>,
}

#[derive(Clone, Copy)]
pub struct HclTargetState {
    pub target: u32,
    pub enabled: bool,
    pub overridden: bool,
}

// Where an action stands while it is flattened, without the depth; `limit` is the repeat limit.
#[derive(Clone, Copy)]
pub struct FlattenCtx {
    pub limit: u32,
    pub in_repeat: bool,
    pub in_conditional: bool,
    pub in_after: bool,
}

// A flat step, the Rust's `FlatStep`: document 01, "Flat steps".
#[derive(Clone, Copy)]
pub enum Step {
    // A primitive action, by its record.
    Primitive(u32),
    // Milliseconds.
    Wait(u32),
    // A condition, by its record, and how many steps the then-region and the else-region take up behind it.
    Branch(u32, u32, u32),
    // Milliseconds. Its body is a list of its own.
    After(u32),
    Fail,
}

// Where a jump is taken, and where it leads: past the else-region.
#[derive(Clone, Copy, PartialEq, Eq)]
pub struct Jump {
    pub at: u32,
    pub to: u32,
}

// A place in one of a rule's lists, with its jump, which it has exactly while it is inside a then-region. List 0 is the rule's own, list p + 1 the body of the after at place p of it.
#[derive(Clone, Copy, Default)]
pub struct Point {
    pub list: u32,
    pub place: u32,
    pub jump: Option<Jump>,
}

#[derive(Clone, Copy, Default)]
pub struct NamedTimer {
    pub name: u32,
    pub due: u64,
}

// An integer is kept as its 64 bits, a text as its number.
// kept: no Result, as it would be no plainer: both variants are values, and neither is an error.
#[derive(Clone, Copy)]
pub enum VarValue {
    Int(u64),
    Text(u32),
}

#[derive(Clone, Copy)]
pub struct Variable {
    pub name: u32,
    pub value: VarValue,
}

// `place` is the trigger's place among all triggers of its rule.
#[derive(Clone, Copy, Default)]
pub struct EverySlot {
    pub rule: u32,
    pub place: u32,
    pub period: u32,
    pub due: u64,
}

// A continuation: where it goes on, when, with what budget, and under which trigger, sequence number and activation number.
// kept: the trigger is a word and no `TriggerKind`: it is read from the words of a state, where it may be any while a call runs, and is carried on as it is.
#[derive(Clone, Copy, Default)]
pub struct Pending {
    pub rule: u32,
    pub point: Point,
    pub due: u64,
    pub budget: u32,
    pub trigger: u32,
    pub seq: u64,
    pub number: u64,
}

// What a run knows of its rule: name, place in the image, hold_hcl; and the trigger and the activation number for the outcome, 0 for none.
// kept: a number of 0 does not say that a run is dry: a wet activation whose conditions cannot be evaluated takes no number either, and document 01's outcome
// has the 0 of both. An enum of a wet run with its number and a dry one would lose that, and an Option would be made a number again for the outcome.
// kept: the trigger is the word of the outcome: `resume` has it from its `Pending`, and nothing here asks which kind it is.
#[derive(Clone, Copy)]
pub struct Job {
    pub rule: u32,
    pub index: u32,
    pub hold: u32,
    pub trigger: u32,
    pub dry: bool,
    pub number: u64,
}

// How a rule is started: by a trigger of its own, by hand, or by hand with the state left as it is.
#[derive(Clone, Copy)]
pub enum Mode {
    Auto,
    Manual,
    Dry,
}

impl Mode {
    // Only such a start waits for the cooldown.
    pub fn is_auto(self) -> bool
        ensures { result ≡ is_auto self }
    {
        matches!(self, Mode::Auto)
    }

    pub fn is_dry(self) -> bool
        ensures { result ≡ is_dry self }
    {
        matches!(self, Mode::Dry)
    }
}

// A word of a row: at most `most`; where it is 0, the next `void` words are 0 too.
#[derive(Clone, Copy)]
pub struct Cell {
    pub most: u32,
    pub void: u32,
}

// The kinds of effects: document 01, "Outcomes and effects".
#[derive(Clone, Copy)]
pub enum EffectKind {
    Light = 0,
    SceneRecall = 1,
    SceneApply = 2,
    HclResume = 3,
    HclHold = 4,
    HclSchedule = 5,
    InputFeedback = 6,
    PanelSelect = 7,
    CancelHold = 8,
    CatchMovement = 9,
    MqttPublish = 10,
    Log = 11,
    Level = 12,
}

// What started the rule of an outcome: document 01, "Outcomes and effects".
#[derive(Clone, Copy)]
pub enum TriggerKind {
    HttpTrigger = 0,
    TimerFires = 1,
    Every = 2,
    AtTime = 3,
    AtSolar = 4,
}

// What an outcome says.
impl From<TriggerKind> for u32 {
    ghost from_gives = { λ kind number. number ≡ trigger_number kind };

    fn from(kind: TriggerKind) -> u32 {
        kind as u32
    }
}

// A kind, by its number, and four words of fields: document 01, "Outcomes and effects".
// kept: the kind is a word and no `EffectKind`. An effect is also what `telegrams::effect_at` reads from lent words, and these may name no kind, which
// `are_effects` refuses with 60.
#[derive(Clone, Copy)]
pub struct Effect {
    pub kind: u32,
    pub a: u32,
    pub b: u32,
    pub c: u32,
    pub d: u32,
}

// Why a call is refused, by the numbers of document 01 ("Who can cause a refusal") and of the change requests; the lowest number wins.
#[derive(Clone, Copy, PartialEq, Eq)]
pub enum Refusal {
    // Host.
    StoreLength = 1,
    StoreRule = 2,
    // Rule author.
    ImageLength = 10,
    LimitRange = 11,
    TablePlace = 12,
    FieldRange = 13,
    ListRange = 14,
    RuleName = 15,
    FlatSteps = 16,
    TooMany = 17,
    // Bus driver.
    SnapshotLength = 20,
    SnapshotRange = 21,
    RowAddress = 22,
    // Host.
    LentStores = 30,
    SequenceNumber = 31,
    ActivationNumber = 32,
    // One image for one rule set.
    WrittenLength = 40,
    ImageStore = 41,
    // Programmes from a crontab.
    LineForm = 50,
    DayOrMonth = 51,
    TriggerStore = 52,
    // Fewer telegrams.
    EffectWords = 60,
    TelegramStore = 61,
    // All short lists.
    ActionWords = 70,
    ActionRecord = 71,
    ListNumber = 72,
}

// What a call of the C interface answers.
impl From<Refusal> for u32 {
    ghost from_gives = { λ refusal number. number ≡ refusal_code refusal };

    fn from(refusal: Refusal) -> u32 {
        refusal as u32
    }
}

// The same of an answer: 0 where nothing is refused.
// kept: a function, since a rule of the language lets only the crate of `Result` or of `u32` write `From` between them.
pub fn refusal_number(answer: Result<(), Refusal>) -> u32
    ensures { result ≡ refusal_number answer }
{
    match answer {
        Ok(()) => 0,
        Err(refusal) => u32::from(refusal),
    }
}

// The records of a store as rows.
// kept: `at` and `put` of each record name its own fields in their order. A row of pairs would read them in one, but turn them into the struct and back, field by field;
// and a macro of the repository's own may write no impl.
ghost use Rattle.std.specs.Prelude.{◌≡◌};
ghost use Rattle.model.specs.Codec.{maybe};
ghost use Rattle.model.specs.Parts.{timer_row, slot_row, pending_row};
ghost use Rattle.rows.specs.Rows.{variable_code_row, leap_row, point_row};
ghost use Rattle.rows.specs.Sizes.{variable-takes, timer-takes, slot-takes, leap-takes, point-takes, pending-takes};

use crate::row::{Row, option_at, put_option};
use model::{EverySlot, Jump, NamedTimer, Pending, Point, VarValue, Variable};

// "A text variable keeps its number only": the high word of a text is 0.
impl Row for Variable {
    const WORDS: usize = 4;

    ghost WORDS = { 4 };

    ghost codec = { variable_code_row };

    ghost takes = { variable-takes };

    fn at(s: &[u32], k: usize) -> Variable {
        let name = u32::at(s, k);
        let is_text = bool::at(s, k + 1);
        let bits = u64::at(s, k + 2);
        let value = if is_text {
            VarValue::Text(words::low_word(bits))
        } else {
            VarValue::Int(bits)
        };
        Variable { name, value }
    }

    fn put(self, s: &mut [u32], k: usize) {
        self.name.put(s, k);
        match self.value {
            VarValue::Int(bits) => {
                false.put(s, k + 1);
                bits.put(s, k + 2);
            }
            VarValue::Text(text) => {
                true.put(s, k + 1);
                (text as u64).put(s, k + 2);
            }
        }
    }
}

impl Row for NamedTimer {
    const WORDS: usize = 3;

    ghost WORDS = { 3 };

    ghost codec = { timer_row };

    ghost takes = { timer-takes };

    fn at(s: &[u32], k: usize) -> NamedTimer {
        let name = u32::at(s, k);
        let due = u64::at(s, k + 1);
        NamedTimer { name, due }
    }

    fn put(self, s: &mut [u32], k: usize) {
        self.name.put(s, k);
        self.due.put(s, k + 1);
    }
}

impl Row for EverySlot {
    const WORDS: usize = 5;

    ghost WORDS = { 5 };

    ghost codec = { slot_row };

    ghost takes = { slot-takes };

    fn at(s: &[u32], k: usize) -> EverySlot {
        let rule = u32::at(s, k);
        let place = u32::at(s, k + 1);
        let period = u32::at(s, k + 2);
        let due = u64::at(s, k + 3);
        EverySlot {
            rule,
            place,
            period,
            due,
        }
    }

    fn put(self, s: &mut [u32], k: usize) {
        self.rule.put(s, k);
        self.place.put(s, k + 1);
        self.period.put(s, k + 2);
        self.due.put(s, k + 3);
    }
}

impl Row for Jump {
    const WORDS: usize = 2;

    ghost WORDS = { 2 };

    ghost codec = { leap_row };

    ghost takes = { leap-takes };

    fn at(s: &[u32], k: usize) -> Jump {
        let at = u32::at(s, k);
        let to = u32::at(s, k + 1);
        Jump { at, to }
    }

    fn put(self, s: &mut [u32], k: usize) {
        self.at.put(s, k);
        self.to.put(s, k + 1);
    }
}

impl Row for Point {
    const WORDS: usize = 5;

    ghost WORDS = { 5 };

    ghost codec = { point_row };

    ghost takes = { point-takes };

    fn at(s: &[u32], k: usize) -> Point {
        let list = u32::at(s, k);
        let place = u32::at(s, k + 1);
        let jump = option_at(s, k + 2);
        Point { list, place, jump }
    }

    fn put(self, s: &mut [u32], k: usize) {
        self.list.put(s, k);
        self.place.put(s, k + 1);
        put_option(s, k + 2, self.jump);
    }
}

// The last word is 0.
impl Row for Pending {
    const WORDS: usize = 15;

    ghost WORDS = { 15 };

    ghost codec = { pending_row };

    ghost takes = { pending-takes };

    fn at(s: &[u32], k: usize) -> Pending {
        let seq = u64::at(s, k);
        let due = u64::at(s, k + 2);
        let rule = u32::at(s, k + 4);
        let point = Point::at(s, k + 5);
        let budget = u32::at(s, k + 10);
        let trigger = u32::at(s, k + 11);
        let number = u64::at(s, k + 12);
        Pending {
            rule,
            point,
            due,
            budget,
            trigger,
            seq,
            number,
        }
    }

    fn put(self, s: &mut [u32], k: usize) {
        self.seq.put(s, k);
        self.due.put(s, k + 2);
        self.rule.put(s, k + 4);
        self.point.put(s, k + 5);
        self.budget.put(s, k + 10);
        self.trigger.put(s, k + 11);
        self.number.put(s, k + 12);
        0u32.put(s, k + 14);
    }
}

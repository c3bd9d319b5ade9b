// The five fields of a line.
use crate::pattern::Bounds;
use crate::{pattern, scan};

// In the order of a line.
#[derive(Clone, Copy)]
pub enum Field {
    Minute,
    Hour,
    Day,
    Month,
    Weekday,
}

impl Field {
    ghost use Rattle.std.specs.Prelude.{◌≡◌, get_or};
    ghost use Rattle.model.specs.Crontab.{field, field_fits, field_covers, field_free, lowest, highest};
    ghost use Rattle.crontab.specs.Fields.{number};

    pub const ALL: [Field; 5] = [
        Field::Minute,
        Field::Hour,
        Field::Day,
        Field::Month,
        Field::Weekday,
    ];

    // The numbers that it may have.
    fn bounds(self) -> Bounds
        ensures lowest { result.lowest ≡ get_or lowest (number self) 0 }
        ensures highest { result.highest ≡ get_or highest (number self) 0 }
    {
        let (lowest, highest) = match self {
            Field::Minute => (0, 59),
            Field::Hour => (0, 23),
            Field::Day => (1, 31),
            Field::Month => (1, 12),
            Field::Weekday => (0, 6),
        };
        Bounds { lowest, highest }
    }

    // What the line has there.
    fn text(self, line: &[u8]) -> &[u8]
        ensures { result.now ≡ field (number self) line.now }
    {
        scan::field(line, self as usize)
    }

    // Whether it is a pattern.
    #[tactic(auto, unfolding(model::specs::Crontab::field_fits))]
    pub fn fits(self, line: &[u8]) -> bool
        ensures { result ≡ field_fits line.now (number self) }
    {
        pattern::is_pattern(self.bounds(), self.text(line))
    }

    // Whether the number v is one of its.
    #[tactic(auto, unfolding(model::specs::Crontab::field_covers))]
    pub fn covers(self, line: &[u8], v: u32) -> bool
        ensures { result ≡ field_covers line.now (number self) v }
    {
        pattern::covers(self.bounds(), self.text(line), v)
    }

    // Whether it is an asterisk.
    #[tactic(auto, unfolding(model::specs::Crontab::field_free))]
    pub fn is_free(self, line: &[u8]) -> bool
        ensures { result ≡ field_free line.now (number self) }
    {
        pattern::is_asterisk(self.text(line))
    }
}

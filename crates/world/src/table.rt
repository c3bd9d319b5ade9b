// Where the words of a snapshot stand: 14 words before the rows, then the rows of five tables.
ghost use Rattle.std.specs.Prelude.{◌≡◌, ◌+◌, ◌*◌, ◌<◌, ◌≤◌, ◌^◌, length, take, drop};
ghost use Rattle.model.specs.Snapshot.{row_width, key_of, count_of, start_of};
ghost use Rattle.world.specs.Tables.{number};

use fields::Records;

// The words before the rows.
pub const HEAD: usize = 14;

#[derive(Clone, Copy)]
pub enum Table {
    Lamps,
    Groups,
    Devices,
    Inputs,
    HclTargets,
}

impl Table {
    pub const ALL: [Table; 5] = [
        Table::Lamps,
        Table::Groups,
        Table::Devices,
        Table::Inputs,
        Table::HclTargets,
    ];

    // The words of a row.
    pub fn width(self) -> u32
        ensures { (result ≡ row_width (number self)) × (result ≤ 11) }
    {
        match self {
            Table::Lamps => 9,
            Table::Groups => 5,
            Table::Devices => 3,
            Table::Inputs => 11,
            Table::HclTargets => 3,
        }
    }

    // How many of them are its address.
    pub fn key(self) -> u32
        ensures { (result ≡ key_of (number self)) × (result ≤ 3) }
    {
        match self {
            Table::Lamps | Table::Groups | Table::Devices => 2,
            Table::Inputs => 3,
            Table::HclTargets => 1,
        }
    }

    // The rows of the table.
    pub fn count(self, s: &[u32]) -> u32
        ensures { result ≡ count_of s.now (number self) }
    {
        fields::word(s, 9 + self as usize)
    }

    // How many words its rows have.
    fn length(self, s: &[u32]) -> usize
        ensures { (result ≡ row_width (number self) * count_of s.now (number self)) × (result < 2 ^ 36) }
    {
        self.width() as usize * self.count(s) as usize
    }

    // Its first word.
    #[tactic(auto, unfolding(model::specs::Snapshot::start_of))]
    pub fn start(self, s: &[u32]) -> usize
        ensures { (result ≡ start_of s.now (number self)) × (result < 2 ^ 37) }
    {
        let groups = HEAD + Table::Lamps.length(s);
        let devices = groups + Table::Groups.length(s);
        let inputs = devices + Table::Devices.length(s);
        let hcl = inputs + Table::Inputs.length(s);
        match self {
            Table::Lamps => HEAD,
            Table::Groups => groups,
            Table::Devices => devices,
            Table::Inputs => inputs,
            Table::HclTargets => hcl,
        }
    }

    // The words of its rows, in a snapshot of as many words as it counts.
    pub fn words(self, s: &[u32]) -> &[u32]
        requires { length s.now ≡ start_of s.now 5 }
        ensures { result.now ≡ take (row_width (number self) * count_of s.now (number self)) (drop (start_of s.now (number self)) s.now) }
    {
        let start = self.start(s);
        &s[start..start + self.length(s)]
    }

    // Its rows: words past the end of the snapshot are 0.
    pub fn rows(self, s: &[u32]) -> Records<'_>
        ensures words { result.words.now ≡ s.now }
        ensures start { result.start ≡ start_of s.now (number self) }
        ensures width { result.width ≡ row_width (number self) }
    {
        Records {
            words: s,
            start: self.start(s),
            width: self.width(),
        }
    }
}

// The number of words as counted.
#[tactic(auto, unfolding(model::specs::Snapshot::start_of))]
pub fn counted_length(s: &[u32]) -> usize
    ensures { result ≡ start_of s.now 5 }
{
    Table::HclTargets.start(s) + Table::HclTargets.length(s)
}

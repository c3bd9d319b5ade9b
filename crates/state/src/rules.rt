// What is kept for each rule of the set, by its place in the image: its bit, its last activation, its cycle position. A place past
// the last has none, and nothing is kept for it.
ghost use Rattle.std.specs.Prelude.{ℕ, ◌≡◌, ◌+◌, ◌*◌, ◌≤◌, ◌<◌, set, length, get_or};
ghost use Rattle.model.specs.Calls.{flipped};
ghost use Rattle.model.specs.State.{is_enabled, last_activation_at, cycle_pos_at, with_rest, with_enabled, with_last_activation, with_cycle_pos};
ghost use Rattle.state.specs.Meaning.{Sound, Means, meaning, base, rules_of};
ghost use Rattle.state.specs.Named.{kept_for, kept_laid, unset_rules};

use crate::{State, place};
use rows::put::clear;
use rows::row::{Row, option_at, put_option};

// How many rules there are.
// kept: `Sound` is asked where a function takes the words of a state: by this, `put_kept` and `put_minute`. These two need that each word is below 2^32,
// which is known of a slice that is an argument and not of a field, and the first is called by one of them.
fn rule_count(v: &[u32]) -> usize
    requires { Sound v.now }
    ensures { (result ≡ rules_of v.now) × (result ≤ 64) }
{
    u32::at(v, place::RULES) as usize
}

fn put_kept<T: Row>(v: &mut [u32], part: usize, i: usize, x: Option<T>)
    requires { Sound v.old × (part + 64 * (1 + T.WORDS) ≤ length v.old) }
    ensures laid { v.new ≡ kept_laid T.codec T.WORDS v.old part i x }
    ensures words { (j : ℕ) → get_or v.new j 0 < 4294967296 }
{
    if i < rule_count(v) {
        put_option(v, part + i * (1 + T::WORDS), x);
    }
}

impl State {
    // What the part at `part`, which has an option for each rule, says of rule i.
    fn kept<T: Row>(&self, part: usize, i: usize) -> Option<T>
        requires { part ≤ 16384 }
        ensures { (result ≡ kept_for T.codec T.WORDS self.now part i) × Sound self.now }
    {
        if i < rule_count(&self.words) {
            return option_at(&self.words, part + i * (1 + T::WORDS));
        }
        None
    }

    pub fn is_enabled(&self, i: usize) -> bool
        ensures { result ≡ is_enabled (meaning self.now).rest i }
    {
        i < rule_count(&self.words) && bool::at(&self.words, place::BITS + i)
    }

    // The bit alone: `set_enabled` strikes the continuations too.
    pub fn put_bit(&mut self, i: usize, on: bool)
        ensures { Means self.new (base self.old) (with_rest (with_enabled (set (meaning self.old).rest.enabled i on) (meaning self.old).rest) (meaning self.old)) }
    {
        if i < rule_count(&self.words) {
            on.put(&mut self.words, place::BITS + i);
        }
    }

    // The bit of rule `rule` at place i is set; who disables also strikes the rule's continuations.
    pub fn set_enabled(&mut self, rule: u32, i: usize, on: bool)
        ensures { Means self.new (base self.old) (flipped rule i on (meaning self.old)) }
    {
        self.put_bit(i, on);
        if !on {
            self.strike(rule);
        }
    }

    pub fn last_activation(&self, i: usize) -> Option<u64>
        ensures { result ≡ last_activation_at (meaning self.now).rest i }
    {
        self.kept(place::ACTIVATIONS, i)
    }

    // What is kept of rule i's last activation.
    pub fn set_last_activation(&mut self, i: usize, x: Option<u64>)
        ensures { Means self.new (base self.old) (with_rest (with_last_activation (set (meaning self.old).rest.last_activation i x) (meaning self.old).rest) (meaning self.old)) }
    {
        put_kept(&mut self.words, place::ACTIVATIONS, i, x);
    }

    pub fn cycle_pos(&self, i: usize) -> Option<u32>
        ensures { result ≡ cycle_pos_at (meaning self.now).rest i }
    {
        self.kept(place::POSITIONS, i)
    }

    // What is kept of rule i's cycle position.
    pub fn set_cycle_pos(&mut self, i: usize, x: Option<u32>)
        ensures { Means self.new (base self.old) (with_rest (with_cycle_pos (set (meaning self.old).rest.cycle_pos i x) (meaning self.old).rest) (meaning self.old)) }
    {
        put_kept(&mut self.words, place::POSITIONS, i, x);
    }

    // There are n rules, and nothing is kept of any.
    pub fn unset_rules(&mut self, n: usize)
        requires { n ≤ 64 }
        ensures { Means self.new (base self.old) (with_rest (unset_rules n (meaning self.old).rest) (meaning self.old)) }
    {
        clear(&mut self.words, place::BITS, place::VARIABLES - place::BITS);
        self.words[place::RULES] = n as u32;
    }
}

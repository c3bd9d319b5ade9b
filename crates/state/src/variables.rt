// The variables, at most 16: rows of name, tag and value. One that is set again stays in its place.
ghost use Rattle.std.specs.Prelude.{◌≡◌, not};
ghost use Rattle.model.specs.Codec.{most};
ghost use Rattle.model.specs.Parts.{variable_row};
ghost use Rattle.model.specs.State.{var_named};
ghost use Rattle.model.specs.Store.{variable_row_of};
ghost use Rattle.state.specs.Meaning.{Sound, Means, Holds, Counted, meaning, base};
ghost use Rattle.state.specs.Named.{has_name, lacks_room, no_row, assigned, assign_row};
ghost use Rattle.state.specs.Tables.{Finds};

use crate::place::MAX_VARIABLES;
use crate::{State, place, table};
use model::{VarValue, Variable};
use rows::VARIABLE_WORDS;
use rows::row::Row;
use rows::tables::Rows;

// The place of the variable of a name.
fn place_of(t: &[u32], name: u32) -> Option<usize>
    requires { Counted 16 variable_row t.now }
    ensures { Finds (has_name name) ((most 16 variable_row).get t.now) result }
{
    Rows::<Variable>::counted(t, 0).position(|x| x.name == name)
}

// The variable of the name holds the value; a new one goes behind the others, where there is room. Whether it holds it.
fn assign(t: &mut [u32], x: Variable) -> bool
    requires { Counted 16 variable_row t.old }
    ensures holds { Holds 16 variable_row t.new (assign_row x.name (variable_row_of x) ((most 16 variable_row).get t.old)) }
    ensures room { result ≡ not (no_row x.name ((most 16 variable_row).get t.old)) }
{
    if let Some(i) = place_of(t, x.name) {
        x.put(t, 1 + i * VARIABLE_WORDS);
        return true;
    }
    table::try_push(t, x, MAX_VARIABLES)
}

impl State {
    // The variables.
    fn variables(&self) -> Rows<'_, Variable>
        ensures { result ≡ (meaning self.now).rest.vars }
    {
        Rows::counted(&self.words, place::VARIABLES)
    }

    // What the variable of the name holds.
    pub fn variable(&self, name: u32) -> Option<VarValue>
        ensures { result ≡ var_named (meaning self.now).rest name }
    {
        let x = self.variables().find(|x| x.name == name)?;
        Some(x.value)
    }

    // The variable of the name holds the value, unless the name is new and 16 variables stand: whether it does.
    // kept: a bool, for the reason at `try_arm_timer`.
    pub fn try_set_variable(&mut self, name: u32, value: VarValue) -> bool
        ensures means { Means self.new (base self.old) (assigned name value (meaning self.old)) }
        ensures room { result ≡ not (lacks_room name (meaning self.old)) }
    {
        let x = Variable { name, value };
        assign(&mut self.words[place::VARIABLES..place::TIMERS], x)
    }
}

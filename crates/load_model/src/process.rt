//! What is looked up in a process without addresses.

ghost use Rattle.std.specs.Prelude.{◌≡◌};
ghost use Rattle.load_model.specs.Process.{is_live_named};

use crate::module::{Group, Live, SymbolicProcess};
use elf_model::Object;
use fd_base::{Name, Numbers};

impl SymbolicProcess {
    ghost use Rattle.std.specs.Prelude.{◌≡◌, ◌≤◌, ◌<◌, [], length, option_map, unwrap_or, IfSome};
    ghost use Rattle.std.specs.Option.{option_copied};
    ghost use Rattle.symbol_scope.specs.declared.tables.TheConstants.{MAX_MODULES};
    ghost use Rattle.load_model.specs.Process.{live_at, is_live, number_of, group_at, group_scope, object_at};

    /// The live module of a number.
    pub fn live_at(&self, m: u32) -> Option<&Live>
        ensures { option_copied result ≡ live_at self.now m }
    {
        self.modules.as_slice().get(m as usize)?.as_ref()
    }

    /// Whether there is a live module of this number.
    pub fn is_live(&self, m: u32) -> bool
        ensures { result ≡ is_live self.now m }
    {
        self.live_at(m).is_some()
    }

    /// The object of a live module.
    pub fn object_at(&self, m: u32) -> Option<&Object>
        ensures { option_copied result ≡ object_at self.now m }
    {
        match self.live_at(m) {
            Some(live) => Some(&live.object),
            None => None,
        }
    }

    /// The name of a live module.
    pub fn name_at(&self, m: u32) -> Option<&Name>
        ensures { option_copied result ≡ option_map (λ live. live.name) (live_at self.now m) }
    {
        match self.live_at(m) {
            Some(live) => Some(&live.name),
            None => None,
        }
    }

    fn place_named(&self, name: &Name) -> Option<usize>
        ensures value { result ≡ number_of self.now name.now }
        ensures within { IfSome result (λ place. place < length self.now.modules) }
    {
        let places = self.modules.as_slice();
        places.iter().position(|place| is_live_named(place, name))
    }

    /// The number of the live module of a name.
    pub fn number_of(&self, name: &Name) -> Option<u32>
        requires { length self.now.modules ≤ MAX_MODULES }
        ensures { result ≡ number_of self.now name.now }
    {
        match self.place_named(name) {
            Some(place) => Some(place as u32),
            None => None,
        }
    }

    /// The live group of a number.
    pub fn group_at(&self, g: u32) -> Option<&Group>
        ensures { option_copied result ≡ group_at self.now g }
    {
        self.groups.as_slice().get(g as usize)?.as_ref()
    }

    /// The scope of a live module's group. None is an empty one.
    pub fn group_scope(&self, m: u32) -> Option<&Numbers>
        ensures { unwrap_or (option_copied result) [] ≡ group_scope self.now m }
    {
        let live = self.live_at(m)?;
        let group = self.group_at(live.group)?;
        Some(&group.scope)
    }
}

fn is_live_named(place: &Option<Live>, name: &Name) -> bool
    ensures { result ≡ is_live_named name.now place.now }
{
    match place {
        Some(live) => live.name.as_slice() == name.as_slice(),
        None => false,
    }
}

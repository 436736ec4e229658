//! The symbols that the loader sees.

ghost use Rattle.std.specs.Prelude.{◌≡◌, ◌<◌, ◌^◌, length, filter, IfOk};
ghost use Rattle.link_model.specs.DynamicSymbols as spec;
ghost use Rattle.link_model.specs.Targets.{is_static};
ghost use Rattle.link_checks.specs.parts.Shown.{number_in, AreNamed};

use fd_base::{Memory, Seq};
use link_model::{Key, Mode, Target};
use link_names::Joined;
use link_words::is_shown;
use std::alloc::Global;
use std::marker::Model;

fn is_static(mode: Mode) -> bool
    ensures { result ≡ is_static mode }
{
    matches!(mode, Mode::Static)
}

/// The symbols that the loader sees, with their numbers.
#[derive(Drop)]
pub struct Shown {
    targets: Seq<Target>,
    /// By the number of a name, the number of its symbol: 1 of one that the loader doesn't see.
    numbers: Seq<u32>,
}

impl Model for Shown {
    ghost use Rattle.std.specs.Prelude.{List};
    ghost use Rattle.link_model.specs.declared.target.Target.{Target};
    ghost use Rattle.link_checks.specs.parts.Shown.{AreNumbered};

    ghost Value = { List Target };

    ghost view = { λ s. s.targets };

    ghost invariant = { λ s. AreNumbered s.targets s.numbers };
}

impl Shown {
    /// Those among the symbols of all names.
    fn among(alloc: Global, all: &[Target]) -> Result<Shown, Memory>
        requires few { length all.now < 2 ^ 32 }
        requires named { AreNamed all.now }
        ensures { IfOk result (λ shown. shown ≡ filter spec.is_shown all.now) }
    {
        let mut targets = Seq::new(alloc);
        let mut numbers = Seq::new(alloc);
        for target in all {
            if is_shown(target) {
                targets.push(*target)?;
                numbers.push(targets.len() as u32)?;
            } else {
                numbers.push(1)?;
            }
        }
        Ok(Shown { targets, numbers })
    }

    /// Those of a link: none of a program that stands alone.
    pub fn of(alloc: Global, joined: &Joined) -> Result<Shown, Memory>
        ensures { IfOk result (λ shown. shown ≡ spec.shown_targets joined.now.mode joined.now.inputs) }
    {
        if is_static(joined.mode()) {
            Shown::among(alloc, &[])
        } else {
            Shown::among(alloc, joined.targets())
        }
    }

    /// The symbols, in order.
    pub fn targets(&self) -> &[Target]
        ensures { result.now ≡ self.now }
    {
        self.targets.as_slice()
    }

    /// The number of a symbol that the loader sees. The null symbol has number 0.
    pub fn index(&self, key: Key) -> u32
        ensures { result ≡ number_in self.now key }
    {
        match key {
            Key::Name(k) => match self.numbers.as_slice().get(k as usize) {
                Some(number) => *number,
                None => 1,
            },
            Key::Own(_, _) => 1,
        }
    }
}

//! The tables of new modules.

ghost use Rattle.std.specs.Prelude.{◌≡◌, ◌<◌, length, All};
ghost use Rattle.load_laws.specs.parts.Premises.{HaveOwnNumbers};
ghost use Rattle.load_plan.specs.parts.Tables.{ArePut};
ghost use Rattle.load_state.specs.Accepted.{tables_of};

use fd_base::Seq;
use load_model::Joining;
use symbol_scope::{Table, Tables};

/// Puts the tables of new modules into the places of their numbers, in order. Takes no memory.
pub(crate) fn put_tables(tables: &mut Tables, joining: &[Joining], made: Seq<Table>)
    requires numbers { HaveOwnNumbers joining.now }
    requires places { All (λ j. j.number < length tables.old.slots) joining.now }
    requires room { All (λ j. j.number < tables.old.room) joining.now }
    requires made { made ≡ tables_of joining.now }
    ensures { ArePut joining.now tables.old.slots tables.new.slots }
{
    let mut left = made.into_vec().into_iter();
    for new in joining {
        let Some(table) = left.next() else {
            unreachable!();
        };
        tables.put(new.number, table);
    }
}

// The row: the store that keeps its sets in order.
ghost use Rattle.std.specs.Prelude.{◌≤◌};
ghost use Rattle.store.specs.Tables.{room};

use crate::Store;
use crate::check::slots_taken;
use crate::slot::{Full, Slot};
use crate::table::Table;
use sets::RankSet;

// The ordered table with sets as its keys: a struct around it and no alias, since a store takes at most 65,536 slots, a table any number.
#[derive(Drop)]
pub struct Row<'a> {
    table: Table<'a, RankSet>,
    ghost few: { room table ≤ 65536 },
}

impl<'a> Row<'a> {
    ghost use Rattle.std.specs.Prelude.{◌≡◌, [], length};
    ghost use Rattle.store.specs.Rowed.{row_poly, row_room};
    ghost use Rattle.store.specs.Stores.{at_most, taken};

    // An empty row over lent slots, whatever they held. Over a number of slots that `check_slots` refuses, it uses none of them, and holds
    // the empty polynomial alone.
    pub fn new(slots: &'a mut [Slot<RankSet>]) -> Row<'a>
        ensures empty { row_poly result ≡ [] }
        ensures room { row_room result ≡ at_most (taken 65536 (length slots.old)) }
    {
        let room = slots_taken::<Row<'_>>(slots.len());
        Row {
            table: Table::new(&mut slots[..room]),
        }
    }
}

impl Store for Row<'_> {
    ghost use Rattle.std.specs.Prelude.{◌≡◌};
    ghost use Rattle.store.specs.Rowed.{row_poly, row_room, row_laws};

    const MOST: usize = 65_536;

    ghost most = { 65536 };

    ghost poly = { row_poly };

    ghost room = { row_room };

    ghost laws = { row_laws };

    fn most_slots() -> usize
        ensures { result ≡ 65536 }
    {
        Self::MOST
    }

    fn clear(&mut self) {
        self.table.clear();
    }

    fn read(&self, set: &RankSet) -> u32 {
        self.table.read(set)
    }

    fn highest(&self, place: &mut RankSet) -> Option<u32> {
        self.table.highest(place)
    }

    fn lowest(&self, place: &mut RankSet) -> Option<u32> {
        self.table.lowest(place)
    }

    fn count(&self) -> usize {
        self.table.count()
    }

    fn write(&mut self, set: &RankSet, value: u32) -> Result<(), Full> {
        self.table.write(set, value)
    }
}

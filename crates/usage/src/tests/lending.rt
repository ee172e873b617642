// A store of one's own over memory that is lent: its type has a lifetime, and a bank takes it as any other.
ghost use Rattle.std.specs.Prelude.{◌≡◌, length};
ghost use Rattle.stores.specs.Faults.{no_such_key};

use stores::{Bank, Entry, Fault, One, Pair, Store, StoreCause, StoreFault, Table};

#[derive(Drop)]
struct Slots<'a> {
    cells: &'a mut [Option<Entry>; 4],
    ghost full: { length cells.now ≡ 4 },
}

fn lacks(key: usize) -> StoreFault
    ensures { result ≡ no_such_key key }
{
    Fault {
        place: key,
        cause: StoreCause::NoSuchKey,
    }
}

impl<'a> Store for Slots<'a> {
    const SIZE: usize = 4;

    ghost size = { 4 };

    ghost shows = { λ s. s.cells.now };

    // An impl with a lifetime writes this clause out.
    fn keys() -> usize
        ensures { result ≡ 4 }
    {
        Self::SIZE
    }

    fn look(&self, key: usize) -> Result<Option<Entry>, StoreFault> {
        // Copied: an array that is lent is not read in place behind `&self`.
        let cells = *self.cells;
        cells.get(key).copied().ok_or(lacks(key))
    }

    fn put(&mut self, key: usize, entry: Entry) -> Result<(), StoreFault> {
        if key >= Self::SIZE {
            return Err(lacks(key));
        }
        self.cells[key] = Some(entry);
        Ok(())
    }

    ghost sized = { λ s. s.full };
}

#[test]
fn a_store_may_be_over_lent_memory(rt: HostRuntime) {
    let entry = Entry {
        client: 0,
        number: 1,
        rank: 1,
        value: -1840,
    };
    let mut cells = [None; 4];
    let mut bank = Pair(One(Slots { cells: &mut cells }), One(Table::new()));
    assert_eq!(rt; bank.put(0, 3, entry), Ok(()));
    assert_eq!(rt; bank.look(0, 3), Ok(Some(entry)));
    assert_eq!(rt; bank.look(0, 0), Ok(None));
    assert_eq!(rt; bank.put(0, 4, entry), Err(lacks(4)));
    assert_eq!(rt; bank.put(1, 4, entry), Ok(()));
    assert_eq!(rt; Pair::<One<Slots<'_>>, One<Table>>::smallest_size(), 4);
}

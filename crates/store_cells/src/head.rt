// The counts and the next serial.
ghost use Rattle.std.specs.Prelude.{◌≡◌};
ghost use Rattle.store_cells.specs.Layout.{head_at, put_head};

use crate::Store;

// The numbers before the tables, in the order in which they stand: how many formula lines there are, how many live
// credentials, the next serial, how many credential rows are in use.
#[derive(Clone, Copy)]
pub enum Number {
    Lines,
    Live,
    Next,
    Rows,
}

pub fn read(store: &Store, number: Number) -> u32
    ensures { result ≡ head_at store.now number }
{
    store[number as usize]
}

pub fn put(store: &mut Store, number: Number, n: u32)
    ensures { store.new ≡ put_head store.old number n }
{
    store[number as usize] = n;
}

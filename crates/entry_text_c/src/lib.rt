// The entry for C, of closing and opening (include/oysterbrim.h): each export calls the function of its name in crate
// entry_text, under the same clauses. They are compiled apart from till_call, with which they share code, so that a
// sheet costs what it did.
#![tactic(auto)]

ghost use Rattle.std.specs.Prelude.{◌≡◌};
ghost use Rattle.snapshot.specs.Snapshot.{longest_text};
ghost use Rattle.store.specs.Store.{Good};
ghost use Rattle.entry.specs.Saved.{Closed, Reopened};

use store::Store;

// The most bytes of a text.
#[unsafe(no_mangle)]
pub extern "C" fn till_text_bytes() -> usize
    ensures { result ≡ longest_text }
{
    entry_text::till_text_bytes()
}

// Closes the till (document 02, ask 5): writes it as text into the lent buffer: {1, bytes, 0, 0}, or {0, 52, 0, 0} and
// the buffer as it was.
#[unsafe(no_mangle)]
pub extern "C" fn till_close(till: &Store, buffer: &mut [u8], answer: &mut [u32; 4])
    requires { Good till.now }
    ensures closed { Closed till.now buffer.old answer.new
        buffer.new }
    ensures lent { till.exit.now ≡ till.entry.now }
{
    entry_text::till_close(till, buffer, answer);
}

// Opens a text: {1, bytes, 0, 0}, and the till is the text's, or {0, 50, 0, 0} or {0, 51, 0, 0} and the block as it
// was, whatever it held. The spare block is lent to work on.
#[unsafe(no_mangle)]
pub extern "C" fn till_open(till: &mut Store, spare: &mut Store, text: &[u8], answer: &mut [u32; 4])
    ensures opened { Reopened till.old text.now answer.new
        till.new }
    ensures lent { text.exit.now ≡ text.entry.now }
{
    entry_text::till_open(till, spare, text, answer);
}

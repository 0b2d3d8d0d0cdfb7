// Closing and opening from C (document 02, ask 5). Crate entry_text_c has the exports, which call these functions.
#![tactic(auto)]

ghost use Rattle.std.specs.Prelude.{◌≡◌};
ghost use Rattle.snapshot.specs.Snapshot.{longest_text};
ghost use Rattle.store.specs.Store.{Good};
ghost use Rattle.entry.specs.Saved.{Closed, Reopened};
ghost use Rattle.entry_text.specs.Statements.{SavedOpens, OpenedSaves};

use store::Store;

// The most bytes of a text.
pub fn till_text_bytes() -> usize
    ensures { result ≡ longest_text }
{
    text_read::LONGEST_TEXT
}

// Closes the till (document 02, ask 5): writes it as text into the lent buffer: {1, bytes, 0, 0}, or {0, 52, 0, 0} and
// the buffer as it was.
pub fn till_close(till: &Store, buffer: &mut [u8], answer: &mut [u32; 4])
    requires { Good till.now }
    ensures closed { Closed till.now buffer.old answer.new
        buffer.new }
    ensures lent { till.exit.now ≡ till.entry.now }
{
    let a = text_close::close(till, buffer);
    entry::tell(a, answer);
}

// Opens a text: {1, bytes, 0, 0}, and the till is the text's, or {0, 50, 0, 0} or {0, 51, 0, 0} and the block as it
// was, whatever it held. The spare block is lent to work on.
pub fn till_open(till: &mut Store, spare: &mut Store, text: &[u8], answer: &mut [u32; 4])
    ensures opened { Reopened till.old text.now answer.new
        till.new }
    ensures lent { text.exit.now ≡ text.entry.now }
{
    let a = text_open::open(till, spare, text);
    entry::tell(a, answer);
}

// Closing and opening, after any calls. The function does nothing: its `ensures` is what is proved of them, document
// 02's ask 5 of the running code.
pub fn closing_and_opening()
    ensures saved { SavedOpens }
    ensures opened { OpenedSaves }
{}

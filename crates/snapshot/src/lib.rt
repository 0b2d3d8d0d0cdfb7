// The ledger as text (document 02: closing and opening the till): its writer, its reader, and what a text must obey.
// specs/ has the definitions and what is proved of them, proofs/ the proofs. The functions here do nothing: each
// ensures a statement of specs/, and that it is proved is the point.
#![tactic(auto)]

ghost use Rattle.std.specs.Prelude.{ℕ, List};
ghost use Rattle.ledger.specs.Ledger.{Ledger};
ghost use Rattle.snapshot.specs.Statements.{ReadsBack, WritesBack, LongestText, AlwaysLawful, RulesAgree};
ghost use Rattle.snapshot.specs.Statements.{NumbersApart, OpenAnswers, CloseAnswers, ClosesAndOpens};
ghost use Rattle.snapshot.specs.Cases.{M1Texts, TextsOpen, EditionsOpen, Closings};

// The edition of a text, by its first line's second field: `till,1` or `till,2` (document 02, ask 8).
#[derive(Clone, Copy, PartialEq, Eq)]
pub enum Edition {
    First,
    Second,
}

// What the first line says: the edition, the next serial, how many formula lines (wordings) and how many live
// credentials (coupons) follow.
#[derive(Clone, Copy)]
pub struct Title {
    pub edition: Edition,
    pub next: u32,
    pub lines: u32,
    pub live: u32,
}

// A ledger has one text: what is written is read again, and bytes that are opened are those written.
pub fn one_text()
    ensures read { ReadsBack }
    ensures written { WritesBack }
{}

// No ledger that calls gave has a longer text.
pub fn texts_are_short()
    ensures { LongestText }
{}

// What holds of every ledger that calls gave, from the empty one or from an opened text.
pub fn always_lawful()
    ensures { AlwaysLawful }
{}

// In every such ledger, numbers of equal lines or equal formulas are equal.
pub fn numbers_are_apart()
    ensures { NumbersApart }
{}

// What a text's lines must obey is what word and issue ask, by the same rows.
pub fn rules_agree()
    ensures { (t : Ledger) → RulesAgree t }
{}

// Opening: the first check that fails answers, and a refusal leaves the ledger as it was.
pub fn opening_answers()
    ensures { (t : Ledger) (bytes : List ℕ) → OpenAnswers t bytes }
{}

// Closing: the text and no other byte is written, or 52; and what was written opens as the ledger.
pub fn closing_answers()
    ensures answers { (t : Ledger) (buffer : List ℕ) → CloseAnswers t buffer }
    ensures trip { ClosesAndOpens }
{}

// Sessions: M1's texts and the booking from one of them; texts that are opened and texts that are not; buffers.
pub fn texts_play()
    ensures m1 { M1Texts }
    ensures opened { TextsOpen }
    ensures editions { EditionsOpen }
    ensures closed { Closings }
{}

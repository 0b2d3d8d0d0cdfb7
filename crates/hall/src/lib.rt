// The sessions of a big hall (document 02, ask 8), with hundreds and thousands of live credentials. They take long to
// compute, so they are apart from the crates that they are sessions of, whose edits are then tried without them. The
// functions here do nothing: each ensures a statement of specs/Halls.antt, and that it is proved is the point.
#![tactic(auto)]

ghost use Rattle.hall.specs.Halls.{M10Plays, HallSheets, HallTexts};

// Document 01's session M10, with 2,048 live credentials.
pub fn m10_plays()
    ensures { M10Plays }
{}

// Sheets in a full hall: what is refused there, credentials past the 512th, tallies past 65,535, those of a panel.
pub fn hall_sheets_play()
    ensures { HallSheets }
{}

// Texts of a hall: the longest one, which edition is written, and the order of the credentials.
pub fn hall_texts_play()
    ensures { HallTexts }
{}

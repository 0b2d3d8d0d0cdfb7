// What came in and what went out (specs/), in two words of our own, since the language has none for what the operating
// system reads and writes. Crate stream_console alone uses them; it passes them on shut.
#![tactic(auto)]

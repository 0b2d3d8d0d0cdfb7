// The laws of a booking's checks and of what an accepted one does: what has been found before each function of
// `call_book` and `call_book_steps` (specs/), and how these come to the definition's answer (proofs/). No code.
#![tactic(auto)]

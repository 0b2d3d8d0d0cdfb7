// The first line of a request (document 01: a sheet), which a reader has next: a whole request, or the head of a
// booking.
// This file has the types of the answers; requests.rt reads the line.
#![tactic(auto)]

pub mod requests;

use logic::Interval;
use request::Kind;
use steps::Row;

// The head of a booking, `book,now,wording,from,to,first,last,holds,steps`.
#[derive(Clone, Copy)]
pub struct Head {
    pub now: u32,
    pub formula: u32,
    pub interval: Interval,
    pub holds: u32,
    pub steps: u32,
}

// What a request's bytes say: a whole request of one line, or the head of a booking.
#[derive(Clone, Copy)]
pub enum First {
    Word(Row),
    Issue(Kind, u32, Interval),
    Withdraw(u32),
    Tally(u32, u32),
    Book(Head),
}

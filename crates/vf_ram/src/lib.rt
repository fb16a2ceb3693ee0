//! The two sides of a transfer for programs in C: a sender and a receiver as structs of words, a call for each event
//! and for each way in which what it asked for ended; and messages into blocks and out of them.
//!
//! A call reads the structs that it is given, makes the call of rh_ram, and writes them anew where that was done. Where
//! a struct is none, or the call is refused, nothing is written.
#![tactic(auto)]

mod message_words;
mod messages;
mod receiver;
mod receiver_words;
mod sender;
mod sender_words;
mod status;

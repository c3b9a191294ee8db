//! Want of memory: calls of each crate with requests refused in turn, and with only so much memory to have.
mod articles;
mod checkers;
mod facts;
mod feeds;
mod overviews;
mod several;
mod spools;
mod verdicts;

// Repacking: a master, which is a file of version 1, as a file of version 2 in a lent buffer.
#![tactic(auto)]

mod song;

pub use song::compile_song_v2;

//! The tools by several threads. What a tool writes, and how it ends, is as by one thread.
//!
//! A text is read in pieces of whole lines ([`pieces`]). A round is as many pieces as there are threads, each of which works on one
//! of them; the rounds follow one another ([`rounds`]). Both tools then split by hashes: each thread has a part, which takes the lines
//! or words of its hashes from all pieces ([`portion`]). `words` merges the parts at the end, by first appearance ([`words`]). `dedup`
//! writes a line if its part has not met it before ([`dedup`]).
pub mod dedup;
pub mod hashed_lines;
pub mod hashed_words;
pub mod kept_lines;
pub mod line_part;
pub mod pieces;
pub mod portion;
pub mod rounds;
pub mod word_part;
pub mod words;

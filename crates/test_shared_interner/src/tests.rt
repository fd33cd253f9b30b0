mod caller;
mod growth;
mod memory;
mod sharing;
mod symbols;
mod texts;
mod threads;
mod walks;

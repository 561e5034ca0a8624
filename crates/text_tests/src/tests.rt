//! Texts that are read, and texts that are written.

mod drawings;
mod expansions;
mod native_machines;
mod parts_read;
mod report_texts;
mod sources;

//! Hostile use: streams and store texts that are changed at each place, and memory that fails at each place.

mod changed;
mod growing;
mod old_texts;

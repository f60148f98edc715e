//! Traces and orders as texts: what is written, what is read, and the faults of what isn't in its form.
mod faults;
mod orders;
mod texts;

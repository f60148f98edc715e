mod boots;
mod changes;
mod faults;
mod files;
mod programs;

//! The words that harts run before and beside their templates: dispatcher, boot block and trap handlers.
#![tactic(auto)]

mod block;
mod entry;
mod layout;
mod spelling;
mod start;
#[cfg(test)]
mod tests;
mod trap;

pub use block::boot_block;
pub use entry::{BOOT_STEPS, dispatcher};
pub use layout::{
    DISPATCHER_AT, M_HANDLER_AT, S_HANDLER_AT, boot_block_at, boot_csrs_at, boot_registers_at,
    code_start,
};
pub use spelling::mret;
pub use start::{BootValues, boot_values, start_csrs};
pub use trap::handler;

//! The library for C: worlds that are driven event by event, and sheets that threads share. `include/dsheet.h` declares
//! each call.
#![tactic(auto)]

mod answer;
mod answer_kind;
mod calls;
mod closed;
mod closed_calls;
mod events;
mod failure;
mod handle;
mod held;
mod holder;
mod laws;
mod make;
mod reads;
mod rows;
mod seat_calls;
mod seats;
mod sheet_calls;
mod sheets;
mod shown;
mod tell;
mod whole;

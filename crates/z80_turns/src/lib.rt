//! This crate exists only for speed. It has a function for each common form of a documented instruction, in which the registers are
//! constants. The function makes the step: it moves PC to the next instruction and carries out this one. `execute` of `z80_cpu` carries
//! out any instruction, but has to find out first which one it is. `z80_machine` chooses the function.
#![tactic(auto)]

mod accumulator;
mod bits;
mod control;
mod counts;
mod extended;
mod indexed;
mod indexed_bits;
mod jumps;
mod loads;
mod numbers;
mod operations;
pub mod outcome;
mod words;

pub use accumulator::{
    turn_adjust, turn_complement, turn_complement_carry, turn_rla, turn_rlca, turn_rra, turn_rrca,
    turn_set_carry,
};
pub use bits::{
    turn_bit, turn_bit_at_hl, turn_reset, turn_reset_at_hl, turn_rotate, turn_rotate_at_hl,
    turn_set, turn_set_at_hl,
};
pub use control::{
    turn_disable, turn_enable, turn_exchange_af, turn_exchange_de_hl, turn_exchange_others,
    turn_exchange_top, turn_halt, turn_input, turn_nop, turn_output,
};
pub use counts::{turn_decrement, turn_decrement_at_hl, turn_increment, turn_increment_at_hl};
pub use extended::{
    turn_add_pair_with_carry, turn_behind_prefix, turn_block, turn_load_pair_from, turn_negate,
    turn_rotate_digits_left, turn_rotate_digits_right, turn_store_pair,
    turn_subtract_pair_with_carry,
};
pub use indexed::{
    turn_add_index, turn_decrement_index, turn_decrement_indexed, turn_exchange_index,
    turn_increment_index, turn_increment_indexed, turn_jump_index, turn_load_byte_indexed,
    turn_load_index, turn_load_index_from, turn_load_indexed, turn_load_sp, turn_operate_indexed,
    turn_pop_index, turn_push_index, turn_store_index, turn_store_indexed,
};
pub use indexed_bits::{
    turn_bit_indexed, turn_reset_indexed, turn_rotate_indexed, turn_set_indexed,
};
pub use jumps::{
    turn_call, turn_call_if, turn_djnz, turn_jump, turn_jump_hl, turn_jump_if, turn_jump_relative,
    turn_jump_relative_if, turn_restart, turn_ret, turn_ret_if,
};
pub use loads::{
    turn_load, turn_load_a, turn_load_a_at, turn_load_at_hl, turn_load_byte, turn_load_byte_at_hl,
    turn_store, turn_store_a, turn_store_a_at,
};
pub use numbers::{fourth_byte, next_byte};
pub use operations::{turn_operate, turn_operate_at_hl, turn_operate_byte};
pub use words::{
    turn_add_hl, turn_decrement_word, turn_increment_word, turn_load_hl, turn_load_sp_hl,
    turn_load_word, turn_pop, turn_push, turn_store_hl,
};

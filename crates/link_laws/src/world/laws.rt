//! What follows from the definitions. Each function does nothing: what counts is its contract. The rows are scripts with
//! what is told of their runs.
ghost use Rattle.std.specs.Prelude.{◌≡◌};
ghost use Rattle.link_laws.specs.world.Rows.{IsRow, channel_closed, chat_called, completion_told_again, completions_lost, confirmation_lost, echo_called, idle_channel_closed, last_piece_lost, nothing_left_to_read, nothing_to_read, nothing_to_write, piece_damaged, piece_swapped, read_and_written, read_without_what_was_left, request_repeated, response_kept_back, response_lost, small_window, span_shrinks, start_always_lost, start_lost_thrice, start_repeated, sum_called, whole_read, whole_write, write_resumed, written_and_not_listed};

use crate::world::{MAX_DELIVERIES, TURN_OF_TIME};

/// The numbers of a world.
pub fn numbers_of_a_world()
    ensures deliveries { MAX_DELIVERIES ≡ 200000 }
    ensures time { TURN_OF_TIME ≡ 2000 }
{}

/// Reads of a resource, whole and over links that lose.
pub fn rows_of_reads()
    ensures whole { IsRow whole_read }
    ensures empty { IsRow nothing_left_to_read }
    ensures from_start { IsRow read_without_what_was_left }
    ensures small_window { IsRow small_window }
    ensures last_lost { IsRow last_piece_lost }
    ensures start_repeated { IsRow start_repeated }
    ensures swapped { IsRow piece_swapped }
    ensures damaged { IsRow piece_damaged }
    ensures start_lost { IsRow start_lost_thrice }
    ensures given_up { IsRow start_always_lost }
    ensures span { IsRow span_shrinks }
    ensures not_found { IsRow nothing_to_read }
{}

/// Writes of a resource.
pub fn rows_of_writes()
    ensures whole { IsRow whole_write }
    ensures resumed { IsRow write_resumed }
    ensures confirmation_lost { IsRow confirmation_lost }
    ensures completions_lost { IsRow completions_lost }
    ensures not_found { IsRow nothing_to_write }
    ensures read_before { IsRow read_and_written }
    ensures not_listed { IsRow written_and_not_listed }
    ensures told_again { IsRow completion_told_again }
{}

/// Calls of `demo.Demo`.
pub fn rows_of_calls()
    ensures echo { IsRow echo_called }
    ensures sum { IsRow sum_called }
    ensures chat { IsRow chat_called }
    ensures repeated { IsRow request_repeated }
    ensures cancelled { IsRow response_lost }
    ensures kept_back { IsRow response_kept_back }
{}

/// The closing of a channel.
pub fn rows_of_channels()
    ensures closed { IsRow channel_closed }
    ensures idle { IsRow idle_channel_closed }
{}
